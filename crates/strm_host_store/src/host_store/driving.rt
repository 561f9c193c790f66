//! Drive rounds, and the turn of one stream: a host end that has an open read or write to serve has its turn, and a pipe
//! its round.
//!
//! Meaning: `Calls.antt`, and `Driving.antt` of `strm_host_machine`. Ours: wasmtime's event loop polls the futures of
//! its host ends.

ghost use Rattle.std.specs.Prelude.{◌≡◌, ◌<◌, length};
ghost use Rattle.strm_machine.specs.State.{stream_at};
ghost use Rattle.strm_machine.specs.Sides.{opposite, end_of};
ghost use Rattle.strm_machine.specs.declared.acts.Act.TheVariants.{Drive};
ghost use Rattle.strm_machine.specs.declared.replies.Reply.TheVariants as replies;
ghost use Rattle.strm_transmit.specs.Meets.{as_reply};
ghost use Rattle.strm_host_store.specs.Calls.{PollsAmong, all_forgotten, host_number, TurnsAmong, DrivesStream};

use crate::errors::DriveError;
use crate::host_store::HostStore;
use strm_machine::streams::Side;
use strm_transmit::errors::StoreError;

impl HostStore {
    /// Gives each host end that has an open read or write to serve its turn, and each pipe from a host writer to a host
    /// reader its round, by the streams' numbers. A guest whose read or write is settled by it is told by its event. It
    /// looks at every host end: `drive_stream` is for a host that knows which stream to go on with.
    pub fn drive(&mut self) -> Result<(), StoreError>
        ensures polls { PollsAmong self.old self.new (as_reply (λ _. replies.Done) result) Drive
            all_forgotten }
    {
        let answer = self.store.drive_once(&mut self.ends);
        self.ends.forget_all();
        answer
    }

    /// The same of one stream alone, as after a feed or a grant: its host end has its turn, if it has an open read or
    /// write to serve, and a pipe its round. Of a stream that no host end serves nothing changes. It looks at no other
    /// stream. StoreTrapped; UnknownStream (no stream got the number yet).
    pub fn drive_stream(&mut self, stream: u32) -> Result<(), DriveError>
        ensures drives { DrivesStream self.old self.new stream result }
    {
        if self.store.trapped() {
            return Err(DriveError::StoreTrapped);
        }
        if stream >= self.store.streams() {
            return Err(DriveError::UnknownStream);
        }
        match self.turn(stream) {
            Ok(()) => Ok(()),
            Err(error) => Err(DriveError::Stopped(error)),
        }
    }

    // The turn of a stream that was made.
    fn turn(&mut self, stream: u32) -> Result<(), StoreError>
        requires { stream < length self.old.state.streams }
        ensures turns { TurnsAmong self.old self.new stream result }
    {
        let writer = self.host_on(Side::Reading, stream);
        let reader = self.host_on(Side::Writing, stream);
        let answer = self.store.drive_stream(&mut self.ends, stream);
        self.ends.forget_pair(writer, reader);
        answer
    }

    // The host end that has the end of a stream across from the one on a side, if one has it.
    #[tactic(auto, using(crate::proofs::TurnLemmas::number_of_owner))]
    fn host_on(&self, side: Side, stream: u32) -> Option<u32>
        requires { stream < length self.now.state.streams }
        ensures { result
            ≡ host_number (end_of (opposite side) (stream_at self.now.state stream)).owner }
    {
        self.store.host_across(side, stream)
    }
}

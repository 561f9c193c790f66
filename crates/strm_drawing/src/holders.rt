//! Who has the ends of each stream, by what the steps of a run gave to whom.
//!
//! Meaning: `Holders.antt`. Ours.

ghost use Rattle.std.specs.Prelude.{◌≡◌, ◌∷◌, ◌++◌, [], slice_set, OnOk, OnErr};
ghost use Rattle.strm_drawing.specs.Holders.{holders_at, with_reader, moved_to, holders_after};

use crate::arrows::Lane;
use std::alloc::Global;
use std::marker::Model;
use strm_codes::counts::OutOfMemory;
use strm_machine::replies::Reply;
use strm_machine::steps::Step;
use strm_machine::streams::Side;
use strm_transmit::store::queries::EndInfo;

/// Who has the two ends of a stream, or had one that is gone.
#[derive(Clone, Copy)]
pub(crate) struct Holders {
    pub writer: Lane,
    pub reader: Lane,
}

// Of a stream that was not made.
const NO_HOLDERS: Holders = Holders {
    writer: Lane::Nobody,
    reader: Lane::Nobody,
};

/// The holders of the streams that were made, by the streams' numbers.
#[derive(Drop)]
pub(crate) struct AllHolders {
    items: Vec<Holders>,
}

impl Model for AllHolders {
    ghost use Rattle.std.specs.Prelude.{List};
    ghost use Rattle.strm_drawing.specs.declared.holders.Holders.{Holders};

    ghost Value = { List Holders };

    ghost view = { λ s. s.items.items };
}

impl AllHolders {
    /// Of no streams.
    pub(crate) fn new(alloc: Global) -> AllHolders
        ensures { result ≡ [] }
    {
        AllHolders {
            items: Vec::new(alloc),
        }
    }

    /// Who has the ends of a stream.
    pub(crate) fn of(&self, stream: u32) -> Holders
        ensures { result ≡ holders_at self.now stream }
    {
        if (stream as usize) < self.items.len() {
            self.items[stream as usize]
        } else {
            NO_HOLDERS
        }
    }

    // A stream was made, whose ends these have.
    fn add(&mut self, writer: Lane, reader: Lane) -> Result<(), OutOfMemory>
        ensures ok { OnOk result
            (self.new ≡ self.old ++ record { writer = writer; reader = reader } ∷ []) }
        ensures err { OnErr result (self.new ≡ self.old) }
    {
        self.items.reserve(1)?;
        self.items.push_reserved(Holders { writer, reader });
        Ok(())
    }

    // The read end of a stream goes to somebody.
    fn set_reader(&mut self, stream: u32, lane: Lane)
        ensures { self.new ≡ with_reader self.old stream lane }
    {
        let holders = Holders {
            reader: lane,
            ..self.of(stream)
        };
        self.set(stream, holders);
    }

    // Others have the ends of a stream, if it was made.
    fn set(&mut self, stream: u32, holders: Holders)
        ensures { self.new ≡ slice_set self.old stream holders }
    {
        if (stream as usize) < self.items.len() {
            self.items[stream as usize] = holders;
        }
    }

    // The end that was named goes to somebody.
    fn move_end(&mut self, named: &Option<EndInfo>, lane: Lane)
        ensures { self.new ≡ moved_to self.old named.now lane }
    {
        if let Some(end) = named {
            let before = self.of(end.stream);
            let after = match end.side {
                Side::Writing => Holders {
                    writer: lane,
                    ..before
                },
                Side::Reading => Holders {
                    reader: lane,
                    ..before
                },
            };
            self.set(end.stream, after);
        }
    }

    /// What a step that was answered so gave to whom.
    pub(crate) fn go_on(
        &mut self,
        named: &Option<EndInfo>,
        step: &Step,
        reply: &Reply,
    ) -> Result<(), OutOfMemory>
        ensures ok { OnOk result (self.new ≡ holders_after self.old named.now step.now reply.now) }
    {
        match (step, reply) {
            (Step::New { guest, .. }, Reply::Pair(_)) => {
                self.add(Lane::Guest(*guest), Lane::Guest(*guest))
            }
            (Step::Between { writer, reader, .. }, Reply::Pair(_)) => {
                self.add(Lane::Guest(*writer), Lane::Guest(*reader))
            }
            (Step::HostNew { host }, Reply::Number(_)) => {
                self.add(Lane::Writer(*host), Lane::Nobody)
            }
            (Step::Move { to, .. }, Reply::Number(_)) => {
                self.move_end(named, Lane::Guest(*to));
                Ok(())
            }
            (Step::Lift { .. }, Reply::Number(stream)) => {
                self.set_reader(*stream, Lane::Nobody);
                Ok(())
            }
            (Step::Lower { reader, guest, .. }, Reply::Number(_)) => {
                self.set_reader(*reader, Lane::Guest(*guest));
                Ok(())
            }
            (Step::Pipe { reader, host }, Reply::Done) => {
                self.set_reader(*reader, Lane::Reader(*host));
                Ok(())
            }
            _ => Ok(()),
        }
    }
}

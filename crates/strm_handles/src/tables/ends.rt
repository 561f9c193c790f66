//! The ends of streams and futures in a handle table.
//!
//! Source: wasmtime, `handle_table.rs`; setting a state is ours, where wasmtime lends the state.

ghost use Rattle.std.specs.Prelude.{◌≡◌, ◌+◌, ◌≤◌, IsSome, IsOk, Ok, Err, IfOk, IfErr, OnOk, OnErr};
ghost use Rattle.std.specs.Result.{ForOk};
ghost use Rattle.strm_handles.specs.Handles.{entry_at, removed, with_entry, live_of};
ghost use Rattle.strm_handles.specs.Changes.{Inserts, Removes};
ghost use Rattle.strm_handles.specs.Counters.{uncounted};
ghost use Rattle.strm_handles.specs.Lookups.{stream_end_of, future_end_of, stream_rep_of, future_rep_of, end_rep_of};
ghost use Rattle.strm_handles.specs.Ends.{read_end, write_end, is_reading, without_value, stream_readable_of, stream_writable_of, future_readable_of, future_writable_of};

use crate::counters::HandleCounter;
use crate::entries::{Entry, TransmitEnd, TransmitLocalState};
use crate::errors::HandleError;
use crate::tables::HandleTable;
use strm_codes::payloads::Payload;

impl HandleTable {
    /// Adds the read end of a stream of this payload, idle and not done.
    #[inline(always)]
    pub fn stream_insert_read(
        &mut self,
        counter: &mut HandleCounter,
        ty: Payload,
        rep: u32,
    ) -> Result<u32, HandleError>
        ensures { Inserts self.old self.new counter.old counter.new
            (Entry.Stream (read_end ty rep)) result }
    {
        self.insert(counter, Entry::Stream(TransmitEnd::read(ty, rep)))
    }

    /// Adds the write end of a stream of this payload, idle and not done.
    #[inline(always)]
    pub fn stream_insert_write(
        &mut self,
        counter: &mut HandleCounter,
        ty: Payload,
        rep: u32,
    ) -> Result<u32, HandleError>
        ensures { Inserts self.old self.new counter.old counter.new
            (Entry.Stream (write_end ty rep)) result }
    {
        self.insert(counter, Entry::Stream(TransmitEnd::write(ty, rep)))
    }

    /// Adds the read end of a future of this payload, idle and not done.
    #[inline(always)]
    pub fn future_insert_read(
        &mut self,
        counter: &mut HandleCounter,
        ty: Payload,
        rep: u32,
    ) -> Result<u32, HandleError>
        ensures { Inserts self.old self.new counter.old counter.new
            (Entry.Future (read_end ty rep)) result }
    {
        self.insert(counter, Entry::Future(TransmitEnd::read(ty, rep)))
    }

    /// Adds the write end of a future of this payload, idle and not done.
    #[inline(always)]
    pub fn future_insert_write(
        &mut self,
        counter: &mut HandleCounter,
        ty: Payload,
        rep: u32,
    ) -> Result<u32, HandleError>
        ensures { Inserts self.old self.new counter.old counter.new
            (Entry.Future (write_end ty rep)) result }
    {
        self.insert(counter, Entry::Future(TransmitEnd::write(ty, rep)))
    }

    #[inline(always)]
    fn stream(&self, ty: &Payload, idx: u32) -> Result<&TransmitEnd, HandleError>
        ensures ok { IfOk result (λ end. stream_end_of self.now.handles ty.now idx ≡ Ok end.now) }
        ensures err { IfErr result (λ e. stream_end_of self.now.handles ty.now idx ≡ Err e) }
        ensures here { OnOk result (IsSome (entry_at self.now.handles idx)) }
    {
        match self.slots.get(idx) {
            Some(Entry::Stream(end)) => end.typed(ty),
            Some(_) => Err(HandleError::WrongKind),
            None => Err(HandleError::UnknownHandle),
        }
    }

    #[inline(always)]
    fn future(&self, ty: &Payload, idx: u32) -> Result<&TransmitEnd, HandleError>
        ensures ok { IfOk result (λ end. future_end_of self.now.handles ty.now idx ≡ Ok end.now) }
        ensures err { IfErr result (λ e. future_end_of self.now.handles ty.now idx ≡ Err e) }
        ensures here { OnOk result (IsSome (entry_at self.now.handles idx)) }
    {
        match self.slots.get(idx) {
            Some(Entry::Future(end)) => end.typed(ty),
            Some(_) => Err(HandleError::WrongKind),
            None => Err(HandleError::UnknownHandle),
        }
    }

    /// The number of a stream, and the state of its end.
    #[inline(always)]
    pub fn stream_rep(
        &self,
        ty: Payload,
        idx: u32,
    ) -> Result<(u32, TransmitLocalState), HandleError>
        ensures { result ≡ stream_rep_of self.now.handles ty idx }
    {
        let end = self.stream(&ty, idx)?;
        Ok((end.rep, end.state))
    }

    /// The number of a future, and the state of its end.
    #[inline(always)]
    pub fn future_rep(
        &self,
        ty: Payload,
        idx: u32,
    ) -> Result<(u32, TransmitLocalState), HandleError>
        ensures { result ≡ future_rep_of self.now.handles ty idx }
    {
        let end = self.future(&ty, idx)?;
        Ok((end.rep, end.state))
    }

    /// The number of a stream or future, whatever its payload, and the state of its end. Ours.
    #[inline(always)]
    pub fn end_rep(&self, idx: u32) -> Result<(u32, TransmitLocalState), HandleError>
        ensures { result ≡ end_rep_of self.now.handles idx }
    {
        match self.slots.get(idx) {
            Some(Entry::Stream(end)) => Ok((end.rep, end.state)),
            Some(Entry::Future(end)) => Ok((end.rep, end.state)),
            Some(_) => Err(HandleError::WrongKind),
            None => Err(HandleError::UnknownHandle),
        }
    }

    /// Sets the state of a stream's end. Ours.
    pub fn stream_set_state(
        &mut self,
        ty: Payload,
        idx: u32,
        state: TransmitLocalState,
    ) -> Result<(), HandleError>
        requires { ForOk (stream_end_of self.old.handles ty idx)
            (λ end. is_reading state ≡ is_reading end.state) }
        ensures answer { result ≡ without_value (stream_end_of self.old.handles ty idx) }
        ensures ok { IfOk (stream_end_of self.old.handles ty idx) (λ end. self.new.handles
            ≡ with_entry self.old.handles idx (Entry.Stream (record end { state = state }))) }
        ensures room { self.new.room ≡ self.old.room }
        ensures err { OnErr result (self.new ≡ self.old) }
    {
        let end = TransmitEnd {
            state,
            ..*self.stream(&ty, idx)?
        };
        self.change(idx, Entry::Stream(end));
        Ok(())
    }

    /// Sets the state of a future's end. Ours.
    pub fn future_set_state(
        &mut self,
        ty: Payload,
        idx: u32,
        state: TransmitLocalState,
    ) -> Result<(), HandleError>
        requires { ForOk (future_end_of self.old.handles ty idx)
            (λ end. is_reading state ≡ is_reading end.state) }
        ensures answer { result ≡ without_value (future_end_of self.old.handles ty idx) }
        ensures ok { IfOk (future_end_of self.old.handles ty idx) (λ end. self.new.handles
            ≡ with_entry self.old.handles idx (Entry.Future (record end { state = state }))) }
        ensures room { self.new.room ≡ self.old.room }
        ensures err { OnErr result (self.new ≡ self.old) }
    {
        let end = TransmitEnd {
            state,
            ..*self.future(&ty, idx)?
        };
        self.change(idx, Entry::Future(end));
        Ok(())
    }

    /// Removes the idle read end of a stream: its number, and whether the end is done.
    pub fn stream_remove_readable(
        &mut self,
        counter: &mut HandleCounter,
        ty: Payload,
        idx: u32,
    ) -> Result<(u32, bool), HandleError>
        requires { live_of self.old.handles ≤ counter.old.live }
        ensures answer { result ≡ stream_readable_of self.old.handles ty idx }
        ensures removes { Removes self.old self.new counter.old counter.new idx result }
    {
        let end = self.stream(&ty, idx)?;
        let (rep, done) = (end.rep, end.state.readable()?);
        self.remove(counter, idx);
        Ok((rep, done))
    }

    /// Removes the idle write end of a stream: its number.
    pub fn stream_remove_writable(
        &mut self,
        counter: &mut HandleCounter,
        ty: Payload,
        idx: u32,
    ) -> Result<u32, HandleError>
        requires { live_of self.old.handles ≤ counter.old.live }
        ensures answer { result ≡ stream_writable_of self.old.handles ty idx }
        ensures removes { Removes self.old self.new counter.old counter.new idx result }
    {
        let end = self.stream(&ty, idx)?;
        let rep = end.rep;
        end.state.writable()?;
        self.remove(counter, idx);
        Ok(rep)
    }

    /// Removes the idle read end of a future: its number, and whether the end is done.
    pub fn future_remove_readable(
        &mut self,
        counter: &mut HandleCounter,
        ty: Payload,
        idx: u32,
    ) -> Result<(u32, bool), HandleError>
        requires { live_of self.old.handles ≤ counter.old.live }
        ensures answer { result ≡ future_readable_of self.old.handles ty idx }
        ensures removes { Removes self.old self.new counter.old counter.new idx result }
    {
        let end = self.future(&ty, idx)?;
        let (rep, done) = (end.rep, end.state.readable()?);
        self.remove(counter, idx);
        Ok((rep, done))
    }

    /// Removes the idle write end of a future: its number, and whether the end is done.
    pub fn future_remove_writable(
        &mut self,
        counter: &mut HandleCounter,
        ty: Payload,
        idx: u32,
    ) -> Result<(u32, bool), HandleError>
        requires { live_of self.old.handles ≤ counter.old.live }
        ensures answer { result ≡ future_writable_of self.old.handles ty idx }
        ensures removes { Removes self.old self.new counter.old counter.new idx result }
    {
        let end = self.future(&ty, idx)?;
        let (rep, done) = (end.rep, end.state.writable()?);
        self.remove(counter, idx);
        Ok((rep, done))
    }

    /// Removes an end of a stream or future, whatever its payload and its state, which `end_rep` tells. Ours.
    #[inline(always)]
    pub fn end_remove(&mut self, counter: &mut HandleCounter, idx: u32)
        requires end { IsOk (end_rep_of self.old.handles idx) }
        requires live { live_of self.old.handles ≤ counter.old.live }
        ensures handles { self.new.handles ≡ removed self.old.handles idx }
        ensures room { self.new.room ≡ self.old.room + 1 }
        ensures live { counter.new ≡ uncounted counter.old }
    {
        self.slots.remove(counter, idx);
        self.ends -= 1;
    }
}

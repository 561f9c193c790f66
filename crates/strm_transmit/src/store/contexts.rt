//! Error contexts: made, told, transferred, dropped and lowered.
//!
//! Meaning: `ErrorContexts.antt` of `strm_machine`, and `on_context` and `lowers_context` of its
//! `Reactions.antt`. Source: Canonical ABI, `canon error-context.{new,debug-message,drop}`; wasmtime,
//! `error_context_transfer` and `lower_error_context`. Ours: a message is kept and told whole.

ghost use Rattle.std.specs.Prelude.{◌≡◌, ◌≢◌, ◌<◌, ◌≤◌, ◌∷◌, ◌++◌, [], false, length, Err, None, IfErr, IfOk};
ghost use Rattle.strm_codes.specs.declared.refusals.Refusal.TheVariants as refusals;
ghost use Rattle.strm_error_contexts.specs.Contexts.{message_at};
ghost use Rattle.strm_machine.specs.Tests.{are_bytes_out_of_bounds, are_places_full};
ghost use Rattle.strm_machine.specs.ErrorContexts.{context_named, context_number, is_message_too_long, is_bad_text, bytes_of_message, message_limit, without_context_handle};
ghost use Rattle.strm_machine.specs.Refusals.{where_, refusal, first_of, slot_reasons, context_reasons, handle_more_reasons, lower_context_reasons};
ghost use Rattle.strm_machine.specs.Reactions.{goes, texts, shares, performs, react, lowers_context};
ghost use Rattle.strm_machine.specs.Soundness.{IsSound};
ghost use Rattle.strm_machine.specs.declared.acts.Act.TheVariants.{Make, OnContext};
ghost use Rattle.strm_machine.specs.declared.acts.Making.TheVariants.{Context};
ghost use Rattle.strm_machine.specs.declared.acts.ContextAct.TheVariants.{Text, Move, Drop};
ghost use Rattle.strm_machine.specs.declared.replies.Reply.TheVariants as replies;
ghost use Rattle.strm_machine.specs.declared.steps.Step.TheVariants as steps;
ghost use Rattle.strm_machine.proofs.ContextStepLemmas.{ShareFits};
ghost use Rattle.strm_machine.proofs.NameLemmas.{IsEndError};
ghost use Rattle.strm_transmit.specs.Meets.{Meets, as_reply, admitted, or_found};
ghost use Rattle.strm_transmit.specs.Hosted.{StillFits};

use crate::errors::StoreError;
use crate::store::Store;
use crate::store::refusals::refusal_of;
use strm_channels::contexts::{give_context, message, remove_context, share_context, tell_message};
use strm_channels::guests::read_bytes;
use strm_codes::refusals::Refusal;
use strm_error_contexts::messages::message_of;
use strm_handles::entries::MAX_HANDLE;
use strm_handles::errors::HandleError;

/// The longest message, in bytes.
const LONGEST_MESSAGE: u32 = 4_096;

impl Store {
    // What a guest's table answers for the handle of an error context.
    fn context_name(&self, guest: u32, handle: u32) -> Result<u32, HandleError>
        requires { guest < length self.now.guests }
        ensures answer { result ≡ context_named self.now guest handle }
        ensures others { IfErr result IsEndError }
    {
        self.guests[guest as usize].table.error_context_rep(handle)
    }

    // The same as a refusal or the number of the error context.
    fn slot_found(&self, guest: u32, handle: u32) -> Result<u32, Refusal>
        requires { guest < length self.now.guests }
        ensures { result ≡ or_found (first_of (slot_reasons (context_named self.now guest handle)))
            (context_number self.now guest handle) }
    {
        match self.context_name(guest, handle) {
            Ok(context) => Ok(context),
            Err(error) => Err(refusal_of(error)),
        }
    }

    // The number of the error context that a handle of a guest names.
    fn context_found(&self, guest: u32, handle: u32) -> Result<u32, Refusal>
        ensures exact { result ≡ or_found (first_of (context_reasons self.now guest handle))
            (context_number self.now guest handle) }
        ensures there { IfOk result (λ _. guest < length self.now.guests) }
    {
        if self.is_unknown_guest(guest) {
            return Err(Refusal::UnknownGuest);
        }
        self.slot_found(guest, handle)
    }

    // Why a guest may not have a handle more.
    pub(crate) fn handle_more_refusal(&self, guest: u32) -> Option<Refusal>
        requires { guest < length self.now.guests }
        ensures { result ≡ first_of (handle_more_reasons self.now guest) }
    {
        if self.guests[guest as usize].table.next_index() >= MAX_HANDLE {
            return Some(Refusal::IndexOverflow);
        }
        if self.are_handles_full(1) {
            return Some(Refusal::HandleLimit);
        }
        None
    }

    // Why a guest may not have a handle more of what takes a place.
    pub(crate) fn placed_refusal(&self, guest: u32) -> Option<Refusal>
        requires { guest < length self.now.guests }
        ensures { result ≡ first_of (handle_more_reasons self.now guest
            ++ where_ (are_places_full self.now 1) refusals.Full ∷ []) }
    {
        if let Some(refusal) = self.handle_more_refusal(guest) {
            return Some(refusal);
        }
        if self.are_places_full(1) {
            return Some(Refusal::Full);
        }
        None
    }

    // Whether so many bytes pass the end of a guest's memory.
    pub(crate) fn is_outside(&self, guest: u32, address: u32, count: usize) -> bool
        requires { guest < length self.now.guests }
        ensures { result ≡ are_bytes_out_of_bounds self.now guest address count }
    {
        let size = self.guests[guest as usize].memory.bytes().len() as u128;
        count > 0 && size < u128::from(address) + count as u128
    }

    // Whether bytes of a guest's memory are no text.
    fn is_bad_text(&self, guest: u32, address: u32, len: u32) -> bool
        requires there { guest < length self.now.guests }
        requires inside { are_bytes_out_of_bounds self.now guest address len ≡ false }
        ensures { result ≡ is_bad_text self.now guest address len }
    {
        message_of(read_bytes(&self.guests, guest as usize, address, len)).is_err()
    }

    // Why bytes of a guest's memory are no message.
    fn message_refusal(&self, guest: u32, address: u32, len: u32) -> Option<Refusal>
        requires { guest < length self.now.guests }
        ensures { result ≡ first_of (
            where_ (is_message_too_long len) refusals.MessageTooLong
            ∷ where_ (are_bytes_out_of_bounds self.now guest address len) refusals.OutOfBounds
            ∷ where_ (is_bad_text self.now guest address len) refusals.BadText
            ∷ []) }
    {
        if len > LONGEST_MESSAGE {
            return Some(Refusal::MessageTooLong);
        }
        if self.is_outside(guest, address, len as usize) {
            return Some(Refusal::OutOfBounds);
        }
        if self.is_bad_text(guest, address, len) {
            return Some(Refusal::BadText);
        }
        None
    }

    // Whether a guest may have an error context more, with this message.
    #[tactic(auto, unfolding(strm_machine::specs::Refusals::refusal))]
    fn context_fits(&self, guest: u32, address: u32, len: u32) -> Result<(), Refusal>
        ensures { result ≡ or_found (refusal self.now (Make (Context guest address len))) tt }
    {
        if self.is_unknown_guest(guest) {
            return Err(Refusal::UnknownGuest);
        }
        if let Some(refusal) = self.message_refusal(guest, address, len) {
            return Err(refusal);
        }
        match self.placed_refusal(guest) {
            Some(refusal) => Err(refusal),
            None => Ok(()),
        }
    }

    // An error context more. After running out of memory nothing has changed.
    #[tactic(auto, unfolding(strm_machine::specs::Reactions::performs))]
    fn make_context(&mut self, guest: u32, address: u32, len: u32) -> Result<u32, StoreError>
        requires { refusal self.old (Make (Context guest address len)) ≡ None }
        ensures { Meets self.old self.new (as_reply replies.Number result)
            (performs self.old (Make (Context guest address len))) }
    {
        let (guests, contexts, counter) = (&mut self.guests, &mut self.contexts, &mut self.counter);
        Ok(give_context(guests, contexts, counter, guest as usize, address, len)?)
    }

    /// An error context of a guest, whose message is so many bytes of its memory from `address` on: the
    /// answer is its handle. `canon error-context.new`. Refused: UnknownGuest, MessageTooLong (more
    /// than 4,096 bytes), OutOfBounds, BadText (no UTF-8), IndexOverflow, HandleLimit, Full.
    /// OutOfMemory.
    pub fn error_context_new(
        &mut self,
        guest: u32,
        address: u32,
        len: u32,
    ) -> Result<u32, StoreError>
        ensures meets { Meets self.old self.new (as_reply replies.Number result)
            (react self.old (steps.ErrNew guest address len)) }
        ensures fits { StillFits self.old self.new }
    {
        self.admit(self.context_fits(guest, address, len))?;
        self.make_context(guest, address, len)
    }

    // How many bytes the message of an error context has.
    fn message_len(&self, context: u32) -> u32
        ensures len { result ≡ length (bytes_of_message (message_at self.now.contexts context)) }
        ensures short { result ≤ message_limit }
    {
        message(&self.contexts, context).len() as u32
    }

    // The number of the error context whose message may be told.
    #[tactic(auto, unfolding(strm_machine::specs::Refusals::refusal))]
    fn text_found(&self, guest: u32, handle: u32, address: u32) -> Result<u32, Refusal>
        ensures { result ≡ or_found (refusal self.now (OnContext guest handle (Text address)))
            (context_number self.now guest handle) }
    {
        let context = self.context_found(guest, handle)?;
        if self.is_outside(guest, address, self.message_len(context) as usize) {
            return Err(Refusal::OutOfBounds);
        }
        Ok(context)
    }

    // The message of an error context is put into the memory of a guest that has a handle to it.
    fn tell_context(&mut self, guest: u32, handle: u32, address: u32, context: u32) -> u32
        requires may { refusal self.old (OnContext guest handle (Text address)) ≡ None }
        requires context { context ≡ context_number self.old guest handle }
        ensures { texts self.old guest handle address ≡ goes (replies.Number result) self.new }
    {
        tell_message(
            &mut self.guests,
            &self.contexts,
            guest as usize,
            address,
            context,
        )
    }

    /// Puts the message of the error context that a handle names into the guest's memory, from
    /// `address` on: the answer is how many bytes it has. `canon error-context.debug-message`. Refused:
    /// UnknownGuest, UnknownHandle, WrongKind, OutOfBounds.
    pub fn error_context_message(
        &mut self,
        guest: u32,
        handle: u32,
        address: u32,
    ) -> Result<u32, StoreError>
        ensures meets { Meets self.old self.new (as_reply replies.Number result)
            (react self.old (steps.ErrText guest handle address)) }
        ensures fits { StillFits self.old self.new }
        ensures takes_no_memory { result ≢ Err StoreError.OutOfMemory }
    {
        let context = self.admit(self.text_found(guest, handle, address))?;
        Ok(self.tell_context(guest, handle, address, context))
    }

    // The number of the error context that a handle of a guest names, where another guest may have a
    // handle to it too.
    #[tactic(auto, unfolding(strm_machine::specs::Refusals::refusal))]
    fn transfer_found(&self, guest: u32, handle: u32, to: u32) -> Result<u32, Refusal>
        ensures { result ≡ or_found (refusal self.now (OnContext guest handle (Move to)))
            (context_number self.now guest handle) }
    {
        if self.is_unknown_guest(guest) || self.is_unknown_guest(to) {
            return Err(Refusal::UnknownGuest);
        }
        let context = self.slot_found(guest, handle)?;
        match self.handle_more_refusal(to) {
            Some(refusal) => Err(refusal),
            None => Ok(context),
        }
    }

    // What a handle names is there.
    #[inline(always)]
    pub(crate) fn sound(&self)
        ensures { IsSound self.now }
    {
        let _ = &self.contexts;
    }

    // A handle more of a guest to an error context. After running out of memory nothing has changed.
    fn share(&mut self, context: u32, guest: u32) -> Result<u32, StoreError>
        requires { ShareFits self.old context guest }
        ensures { Meets self.old self.new (as_reply replies.Number result)
            (shares self.old context guest) }
    {
        let (guests, contexts, counter) = (&mut self.guests, &mut self.contexts, &mut self.counter);
        Ok(share_context(guests, contexts, counter, guest as usize, context)?)
    }

    /// Gives another guest, or the same, a handle to the error context that a handle names, which
    /// stays: the answer is the new one. Refused: UnknownGuest (either), UnknownHandle, WrongKind,
    /// IndexOverflow, HandleLimit. OutOfMemory.
    pub fn error_context_transfer(
        &mut self,
        guest: u32,
        handle: u32,
        to: u32,
    ) -> Result<u32, StoreError>
        ensures meets { Meets self.old self.new (as_reply replies.Number result)
            (react self.old (steps.ErrMove guest handle to)) }
        ensures fits { StillFits self.old self.new }
    {
        self.sound();
        let context = self.admit(self.transfer_found(guest, handle, to))?;
        self.share(context, to)
    }

    // The number of the error context whose handle may be dropped.
    #[tactic(auto, unfolding(strm_machine::specs::Refusals::refusal))]
    fn context_drop_found(&self, guest: u32, handle: u32) -> Result<u32, Refusal>
        ensures { result ≡ or_found (refusal self.now (OnContext guest handle Drop))
            (context_number self.now guest handle) }
    {
        self.context_found(guest, handle)
    }

    // A guest's handle to an error context is freed, which goes with its last one.
    pub(crate) fn drop_context(&mut self, guest: u32, handle: u32, context: u32)
        requires may { refusal self.old (OnContext guest handle Drop) ≡ None }
        requires context { context ≡ context_number self.old guest handle }
        ensures { self.new ≡ without_context_handle self.old guest handle }
    {
        let (guests, contexts, counter) = (&mut self.guests, &mut self.contexts, &mut self.counter);
        remove_context(guests, contexts, counter, guest as usize, handle, context);
    }

    /// Drops a handle to an error context, and the error context with its last one.
    /// `canon error-context.drop`. Refused: UnknownGuest, UnknownHandle, WrongKind.
    pub fn error_context_drop(&mut self, guest: u32, handle: u32) -> Result<(), StoreError>
        ensures meets { Meets self.old self.new (as_reply (λ _. replies.Done) result)
            (react self.old (steps.ErrDrop guest handle)) }
        ensures fits { StillFits self.old self.new }
        ensures takes_no_memory { result ≢ Err StoreError.OutOfMemory }
    {
        let context = self.admit(self.context_drop_found(guest, handle))?;
        self.drop_context(guest, handle, context);
        Ok(())
    }

    /// The number of the error context that a handle names. Refused: UnknownGuest, UnknownHandle,
    /// WrongKind.
    pub fn error_context_rep(&self, guest: u32, handle: u32) -> Result<u32, StoreError>
        ensures exact { result ≡ admitted self.now
            (or_found (first_of (context_reasons self.now guest handle))
            (context_number self.now guest handle)) }
        ensures takes_no_memory { result ≢ Err StoreError.OutOfMemory }
    {
        self.admit(self.context_found(guest, handle))
    }

    // Whether a guest may have a handle more to the error context of a number.
    fn lower_context_fits(&self, context: u32, guest: u32) -> Result<(), Refusal>
        ensures { result ≡ or_found (first_of (lower_context_reasons self.now context guest)) tt }
    {
        if self.is_unknown_guest(guest) {
            return Err(Refusal::UnknownGuest);
        }
        if !self.contexts.is_there(context) {
            return Err(Refusal::UnknownHandle);
        }
        match self.handle_more_refusal(guest) {
            Some(refusal) => Err(refusal),
            None => Ok(()),
        }
    }

    /// Gives a guest a handle to the error context of a number, as `error_context_rep` tells it: the
    /// answer is the handle. Refused: UnknownGuest, UnknownHandle (no error context has the number),
    /// IndexOverflow, HandleLimit. OutOfMemory.
    pub fn error_context_lower(&mut self, rep: u32, guest: u32) -> Result<u32, StoreError>
        ensures meets { Meets self.old self.new (as_reply replies.Number result)
            (lowers_context self.old rep guest) }
        ensures fits { StillFits self.old self.new }
    {
        self.admit(self.lower_context_fits(rep, guest))?;
        self.share(rep, guest)
    }
}

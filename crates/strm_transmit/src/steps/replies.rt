//! What calls answer, as the replies of steps. A refusal is one too.
//!
//! Source: ours.

ghost use Rattle.std.specs.Prelude.{◌≡◌};
ghost use Rattle.strm_machine.specs.declared.replies.Reply.TheVariants as replies;
ghost use Rattle.strm_transmit.specs.Meets.{as_reply, refused_too};

use crate::errors::StoreError;
use strm_codes::codes::ReturnCode;
use strm_machine::replies::{Member, Pair, Reply};

/// A refusal is a reply.
#[inline(always)]
pub(crate) fn reply(answer: Result<Reply, StoreError>) -> Result<Reply, StoreError>
    ensures { result ≡ refused_too answer }
{
    match answer {
        Err(StoreError::Refused(refusal)) => Ok(Reply::Refused(refusal)),
        other => other,
    }
}

/// A code is a reply, and so is a refusal.
#[inline(always)]
pub(crate) fn code_reply(answer: Result<ReturnCode, StoreError>) -> Result<Reply, StoreError>
    ensures { result ≡ refused_too (as_reply replies.Code answer) }
{
    match answer {
        Ok(code) => Ok(Reply::Code(code)),
        Err(StoreError::Refused(refusal)) => Ok(Reply::Refused(refusal)),
        Err(error) => Err(error),
    }
}

/// The ends of a new stream are a reply, and so is a refusal.
#[inline(always)]
pub(crate) fn pair_reply(answer: Result<Pair, StoreError>) -> Result<Reply, StoreError>
    ensures { result ≡ refused_too (as_reply replies.Pair answer) }
{
    match answer {
        Ok(pair) => Ok(Reply::Pair(pair)),
        Err(StoreError::Refused(refusal)) => Ok(Reply::Refused(refusal)),
        Err(error) => Err(error),
    }
}

/// A number is a reply, and so is a refusal.
#[inline(always)]
pub(crate) fn number_reply(answer: Result<u32, StoreError>) -> Result<Reply, StoreError>
    ensures { result ≡ refused_too (as_reply replies.Number answer) }
{
    match answer {
        Ok(number) => Ok(Reply::Number(number)),
        Err(StoreError::Refused(refusal)) => Ok(Reply::Refused(refusal)),
        Err(error) => Err(error),
    }
}

/// What was told of a member is a reply, and so is a refusal.
#[inline(always)]
pub(crate) fn member_reply(answer: Result<Option<Member>, StoreError>) -> Result<Reply, StoreError>
    ensures { result ≡ refused_too (as_reply replies.Member answer) }
{
    match answer {
        Ok(member) => Ok(Reply::Member(member)),
        Err(StoreError::Refused(refusal)) => Ok(Reply::Refused(refusal)),
        Err(error) => Err(error),
    }
}

/// That something was done is a reply, and so is a refusal.
#[inline(always)]
pub(crate) fn done_reply(answer: Result<(), StoreError>) -> Result<Reply, StoreError>
    ensures { result ≡ refused_too (as_reply (λ _. replies.Done) answer) }
{
    match answer {
        Ok(()) => Ok(Reply::Done),
        Err(StoreError::Refused(refusal)) => Ok(Reply::Refused(refusal)),
        Err(error) => Err(error),
    }
}

/// What was done tells nothing.
pub(crate) fn done(_nothing: ()) -> Reply
    ensures { result ≡ replies.Done }
{
    Reply::Done
}

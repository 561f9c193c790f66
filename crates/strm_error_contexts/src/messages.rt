//! Which bytes are a message.
//!
//! Source: Canonical ABI, `canon error-context.new` with an encoding of UTF-8.

ghost use Rattle.std.specs.Prelude.{◌≡◌, IfOk, is_ok};
ghost use Rattle.std.specs.Str.{is_utf8};

use thiserror::Error;

/// The bytes are not UTF-8.
#[derive(Clone, Copy, Debug, PartialEq, Eq, Error)]
#[error("the bytes are not UTF-8")]
pub struct BadText;

/// The bytes as a message, where they are UTF-8. No memory is taken.
pub fn message_of(bytes: &[u8]) -> Result<&str, BadText>
    ensures exact { is_ok result ≡ is_utf8 bytes.now }
    ensures ok { IfOk result (λ message. message.now ≡ bytes.now) }
{
    match str::from_utf8(bytes) {
        Ok(message) => Ok(message),
        Err(_) => Err(BadText),
    }
}

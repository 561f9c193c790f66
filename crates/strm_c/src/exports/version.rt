//! Which version of the library this is.
//!
//! Ours.

ghost use Rattle.std.specs.Prelude.{◌≡◌};

/// The version of these exports: 1,000,000 times its first number, 1,000 times its second, and its third.
pub const VERSION: u32 = 1_000;

/// The version of the archive, as STRM_VERSION is that of this header. Where the two differ, a program was
/// compiled for another archive than it was linked with.
#[unsafe(no_mangle)]
pub extern "C" fn strm_version() -> u32
    ensures version { result ≡ 1000 }
{
    VERSION
}

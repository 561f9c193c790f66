//! The texts of the program that are always the same.

ghost use Rattle.std.specs.Prelude.{◌≡◌};
ghost use Rattle.strm_tape_program.specs.Texts.{tape_usage_text, not_a_tape_text, differs_text};

// The text for words of the program that are none of its own.
pub(crate) fn usage_text() -> &'static [u8]
    ensures { result.now ≡ tape_usage_text }
{
    b"usage: tape take | tape play\n"
}

// The text for bytes that are no tape.
pub(crate) fn not_a_tape_text() -> &'static [u8]
    ensures { result.now ≡ not_a_tape_text }
{
    b"not a tape\n"
}

// The text for host ends that recorded something else than the tape says.
pub(crate) fn differs_text() -> &'static [u8]
    ensures { result.now ≡ differs_text }
{
    b"differs\n"
}

//! A table as text.
//!
//! Ours: the numbers in use, as a list of them prints.

ghost use Rattle.std.specs.Prelude.{Some};
ghost use Rattle.std.specs.Fmt.{WritesOnOk};
ghost use Rattle.strm_resources.specs.Entries.{numbers};
ghost use Rattle.strm_resources.specs.Text.{items_text, numbers_text};

use crate::kinds::Resident;
use crate::tables::ResourceTable;
use crate::walks::Keys;
use std::fmt;

impl<V: Resident> fmt::Debug for ResourceTable<V> {
    ghost debug_output = { λ table. Some (numbers_text (numbers table.entries)) };

    fn fmt<W: fmt::Write>(&self, f: &mut fmt::Formatter<W>) -> fmt::Result {
        write!(f, "[")?;
        write_numbers(f, self.keys())?;
        write!(f, "]")
    }
}

// Writes the numbers with commas between them.
fn write_numbers<W: fmt::Write>(f: &mut fmt::Formatter<W>, keys: Keys<'_>) -> fmt::Result
    ensures { WritesOnOk W.write_str_gives f.old result (items_text keys.entry) f.new }
{
    let mut keys = keys;
    let mut first = true;
    while let Some(number) = keys.next() {
        if first {
            write!(f, "{number}")?;
        } else {
            write!(f, ", {number}")?;
        }
        first = false;
    }
    Ok(())
}

//! What is left of an item's type once its own number was taken.
//!
//! Ours.

ghost use Rattle.std.specs.Prelude.{◌≡◌, ◌≤◌, length, drop};

/// Where the parts of a type lie that have a value: so many types, behind so many others, from an offset
/// on.
#[derive(Clone, Copy, Debug)]
pub struct Inside {
    pub skipped: u32,
    pub parts: u32,
    pub offset: u32,
}

/// A type that was entered: where its parts lie, and how many numbers it took itself.
#[derive(Clone, Copy, Debug)]
pub struct Entered {
    pub inside: Inside,
    pub numbers: usize,
}

/// A type that took a number, and of which these parts are left.
pub fn behind_one(skipped: u32, parts: u32, offset: u32) -> Entered
    ensures { result ≡ record {
      inside = record { skipped = skipped; parts = parts; offset = offset };
      numbers = 1;
    } }
{
    Entered {
        inside: Inside {
            skipped,
            parts,
            offset,
        },
        numbers: 1,
    }
}

/// A type that took none, and of which so many parts are left, which begin where it does.
pub fn behind_none(parts: u32) -> Entered
    ensures { result ≡ record {
      inside = record { skipped = 0; parts = parts; offset = 0 };
      numbers = 0;
    } }
{
    Entered {
        inside: Inside {
            skipped: 0,
            parts,
            offset: 0,
        },
        numbers: 0,
    }
}

/// The numbers behind so many.
pub fn behind_numbers(numbers: &[i128], count: usize) -> &[i128]
    requires { count ≤ length numbers.now }
    ensures { result.now ≡ drop count numbers.now }
{
    let (_, rest) = numbers.split_at(count);
    rest
}

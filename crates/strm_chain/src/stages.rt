//! Stages: what one makes of a list of bytes, and how it is done piece by piece.
//!
//! Meaning: `Stages.antt`. Ours.

ghost use Rattle.std.specs.Prelude.{◌≡◌, ◌+◌, ◌%◌, ◌++◌, ◌∷◌, [], OnOk, OnErr, IfOk};
ghost use Rattle.strm_chain.specs.Stages.{stage_room, work_begun, put_out, work_after, byte_sum, work_done, work_left};

use crate::lists::Bytes8;
use strm_codes::counts::OutOfMemory;

/// What a guest makes of the bytes that it reads.
#[derive(Clone, Copy, Debug, PartialEq, Eq)]
pub enum Stage {
    /// The bytes as they are.
    Copy,
    /// Each byte plus this one, modulo 256.
    Add(u8),
    /// The bytes other than this one.
    Without(u8),
    /// Each byte two times.
    Twice,
    /// The sums of the first 1, 2, .. bytes, modulo 256.
    Sum,
    /// The first so many bytes, or all.
    First(u32),
}

/// A stage under way: it goes on from what it has seen, however its bytes come in pieces.
#[derive(Clone, Copy, Debug, PartialEq, Eq)]
pub struct Work {
    pub stage: Stage,
    /// The sum of the bytes that it has taken, modulo 256.
    pub sum: u8,
    /// How many bytes more it lets through, where it is `First`.
    pub left: u32,
}

impl Stage {
    // How many bytes it lets through before it has taken any.
    fn room(self) -> u32
        ensures { result ≡ stage_room self }
    {
        match self {
            Stage::First(count) => count,
            _ => 0,
        }
    }
}

impl Work {
    /// A stage that has taken nothing.
    pub fn of(stage: Stage) -> Work
        ensures { result ≡ work_begun stage }
    {
        Work {
            stage,
            sum: 0,
            left: stage.room(),
        }
    }

    /// Takes these bytes: puts what the stage makes of them behind `out`.
    pub fn go_on(&mut self, bytes: &[u8], out: &mut Bytes8) -> Result<(), OutOfMemory>
        ensures work { OnOk result (self.new ≡ work_left self.old bytes.now) }
        ensures out { OnOk result (out.new ≡ out.old ++ work_done self.old bytes.now) }
    {
        match self.stage {
            Stage::Copy => {
                self.take_all(bytes);
                out.extend(bytes)
            }
            _ => self.go_on_by_bytes(bytes, out),
        }
    }

    // The same byte by byte.
    fn go_on_by_bytes(&mut self, bytes: &[u8], out: &mut Bytes8) -> Result<(), OutOfMemory>
        ensures work { OnOk result (self.new ≡ work_left self.old bytes.now) }
        ensures out { OnOk result (out.new ≡ out.old ++ work_done self.old bytes.now) }
    {
        for byte in bytes {
            self.put(*byte, out)?;
            self.take(*byte);
        }
        Ok(())
    }

    // These bytes were taken.
    fn take_all(&mut self, bytes: &[u8])
        ensures { self.new ≡ work_left self.old bytes.now }
    {
        let sum = add_all(self.sum, bytes);
        let left = (self.left as usize).saturating_sub(bytes.len());
        self.sum = sum;
        self.left = left as u32;
    }

    // Puts out what the stage makes of one byte.
    fn put(&self, byte: u8, out: &mut Bytes8) -> Result<(), OutOfMemory>
        ensures { OnOk result (out.new ≡ out.old ++ put_out self.now byte) }
    {
        match self.stage {
            Stage::Copy => out.push(byte),
            Stage::Add(more) => out.push(byte.wrapping_add(more)),
            Stage::Without(other) if byte == other => Ok(()),
            Stage::Without(_) => out.push(byte),
            Stage::Twice => {
                out.push(byte)?;
                out.push(byte)
            }
            Stage::Sum => out.push(self.sum.wrapping_add(byte)),
            Stage::First(_) if self.left == 0 => Ok(()),
            Stage::First(_) => out.push(byte),
        }
    }

    // One byte more was taken.
    fn take(&mut self, byte: u8)
        ensures { self.new ≡ work_after self.old byte }
    {
        self.sum = self.sum.wrapping_add(byte);
        self.left = self.left.saturating_sub(1);
    }
}

// The sum of a number and bytes, modulo 256: a loop of its own, which the compiler does in vectors.
#[inline(always)]
fn add_all(sum: u8, bytes: &[u8]) -> u8
    ensures { result ≡ byte_sum sum bytes.now }
{
    let mut total = sum;
    for byte in bytes {
        total = add_one(total, *byte);
    }
    total
}

// A number and one byte more.
#[inline(always)]
fn add_one(total: u8, byte: u8) -> u8
    ensures { result ≡ (total + byte) % 256 }
{
    total.wrapping_add(byte)
}

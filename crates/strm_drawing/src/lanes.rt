//! Which lanes a picture has, and where they stand: the guests', the host writers', the host readers', by their
//! numbers.
//!
//! Meaning: `Places.antt`. Ours. Lengths are in pixels.

ghost use Rattle.std.specs.Prelude.{◌≡◌, ◌≢◌, ◌<◌, ◌+◌, ◌*◌, length, slice_get, All, Some, None, IfSome};
ghost use Rattle.strm_drawing.specs.Places.{StandsAt};

use crate::arrows::{Lane, Row};
use crate::folding::{Block, push_item};
use crate::marks::{Deed, Mark, Said};
use crate::sameness::same_lane;
use std::alloc::Global;
use strm_codes::counts::OutOfMemory;

// Where the first lane stands, and how far it is from each lane to the next.
const FIRST_LANE: u64 = 200;

const LANE_WIDTH: u64 = 200;

/// Where that stands which is of no lane.
pub(crate) const NO_LANE: u64 = 136;

// How many lanes are drawn, at most: more than there are guests and host ends.
const MOST_LANES: usize = 4_294_967_295;

// How many host ends there are on a side, at most.
const HOST_ENDS: usize = 64;

/// The lanes of a picture, from left to right.
#[derive(Drop)]
pub(crate) struct Lanes {
    pub all: Vec<Lane>,
    ghost few: { length all.items < 4294967296 },
}

// What rows tell of lanes: how many guests there are, and which host ends do something.
#[derive(Clone, Copy)]
struct Told {
    guests: u32,
    writers: [bool; 64],
    readers: [bool; 64],
}

// Where a lane at a place stands.
fn x_at(place: u32) -> u64
    ensures { result ≡ FIRST_LANE + place * LANE_WIDTH }
{
    FIRST_LANE + u64::from(place) * LANE_WIDTH
}

// A host end of this number does something.
fn note(used: &mut [bool; 64], number: u32) {
    if (number as usize) < HOST_ENDS {
        used[number as usize] = true;
    }
}

impl Told {
    // What a mark tells.
    fn add(&mut self, mark: &Mark) {
        if let Said::Refused(_) = mark.said {
            return;
        }
        match mark.lane {
            Lane::Guest(_) => {
                if mark.deed == Deed::Guest {
                    self.guests = self.guests.saturating_add(1);
                }
            }
            Lane::Writer(number) => note(&mut self.writers, number),
            Lane::Reader(number) => note(&mut self.readers, number),
            Lane::Nobody => {}
        }
    }

    // What rows tell.
    fn add_rows(&mut self, rows: &[Row]) {
        for row in rows {
            if let Row::Mark(mark) = row {
                self.add(mark);
            }
        }
    }
}

impl Lanes {
    /// The lanes of the guests that were made, and of the host ends that did something, by the rows of blocks.
    pub(crate) fn of(alloc: Global, blocks: &[Block]) -> Result<Lanes, OutOfMemory> {
        let mut told = Told {
            guests: 0,
            writers: [false; 64],
            readers: [false; 64],
        };
        for block in blocks {
            told.add_rows(block.rows.as_slice());
        }
        let mut lanes = Lanes {
            all: Vec::new(alloc),
        };
        for number in 0..told.guests {
            lanes.add(Lane::Guest(number))?;
        }
        for number in 0..HOST_ENDS {
            if told.writers[number] {
                lanes.add(Lane::Writer(number as u32))?;
            }
        }
        for number in 0..HOST_ENDS {
            if told.readers[number] {
                lanes.add(Lane::Reader(number as u32))?;
            }
        }
        Ok(lanes)
    }

    // A lane more, to the right of the others.
    fn add(&mut self, lane: Lane) -> Result<(), OutOfMemory> {
        if self.all.len() < MOST_LANES {
            push_item(&mut self.all, &lane)?;
        }
        Ok(())
    }

    // The place of a lane, if it has one, looked for from the right: there the host ends are.
    fn find(&self, lane: Lane) -> Option<u32>
        ensures some { IfSome result (λ place. slice_get self.now.all.items place ≡ Some lane) }
        ensures none { result ≡ None → All (λ other. other ≢ lane) self.now.all.items }
    {
        let all = self.all.as_slice();
        let mut place = self.count();
        while place > 0 {
            place -= 1;
            if same_lane(all[place as usize], lane) {
                return Some(place);
            }
        }
        None
    }

    // The place of a lane, if it has one. A guest's is its number.
    fn place(&self, lane: Lane) -> Option<u32>
        ensures some { IfSome result (λ place. slice_get self.now.all.items place ≡ Some lane) }
        ensures none { result ≡ None → All (λ other. other ≢ lane) self.now.all.items }
    {
        if let Lane::Guest(number) = lane {
            if number < self.count() && same_lane(self.all[number as usize], lane) {
                return Some(number);
            }
        }
        self.find(lane)
    }

    // How many lanes there are.
    fn count(&self) -> u32
        ensures { result ≡ length self.now.all.items }
    {
        self.all.len() as u32
    }

    /// Where a lane stands.
    pub(crate) fn x_of(&self, lane: Lane) -> u64
        ensures { StandsAt self.now.all.items result lane }
    {
        match self.place(lane) {
            Some(place) => x_at(place),
            None => NO_LANE,
        }
    }

    /// Where the last lane stands.
    pub(crate) fn last_x(&self) -> u64 {
        x_at(self.count().saturating_sub(1))
    }
}

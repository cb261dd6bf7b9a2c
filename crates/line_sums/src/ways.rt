// The address of a step under a line_range, kept for distances that come again.
ghost use Rattle.std.specs.Prelude.{◌≡◌, ◌<◌, ℕ, replicate, IfOk};
ghost use Rattle.line_sums.specs.inside.Ways.{IsWay};

use crate::window::{Windows, windows_for};
use dw_base::NoMemory;
use line_step::advance;
use std::alloc::Global;
use std::marker::Model;

// How many ways are kept: most programs have fewer distances, and this many stay in the processor's nearest memory.
const KEPT: usize = 128;

/// What an address distance takes under a line_range: the windows before a special opcode, and how many bytes advance the
/// address where another opcode appends the row or ends the sequence.
#[derive(Clone, Copy)]
pub struct Way {
    range: u8,
    distance: u64,
    pub windows: Windows,
    pub advance: u32,
}

/// What the address of a step takes under a line_range, for the distances that were asked for last. A program has many steps
/// and few different distances, so most of what is asked for is here, and what isn't takes the place of an earlier distance.
/// Contracts see the minimum_instruction_length alone: what is kept changes no answer.
#[derive(Drop)]
pub struct Ways {
    min: u8,
    known: Vec<Way>,
}

impl Model for Ways {
    ghost use Rattle.std.specs.Prelude.{ℕ};

    ghost Value = { ℕ };

    ghost use Rattle.line_sums.specs.inside.Ways.{AreKept};

    ghost view = { λ w. w.min };

    ghost invariant = { λ w. AreKept w.min w.known.items };
}

// Finds what a distance takes.
fn find_way(range: u8, min: u8, distance: u64) -> Way
    requires range { 0 < range }
    requires scale { 0 < min }
    ensures right { IsWay range min distance result }
    ensures range { result.range ≡ range }
    ensures distance { result.distance ≡ distance }
{
    Way {
        range,
        distance,
        windows: windows_for(range, min, distance),
        advance: advance(range, min, distance),
    }
}

// A way, so many times.
fn repeated(alloc: Global, way: Way, count: usize) -> Result<Vec<Way>, NoMemory>
    ensures { IfOk result (λ ways. ways.items ≡ replicate count way) }
{
    Ok(vec![in alloc; way; count]?)
}

impl Ways {
    /// Ways for a minimum_instruction_length, which isn't 0. The only error is want of memory.
    pub fn new(alloc: Global, min: u8) -> Result<Ways, NoMemory>
        requires { 0 < min }
        ensures { IfOk result (λ ways. ways ≡ min) }
    {
        let way = find_way(1, min, 0);
        Ok(Ways {
            min,
            known: repeated(alloc, way, KEPT)?,
        })
    }

    // What a distance takes under a line_range, which isn't 0: as it is kept, or else found now and kept from then on.
    pub(crate) fn of(&mut self, range: u8, distance: u64) -> Way
        requires { 0 < range }
        ensures same { self.new ≡ self.old }
        ensures right { IsWay range self.old distance result }
    {
        let place = (distance % KEPT as u64) as usize;
        let known = self.known[place];
        if known.range == range && known.distance == distance {
            return known;
        }
        let way = find_way(range, self.min, distance);
        self.known[place] = way;
        way
    }
}

// A list by itself.
ghost use Rattle.std.specs.Prelude.{◌≡◌};

use list_model::{Meaning, RawEntry};
use std::marker::Model;

/// A list that something names. Places count from the first byte of its section. Contracts see it as a `HeldList`.
#[derive(Drop)]
pub struct ListRead {
    at: u64,
    part: u32,
    owner: Option<u32>,
    raw: Vec<RawEntry>,
    meaning: Meaning,
}

impl Model for ListRead {
    ghost use Rattle.list_arena.specs.Held.{HeldList};

    ghost Value = { HeldList };

    ghost view = { λ l. record { at = l.at; part = l.part; owner = l.owner; raw = l.raw.items; meaning = l.meaning } };
}

impl ListRead {
    /// A list of which this was read. It takes no memory.
    pub fn new(
        at: u64,
        part: u32,
        owner: Option<u32>,
        raw: Vec<RawEntry>,
        meaning: Meaning,
    ) -> ListRead
        ensures { result ≡ record { at = at; part = part; owner = owner; raw = raw.items; meaning = meaning } }
    {
        ListRead {
            at,
            part,
            owner,
            raw,
            meaning,
        }
    }

    /// Where it begins.
    pub fn at(&self) -> u64
        ensures { result ≡ self.now.at }
    {
        self.at
    }

    /// The number of the contribution in which it begins, counted from 0.
    pub fn part(&self) -> u32
        ensures { result ≡ self.now.part }
    {
        self.part
    }

    /// The number of the first unit of which an entry names it, counted from 0, or None where a slot alone does.
    pub fn owner(&self) -> Option<u32>
        ensures { result ≡ self.now.owner }
    {
        self.owner
    }

    /// Its entries before the end.
    pub fn entries(&self) -> &Vec<RawEntry>
        ensures { result.now.items ≡ self.now.raw }
    {
        &self.raw
    }

    /// Its items in the context of its owner, or Dead where it is frozen: where a start or an end is a sum of 2^64 or more, units
    /// with different contexts name it, no unit does, or it has more than 16,384 items. Then its entries say what it means.
    pub fn meaning(&self) -> &Meaning
        ensures { result.now ≡ self.now.meaning }
    {
        &self.meaning
    }
}

// What stands next among the entries of a unit and its codes 0.
ghost use Rattle.std.specs.Prelude.{◌≡◌, ◌<◌, ◌-◌, ◌+◌, ◌^◌, length, IfSome, IsTrue, ◌↔◌};
ghost use Rattle.unit_write.specs.inside.Readings.{IsEndNext, GoesOn};

use entry_arena::Forest;

/// What stands next in a unit.
#[derive(Clone, Copy)]
pub enum Next {
    /// The entry with this number, counted from 0 in preorder.
    Entry(u32),
    /// The code 0 that ends the innermost chain of siblings that is open.
    End,
}

/// How many entries and how many codes 0 of a forest are done, in the order of their places.
#[derive(Clone, Copy)]
pub struct Items {
    pub entries: u32,
    pub ends: usize,
}

impl Items {
    /// Nothing is done.
    pub fn new() -> Items
        ensures { result ≡ record { entries = 0; ends = 0 } }
    {
        Items {
            entries: 0,
            ends: 0,
        }
    }

    // Whether a code 0 stands before all entries that aren't done.
    fn is_end_next(self, forest: &Forest<'_>) -> bool
        ensures next { IsTrue result ↔ IsEndNext forest.now self }
        ensures small { IsTrue result → self.ends + 1 < 2 ^ 64 }
    {
        let ends = forest.chain_ends();
        if self.ends >= ends.len() {
            return false;
        }
        self.entries >= forest.len() || ends[self.ends].at < forest.entry(self.entries).at
    }

    /// What stands first of all that isn't done, which is done then; None where all is.
    pub fn next(&mut self, forest: &Forest<'_>) -> Option<Next>
        ensures next { GoesOn forest.now self.old self.new result }
        ensures less { IfSome result (λ _. (length forest.now.entries - self.new.entries) + (length forest.now.ends - self.new.ends) < (length forest.now.entries - self.old.entries) + (length forest.now.ends - self.old.ends)) }
    {
        if self.is_end_next(forest) {
            self.ends += 1;
            return Some(Next::End);
        }
        if self.entries >= forest.len() {
            return None;
        }
        let id = self.entries;
        self.entries += 1;
        Some(Next::Entry(id))
    }
}

// The operations of a unit's expressions, as they are held.
ghost use Rattle.std.specs.Prelude.{◌≡◌, ◌≢◌, ◌≤◌, ◌<◌, ◌+◌, ◌++◌, ◌∷◌, [], ℕ, length, drop, if◌then◌else◌, OnOk, OnErr, IfOk, IfErr, MatchOption};
ghost use Rattle.entry_arena.specs.Operations.{no_operations, with_op, range_of, ops_of, run_at, ends_with as is_last, next_first, ComesLast, AreRuns};
ghost use Rattle.expr_ops.specs.Drafts.{op_at};

use dw_base::NoMemory;
use expr_ops::Op;
use std::alloc::Global;
use std::marker::Model;

// No more operations are held than 32 bits count.
const MOST: usize = 0xffff_ffff;

/// Which operations are those of one expression: so many from the one with a number on.
#[derive(Clone, Copy, Debug, PartialEq, Eq)]
pub struct OpRange {
    pub first: u32,
    pub count: u32,
}

/// Where the operations of a value begin.
#[derive(Clone, Copy, Debug, PartialEq, Eq)]
pub(crate) struct Run {
    pub(crate) value: u32,
    pub(crate) first: u32,
}

/// The operations of the expressions of a unit (DWARF 5 sections 2.5 and 7.7.1) in one flat list, in the order of the values that
/// have them. Operations are numbered from 0; each stands as it was read, with places that count from the first byte of its
/// expression.
#[derive(Drop)]
pub struct Operations {
    ops: Vec<Op>,
    runs: Vec<Run>,
}

impl Model for Operations {
    ghost use Rattle.entry_arena.specs.Operations.{HeldOps, AreRuns};

    ghost Value = { HeldOps };

    ghost view = { λ o. record { ops = o.ops.items; runs = o.runs.items } };

    ghost invariant = { λ o. AreRuns (record { ops = o.ops.items; runs = o.runs.items }) };
}

// Whether the last run is that of a value.
fn ends_with(runs: &[Run], value: u32) -> bool
    ensures { result ≡ is_last runs.now value }
{
    let count = runs.len();
    count > 0 && runs[count - 1].value == value
}

// Says that the next operation, which has a number, is one of a value.
fn extend_runs(runs: &mut Vec<Run>, value: u32, first: u32) -> Result<(), NoMemory>
    ensures extended { OnOk result (runs.new.items ≡ (if is_last runs.old.items value then runs.old.items else runs.old.items ++ (record { value = value; first = first }) ∷ [])) }
    ensures unchanged { OnErr result (runs.new.items ≡ runs.old.items) }
{
    if !ends_with(runs, value) {
        runs.push(Run { value, first })?;
    }
    Ok(())
}

// The number of a value's run.
fn run_of(runs: &[Run], value: u32) -> Option<usize>
    requires rising { (i j : ℕ) → i < j → j < length runs.now → (run_at runs.now i).value < (run_at runs.now j).value }
    ensures { MatchOption result ((i : ℕ) → i < length runs.now → (run_at runs.now i).value ≢ value) (λ i. (i < length runs.now) × ((run_at runs.now i).value ≡ value)) }
{
    match runs.binary_search_by_key(&value, |run| run.value) {
        Ok(number) => Some(number),
        Err(_) => None,
    }
}

impl Operations {
    /// No operations.
    pub fn new(alloc: Global) -> Operations
        ensures { result ≡ no_operations }
    {
        Operations {
            ops: Vec::new(alloc),
            runs: Vec::new(alloc),
        }
    }

    // Where the operations of the run after one begin, or all end.
    fn end_of(&self, number: usize) -> u32
        requires { number < length self.now.runs }
        ensures { result ≡ next_first (drop (number + 1) self.now.runs) (length self.now.ops) }
    {
        let count = self.runs.len();
        let next = number + 1;
        if next < count {
            self.runs[next].first
        } else {
            self.ops.len() as u32
        }
    }

    /// Appends the next operation of the expression that is the value with a number, and answers its own number. The value isn't
    /// before that of the last operation. The only error is want of memory, which also answers an operation past the first 2^32 - 1;
    /// it changes nothing.
    pub fn push_op(&mut self, value: u32, op: Op) -> Result<u32, NoMemory>
        requires { ComesLast self.old.runs value }
        ensures pushed { IfOk result (λ id. (id ≡ length self.old.ops) × (self.new ≡ with_op self.old value op)) }
        ensures unchanged { IfErr result (λ _. self.new ≡ self.old) }
    {
        if self.ops.len() >= MOST {
            return Err(NoMemory);
        }
        let id = self.ops.len() as u32;
        self.ops.push(op)?;
        match extend_runs(&mut self.runs, value, id) {
            Ok(()) => Ok(id),
            Err(error) => {
                self.ops.pop();
                Err(error)
            }
        }
    }

    /// Gives the memory back that is held for operations that weren't pushed. It changes nothing of what is held.
    pub fn shrink_to_fit(&mut self)
        ensures { self.new ≡ self.old }
    {
        self.ops.shrink_to_fit();
        self.runs.shrink_to_fit();
    }

    /// How many operations there are.
    pub fn op_count(&self) -> u32
        ensures { result ≡ length self.now.ops }
    {
        self.ops.len() as u32
    }

    /// The operation with a number.
    pub fn op(&self, id: u32) -> Op
        requires { id < length self.now.ops }
        ensures { result ≡ op_at self.now.ops id }
    {
        self.ops[id as usize]
    }

    /// All operations, in the order of their numbers.
    pub fn ops(&self) -> &[Op]
        ensures { result.now ≡ self.now.ops }
    {
        &self.ops
    }

    /// Which operations are those of the value with a number; none, from 0 on, where it has none. It is searched for.
    pub fn ops_of(&self, value: u32) -> OpRange
        ensures range { result ≡ range_of self.now value }
        ensures inside { result.first + result.count ≤ length self.now.ops }
    {
        let Some(number) = run_of(&self.runs, value) else {
            return OpRange { first: 0, count: 0 };
        };
        let first = self.runs[number].first;
        OpRange {
            first,
            count: self.end_of(number) - first,
        }
    }

    /// The operations of the value with a number.
    pub fn of_value(&self, value: u32) -> &[Op]
        ensures { result.now ≡ ops_of self.now value }
    {
        let range = self.ops_of(value);
        &self.ops[range.first as usize..(range.first + range.count) as usize]
    }
}

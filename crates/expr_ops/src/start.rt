// Where the operations of an expression begin.
ghost use Rattle.std.specs.Prelude.{◌≡◌, ◌++◌, ◌∷◌, [], OnOk, IsTrue, ◌↔◌, ⊤};
ghost use Rattle.expr_ops.specs.Expressions.{IsBranch};

use crate::head::ReadHead;
use crate::segment::is_branch;
use dw_base::NoMemory;
use smallvec::SmallVec;
use std::alloc::Global;
use std::default::MadeWith;

// Where an operation of an expression begins, and what follows it. Operations inside entry_values have no such row.
#[derive(Clone, Copy)]
pub(crate) struct Start {
    pub at: usize,
    pub end: usize,
    // Its number among all operations of the expression.
    pub number: usize,
    pub is_branch: bool,
    pub distance: i64,
}

// What stands in room that has no row.
impl MadeWith<Global> for Start {
    ghost is_made_with = { λ _. ⊤ };

    fn made_with(_: Global) -> Start {
        Start {
            at: 0,
            end: 0,
            number: 0,
            is_branch: false,
            distance: 0,
        }
    }
}

// Most expressions have few operations, and their rows need no allocation.
pub(crate) type Starts = SmallVec<Start, 8>;

pub(crate) fn start_of(head: &ReadHead, at: usize, number: usize) -> Start
    ensures at { result.at ≡ at }
    ensures end { result.end ≡ head.now.end }
    ensures number { result.number ≡ number }
    ensures branch { IsTrue result.is_branch ↔ IsBranch head.now.code }
    ensures distance { result.distance ≡ head.now.s }
{
    Start {
        at,
        end: head.end,
        number,
        is_branch: is_branch(head.code),
        distance: head.s,
    }
}

pub(crate) fn push_start(starts: &mut Starts, start: Start) -> Result<(), NoMemory>
    ensures { OnOk result (starts.new.items ≡ starts.old.items ++ start ∷ []) }
{
    starts.push(start)?;
    Ok(())
}

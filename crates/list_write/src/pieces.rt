// Lists that are written, wherever they will stand.
ghost use Rattle.std.specs.Prelude.{◌≡◌, ◌++◌, ◌∷◌, [], map, OnOk, OnErr};
ghost use Rattle.list_write.specs.Written.{AreEnds, IsSized, Piece, IsPieceOf, run_of, to_write};
ghost use Rattle.list_write.specs.inside.Pieces.{AreRunsHeld, IsPieceHeld};

use crate::list::{put_list, put_run};
use crate::named::{NamedList, ViewRun};
use dw_base::NoMemory;
use list_model::ListKind;
use std::alloc::Global;
use std::marker::Model;

/// How much there is of a run of view pairs.
#[derive(Clone, Copy)]
pub(crate) struct RunExtent {
    /// Where it began.
    pub(crate) at: u64,
    /// How many bytes it takes.
    pub(crate) size: u64,
}

/// How much there is of a list.
#[derive(Clone, Copy)]
pub(crate) struct ListExtent {
    /// The number of the contribution in which it began.
    pub(crate) part: u32,
    /// Where it began.
    pub(crate) at: u64,
    /// How many runs of view pairs stand before it.
    pub(crate) runs: usize,
    /// How many bytes it takes without these.
    pub(crate) size: u64,
}

/// Lists that are written one after the other, each directly behind its view pairs, without the headers and the offsets of their
/// contributions. No byte of them depends on where they will stand. Contracts see them as a list: of each its contribution, its
/// old place, its bytes and its runs of view pairs.
#[derive(Drop)]
pub struct WrittenPieces {
    pub(crate) bytes: Vec<u8>,
    pub(crate) lists: Vec<ListExtent>,
    pub(crate) runs: Vec<RunExtent>,
}

impl Model for WrittenPieces {
    ghost use Rattle.std.specs.Prelude.{List};
    ghost use Rattle.list_write.specs.Written.{Piece as AnyPiece};
    ghost use Rattle.list_write.specs.inside.Pieces.{pieces_in, ArePiecesHeld};

    ghost Value = { List AnyPiece };

    ghost view = { λ w. pieces_in w.lists.items w.runs.items w.bytes.items };

    ghost invariant = { λ w. ArePiecesHeld w.lists.items w.runs.items w.bytes.items };
}

// Appends runs of view pairs, one after the other, and their extents.
fn put_runs(
    out: &mut Vec<u8>,
    extents: &mut Vec<RunExtent>,
    runs: &Vec<ViewRun>,
) -> Result<(), NoMemory>
    ensures { OnOk result (AreRunsHeld (map run_of runs.now.items) out.old.items out.new.items extents.old.items extents.new.items) }
{
    for run in runs {
        let before = out.len();
        put_run(out, &run.pairs)?;
        extents.push(RunExtent {
            at: run.at,
            size: (out.len() - before) as u64,
        })?;
    }
    Ok(())
}

// Appends a list behind its view pairs, and the extents of all of these.
fn put_whole(
    out: &mut Vec<u8>,
    lists: &mut Vec<ListExtent>,
    runs: &mut Vec<RunExtent>,
    kind: ListKind,
    list: &NamedList,
) -> Result<(), NoMemory>
    requires sized { IsSized kind (to_write list.now) }
    requires ends { AreEnds list.now.expressions }
    ensures { OnOk result (IsPieceHeld kind (to_write list.now) out.old.items out.new.items lists.old.items lists.new.items runs.old.items runs.new.items) }
{
    put_runs(out, runs, &list.views)?;
    let before = out.len();
    put_list(out, kind, list)?;
    lists.push(ListExtent {
        part: list.part,
        at: list.at,
        runs: list.views.len(),
        size: (out.len() - before) as u64,
    })?;
    Ok(())
}

impl WrittenPieces {
    /// No lists. It takes no memory.
    pub fn new(alloc: Global) -> WrittenPieces
        ensures { result ≡ [] }
    {
        WrittenPieces {
            bytes: Vec::new(alloc),
            lists: Vec::new(alloc),
            runs: Vec::new(alloc),
        }
    }

    /// Writes a list behind its view pairs (DWARF 5 sections 2.6.2, 2.17.3, 7.7.3 and 7.25): its entries as they are planned,
    /// each number in its fewest bytes, behind each item of a location list its expression, whose length takes the fewest bytes,
    /// and the end of the list. The list is the last one then. The only error is want of memory, after which there are no lists.
    pub fn push(&mut self, kind: ListKind, list: &NamedList) -> Result<(), NoMemory>
        requires sized { IsSized kind (to_write list.now) }
        requires ends { AreEnds list.now.expressions }
        ensures pushed { OnOk result ((piece : Piece) × IsPieceOf kind (to_write list.now) piece × (self.new ≡ self.old ++ piece ∷ [])) }
        ensures emptied { OnErr result (self.new ≡ []) }
    {
        match put_whole(&mut self.bytes, &mut self.lists, &mut self.runs, kind, list) {
            Ok(()) => Ok(()),
            Err(error) => {
                // What was put of the list is none.
                self.bytes.clear();
                self.lists.clear();
                self.runs.clear();
                Err(error)
            }
        }
    }
}

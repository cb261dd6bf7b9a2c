// What range lists say.
ghost use Rattle.std.specs.Prelude.{◌<◌, ◌+◌, ◌^◌, IfOk, IfErr, OnOk};
ghost use Rattle.std.specs.List.{All};
ghost use Rattle.dw_base.specs.Refusals.{IsFaultOf, IsFaulty, IsRefusedFor};
ghost use Rattle.list_model.specs.declared.entry.ListKind.TheVariants.{Ranges};
ghost use Rattle.list_model.specs.Items.{HasTable, FaultIndexes};
ghost use Rattle.range_lists.specs.Ranges.{AreRangeEntries, IsMeaning};
ghost use Rattle.range_lists.specs.inside.Walks.{HasItem, WalksOn};

use crate::laws::ranges_mean;
use dw_base::{NoMemory, Refusal, Span};
use list_model::{Context, Item, Items, ListKind, Meaning, RawEntry, Step, entry_step};
use std::alloc::Global;

// Ranges have no expressions.
const NO_EXPR: Span = Span { at: 0, len: 0 };

// A walk over the entries of a list: the base, the items up to there, and whether a start or an end is a sum of 2^64 or more.
#[derive(Drop)]
struct Walk {
    base: u64,
    items: Vec<Item>,
    dead: bool,
}

impl Walk {
    // Appends an item.
    fn push(&mut self, start: u64, end: u64, whole: bool) -> Result<(), NoMemory>
        ensures { OnOk result (HasItem self.old self.new start end whole) }
    {
        self.items.push(Item {
            start,
            end,
            whole,
            expr: NO_EXPR,
        })?;
        Ok(())
    }

    // Goes on by what the next entry does.
    fn go_on(&mut self, step: Step) -> Result<(), NoMemory>
        ensures { OnOk result (WalksOn step self.old self.new) }
    {
        match step {
            Step::Base(base) => self.base = base,
            Step::Between(start, end) => return self.push(start, end, false),
            Step::Elsewhere => return self.push(0, 0, true),
            Step::Over => self.dead = true,
        }
        Ok(())
    }
}

/// What the range list with the entries `raw` says in a context (DWARF 5 section 2.17.3): its ranges in their order, empty ones
/// and those that adjoin others too. `Dead` comes exactly where the start or the end of some range is a sum of 2^64 or more.
/// `addr` is the body of .debug_addr, in which the table of the context stands. Places of entries count from the first byte of
/// the list's section, whose file offset is `origin`.
///
/// All indexes of the list are looked up, also where it is dead. A refusal names an entry with an index: `NoBase` where the
/// context has no table, and `Pointer` where it has one and the index is its count or more. `NoMemory` may come wherever memory
/// is wanting.
pub fn range_items(
    alloc: Global,
    raw: &Vec<RawEntry>,
    context: &Context,
    addr: &[u8],
    origin: u64,
) -> Result<Meaning, Refusal>
    requires entries { AreRangeEntries raw.now.items }
    requires table { HasTable addr.now context.now.table }
    requires room { All (λ entry. origin + entry.at < 2 ^ 64) raw.now.items }
    ensures meaning { IfOk result (IsMeaning addr.now context.now raw.now.items) }
    ensures whole { IfOk result (λ _. ¬ IsFaulty (FaultIndexes Ranges context.now raw.now.items)) }
    ensures fault { IfErr result (IsRefusedFor (IsFaultOf (FaultIndexes Ranges context.now raw.now.items) origin)) }
{
    ranges_mean();
    let mut walk = Walk {
        base: context.base,
        items: Vec::new(alloc),
        dead: false,
    };
    for entry in raw.iter() {
        let step = entry_step(ListKind::Ranges, entry, walk.base, context, addr, origin)?;
        walk.go_on(step)?;
    }
    if walk.dead {
        return Ok(Meaning::Dead);
    }
    // All lists of a file are held at once.
    walk.items.shrink_to_fit();
    Ok(Meaning::Live(Items::new(walk.items)))
}

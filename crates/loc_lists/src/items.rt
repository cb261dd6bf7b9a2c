// What location lists say.
ghost use Rattle.std.specs.Prelude.{◌≡◌, ◌≤◌, ◌<◌, ◌+◌, ◌^◌, length, IfOk, IfErr, OnOk};
ghost use Rattle.std.specs.List.{All};
ghost use Rattle.dw_base.specs.Refusals.{IsFaultOf, IsFaulty, IsRefusedFor};
ghost use Rattle.list_model.specs.declared.entry.ListKind.TheVariants.{Locations};
ghost use Rattle.list_model.specs.Items.{HasTable, FaultIndexes};
ghost use Rattle.loc_lists.specs.Locations.{is_item as counts_as_item, bytes_in, AreLocationEntries, IsMeaning};
ghost use Rattle.loc_lists.specs.inside.Walks.{HasItem, WalksOn};

use crate::laws::locations_mean;
use dw_base::{NoMemory, Refusal, Span, constants};
use list_model::{Context, Item, Items, ListKind, Meaning, RawEntry, Step, entry_step};
use std::alloc::Global;

/// Whether the entry `raw` of a location list is an item: a bounded or a default location, which has an expression (DWARF 5
/// section 2.6.2). It isn't exactly where its kind sets the base. It takes no memory.
pub fn is_item(raw: &RawEntry) -> bool
    ensures { result ≡ counts_as_item raw.now }
{
    raw.code != constants::DW_LLE_BASE_ADDRESSX && raw.code != constants::DW_LLE_BASE_ADDRESS
}

/// The bytes of an expression, which lie at a span of the list's section. It takes no memory.
pub fn bytes_of(section: &[u8], expr: Span) -> &[u8]
    requires { expr.at + expr.len ≤ length section.now }
    ensures { result.now ≡ bytes_in section.now expr }
{
    &section[expr.at as usize..(expr.at + expr.len) as usize]
}

// A walk over the entries of a list: the base, the items up to there, and whether a start or an end is a sum of 2^64 or more.
#[derive(Drop)]
struct Walk {
    base: u64,
    items: Vec<Item>,
    dead: bool,
}

impl Walk {
    // Appends an item.
    fn push(&mut self, start: u64, end: u64, whole: bool, expr: Span) -> Result<(), NoMemory>
        ensures { OnOk result (HasItem self.old self.new start end whole expr) }
    {
        self.items.push(Item {
            start,
            end,
            whole,
            expr,
        })?;
        Ok(())
    }

    // Goes on by what the next entry does, whose expression is given.
    fn go_on(&mut self, step: Step, expr: Span) -> Result<(), NoMemory>
        ensures { OnOk result (WalksOn step expr self.old self.new) }
    {
        match step {
            Step::Base(base) => self.base = base,
            Step::Between(start, end) => return self.push(start, end, false, expr),
            Step::Elsewhere => return self.push(0, 0, true, expr),
            Step::Over => self.dead = true,
        }
        Ok(())
    }
}

/// What the location list with the entries `raw` says in a context (DWARF 5 section 2.6.2): its bounded and its default locations
/// in their order, empty ones too, each with the expression of its entry. `Dead` comes exactly where the start or the end of some
/// location is a sum of 2^64 or more. `addr` is the body of .debug_addr, in which the table of the context stands. Places of
/// entries count from the first byte of the list's section, whose file offset is `origin`.
///
/// All indexes of the list are looked up, also where it is dead. A refusal names an entry with an index: `NoBase` where the
/// context has no table, and `Pointer` where it has one and the index is its count or more. `NoMemory` may come wherever memory
/// is wanting.
pub fn location_items(
    alloc: Global,
    raw: &Vec<RawEntry>,
    context: &Context,
    addr: &[u8],
    origin: u64,
) -> Result<Meaning, Refusal>
    requires entries { AreLocationEntries raw.now.items }
    requires table { HasTable addr.now context.now.table }
    requires room { All (λ entry. origin + entry.at < 2 ^ 64) raw.now.items }
    ensures meaning { IfOk result (IsMeaning addr.now context.now raw.now.items) }
    ensures whole { IfOk result (λ _. ¬ IsFaulty (FaultIndexes Locations context.now raw.now.items)) }
    ensures fault { IfErr result (IsRefusedFor (IsFaultOf (FaultIndexes Locations context.now raw.now.items) origin)) }
{
    locations_mean();
    let mut walk = Walk {
        base: context.base,
        items: Vec::new(alloc),
        dead: false,
    };
    for entry in raw.iter() {
        let step = entry_step(ListKind::Locations, entry, walk.base, context, addr, origin)?;
        walk.go_on(step, entry.expr)?;
    }
    if walk.dead {
        return Ok(Meaning::Dead);
    }
    // All lists of a file are held at once.
    walk.items.shrink_to_fit();
    Ok(Meaning::Live(Items::new(walk.items)))
}

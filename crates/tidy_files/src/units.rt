// Units with bytes behind their trees.
ghost use Rattle.std.specs.Prelude.{◌≡◌, ◌<◌, ◌^◌, ℕ, List, length};
ghost use Rattle.dw_base.specs.declared.fault.Reach.{Reach};
ghost use Rattle.leb_codec.specs.Leb.{Uleb};
ghost use Rattle.abbrev_tables.specs.Tables.{Declared};
ghost use Rattle.entry_arena.specs.Trees.{SpellsBetween};
ghost use Rattle.entry_read.specs.Units.{IsUnitHeld};
ghost use Rattle.value_links.specs.World.{IsWorldOf};
ghost use Rattle.tidy_places.specs.Firsts.{IsLeastFound};
ghost use Rattle.tidy_files.specs.Tidy.{IsPaddedUnit};
ghost use Rattle.tidy_files.specs.inside.Paddings.{IsTreeEnd};

use entry_read::Unit;
use leb_codec::read_u;
use tidy_tables::offset_in_file;
use value_links::World;

// Where the code at a place ends.
fn code_end(info: &[u8], at: usize) -> usize
    requires { (code : ℕ) × (to : ℕ) × SpellsBetween (Uleb code) info.now at to }
    ensures { (code to : ℕ) → SpellsBetween (Uleb code) info.now at to → result ≡ to }
{
    match read_u(info, at) {
        Ok(code) => code.end,
        // A code that stands there ends and fits.
        Err(_) => unreachable!(),
    }
}

// Where the tree of a unit's entries ends: behind the last entry, or behind the last code 0 where that stands later. A code 0 may have more
// bytes than it needs.
fn tree_end(unit: &Unit<'_>) -> u64
    requires held { (ds : List Declared) × IsUnitHeld unit.now.forest.section unit.now.head ds unit.now.forest }
    requires room { length unit.now.forest.section < 2 ^ 64 }
    ensures { IsTreeEnd unit.now result }
{
    let forest = unit.forest();
    let last = forest.entry(forest.len() - 1);
    let end = u64::from(last.at) + u64::from(last.len);
    if let Some(code) = forest.chain_ends().last() {
        if end <= u64::from(code.at) {
            return code_end(forest.section(), code.at as usize) as u64;
        }
    }
    end
}

/// The first unit with bytes behind its tree, as an offset in the file (DWARF 5 section 7.5).
pub(crate) fn first_padded_unit(world: &World<'_>) -> Option<u64>
    requires { (reach : Reach) × IsWorldOf world.now.image reach world.now }
    ensures { IsLeastFound (IsPaddedUnit world.now.image) result }
{
    for unit in world.units() {
        let head = unit.head();
        if tree_end(unit) != head.at + head.len {
            return Some(offset_in_file(world, b".debug_info".as_slice(), head.at));
        }
    }
    None
}

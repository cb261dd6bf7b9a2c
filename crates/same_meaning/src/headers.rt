// The headers of units (DWARF 5 sections 3.1 and 7.5.1).
ghost use Rattle.std.specs.Prelude.{◌≡◌, ◌<◌, ◌↔◌, ℕ, Option, length, option_map, slice_get, Some, IsTrue};
ghost use Rattle.entry_arena.specs.declared.entry.Target.TheVariants.{Entry as TheEntry};
ghost use Rattle.value_links.specs.Debug.{UnitMeaning};
ghost use Rattle.same_meaning.specs.Differences.{HaveOtherHeads};
ghost use Rattle.same_meaning.specs.inside.Compared.{IsSomeWorld, OfMeanings};
ghost use Rattle.same_meaning.specs.inside.Headers.{HasTypeEntry, IsTypeEntryOf, MeansHeader};

use dw_base::constants::DW_UT_TYPE;
use entry_arena::Target;
use entry_read::Unit;
use value_links::{World, one_reading};

// The entry of its type of a type unit, as what stands where type_offset says; None for any other unit.
fn type_entry(unit: &Unit<'_>) -> Option<Target>
    requires { HasTypeEntry unit.now }
    ensures { (entry : Option ℕ) → IsTypeEntryOf unit.now entry → result ≡ option_map TheEntry entry }
{
    let head = unit.head();
    if head.kind != DW_UT_TYPE {
        return None;
    }
    let forest = unit.forest();
    // The entry lies in the section, so that the sum fits.
    let _section = forest.section();
    let _entries = forest.entries();
    forest.target_at(head.at + head.type_at)
}

// Whether two units have another type, another signature or dwo_id, or another entry of their type.
fn heads_differ(old: &Unit<'_>, new: &Unit<'_>) -> bool
    requires old { HasTypeEntry old.now }
    requires new { HasTypeEntry new.now }
    ensures { (a b : UnitMeaning) → MeansHeader old.now a → MeansHeader new.now b → IsTrue result ↔ HaveOtherHeads a b }
{
    let (first, second) = (old.head(), new.head());
    first.kind != second.kind || first.extra != second.extra || type_entry(old) != type_entry(new)
}

/// Whether the unit with a number has another type, another signature or dwo_id, or another entry of its type in the other file.
pub(crate) fn have_other_heads(before: &World<'_>, after: &World<'_>, unit: u32) -> bool
    requires before { IsSomeWorld before.now }
    requires after { IsSomeWorld after.now }
    requires known { unit < length before.now.units }
    requires again { unit < length after.now.units }
    ensures { OfMeanings before.now after.now (λ c d. (a b : UnitMeaning) → slice_get c.units unit ≡ Some a → slice_get d.units unit ≡ Some b → IsTrue result ↔ HaveOtherHeads a b) }
{
    one_reading();
    heads_differ(
        &before.units()[unit as usize],
        &after.units()[unit as usize],
    )
}

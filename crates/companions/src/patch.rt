// Sets of address ranges named anew.
ghost use Rattle.std.specs.Prelude.{◌≡◌, ◌<◌, ◌^◌, ℕ, List, length, slice_index};
ghost use Rattle.std.specs.List.{All};
ghost use Rattle.companions.specs.Aranges.{debug_info_offset, SetsTile, HaveUnits, IsOutside};

use crate::set::ArangeSet;
use fixed_width::put_u32;

/// Writes into `section`, the body of .debug_aranges (DWARF 5 section 6.1.2), where the units of its sets begin now.
/// `sets` are all its sets, as they were read, and `starts` are the new places of the units in .debug_info, by their
/// numbers. The debug_info_offset of each set is written, and no other byte. It takes no memory.
pub fn patch_aranges(section: &mut [u8], sets: &Vec<ArangeSet>, starts: &Vec<u64>)
    requires sets { (old_starts : List ℕ) × SetsTile section.old old_starts sets.now.items }
    requires units { HaveUnits (length starts.now.items) sets.now.items }
    requires fit { All (λ start. start < 2 ^ 32) starts.now.items }
    ensures offsets { All (λ set. debug_info_offset section.new set.at ≡ slice_index starts.now.items set.unit) sets.now.items }
    ensures others { (k : ℕ) → IsOutside sets.now.items k → slice_index section.new k ≡ slice_index section.old k }
    ensures size { length section.new ≡ length section.old }
    ensures tiled { SetsTile section.new starts.now.items sets.now.items }
{
    for set in sets {
        let start = starts[set.unit as usize];
        put_u32(section, set.at as usize + 6, start as u32);
    }
}

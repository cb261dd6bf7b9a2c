// Line number programs that aren't as the classes have them.
ghost use Rattle.dw_base.specs.declared.fault.Reach.{Reach};
ghost use Rattle.value_links.specs.World.{IsWorldOf};
ghost use Rattle.tidy_places.specs.Firsts.{IsLeastFound};
ghost use Rattle.tidy_files.specs.Tidy.{IsOtherProgram, IsOtherLineByte, IsLineAmiss};

use dw_base::Classes;
use tidy_tables::offset_in_file;
use value_links::World;

// The opcode_base under which opcodes 1 to 12 are the standard ones (DWARF 5 section 6.2.5.2).
const STANDARD_BASE: u8 = 13;

/// The first line number program whose opcode_base isn't 13, as an offset in the file (DWARF 5 section 6.2.4).
fn first_other_program(world: &World<'_>) -> Option<u64>
    requires { (reach : Reach) × IsWorldOf world.now.image reach world.now }
    ensures { IsLeastFound (IsOtherProgram world.now.image) result }
{
    for head in world.programs() {
        if head.opcode_base != STANDARD_BASE {
            return Some(offset_in_file(world, b".debug_line".as_slice(), head.at));
        }
    }
    None
}

/// The first byte of .debug_line that isn't the one that stood there, as an offset in the file.
fn first_other_byte(before: &World<'_>, after: &World<'_>) -> Option<u64>
    ensures { IsLeastFound (IsOtherLineByte before.now.image after.now.image) result }
{
    let name = b".debug_line".as_slice();
    let old = before.section(name);
    let new = after.section(name);
    let common = old.len().min(new.len());
    for place in 0..common {
        if old[place] != new[place] {
            return Some(offset_in_file(after, name, place as u64));
        }
    }
    if old.len() == new.len() {
        return None;
    }
    // The one that goes on has a byte where the other has none.
    Some(offset_in_file(after, name, common as u64))
}

/// What is amiss with the line number programs, by its first place as an offset in the file (DWARF 5 section 6.2.4): where the classes have all
/// opcodes, a program whose opcode_base isn't 13; where .debug_line is kept, a byte that isn't the one that stood there.
pub(crate) fn first_line_amiss(
    classes: Classes,
    before: &World<'_>,
    after: &World<'_>,
) -> Option<u64>
    requires { (reach : Reach) × IsWorldOf after.now.image reach after.now }
    ensures { IsLeastFound (IsLineAmiss classes before.now.image after.now.image) result }
{
    if classes.lines {
        first_other_program(after)
    } else {
        first_other_byte(before, after)
    }
}

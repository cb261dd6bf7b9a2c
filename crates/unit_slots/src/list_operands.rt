// The operands of an entry of a list.
ghost use Rattle.std.specs.Prelude.{◌≡◌, ℕ};
ghost use Rattle.entry_arena.specs.Trees.{SpellsBetween};
ghost use Rattle.list_model.specs.Entries.{SpellsOperand};
ghost use Rattle.unit_slots.specs.Standing.{OperandsEnd};

use leb_codec::read_u;
use list_model::{ListKind, Operand, RawEntry, first_operand, kind_of, second_operand};

// How many bytes an address has.
const ADDRESS_SIZE: usize = 8;

// The place behind the operand at a place.
fn operand_end(section: &[u8], at: usize, operand: Operand) -> usize
    requires { (value : ℕ) × (end : ℕ) × SpellsBetween (SpellsOperand operand value) section.now at end }
    ensures { (value end : ℕ) → SpellsBetween (SpellsOperand operand value) section.now at end → result ≡ end }
{
    match operand {
        Operand::Absent => at,
        Operand::Address => at + ADDRESS_SIZE,
        Operand::Number => match read_u(section, at) {
            Ok(number) => number.end,
            // A number that stands there ends and fits.
            Err(_) => unreachable!(),
        },
    }
}

/// The place behind the operands of an entry of a list, which stand in the section behind its code (DWARF 5 sections 2.6.2, 2.17.3, 7.7.3
/// and 7.25). Places count from the section's first byte.
pub fn operands_end(section: &[u8], list: ListKind, raw: &RawEntry) -> usize
    requires { (end : ℕ) × OperandsEnd list section.now raw.now end }
    ensures { OperandsEnd list section.now raw.now result }
{
    match kind_of(list, raw.code) {
        Some(kind) => {
            let second = operand_end(section, raw.at as usize + 1, first_operand(kind));
            operand_end(section, second, second_operand(kind))
        }
        // The entry has a kind.
        None => unreachable!(),
    }
}

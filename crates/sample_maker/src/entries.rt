// The entries of units, by the declarations of the abbreviation table. References count from the first byte of the unit.
ghost use Rattle.std.specs.Prelude.{◌≡◌, ◌++◌, OnOk};
ghost use Rattle.sample_maker.specs.inside.Bytes.{root_bytes, function_entry_bytes, parameter_entry_bytes, block_entry_bytes, base_type_bytes};

use crate::abbrevs::{BASE_TYPE, BLOCK, FUNCTION, PARAMETER, UNIT};
use crate::numbers::{put_long, put_word};
use dw_base::NoMemory;

/// The bytes of the entries, with their codes.
pub(crate) const ROOT_SIZE: u64 = 34;

pub(crate) const FUNCTION_SIZE: u64 = 30;

pub(crate) const PARAMETER_SIZE: u64 = 16;

pub(crate) const BLOCK_SIZE: u64 = 5;

pub(crate) const BASE_TYPE_SIZE: u64 = 7;

// DW_LANG_C11
const LANGUAGE: u8 = 0x1d;

// The directory of a unit in .debug_line_str, whose name stands at 0.
const COMP_DIR: u64 = 4;

/// The addresses of a unit.
pub(crate) const UNIT_EXTENT: u64 = 0x1_0000;

// The names `f` and `x` with their byte 0.
const FUNCTION_NAME: [u8; 2] = [0x66, 0];

const PARAMETER_NAME: [u8; 2] = [0x78, 0];

// One byte: DW_OP_call_frame_cfa.
const FRAME_BASE: [u8; 2] = [1, 0x9c];

// The type `int`: 4 bytes, DW_ATE_signed.
const INT: [u8; 6] = [4, 5, 0x69, 0x6e, 0x74, 0];

/// Where the lines of an entry and its type are declared.
#[derive(Clone, Copy)]
pub(crate) struct Declared {
    /// DW_AT_decl_line
    pub(crate) line: u8,
    /// The place of the entry of its type.
    pub(crate) base_type: u64,
}

/// Appends the root of a unit. Its addresses begin at `low`, and `program` is the place of its line number program.
#[tactic(auto, unfolding(crate::specs::inside::Bytes::root_bytes))]
pub(crate) fn put_root(out: &mut Vec<u8>, low: u64, program: u64) -> Result<(), NoMemory>
    ensures { OnOk result (out.new.items ≡ out.old.items ++ root_bytes low program) }
{
    out.push(UNIT)?;
    put_word(out, 0)?;
    out.push(LANGUAGE)?;
    put_word(out, 0)?;
    put_word(out, COMP_DIR)?;
    put_long(out, low)?;
    put_long(out, UNIT_EXTENT)?;
    put_word(out, program)
}

/// Appends the entry of a function, which begins at `low` and has so many bytes. `sibling` is the place of the next child of the
/// root.
#[tactic(auto, unfolding(crate::specs::inside::Bytes::function_entry_bytes))]
pub(crate) fn put_function_entry(
    out: &mut Vec<u8>,
    declared: Declared,
    low: u64,
    size: u32,
    sibling: u64,
) -> Result<(), NoMemory>
    ensures { OnOk result (out.new.items ≡ out.old.items ++ function_entry_bytes declared.line declared.base_type low size sibling) }
{
    out.push(FUNCTION)?;
    out.extend_from_slice(&FUNCTION_NAME)?;
    out.push(declared.line)?;
    put_word(out, declared.base_type)?;
    put_long(out, low)?;
    put_long(out, u64::from(size))?;
    out.extend_from_slice(&FRAME_BASE)?;
    put_word(out, sibling)
}

/// Appends the entry of a parameter, whose location list and view pairs stand at these places of .debug_loclists.
#[tactic(auto, unfolding(crate::specs::inside::Bytes::parameter_entry_bytes))]
pub(crate) fn put_parameter_entry(
    out: &mut Vec<u8>,
    declared: Declared,
    list: u64,
    views: u64,
) -> Result<(), NoMemory>
    ensures { OnOk result (out.new.items ≡ out.old.items ++ parameter_entry_bytes declared.line declared.base_type list views) }
{
    out.push(PARAMETER)?;
    out.extend_from_slice(&PARAMETER_NAME)?;
    out.push(declared.line)?;
    put_word(out, declared.base_type)?;
    put_word(out, list)?;
    put_word(out, views)
}

/// Appends the entry of a block, whose range list stands at this place of .debug_rnglists.
#[tactic(auto, unfolding(crate::specs::inside::Bytes::block_entry_bytes))]
pub(crate) fn put_block_entry(out: &mut Vec<u8>, list: u64) -> Result<(), NoMemory>
    ensures { OnOk result (out.new.items ≡ out.old.items ++ block_entry_bytes list) }
{
    out.push(BLOCK)?;
    put_word(out, list)
}

/// Appends the entry of the type `int`.
#[tactic(auto, unfolding(crate::specs::inside::Bytes::base_type_bytes))]
pub(crate) fn put_base_type(out: &mut Vec<u8>) -> Result<(), NoMemory>
    ensures { OnOk result (out.new.items ≡ out.old.items ++ base_type_bytes) }
{
    out.push(BASE_TYPE)?;
    out.extend_from_slice(&INT)?;
    Ok(())
}

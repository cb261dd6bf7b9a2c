// Units of .debug_info (DWARF 5 section 7.5), each with what its entries name in the other sections.
ghost use Rattle.std.specs.Prelude.{◌≡◌, ◌≤◌, ◌<◌, ◌+◌, ◌*◌, ◌++◌, ◌^◌, length, map, OnOk};
ghost use Rattle.std.specs.List.{All, concat};
ghost use Rattle.sample_maker.specs.Drawn.{function_of, unit_of};
ghost use Rattle.sample_maker.specs.Places.{unit_base as base_of, function_offset as offset_of};
ghost use Rattle.sample_maker.specs.inside.Bytes.{unit_head_bytes, located_bytes, block_list, program_bytes, set_bytes};
ghost use Rattle.sample_maker.specs.inside.Files.{function_size, function_locations, function_ranges, function_bytes_of, functions_bytes, unit_locations, unit_ranges, unit_bytes, parameter_entries_bytes, block_entry_of, type_place as type_place_of};
ghost use Rattle.sample_maker.specs.inside.Small.{IsFunctionSmall, IsUnitSmall};

use crate::aranges::put_set;
use crate::drawn::{Function, Unit};
use crate::entries::{
    BASE_TYPE_SIZE, BLOCK_SIZE, Declared, FUNCTION_SIZE, PARAMETER_SIZE, ROOT_SIZE, put_base_type,
    put_block_entry, put_function_entry, put_parameter_entry, put_root,
};
use crate::lines::put_program;
use crate::lists::{HEADER_SIZE, VIEWS_SIZE, put_location_list, put_range_list};
use crate::numbers::put_word;
use dw_base::NoMemory;
use std::alloc::Global;

/// The debug sections, those of lists without the header of their contribution.
#[derive(Drop)]
pub(crate) struct Sections {
    pub(crate) info: Vec<u8>,
    pub(crate) lines: Vec<u8>,
    pub(crate) ranges: Vec<u8>,
    pub(crate) locations: Vec<u8>,
    pub(crate) aranges: Vec<u8>,
}

const UNIT_HEAD_SIZE: u64 = 12;

const LENGTH_SIZE: u64 = 4;

// The header behind its length: version 5, a compile unit, addresses of 8 bytes, and the abbreviation table at 0.
const UNIT_HEAD: [u8; 8] = [5, 0, 1, 8, 0, 0, 0, 0];

const CHAIN_END: u8 = 0;

const CHAIN_END_SIZE: u64 = 1;

/// Where the addresses of a unit with a number begin.
pub(crate) fn unit_base(number: u32) -> u64
    ensures { result ≡ base_of number }
{
    0x40_0000 + 0x1_0000 * u64::from(number)
}

/// Where a function with a number begins, counted from the first address of its unit.
pub(crate) fn function_offset(number: u32) -> u32
    requires { number < 8 }
    ensures { result ≡ offset_of number }
{
    0x1000 * number
}

// The bytes of a function's entry with its children.
fn function_bytes(function: &Function) -> u64
    requires { IsFunctionSmall (function_of function.now) }
    ensures { result ≡ function_size (function_of function.now) }
{
    let block = if function.ranges.is_empty() {
        0
    } else {
        BLOCK_SIZE
    };
    FUNCTION_SIZE + PARAMETER_SIZE * function.parameters.len() as u64 + block + CHAIN_END_SIZE
}

// The place of the first function in its unit.
const FUNCTIONS_AT: u64 = UNIT_HEAD_SIZE + ROOT_SIZE;

// The place of the type in its unit, behind the functions.
fn type_place(unit: &Unit) -> u64
    requires { IsUnitSmall (unit_of unit.now) }
    ensures { result ≡ type_place_of (unit_of unit.now) }
{
    let mut place = FUNCTIONS_AT;
    for function in &unit.functions {
        place += function_bytes(function);
    }
    place
}

#[tactic(auto, unfolding(crate::specs::inside::Bytes::unit_head_bytes))]
fn put_head(out: &mut Vec<u8>, base_type: u64) -> Result<(), NoMemory>
    requires { base_type < 2 ^ 32 }
    ensures { OnOk result (out.new.items ≡ out.old.items ++ unit_head_bytes base_type) }
{
    let end = base_type + BASE_TYPE_SIZE + CHAIN_END_SIZE;
    put_word(out, end - LENGTH_SIZE)?;
    out.extend_from_slice(&UNIT_HEAD)?;
    Ok(())
}

// Appends the parameters of a function, which begins at an offset in its unit.
fn put_parameters(
    info: &mut Vec<u8>,
    locations: &mut Vec<u8>,
    declared: Declared,
    offset: u32,
    function: &Function,
) -> Result<(), NoMemory>
    requires offset { offset < 2 ^ 16 }
    requires small { IsFunctionSmall (function_of function.now) }
    ensures info { OnOk result (info.new.items ≡ info.old.items ++ parameter_entries_bytes declared.line declared.base_type offset function.now.size (length locations.old.items) function.now.parameters.items) }
    ensures locations { OnOk result (locations.new.items ≡ locations.old.items ++ concat (map (located_bytes offset function.now.size) function.now.parameters.items)) }
{
    for parameter in &function.parameters {
        let views = HEADER_SIZE + locations.len() as u64;
        put_location_list(locations, offset, function.size, *parameter)?;
        put_parameter_entry(info, declared, views + VIEWS_SIZE, views)?;
    }
    Ok(())
}

// Appends the block of a function that begins at an address, where it has one.
fn put_block(
    info: &mut Vec<u8>,
    ranges: &mut Vec<u8>,
    address: u64,
    sizes: &Vec<u32>,
) -> Result<(), NoMemory>
    requires low { address < 2 ^ 60 }
    requires few { length sizes.now.items ≤ 3 }
    requires small { All (λ size. size < 16) sizes.now.items }
    ensures info { OnOk result (info.new.items ≡ info.old.items ++ block_entry_of (length ranges.old.items) sizes.now.items) }
    ensures ranges { OnOk result (ranges.new.items ≡ ranges.old.items ++ block_list address sizes.now.items) }
{
    if sizes.is_empty() {
        return Ok(());
    }
    let list = HEADER_SIZE + ranges.len() as u64;
    put_range_list(ranges, address, sizes)?;
    put_block_entry(info, list)
}

// Appends a function. It and its unit have numbers, the type of the unit stands at a place of it, and so does the next sibling.
#[tactic(auto, unfolding(crate::specs::inside::Files::function_bytes_of))]
fn put_function(
    sections: &mut Sections,
    unit: u32,
    number: u32,
    base_type: u64,
    sibling: u64,
    function: &Function,
) -> Result<(), NoMemory>
    requires unit { unit < 4096 }
    requires number { number < 8 }
    requires small { IsFunctionSmall (function_of function.now) }
    ensures info { OnOk result (sections.new.info.items ≡ sections.old.info.items ++ function_bytes_of unit number base_type sibling (length sections.old.locations.items) (length sections.old.ranges.items) (function_of function.now)) }
    ensures locations { OnOk result (sections.new.locations.items ≡ sections.old.locations.items ++ function_locations number (function_of function.now)) }
    ensures ranges { OnOk result (sections.new.ranges.items ≡ sections.old.ranges.items ++ function_ranges unit number (function_of function.now)) }
    ensures lines { OnOk result (sections.new.lines.items ≡ sections.old.lines.items) }
    ensures aranges { OnOk result (sections.new.aranges.items ≡ sections.old.aranges.items) }
{
    let offset = function_offset(number);
    let address = unit_base(unit) + u64::from(offset);
    let declared = Declared {
        line: number as u8 + 1,
        base_type,
    };
    put_function_entry(
        &mut sections.info,
        declared,
        address,
        function.size,
        sibling,
    )?;
    put_parameters(
        &mut sections.info,
        &mut sections.locations,
        declared,
        offset,
        function,
    )?;
    put_block(
        &mut sections.info,
        &mut sections.ranges,
        address,
        &function.ranges,
    )?;
    sections.info.push(CHAIN_END)?;
    Ok(())
}

// Appends the functions of a unit, which has a number. Its type stands at a place of it.
fn put_functions(
    sections: &mut Sections,
    number: u32,
    base_type: u64,
    unit: &Unit,
) -> Result<(), NoMemory>
    requires number { number < 4096 }
    requires small { IsUnitSmall (unit_of unit.now) }
    ensures info { OnOk result (sections.new.info.items ≡ sections.old.info.items ++ functions_bytes number base_type 0 46 (length sections.old.locations.items) (length sections.old.ranges.items) (unit_of unit.now)) }
    ensures locations { OnOk result (sections.new.locations.items ≡ sections.old.locations.items ++ unit_locations (unit_of unit.now)) }
    ensures ranges { OnOk result (sections.new.ranges.items ≡ sections.old.ranges.items ++ unit_ranges number (unit_of unit.now)) }
    ensures lines { OnOk result (sections.new.lines.items ≡ sections.old.lines.items) }
    ensures aranges { OnOk result (sections.new.aranges.items ≡ sections.old.aranges.items) }
{
    let mut sibling = FUNCTIONS_AT;
    for (i, function) in unit.functions.iter().enumerate() {
        sibling += function_bytes(function);
        put_function(sections, number, i as u32, base_type, sibling, function)?;
    }
    Ok(())
}

/// Appends a unit, which has a number, to all sections.
#[tactic(auto, unfolding(crate::specs::inside::Files::unit_bytes))]
pub(crate) fn put_unit(
    alloc: Global,
    sections: &mut Sections,
    number: u32,
    unit: &Unit,
) -> Result<(), NoMemory>
    requires number { number < 4096 }
    requires small { IsUnitSmall (unit_of unit.now) }
    ensures info { OnOk result (sections.new.info.items ≡ sections.old.info.items ++ unit_bytes number (length sections.old.lines.items) (length sections.old.locations.items) (length sections.old.ranges.items) (unit_of unit.now)) }
    ensures lines { OnOk result (sections.new.lines.items ≡ sections.old.lines.items ++ program_bytes number (unit_of unit.now)) }
    ensures locations { OnOk result (sections.new.locations.items ≡ sections.old.locations.items ++ unit_locations (unit_of unit.now)) }
    ensures ranges { OnOk result (sections.new.ranges.items ≡ sections.old.ranges.items ++ unit_ranges number (unit_of unit.now)) }
    ensures aranges { OnOk result (sections.new.aranges.items ≡ sections.old.aranges.items ++ set_bytes (length sections.old.info.items)) }
{
    let base_type = type_place(unit);
    put_set(&mut sections.aranges, sections.info.len() as u64)?;
    put_head(&mut sections.info, base_type)?;
    put_root(
        &mut sections.info,
        unit_base(number),
        sections.lines.len() as u64,
    )?;
    put_program(alloc, &mut sections.lines, number, unit)?;
    put_functions(sections, number, base_type, unit)?;
    put_base_type(&mut sections.info)?;
    sections.info.push(CHAIN_END)?;
    Ok(())
}

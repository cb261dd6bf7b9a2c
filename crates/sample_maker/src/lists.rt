// Location lists with view pairs, and range lists (DWARF 5 sections 2.6.2, 2.17.3, 7.7.3 and 7.25).
ghost use Rattle.std.specs.Prelude.{◌≡◌, ◌≤◌, ◌<◌, ◌+◌, ◌*◌, ◌++◌, ◌^◌, length, OnOk};
ghost use Rattle.std.specs.List.{All};
ghost use Rattle.sample_maker.specs.inside.Bytes.{offset_pair_bytes, located_bytes, range_bytes, part_bytes};

use crate::drawn::Parameter;
use crate::numbers::{put_long, put_small, put_word};
use dw_base::NoMemory;

const LIST_END: u8 = 0;

const DW_LLE_OFFSET_PAIR: u8 = 4;

const DW_RLE_START_END: u8 = 6;

// The value 0: DW_OP_lit0 and DW_OP_stack_value.
const ZERO: [u8; 2] = [0x30, 0x9f];

const DW_OP_REG0: u8 = 0x50;

// The view pairs of a list: the numbers 0 and 1, and 1 and 0.
const VIEWS: [u8; 4] = [0, 1, 1, 0];

/// How many bytes the view pairs before a location list have.
pub(crate) const VIEWS_SIZE: u64 = 4;

/// The bytes of the header of a contribution.
pub(crate) const HEADER_SIZE: u64 = 12;

// The header of a contribution behind its length: version 5, addresses of 8 bytes and no offsets.
const HEADER: [u8; 8] = [5, 0, 8, 0, 0, 0, 0, 0];

// Appends an offset_pair of a location list with its expression, which is shorter than 128 bytes.
fn put_offset_pair(out: &mut Vec<u8>, from: u32, to: u32, expression: &[u8]) -> Result<(), NoMemory>
    requires from { from < 2097152 }
    requires to { to < 2097152 }
    requires short { length expression.now < 128 }
    ensures { OnOk result (out.new.items ≡ out.old.items ++ offset_pair_bytes from to expression.now) }
{
    out.push(DW_LLE_OFFSET_PAIR)?;
    put_small(out, u64::from(from))?;
    put_small(out, u64::from(to))?;
    put_small(out, expression.len() as u64)?;
    out.extend_from_slice(expression)?;
    Ok(())
}

/// Appends the view pairs and the location list of a parameter. Its function begins at an offset in its unit, and has so many
/// bytes.
#[tactic(auto, unfolding(crate::specs::inside::Bytes::located_bytes))]
pub(crate) fn put_location_list(
    out: &mut Vec<u8>,
    offset: u32,
    size: u32,
    parameter: Parameter,
) -> Result<(), NoMemory>
    requires offset { offset < 2 ^ 16 }
    requires size { size < 2 ^ 16 }
    requires split { parameter.split < 2 ^ 16 }
    requires register { parameter.register < 16 }
    ensures { OnOk result (out.new.items ≡ out.old.items ++ located_bytes offset size parameter) }
{
    let split = offset + parameter.split;
    out.extend_from_slice(&VIEWS)?;
    put_offset_pair(out, offset, split, &[DW_OP_REG0 + parameter.register])?;
    put_offset_pair(out, split, offset + size, &ZERO)?;
    out.push(LIST_END)?;
    Ok(())
}

/// Appends the range list of the block in a function that begins at an address. The ranges begin 4 bytes apart, and these are
/// their sizes.
#[tactic(auto, unfolding(crate::specs::inside::Bytes::range_bytes))]
pub(crate) fn put_range_list(
    out: &mut Vec<u8>,
    address: u64,
    sizes: &Vec<u32>,
) -> Result<(), NoMemory>
    requires low { address < 2 ^ 60 }
    requires few { length sizes.now.items ≤ 3 }
    requires small { All (λ size. size < 16) sizes.now.items }
    ensures { OnOk result (out.new.items ≡ out.old.items ++ range_bytes address sizes.now.items) }
{
    let mut start = address;
    for size in sizes {
        out.push(DW_RLE_START_END)?;
        put_long(out, start)?;
        put_long(out, start + u64::from(*size))?;
        start += 4;
    }
    out.push(LIST_END)?;
    Ok(())
}

/// Appends the one contribution of a section of lists.
#[tactic(auto, unfolding(crate::specs::inside::Bytes::part_bytes))]
pub(crate) fn put_contribution(out: &mut Vec<u8>, lists: &Vec<u8>) -> Result<(), NoMemory>
    ensures { OnOk result (out.new.items ≡ out.old.items ++ part_bytes lists.now.items) }
{
    put_word(out, (HEADER.len() + lists.len()) as u64)?;
    out.extend_from_slice(&HEADER)?;
    out.extend_from_slice(lists)?;
    Ok(())
}

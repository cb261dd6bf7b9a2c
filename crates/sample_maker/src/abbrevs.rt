// The abbreviation table of all units (DWARF 5 section 7.5.3).
ghost use Rattle.std.specs.Prelude.{◌≡◌, ◌++◌, OnOk};
ghost use Rattle.sample_maker.specs.inside.Images.{table_bytes};

use dw_base::NoMemory;

/// The codes of the declarations.
pub(crate) const UNIT: u8 = 1;

pub(crate) const FUNCTION: u8 = 2;

pub(crate) const PARAMETER: u8 = 3;

pub(crate) const BASE_TYPE: u8 = 4;

pub(crate) const BLOCK: u8 = 5;

/// The table: each declaration has its code, its tag, whether it has children, and pairs of an attribute and a form.
pub(crate) const TABLE: [u8; 78] = [
    // DW_TAG_compile_unit: producer strp, language data1, name and comp_dir line_strp, low_pc addr, high_pc data8, stmt_list
    // sec_offset
    UNIT, 0x11, 1, 0x25, 0x0e, 0x13, 0x0b, 0x03, 0x1f, 0x1b, 0x1f, 0x11, 0x01, 0x12, 0x07, 0x10,
    0x17, 0, 0,
    // DW_TAG_subprogram: external flag_present, name string, decl_file implicit_const 1, decl_line data1, type ref4, low_pc addr,
    // high_pc data8, frame_base exprloc, sibling ref4
    FUNCTION, 0x2e, 1, 0x3f, 0x19, 0x03, 0x08, 0x3a, 0x21, 1, 0x3b, 0x0b, 0x49, 0x13, 0x11, 0x01,
    0x12, 0x07, 0x40, 0x18, 0x01, 0x13, 0, 0,
    // DW_TAG_formal_parameter: name string, decl_line data1, type ref4, location and GNU_locviews sec_offset
    PARAMETER, 0x05, 0, 0x03, 0x08, 0x3b, 0x0b, 0x49, 0x13, 0x02, 0x17, 0xb7, 0x42, 0x17, 0, 0,
    // DW_TAG_base_type: byte_size and encoding data1, name string
    BASE_TYPE, 0x24, 0, 0x0b, 0x0b, 0x3e, 0x0b, 0x03, 0x08, 0, 0,
    // DW_TAG_lexical_block: ranges sec_offset
    BLOCK, 0x0b, 0, 0x55, 0x17, 0, 0,
    // no further declaration
    0,
];

/// Appends the table.
#[tactic(auto, unfolding(crate::specs::inside::Images::table_bytes))]
pub(crate) fn put_table(out: &mut Vec<u8>) -> Result<(), NoMemory>
    ensures { OnOk result (out.new.items ≡ out.old.items ++ table_bytes) }
{
    out.extend_from_slice(&TABLE)?;
    Ok(())
}

// The bytes of values that are written.
ghost use Rattle.std.specs.Prelude.{◌<◌, ◌≡◌, ◌^◌, ℕ, List, length, OnOk, OnErr};
ghost use Rattle.spelled.specs.Spelled.{Appends};
ghost use Rattle.leb_codec.specs.Digits.{Extends};
ghost use Rattle.form_codec.specs.Values.{meant_in, LiesIn, IsValueIn};
ghost use Rattle.entry_read.specs.Short.{IsWritten};
ghost use Rattle.unit_write.specs.Values.{renewed, HasSize};
ghost use Rattle.unit_write.specs.inside.Puts.{PutsCounted};

use crate::laws::bytes_are_small;
use abbrev_tables::Spec;
use dw_base::NoMemory;
use form_codec::{Value, Width, put_low, spelled_size, write_value};
use leb_codec::put_u;

// The bytes of DW_FORM_ref_addr and DW_FORM_sec_offset in the 32-bit format.
const OFFSET_SIZE: u64 = 4;

/// How many bytes are written for the value of a column (DWARF 5 section 7.5.6), with the shortest LEB128 number. A reference within the
/// unit gets `len` bytes, and so does an expression with its length. Of a form that doesn't spell the value it says nothing.
pub(crate) fn written_size(column: Spec, value: &Value, len: u32) -> u64
    ensures { (section : List ℕ) (size : ℕ) → length section < 2 ^ 63 → IsValueIn section value.now → HasSize column (meant_in section value.now) len size → result ≡ size }
{
    match *value {
        Value::Expr(_) => u64::from(len),
        Value::LocalRef(_) => u64::from(len),
        Value::SectionRef(_) => OFFSET_SIZE,
        Value::Offset(_) => OFFSET_SIZE,
        _ => spelled_size(column.name, column.form, value),
    }
}

// Appends the bytes of an expression behind their length, or a front of these (DWARF 5 section 7.5.6).
fn put_counted(out: &mut Vec<u8>, made: &[u8]) -> Result<(), NoMemory>
    ensures ok { OnOk result (Appends PutsCounted made.now out.old.items out.new.items) }
    ensures err { OnErr result (Extends out.old.items out.new.items) }
{
    put_u(out, made.len() as u64)?;
    out.extend_from_slice(made)?;
    Ok(())
}

/// Appends the value of a column, with a number of its own where it is a reference or a section offset, and with the bytes `made`
/// where it is an expression (DWARF 5 sections 7.5.5 and 7.5.6). The value's span counts in `section`. An Err leaves a front of
/// these bytes behind `out`.
pub(crate) fn put_value(
    out: &mut Vec<u8>,
    column: Spec,
    value: &Value,
    number: u64,
    made: &[u8],
    section: &[u8],
) -> Result<(), NoMemory>
    requires sized { (len : ℕ) × (size : ℕ) × HasSize column (meant_in section.now value.now) len size }
    requires inside { LiesIn (length section.now) value.now }
    requires narrow { number < 2 ^ 32 }
    ensures ok { OnOk result (Appends (IsWritten column) (renewed number made.now (meant_in section.now value.now)) out.old.items out.new.items) }
    ensures err { OnErr result (Extends out.old.items out.new.items) }
{
    bytes_are_small(made);
    match *value {
        Value::Expr(_) => put_counted(out, made),
        Value::LocalRef(_) => put_u(out, number),
        Value::SectionRef(_) => put_low(out, Width::Four, number),
        Value::Offset(_) => put_low(out, Width::Four, number),
        _ => write_value(out, column.name, column.form, value, section),
    }
}

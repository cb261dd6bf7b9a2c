// Each form, by hand from the table of DWARF 5 section 7.5.6.
use dw_base::{NoMemory, Span};
use form_codec::{
    ReadValue, Value, Whole, admits, known, read_value, size_of, spelled_size, unsigned,
    write_value,
};

// DW_AT_const_value, under which a constant of fixed size doesn't tell its sign.
const CONST_VALUE: u64 = 0x1c;

#[derive(Clone, Copy)]
struct Row {
    name: u64,
    form: u64,
    bytes: &'static [u8],
    value: Value,
    size: u64,
}

fn example(form: u64, bytes: &'static [u8], value: Value, size: u64) -> Row {
    Row {
        name: CONST_VALUE,
        form,
        bytes,
        value,
        size,
    }
}

// The same of an attribute with another name.
fn named(name: u64, form: u64, bytes: &'static [u8], value: Value, size: u64) -> Row {
    Row {
        name,
        form,
        bytes,
        value,
        size,
    }
}

fn span(at: u64, len: u64) -> Span {
    Span { at, len }
}

fn int(number: i64) -> Value {
    Value::Int(Whole::signed(number))
}

// What the form reads from the whole bytes, and that no shorter front is enough.
fn reads(row: &Row) -> bool {
    let bytes = row.bytes;
    if !known(row.form) {
        return false;
    }
    let end = bytes.len();
    let whole = read_value(bytes, 0, end, row.name, row.form, -5, 100);
    let value = row.value;
    let mut right = whole == Ok(ReadValue { value, end });
    for cut in 0..end {
        match read_value(bytes, 0, cut, row.name, row.form, -5, 100) {
            Ok(_) => right = false,
            Err(fault) => right = right && fault.place == 100,
        }
    }
    right
}

// What the form writes of what it reads, and how many bytes it counts.
fn writes(row: &Row, written: &[u8], out: &mut Vec<u8>) -> Result<bool, NoMemory> {
    let bytes = row.bytes;
    if !known(row.form) {
        return Ok(false);
    }
    let Ok(read) = read_value(bytes, 0, bytes.len(), row.name, row.form, -5, 0) else {
        return Ok(false);
    };
    if !admits(row.name, row.form, &read.value) {
        return Ok(false);
    }
    out.clear();
    write_value(out, row.name, row.form, &read.value, bytes)?;
    Ok(out.as_slice() == written && size_of(row.form, &read.value) == row.size)
}

#[test]
fn each_form(rt: HostRuntime) -> Result<(), NoMemory> {
    let eight = &[1, 2, 3, 4, 5, 6, 7, 0x88];
    let long = 0x8807_0605_0403_0201;
    let rows = [
        example(0x01, eight, Value::Addr(long), 8),
        example(0x03, &[2, 0, 7, 8], Value::Block(span(2, 2)), 4),
        example(0x04, &[1, 0, 0, 0, 7], Value::Block(span(4, 1)), 5),
        example(0x05, &[0xff, 0x80], Value::Fixed(2, 0x80ff), 2),
        example(0x06, &[1, 0, 0, 0], int(1), 4),
        example(0x07, eight, Value::Fixed(8, long), 8),
        example(0x08, &[97, 98, 0], Value::Text(span(0, 2)), 3),
        example(0x09, &[1, 7], Value::Block(span(1, 1)), 2),
        example(0x0a, &[1, 7], Value::Block(span(1, 1)), 2),
        example(0x0b, &[0xff], Value::Fixed(1, 0xff), 1),
        example(0x0c, &[1], Value::Flag(true), 1),
        example(0x0d, &[0xc0, 0xbb, 0x78], int(-123_456), 3),
        example(0x0e, &[4, 3, 2, 1], Value::StrOffset(0x0102_0304), 4),
        example(0x0f, &[0xe5, 0x8e, 0x26], int(624_485), 3),
        example(0x10, &[4, 3, 2, 1], Value::SectionRef(0x0102_0304), 4),
        example(0x15, &[0x80, 1], Value::LocalRef(128), 0),
        example(0x17, &[4, 3, 2, 1], Value::Offset(0x0102_0304), 4),
        example(0x18, &[2, 0x30, 0x9f], Value::Expr(span(1, 2)), 0),
        example(0x19, &[], Value::Flag(true), 0),
        example(0x1a, &[0x80, 1], Value::StrIndex(128), 2),
        example(0x1b, &[0x80, 1], Value::AddrIndex(128), 2),
    ];
    let mut out = Vec::new(rt.alloc());
    for row in &rows {
        assert!(rt; reads(row), "form {}", row.form);
        assert!(rt; writes(row, row.bytes, &mut out)?, "form {}", row.form);
    }
    Ok(())
}

#[test]
fn each_other_form(rt: HostRuntime) -> Result<(), NoMemory> {
    let eight = &[1, 2, 3, 4, 5, 6, 7, 0x88];
    let long = 0x8807_0605_0403_0201;
    let sixteen = &[0, 1, 2, 3, 4, 5, 6, 7, 8, 9, 10, 11, 12, 13, 14, 15];
    let rows = [
        example(0x1c, &[1, 0, 0, 0], Value::SupRef(4, 1), 4),
        example(0x1d, &[1, 0, 0, 0], Value::SupStr(1), 4),
        example(0x1e, sixteen, Value::Wide16(span(0, 16)), 16),
        example(0x1f, &[1, 0, 0, 0], Value::LineStrOffset(1), 4),
        example(0x20, eight, Value::Signature(long), 8),
        example(0x21, &[], int(-5), 0),
        example(0x22, &[5], Value::LocIndex(5), 1),
        example(0x23, &[5], Value::RangeIndex(5), 1),
        example(0x24, eight, Value::SupRef(8, long), 8),
        example(0x25, &[0xff], Value::StrIndex(255), 1),
        example(0x26, &[0, 1], Value::StrIndex(256), 2),
        example(0x27, &[0, 0, 1], Value::StrIndex(65_536), 3),
        example(0x28, &[0, 0, 0, 1], Value::StrIndex(1 << 24), 4),
        example(0x29, &[0xff], Value::AddrIndex(255), 1),
        example(0x2a, &[0, 1], Value::AddrIndex(256), 2),
        example(0x2b, &[0, 0, 1], Value::AddrIndex(65_536), 3),
        example(0x2c, &[0, 0, 0, 1], Value::AddrIndex(1 << 24), 4),
    ];
    let mut out = Vec::new(rt.alloc());
    for row in &rows {
        assert!(rt; reads(row), "form {}", row.form);
        assert!(rt; writes(row, row.bytes, &mut out)?, "form {}", row.form);
    }
    // forms that are never written
    for form in [0x11, 0x12, 0x13, 0x14] {
        assert!(rt;
            !admits(CONST_VALUE, form, &Value::LocalRef(1)),
            "form {form}"
        );
    }
    assert!(rt; reads(&example(0x12, &[2, 1], Value::LocalRef(258), 0)));
    assert!(rt; !known(0x16) && !known(0x2d) && !known(0));
    // numbers and a flag that aren't written as they were read
    let padded = example(0x0f, &[0x85, 0x80, 0], int(5), 1);
    assert!(rt; reads(&padded) && writes(&padded, &[5], &mut out)?);
    let counted = example(0x09, &[0x81, 0, 7], Value::Block(span(2, 1)), 2);
    assert!(rt; reads(&counted) && writes(&counted, &[1, 7], &mut out)?);
    let flag = example(0x0c, &[2], Value::Flag(true), 1);
    assert!(rt; reads(&flag) && writes(&flag, &[1], &mut out)?);
    Ok(())
}

#[test]
fn values_have_sizes(rt: HostRuntime) {
    let rows = [
        // DW_FORM_udata has as few bytes as the number needs, and DW_FORM_sdata too
        (0x0f, int(127), 1),
        (0x0f, int(128), 2),
        (0x0d, int(-64), 1),
        (0x0d, int(64), 2),
        // DW_FORM_data4, DW_FORM_flag_present, DW_FORM_addr
        (0x06, int(7), 4),
        (0x19, Value::Flag(true), 0),
        (0x01, Value::Addr(0), 8),
        // a text ends with a byte 0
        (0x08, Value::Text(span(0, 3)), 4),
    ];
    for (form, value, size) in rows.iter() {
        assert_eq!(rt; spelled_size(CONST_VALUE, *form, value), *size);
    }
}

// The attributes whose constants have no sign, by the codes of their names (DWARF 5 section 7.5.4): ordering, byte_size, bit_size, high_pc,
// language, visibility, inline, accessibility, calling_convention, decl_column, decl_file, decl_line, encoding, identifier_case, virtuality,
// call_column, call_file, call_line, decimal_sign, digit_count, endianity, alignment and defaulted.
const UNSIGNED: [u64; 23] = [
    0x09, 0x0b, 0x0d, 0x12, 0x13, 0x17, 0x20, 0x32, 0x36, 0x39, 0x3a, 0x3b, 0x3e, 0x42, 0x4c, 0x57,
    0x58, 0x59, 0x5e, 0x5f, 0x65, 0x88, 0x8b,
];

#[test]
fn signs_by_names(rt: HostRuntime) -> Result<(), NoMemory> {
    for name in UNSIGNED {
        assert!(rt; unsigned(name), "name {name}");
    }
    // deleted, data_bit_offset, const_value, bit_stride and one of a vendor
    for name in [0x8a, 0x6b, 0x1c, 0x2e, 0x2107] {
        assert!(rt; !unsigned(name), "name {name}");
    }
    // decl_line fixes the sign of each data form, and bit_stride of none; below the top bit the name tells nothing
    let eight = &[1, 2, 3, 4, 5, 6, 7, 0x88];
    let long = 0x8807_0605_0403_0201;
    let whole = Value::Int(Whole::unsigned(long));
    let rows = [
        named(0x3b, 0x0b, &[0xff], int(255), 1),
        named(0x3b, 0x05, &[0xff, 0x80], int(0x80ff), 2),
        named(0x3b, 0x06, &[0, 0, 0, 0x80], int(0x8000_0000), 4),
        named(0x3b, 0x07, eight, whole, 8),
        named(0x3b, 0x0b, &[0x7f], int(127), 1),
        named(0x3b, 0x0d, &[0x7f], int(-1), 1),
        named(0x2e, 0x0b, &[0xff], Value::Fixed(1, 0xff), 1),
        named(0x2e, 0x05, &[0xff, 0x80], Value::Fixed(2, 0x80ff), 2),
        named(
            0x2e,
            0x06,
            &[0, 0, 0, 0x80],
            Value::Fixed(4, 0x8000_0000),
            4,
        ),
        named(0x2e, 0x07, eight, Value::Fixed(8, long), 8),
        named(0x2e, 0x0b, &[0x7f], int(127), 1),
    ];
    let mut out = Vec::new(rt.alloc());
    for row in &rows {
        assert!(rt; reads(row), "name {}, form {}", row.name, row.form);
        assert!(rt;
            writes(row, row.bytes, &mut out)?,
            "name {}, form {}",
            row.name,
            row.form
        );
    }
    // under each name data1 admits the constants that its bytes spell under that name, and 256 under none
    assert!(rt; admits(0x3b, 0x0b, &int(255)) && !admits(0x2e, 0x0b, &int(255)));
    assert!(rt;
        admits(0x2e, 0x0b, &Value::Fixed(1, 0xff)) && !admits(0x3b, 0x0b, &Value::Fixed(1, 0xff))
    );
    assert!(rt; !admits(0x3b, 0x0b, &int(256)) && !admits(0x3b, 0x0b, &int(-1)));
    Ok(())
}

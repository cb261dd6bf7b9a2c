// Columns whose least forms are worked out by hand from the bytes of each form (DWARF 5 section 7.5.6).
use abbrev_tables::Spec;
use column_forms::{Tallies, Tally, choose};
use dw_base::{Classes, NoMemory, Span};
use form_codec::{Value, Whole, admits, known, read_value, write_value};
use leb_codec::put_s;
use std::alloc::Global;
use std::process::Abort;
use std::test::Fail;

fn int(number: i64) -> Value {
    Value::Int(Whole::signed(number))
}

// A column of an attribute with a name.
fn named(name: u64, form: u64) -> Spec {
    Spec {
        name,
        form,
        constant: 0,
    }
}

// A column of DW_AT_const_value, under which a constant of fixed size doesn't tell its sign.
fn column(form: u64) -> Spec {
    named(0x1c, form)
}

// Whether a column of this form by itself gets the form that is wanted, with its constant.
fn is_chosen(alloc: Global, form: u64, values: &[Value], wanted: u64, constant: i64) -> bool {
    let Ok(specs) = vec![in alloc; column(form)] else {
        return false;
    };
    let Ok(values) = values.to_vec(alloc) else {
        return false;
    };
    if values.is_empty() {
        return false;
    }
    match choose(alloc, &specs, values.len() as u64, &values) {
        Ok(chosen) => {
            chosen.len() == 1
                && chosen[0].name == 0x1c
                && chosen[0].form == wanted
                && chosen[0].constant == constant
        }
        Err(_) => false,
    }
}

#[test]
fn constants_and_flags(rt: HostRuntime) -> Result<(), Fail> {
    let alloc = rt.alloc();
    // data1 ff and 05: what tells no sign has its own width alone
    assert!(rt; is_chosen(alloc, 0x0b, &[Value::Fixed(1, 0xff), int(5)], 0x0b, 0));
    assert!(rt; is_chosen(alloc, 0x05, &[int(5), int(5), int(5)], 0x21, 5));
    assert!(rt; is_chosen(alloc, 0x0b, &[int(5)], 0x0b, 0));
    assert!(rt; is_chosen(alloc, 0x07, &[int(16)], 0x0b, 0));
    // the constant counts in the declaration: 2 bytes in either form, and the input's is kept
    assert!(rt; is_chosen(alloc, 0x0b, &[int(100), int(100)], 0x0b, 0));
    assert!(rt; is_chosen(alloc, 0x0d, &[int(-1), int(-1), int(-1)], 0x21, -1));
    // 3 and 1 bytes in udata and in sdata, of which sdata has the lower code
    assert!(rt; is_chosen(alloc, 0x06, &[int(100_000), int(3)], 0x0d, 0));
    // 128 takes 2 bytes in udata, and so does 64 in sdata alone
    assert!(rt; is_chosen(alloc, 0x06, &[int(128), int(64)], 0x0f, 0));
    assert!(rt;
        is_chosen(
            alloc,
            0x0f,
            &[Value::Int(Whole::unsigned(0xffff_ffff_ffff_ffff))],
            0x0f,
            0
        )
    );
    assert!(rt;
        is_chosen(
            alloc,
            0x0c,
            &[Value::Flag(true), Value::Flag(true)],
            0x19,
            0
        )
    );
    assert!(rt;
        is_chosen(
            alloc,
            0x0c,
            &[Value::Flag(true), Value::Flag(false)],
            0x0c,
            0
        )
    );
    Ok(())
}

const SHORT_BLOCK: Value = Value::Block(Span { at: 0, len: 3 });

const BLOCK_OF_200: Value = Value::Block(Span { at: 0, len: 200 });

const BLOCK_OF_300: Value = Value::Block(Span { at: 0, len: 300 });

#[test]
fn blocks_and_indexes(rt: HostRuntime) -> Result<(), Fail> {
    let alloc = rt.alloc();
    // a count of 1 byte in block and in block1, of which block has the lower code
    assert!(rt; is_chosen(alloc, 0x04, &[SHORT_BLOCK], 0x09, 0));
    assert!(rt; is_chosen(alloc, 0x04, &[BLOCK_OF_200], 0x0a, 0));
    assert!(rt; is_chosen(alloc, 0x04, &[BLOCK_OF_300], 0x03, 0));
    assert!(rt; is_chosen(alloc, 0x09, &[BLOCK_OF_300], 0x09, 0));
    // 1 and 2 bytes in strx, and 2 and 2 in strx2
    assert!(rt;
        is_chosen(
            alloc,
            0x28,
            &[Value::StrIndex(5), Value::StrIndex(300)],
            0x1a,
            0
        )
    );
    assert!(rt;
        is_chosen(
            alloc,
            0x26,
            &[Value::StrIndex(200), Value::StrIndex(201)],
            0x25,
            0
        )
    );
    assert!(rt; is_chosen(alloc, 0x1a, &[Value::StrIndex(5)], 0x1a, 0));
    assert!(rt; is_chosen(alloc, 0x2c, &[Value::AddrIndex(3)], 0x1b, 0));
    assert!(rt; is_chosen(alloc, 0x1b, &[Value::AddrIndex(0x20_0000)], 0x2b, 0));
    Ok(())
}

#[test]
fn forms_without_another(rt: HostRuntime) -> Result<(), Fail> {
    let alloc = rt.alloc();
    assert!(rt; is_chosen(alloc, 0x01, &[Value::Addr(1)], 0x01, 0));
    assert!(rt;
        is_chosen(
            alloc,
            0x1e,
            &[Value::Wide16(Span { at: 0, len: 16 })],
            0x1e,
            0
        )
    );
    assert!(rt; is_chosen(alloc, 0x08, &[Value::Text(Span { at: 0, len: 2 })], 0x08, 0));
    assert!(rt; is_chosen(alloc, 0x0e, &[Value::StrOffset(1)], 0x0e, 0));
    assert!(rt; is_chosen(alloc, 0x1f, &[Value::LineStrOffset(1)], 0x1f, 0));
    assert!(rt; is_chosen(alloc, 0x1d, &[Value::SupStr(1)], 0x1d, 0));
    assert!(rt; is_chosen(alloc, 0x20, &[Value::Signature(1)], 0x20, 0));
    assert!(rt; is_chosen(alloc, 0x1c, &[Value::SupRef(4, 1)], 0x1c, 0));
    assert!(rt; is_chosen(alloc, 0x24, &[Value::SupRef(8, 1)], 0x24, 0));
    assert!(rt; is_chosen(alloc, 0x17, &[Value::Offset(1)], 0x17, 0));
    assert!(rt; is_chosen(alloc, 0x18, &[Value::Expr(Span { at: 0, len: 2 })], 0x18, 0));
    assert!(rt; is_chosen(alloc, 0x22, &[Value::LocIndex(1)], 0x22, 0));
    assert!(rt; is_chosen(alloc, 0x23, &[Value::RangeIndex(1)], 0x23, 0));
    // references within a unit get DW_FORM_ref_udata, and those to the section keep DW_FORM_ref_addr
    assert!(rt; is_chosen(alloc, 0x10, &[Value::SectionRef(1)], 0x10, 0));
    assert!(rt; is_chosen(alloc, 0x11, &[Value::LocalRef(1)], 0x15, 0));
    assert!(rt; is_chosen(alloc, 0x13, &[Value::LocalRef(1)], 0x15, 0));
    assert!(rt; is_chosen(alloc, 0x15, &[Value::LocalRef(1)], 0x15, 0));
    Ok(())
}

#[test]
fn columns_side_by_side(rt: HostRuntime) -> Result<(), Fail> {
    let alloc = rt.alloc();
    let specs = vec![in alloc; column(0x05), column(0x0c)]?;
    let values = vec![in alloc; int(7), Value::Flag(true), int(8), Value::Flag(true)]?;
    let chosen = choose(alloc, &specs, 2, &values).ok().ok_or("no memory")?;
    assert_eq!(rt; chosen.len(), 2);
    assert_eq!(rt; chosen[0].form, 0x0b);
    assert_eq!(rt; chosen[1].form, 0x19);
    Ok(())
}

// The columns of two declarations: one with two entries of a constant, a flag and a line, and one with an entry of the number of
// a string. The last column has no value.
fn columns_of_a_table(alloc: Global, columns: &[Spec; 5]) -> Result<Vec<Spec>, NoMemory> {
    let mut tallies = Tallies::new(alloc, columns.len())?;
    let first = [int(70_000), Value::Flag(true), int(200)];
    tallies.add_row(alloc, 0, &columns[..3], &first)?;
    tallies.add_row(alloc, 3, &columns[3..4], &[Value::StrIndex(300)])?;
    let last = [int(-3), Value::Flag(false), int(5)];
    tallies.add_row(alloc, 0, &columns[..3], &last)?;
    tallies.best(alloc, Classes::every(), columns)
}

#[test]
fn entry_by_entry(rt: HostRuntime) -> Result<(), Fail> {
    let columns = [
        column(0x06),
        named(0x3f, 0x0c),
        named(0x3b, 0x05),
        named(0x03, 0x1a),
        column(0x05),
    ];
    let best = columns_of_a_table(rt.alloc(), &columns)
        .ok()
        .ok_or("no memory")?;
    // 70,000 and -3 in sdata alone; either flag in one byte; 200 and 5 in one byte each, since a line has no sign; 300 in two
    // bytes of strx as in strx2
    let wanted = [0x0d, 0x0c, 0x0b, 0x1a, 0x05];
    assert_eq!(rt; best.len(), wanted.len());
    for (column, form) in best.iter().zip(wanted.iter()) {
        assert_eq!(rt; column.form, *form);
        assert_eq!(rt; column.constant, 0);
    }
    for (column, old) in best.iter().zip(columns.iter()) {
        assert_eq!(rt; column.name, old.name);
    }
    Ok(())
}

// A column as it is read: the name of its attribute, its form, the constant of its declaration, how many values it has, and their bytes.
#[derive(Clone, Copy)]
struct InputColumn {
    name: u64,
    form: u64,
    constant: i64,
    count: u32,
    bytes: &'static [u8],
}

fn input_column(name: u64, form: u64, count: u32, bytes: &'static [u8]) -> InputColumn {
    InputColumn {
        name,
        form,
        constant: 0,
        count,
        bytes,
    }
}

// The column in the form of the classes that takes the fewest bytes. None: its bytes aren't so many values.
fn best_in(alloc: Global, classes: Classes, old: &InputColumn) -> Result<Option<Spec>, NoMemory> {
    let bytes = old.bytes;
    let end = bytes.len();
    if !known(old.form) {
        return Ok(None);
    }
    let Ok(first) = read_value(bytes, 0, end, old.name, old.form, old.constant, 0) else {
        return Ok(None);
    };
    let mut tally = Tally::new(alloc, old.name, &first.value)?;
    let mut at = first.end;
    for _ in 1..old.count {
        let Ok(next) = read_value(bytes, at, end, old.name, old.form, old.constant, 0) else {
            return Ok(None);
        };
        tally.add(&next.value);
        at = next.end;
    }
    if at != end {
        return Ok(None);
    }
    Ok(Some(tally.best(
        classes,
        Spec {
            name: old.name,
            form: old.form,
            constant: old.constant,
        },
    )))
}

// The bytes of a column's values in another form, and behind them those of a constant in the declaration. None: the form doesn't
// admit the values.
fn written(alloc: Global, old: &InputColumn, new: Spec) -> Result<Option<Vec<u8>>, NoMemory> {
    let bytes = old.bytes;
    let mut out = Vec::new(alloc);
    if !known(old.form) {
        return Ok(None);
    }
    let mut at = 0;
    for _ in 0..old.count {
        let Ok(read) = read_value(bytes, at, bytes.len(), old.name, old.form, old.constant, 0)
        else {
            return Ok(None);
        };
        if !admits(new.name, new.form, &read.value) {
            return Ok(None);
        }
        write_value(&mut out, new.name, new.form, &read.value, bytes)?;
        at = read.end;
    }
    if new.form == 0x21 {
        put_s(&mut out, new.constant)?;
    }
    Ok(Some(out))
}

// Whether the column gets the form that is wanted in these classes, and in it has the bytes that are wanted.
fn is_best(
    alloc: Global,
    classes: Classes,
    old: &InputColumn,
    form: u64,
    bytes: &[u8],
) -> Result<bool, NoMemory> {
    let Some(new) = best_in(alloc, classes, old)? else {
        return Ok(false);
    };
    let Some(out) = written(alloc, old, new)? else {
        return Ok(false);
    };
    Ok(new.name == old.name && new.form == form && out.as_slice() == bytes)
}

// Columns, each with the form that is wanted in the classes with all members, and with the bytes in it: those of the values in the
// entries, or of implicit_const's constant in the declaration.
#[test]
fn signs_by_names(rt: HostRuntime) -> Result<(), NoMemory> {
    // 2^63 and 1, 2^63 twice, 2^63 - 1 twice
    let half_and_one = &[0, 0, 0, 0, 0, 0, 0, 0x80, 1, 0, 0, 0, 0, 0, 0, 0];
    let halves = &[0, 0, 0, 0, 0, 0, 0, 0x80, 0, 0, 0, 0, 0, 0, 0, 0x80];
    let below = &[
        0xff, 0xff, 0xff, 0xff, 0xff, 0xff, 0xff, 0x7f, 0xff, 0xff, 0xff, 0xff, 0xff, 0xff, 0xff,
        0x7f,
    ];
    let half_and_one_in_udata = &[0x80, 0x80, 0x80, 0x80, 0x80, 0x80, 0x80, 0x80, 0x80, 1, 1];
    let below_in_sleb = &[0xff, 0xff, 0xff, 0xff, 0xff, 0xff, 0xff, 0xff, 0xff, 0];
    // 2^64 - 1 three times, in udata and in data8
    let greatest = &[
        0xff, 0xff, 0xff, 0xff, 0xff, 0xff, 0xff, 0xff, 0xff, 1, 0xff, 0xff, 0xff, 0xff, 0xff,
        0xff, 0xff, 0xff, 0xff, 1, 0xff, 0xff, 0xff, 0xff, 0xff, 0xff, 0xff, 0xff, 0xff, 1,
    ];
    let greatest_in_data8 = &[
        0xff, 0xff, 0xff, 0xff, 0xff, 0xff, 0xff, 0xff, 0xff, 0xff, 0xff, 0xff, 0xff, 0xff, 0xff,
        0xff, 0xff, 0xff, 0xff, 0xff, 0xff, 0xff, 0xff, 0xff,
    ];
    let sixteen = &[0, 1, 2, 3, 4, 5, 6, 7, 8, 9, 10, 11, 12, 13, 14, 15];
    let rows: [(InputColumn, u64, &'static [u8]); 26] = [
        // decl_line 200, 5; const_value, whose data1 has no 200; 2^32 - 1 once; 255 and 1
        (
            input_column(0x3b, 0x05, 2, &[0xc8, 0, 5, 0]),
            0x0b,
            &[0xc8, 5],
        ),
        (
            input_column(0x1c, 0x05, 2, &[0xc8, 0, 5, 0]),
            0x0d,
            &[0xc8, 1, 5],
        ),
        (
            input_column(0x3b, 0x06, 1, &[0xff, 0xff, 0xff, 0xff]),
            0x06,
            &[0xff, 0xff, 0xff, 0xff],
        ),
        (
            input_column(0x3b, 0x05, 2, &[0xff, 0, 1, 0]),
            0x0b,
            &[0xff, 1],
        ),
        // decl_line, const_value: 255 twice and three times
        (
            input_column(0x3b, 0x0b, 2, &[0xff, 0xff]),
            0x0b,
            &[0xff, 0xff],
        ),
        (
            input_column(0x3b, 0x0b, 3, &[0xff, 0xff, 0xff]),
            0x21,
            &[0xff, 1],
        ),
        (
            input_column(0x1c, 0x0b, 3, &[0xff, 0xff, 0xff]),
            0x0b,
            &[0xff, 0xff, 0xff],
        ),
        // decl_file, const_value: 128 twice
        (
            input_column(0x3a, 0x05, 2, &[0x80, 0, 0x80, 0]),
            0x0b,
            &[0x80, 0x80],
        ),
        (
            input_column(0x1c, 0x05, 2, &[0x80, 0, 0x80, 0]),
            0x21,
            &[0x80, 1],
        ),
        // byte_size, bit_stride
        (
            input_column(0x0b, 0x07, 2, half_and_one),
            0x0f,
            half_and_one_in_udata,
        ),
        (
            input_column(0x2e, 0x07, 2, half_and_one),
            0x07,
            half_and_one,
        ),
        (input_column(0x0b, 0x07, 2, halves), 0x07, halves),
        (input_column(0x0b, 0x07, 2, below), 0x21, below_in_sleb),
        (
            input_column(0x0b, 0x0f, 3, greatest),
            0x07,
            greatest_in_data8,
        ),
        // high_pc: 200; 200 and 1, padded; -1
        (input_column(0x12, 0x0f, 1, &[0xc8, 1]), 0x0b, &[0xc8]),
        (
            input_column(0x12, 0x0f, 2, &[0xc8, 0x81, 0, 0x81, 0]),
            0x0b,
            &[0xc8, 1],
        ),
        (input_column(0x12, 0x0d, 1, &[0x7f]), 0x0d, &[0x7f]),
        // decl_line: 200 and -1
        (
            input_column(0x3b, 0x0d, 2, &[0xc8, 1, 0x7f]),
            0x0d,
            &[0xc8, 1, 0x7f],
        ),
        // alignment, defaulted
        (
            input_column(0x88, 0x05, 2, &[0xff, 0, 1, 0]),
            0x0b,
            &[0xff, 1],
        ),
        (
            input_column(0x8b, 0x0b, 3, &[0xff, 0xff, 0xff]),
            0x21,
            &[0xff, 1],
        ),
        // deleted, data_bit_offset and one of a vendor are next to those that have no sign
        (
            input_column(0x8a, 0x0b, 3, &[0xff, 0xff, 0xff]),
            0x0b,
            &[0xff, 0xff, 0xff],
        ),
        (
            input_column(0x6b, 0x05, 2, &[0xff, 0, 1, 0]),
            0x0d,
            &[0xff, 1, 1],
        ),
        (
            input_column(0x2107, 0x0b, 3, &[0xff, 0xff, 0xff]),
            0x0b,
            &[0xff, 0xff, 0xff],
        ),
        // decl_line in data16 and in blocks
        (input_column(0x3b, 0x1e, 1, sixteen), 0x1e, sixteen),
        (input_column(0x3b, 0x09, 1, &[1, 0xff]), 0x09, &[1, 0xff]),
        (input_column(0x3b, 0x0a, 1, &[1, 0xff]), 0x0a, &[1, 0xff]),
    ];
    for (number, (old, form, bytes)) in rows.iter().enumerate() {
        assert!(rt;
            is_best(rt.alloc(), Classes::every(), old, *form, bytes)?,
            "row {number}"
        );
    }
    Ok(())
}

// The same in both classes: in those with all members, and in those of debug packages, without addrx1 to addrx4, without sdata where
// udata serves, and without implicit_const of high_pc and const_value.
#[test]
fn members_of_both_classes(rt: HostRuntime) -> Result<(), NoMemory> {
    let rows: [(InputColumn, u64, &'static [u8], u64, &'static [u8]); 9] = [
        // call_line: 200 and 5, which data1 has without a sign, and 300 and 5, with 3 bytes in sdata and in udata; bit_stride: 200 and
        // 5 likewise
        (
            input_column(0x59, 0x05, 2, &[0xc8, 0, 5, 0]),
            0x0b,
            &[0xc8, 5],
            0x0b,
            &[0xc8, 5],
        ),
        (
            input_column(0x59, 0x05, 2, &[0x2c, 1, 5, 0]),
            0x0d,
            &[0xac, 2, 5],
            0x0f,
            &[0xac, 2, 5],
        ),
        (
            input_column(0x2e, 0x05, 2, &[0xc8, 0, 5, 0]),
            0x0d,
            &[0xc8, 1, 5],
            0x0f,
            &[0xc8, 1, 5],
        ),
        // high_pc
        (
            input_column(0x12, 0x06, 3, &[3, 0, 0, 0, 3, 0, 0, 0, 3, 0, 0, 0]),
            0x21,
            &[3],
            0x0b,
            &[3, 3, 3],
        ),
        // const_value: 1,000 four times, with 8 bytes in data2 and in udata
        (
            InputColumn {
                name: 0x1c,
                form: 0x21,
                constant: 1000,
                count: 4,
                bytes: &[],
            },
            0x21,
            &[0xe8, 7],
            0x05,
            &[0xe8, 3, 0xe8, 3, 0xe8, 3, 0xe8, 3],
        ),
        // byte_size has implicit_const in both classes, and lower_bound has sdata for -1 and 5
        (
            input_column(0x0b, 0x06, 3, &[3, 0, 0, 0, 3, 0, 0, 0, 3, 0, 0, 0]),
            0x21,
            &[3],
            0x21,
            &[3],
        ),
        (
            input_column(0x22, 0x0d, 2, &[0x7f, 5]),
            0x0d,
            &[0x7f, 5],
            0x0d,
            &[0x7f, 5],
        ),
        // low_pc by numbers of addresses
        (
            input_column(0x11, 0x1b, 3, &[0xc8, 1, 0x82, 1, 0x81, 1]),
            0x29,
            &[200, 130, 129],
            0x1b,
            &[0xc8, 1, 0x82, 1, 0x81, 1],
        ),
        (
            input_column(0x11, 0x29, 1, &[200]),
            0x29,
            &[200],
            0x1b,
            &[0xc8, 1],
        ),
    ];
    for (number, (old, form, bytes, packaged_form, packaged_bytes)) in rows.iter().enumerate() {
        assert!(rt;
            is_best(rt.alloc(), Classes::every(), old, *form, bytes)?,
            "row {number}"
        );
        assert!(rt;
            is_best(
                rt.alloc(),
                Classes::packaged(),
                old,
                *packaged_form,
                packaged_bytes
            )?,
            "row {number}"
        );
    }
    Ok(())
}

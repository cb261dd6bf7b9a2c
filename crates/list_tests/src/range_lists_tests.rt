// Range lists by hand from DWARF 5 sections 2.17.3 and 7.25, in contributions of section 7.28.
ghost use Rattle.std.specs.Prelude.{◌<◌};

use crate::samples::{ADDR, ORIGIN, context_of, range, section_of};
use dw_base::{Fault, Kind, Reach, Refusal};
use list_model::{Item, Meaning, contributions};
use range_lists::{range_items, read_ranges};
use std::alloc::Global;
use std::process::Abort;
use std::test::Fail;

// What the list at a place of the first contribution says, or why it is refused.
fn meaning_at(
    alloc: Global,
    section: &[u8],
    at: u64,
    base: u64,
    addr: &[u8],
) -> Result<Result<Meaning, Fault>, Fail> {
    let parts = contributions(alloc, section, ORIGIN)
        .ok()
        .ok_or("no contributions")?;
    if parts.is_empty() {
        Err("no contribution")?;
    }
    let part = &parts[0];
    if at > part.at + part.len {
        Err("no such place")?;
    }
    let raws = match read_ranges(alloc, section, part, at, ORIGIN, Reach::Narrow) {
        Ok(raws) => raws,
        Err(Refusal::Refused(fault)) => return Ok(Err(fault)),
        Err(Refusal::NoMemory) => Err("no memory")?,
    };
    match range_items(alloc, &raws, &context_of(addr, base), addr, ORIGIN) {
        Ok(meaning) => Ok(Ok(meaning)),
        Err(Refusal::Refused(fault)) => Ok(Err(fault)),
        Err(Refusal::NoMemory) => Err("no memory")?,
    }
}

// Whether the list at a place of a section says these ranges.
fn says_at(
    alloc: Global,
    section: &[u8],
    at: u64,
    base: u64,
    addr: &[u8],
    ranges: &[(u64, u64)],
) -> Result<bool, Fail> {
    let mut items: Vec<Item> = Vec::new(alloc);
    for (start, end) in ranges {
        items.push(range(*start, *end))?;
    }
    match meaning_at(alloc, section, at, base, addr)? {
        Ok(Meaning::Live(found)) => Ok(found.as_slice() == items.as_slice()),
        _ => Ok(false),
    }
}

// Whether a list says these ranges.
fn says(
    alloc: Global,
    list: &[u8],
    base: u64,
    addr: &[u8],
    ranges: &[(u64, u64)],
) -> Result<bool, Fail> {
    let section = section_of(alloc, list)?;
    says_at(alloc, &section, 12, base, addr, ranges)
}

// Whether a list is dead.
fn is_dead(alloc: Global, list: &[u8], base: u64, addr: &[u8]) -> Result<bool, Fail> {
    let section = section_of(alloc, list)?;
    match meaning_at(alloc, &section, 12, base, addr)? {
        Ok(Meaning::Dead) => Ok(true),
        _ => Ok(false),
    }
}

// Whether a list is refused with this fault, at a place that counts from the list's first byte.
fn is_refused(alloc: Global, list: &[u8], addr: &[u8], kind: Kind, at: u64) -> Result<bool, Fail>
    requires { at < 1000 }
{
    let section = section_of(alloc, list)?;
    match meaning_at(alloc, &section, 12, 0, addr)? {
        Ok(_) => Ok(false),
        Err(fault) => Ok(
            fault
                == Fault {
                    kind,
                    place: ORIGIN + 12 + at,
                },
        ),
    }
}

#[test]
fn lists_say_their_ranges(rt: HostRuntime) -> Result<(), Fail> {
    let alloc = rt.alloc();
    let near = (0x40_1000, 0x40_1010);
    let far = [
        5, 0, 0x10, 0x40, 0, 0, 0, 0, 0, 4, 0, 0x10, 4, 0x20, 0x24, 0,
    ];
    assert!(rt; says(alloc, &far, 0, &[], &[near, (0x40_1020, 0x40_1024)])?);
    assert!(rt;
        says(
            alloc,
            &[4, 0x80, 0xa0, 0x80, 2, 0x90, 0xa0, 0x80, 2, 0],
            0,
            &[],
            &[near]
        )?
    );
    assert!(rt; says(alloc, &[0], 0, &[], &[])?);
    let late = [
        5, 0, 0x10, 0x40, 0, 0, 0, 0, 0, 4, 0x80, 0x20, 0x90, 0x20, 4, 0, 4, 0,
    ];
    let two = [(0x40_2000, 0x40_2010), (0x40_1000, 0x40_1004)];
    assert!(rt; says(alloc, &late, 0, &[], &two)?);
    let indexed = [1, 0, 4, 0x80, 0x20, 0x90, 0x20, 3, 0, 4, 0];
    assert!(rt; says(alloc, &indexed, 0, &ADDR, &two)?);
    // The first base, two indexes, and addresses in the entry, with an end below its start and an empty range.
    assert!(rt;
        says(
            alloc,
            &[4, 1, 2, 0],
            0x40_1000,
            &[],
            &[(0x40_1001, 0x40_1002)]
        )?
    );
    assert!(rt; says(alloc, &[2, 0, 0, 0], 0, &ADDR, &[(0x40_1000, 0x40_1000)])?);
    let pair = [6, 9, 0, 0, 0, 0, 0, 0, 0, 3, 0, 0, 0, 0, 0, 0, 0, 0];
    assert!(rt; says(alloc, &pair, 7, &[], &[(9, 3)])?);
    let length = [7, 9, 0, 0, 0, 0, 0, 0, 0, 0, 4, 0x82, 0, 3, 0];
    assert!(rt; says(alloc, &length, 7, &[], &[(9, 9), (9, 10)])?);
    Ok(())
}

#[test]
fn lists_share_their_ends(rt: HostRuntime) -> Result<(), Fail> {
    let alloc = rt.alloc();
    let section = [
        0x0f, 0, 0, 0, 5, 0, 8, 0, 0, 0, 0, 0, 4, 0, 4, 4, 8, 0x0c, 0,
    ];
    assert!(rt; says_at(alloc, &section, 12, 0, &[], &[(0, 4), (8, 12)])?);
    assert!(rt; says_at(alloc, &section, 15, 0, &[], &[(8, 12)])?);
    Ok(())
}

#[test]
fn lists_are_refused_at_their_bytes(rt: HostRuntime) -> Result<(), Fail> {
    let alloc = rt.alloc();
    // The contribution ends before the list does.
    assert!(rt; is_refused(alloc, &[], &[], Kind::Short, 0)?);
    assert!(rt; is_refused(alloc, &[4, 0, 4], &[], Kind::Short, 3)?);
    assert!(rt; is_refused(alloc, &[4, 0, 4, 4, 0], &[], Kind::Short, 5)?);
    assert!(rt; is_refused(alloc, &[4, 0, 4, 4, 0, 0x84], &[], Kind::Short, 5)?);
    assert!(rt; is_refused(alloc, &[5, 0, 0, 0, 0, 0, 0, 0], &[], Kind::Short, 1)?);
    let wide = [
        4, 0, 0x80, 0x80, 0x80, 0x80, 0x80, 0x80, 0x80, 0x80, 0x80, 2, 0,
    ];
    assert!(rt; is_refused(alloc, &wide, &[], Kind::LebWide, 2)?);
    assert!(rt; is_refused(alloc, &[4, 0, 4, 8, 0], &[], Kind::ListEntry, 3)?);
    // Indexes.
    assert!(rt; is_refused(alloc, &[4, 0, 4, 1, 0, 0], &[], Kind::NoBase, 3)?);
    assert!(rt; is_refused(alloc, &[4, 0, 4, 2, 0, 1, 0], &ADDR, Kind::Pointer, 3)?);
    assert!(rt; is_refused(alloc, &[3, 1, 0, 0], &ADDR, Kind::Pointer, 0)?);
    Ok(())
}

#[test]
fn sums_past_64_bits_make_a_list_dead(rt: HostRuntime) -> Result<(), Fail> {
    let alloc = rt.alloc();
    assert!(rt;
        says(
            alloc,
            &[4, 1, 2, 0],
            u64::MAX - 2,
            &[],
            &[(u64::MAX - 1, u64::MAX)]
        )?
    );
    assert!(rt; is_dead(alloc, &[4, 1, 3, 0], u64::MAX - 2, &[])?);
    assert!(rt; is_dead(alloc, &[4, 3, 1, 4, 0, 0, 0], u64::MAX - 2, &[])?);
    let length = [7, 0xff, 0xff, 0xff, 0xff, 0xff, 0xff, 0xff, 0xff, 1, 0];
    assert!(rt; is_dead(alloc, &length, 0, &[])?);
    // Indexes behind the sum are looked up.
    let later = [
        7, 0xff, 0xff, 0xff, 0xff, 0xff, 0xff, 0xff, 0xff, 1, 1, 5, 0,
    ];
    assert!(rt; is_refused(alloc, &later, &ADDR, Kind::Pointer, 10)?);
    Ok(())
}

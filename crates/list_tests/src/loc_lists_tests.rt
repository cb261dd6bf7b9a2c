// Location lists by hand from DWARF 5 sections 2.6.2 and 7.7.3, in contributions of section 7.29, and view pairs.
ghost use Rattle.std.specs.Prelude.{◌<◌};

use crate::samples::{ADDR, ORIGIN, context_of, section_of};
use dw_base::{Fault, Kind, Reach, Refusal, Span};
use list_model::{Item, Meaning, contributions};
use loc_lists::{ViewPair, location_items, read_locations, read_views};
use std::alloc::Global;
use std::process::Abort;
use std::test::Fail;

// What the list at a place of the first contribution says, or why it is refused.
fn meaning_at(
    alloc: Global,
    section: &[u8],
    at: u64,
    base: u64,
    addr: &[u8],
) -> Result<Result<Meaning, Fault>, Fail> {
    let parts = contributions(alloc, section, ORIGIN)
        .ok()
        .ok_or("no contributions")?;
    if parts.is_empty() {
        Err("no contribution")?;
    }
    let part = &parts[0];
    if at > part.at + part.len {
        Err("no such place")?;
    }
    let raws = match read_locations(alloc, section, part, at, ORIGIN, Reach::Narrow) {
        Ok(raws) => raws,
        Err(Refusal::Refused(fault)) => return Ok(Err(fault)),
        Err(Refusal::NoMemory) => Err("no memory")?,
    };
    match location_items(alloc, &raws, &context_of(addr, base), addr, ORIGIN) {
        Ok(meaning) => Ok(Ok(meaning)),
        Err(Refusal::Refused(fault)) => Ok(Err(fault)),
        Err(Refusal::NoMemory) => Err("no memory")?,
    }
}

// A bounded location, and where its expression lies.
fn bounded(start: u64, end: u64, at: u64, len: u64) -> Item {
    Item {
        start,
        end,
        whole: false,
        expr: Span { at, len },
    }
}

// A default location, and where its expression lies.
fn default(at: u64, len: u64) -> Item {
    Item {
        start: 0,
        end: 0,
        whole: true,
        expr: Span { at, len },
    }
}

// Whether the list at a place of a section says these items.
fn says_at(
    alloc: Global,
    section: &[u8],
    at: u64,
    base: u64,
    addr: &[u8],
    items: &[Item],
) -> Result<bool, Fail> {
    match meaning_at(alloc, section, at, base, addr)? {
        Ok(Meaning::Live(found)) => Ok(found.as_slice() == items),
        _ => Ok(false),
    }
}

// Whether a list says these items. It begins at 12, from which their expressions count on.
fn says(alloc: Global, list: &[u8], base: u64, addr: &[u8], items: &[Item]) -> Result<bool, Fail> {
    let section = section_of(alloc, list)?;
    says_at(alloc, &section, 12, base, addr, items)
}

// Whether a list is dead.
fn is_dead(alloc: Global, list: &[u8], base: u64, addr: &[u8]) -> Result<bool, Fail> {
    let section = section_of(alloc, list)?;
    match meaning_at(alloc, &section, 12, base, addr)? {
        Ok(Meaning::Dead) => Ok(true),
        _ => Ok(false),
    }
}

// Whether a list is refused with this fault, at a place that counts from the list's first byte.
fn is_refused(alloc: Global, list: &[u8], addr: &[u8], kind: Kind, at: u64) -> Result<bool, Fail>
    requires { at < 1000 }
{
    let section = section_of(alloc, list)?;
    match meaning_at(alloc, &section, 12, 0, addr)? {
        Ok(_) => Ok(false),
        Err(fault) => Ok(
            fault
                == Fault {
                    kind,
                    place: ORIGIN + 12 + at,
                },
        ),
    }
}

// The view pairs at the first place behind the header, or why they are refused.
fn views(alloc: Global, bytes: &[u8], count: u64) -> Result<Result<Vec<ViewPair>, Fault>, Fail> {
    let section = section_of(alloc, bytes)?;
    let parts = contributions(alloc, &section, ORIGIN)
        .ok()
        .ok_or("no contributions")?;
    if parts.is_empty() {
        Err("no contribution")?;
    }
    let part = &parts[0];
    if 12 > part.at + part.len {
        Err("no such place")?;
    }
    match read_views(alloc, &section, part, 12, count, ORIGIN) {
        Ok(pairs) => Ok(Ok(pairs)),
        Err(Refusal::Refused(fault)) => Ok(Err(fault)),
        Err(Refusal::NoMemory) => Err("no memory")?,
    }
}

// Whether these view pairs are read.
fn views_are(alloc: Global, bytes: &[u8], pairs: &[ViewPair]) -> Result<bool, Fail> {
    match views(alloc, bytes, pairs.len() as u64)? {
        Ok(found) => Ok(found.as_slice() == pairs),
        Err(_) => Ok(false),
    }
}

// Whether so many view pairs are refused with this fault, at a place that counts from the first of their bytes.
fn views_refused(alloc: Global, bytes: &[u8], count: u64, kind: Kind, at: u64) -> Result<bool, Fail>
    requires { at < 1000 }
{
    match views(alloc, bytes, count)? {
        Ok(_) => Ok(false),
        Err(fault) => Ok(
            fault
                == Fault {
                    kind,
                    place: ORIGIN + 12 + at,
                },
        ),
    }
}

#[test]
fn lists_say_their_locations(rt: HostRuntime) -> Result<(), Fail> {
    let alloc = rt.alloc();
    assert!(rt; says(alloc, &[0], 0, &[], &[])?);
    // A base, which has no expression, and two bounded locations.
    let far = [
        6, 0, 0x10, 0x40, 0, 0, 0, 0, 0, 4, 0, 0x10, 1, 0x50, 4, 0x20, 0x24, 2, 0x30, 0x9f, 0,
    ];
    let two = [
        bounded(0x40_1000, 0x40_1010, 25, 1),
        bounded(0x40_1020, 0x40_1024, 30, 2),
    ];
    assert!(rt; says(alloc, &far, 0, &[], &two)?);
    // Padded offsets, and a padded length.
    let padded = [4, 0x80, 0, 0x90, 0x80, 0, 0x82, 0x80, 0, 0x30, 0x9f, 0];
    assert!(rt;
        says(
            alloc,
            &padded,
            0x40_1000,
            &[],
            &[bounded(0x40_1000, 0x40_1010, 21, 2)]
        )?
    );
    // A default location, and a location without bytes in its expression.
    let whole = [5, 1, 0x51, 4, 0, 4, 0, 0];
    assert!(rt;
        says(
            alloc,
            &whole,
            0,
            &[],
            &[default(14, 1), bounded(0, 4, 19, 0)]
        )?
    );
    // Indexes, and the base that one of them sets for those after it.
    let indexed = [1, 0, 4, 1, 2, 1, 0x50, 3, 0, 4, 1, 0x51, 2, 0, 0, 0, 0];
    let three = [
        bounded(0x40_1001, 0x40_1002, 18, 1),
        bounded(0x40_1000, 0x40_1004, 23, 1),
        bounded(0x40_1000, 0x40_1000, 28, 0),
    ];
    assert!(rt; says(alloc, &indexed, 7, &ADDR, &three)?);
    // Addresses in the entry, with an end below its start and a padded count of addresses.
    let pair = [
        7, 9, 0, 0, 0, 0, 0, 0, 0, 3, 0, 0, 0, 0, 0, 0, 0, 1, 0x50, 0,
    ];
    assert!(rt; says(alloc, &pair, 7, &[], &[bounded(9, 3, 30, 1)])?);
    let length = [8, 9, 0, 0, 0, 0, 0, 0, 0, 0x84, 0, 1, 0x50, 0];
    assert!(rt; says(alloc, &length, 7, &[], &[bounded(9, 13, 24, 1)])?);
    Ok(())
}

#[test]
fn lists_share_their_ends(rt: HostRuntime) -> Result<(), Fail> {
    let alloc = rt.alloc();
    let section = [
        0x12, 0, 0, 0, 5, 0, 8, 0, 0, 0, 0, 0, 4, 0, 4, 1, 0x50, 4, 8, 0x0c, 0, 0,
    ];
    let two = [bounded(0, 4, 16, 1), bounded(8, 12, 21, 0)];
    assert!(rt; says_at(alloc, &section, 12, 0, &[], &two)?);
    assert!(rt; says_at(alloc, &section, 17, 0, &[], &[bounded(8, 12, 21, 0)])?);
    Ok(())
}

#[test]
fn lists_are_refused_at_their_bytes(rt: HostRuntime) -> Result<(), Fail> {
    let alloc = rt.alloc();
    // The contribution ends before the list does.
    assert!(rt; is_refused(alloc, &[], &[], Kind::Short, 0)?);
    assert!(rt; is_refused(alloc, &[4, 0, 4, 1, 0x50], &[], Kind::Short, 5)?);
    assert!(rt; is_refused(alloc, &[6, 0, 0, 0, 0, 0, 0, 0], &[], Kind::Short, 1)?);
    // The length of an expression isn't whole, or the expression isn't.
    assert!(rt; is_refused(alloc, &[4, 0, 4], &[], Kind::Short, 3)?);
    assert!(rt; is_refused(alloc, &[4, 0, 4, 0x81], &[], Kind::Short, 3)?);
    assert!(rt; is_refused(alloc, &[4, 0, 4, 3, 0x30, 0x9f], &[], Kind::Short, 3)?);
    assert!(rt; is_refused(alloc, &[5, 0x82, 0, 0x50], &[], Kind::Short, 1)?);
    let wide = [
        4, 0, 0x80, 0x80, 0x80, 0x80, 0x80, 0x80, 0x80, 0x80, 0x80, 2, 0,
    ];
    assert!(rt; is_refused(alloc, &wide, &[], Kind::LebWide, 2)?);
    let long = [
        5, 0x80, 0x80, 0x80, 0x80, 0x80, 0x80, 0x80, 0x80, 0x80, 2, 0,
    ];
    assert!(rt; is_refused(alloc, &long, &[], Kind::LebWide, 1)?);
    assert!(rt; is_refused(alloc, &[5, 0, 9, 0], &[], Kind::ListEntry, 2)?);
    // Indexes.
    assert!(rt; is_refused(alloc, &[5, 0, 1, 0, 0], &[], Kind::NoBase, 2)?);
    assert!(rt; is_refused(alloc, &[5, 0, 2, 0, 1, 0, 0], &ADDR, Kind::Pointer, 2)?);
    assert!(rt; is_refused(alloc, &[3, 1, 0, 0, 0], &ADDR, Kind::Pointer, 0)?);
    Ok(())
}

#[test]
fn sums_past_64_bits_make_a_list_dead(rt: HostRuntime) -> Result<(), Fail> {
    let alloc = rt.alloc();
    let base = u64::MAX - 2;
    let last = [bounded(u64::MAX - 1, u64::MAX, 16, 0)];
    assert!(rt; says(alloc, &[4, 1, 2, 0, 0], base, &[], &last)?);
    assert!(rt; is_dead(alloc, &[4, 1, 3, 0, 0], base, &[])?);
    assert!(rt; is_dead(alloc, &[4, 3, 1, 1, 0x50, 5, 0, 0], base, &[])?);
    // Indexes behind the sum are looked up.
    let later = [
        8, 0xff, 0xff, 0xff, 0xff, 0xff, 0xff, 0xff, 0xff, 1, 0, 1, 5, 0,
    ];
    assert!(rt; is_refused(alloc, &later, &ADDR, Kind::Pointer, 11)?);
    Ok(())
}

#[test]
fn view_pairs_are_read(rt: HostRuntime) -> Result<(), Fail> {
    let alloc = rt.alloc();
    let pairs = [
        ViewPair { first: 0, last: 1 },
        ViewPair {
            first: 0x81,
            last: 2,
        },
    ];
    assert!(rt; views_are(alloc, &[], &[])?);
    assert!(rt; views_are(alloc, &[0, 1, 0x81, 1, 2], &pairs)?);
    assert!(rt; views_are(alloc, &[0x80, 0, 0x81, 0, 0x81, 0x81, 0, 2, 9], &pairs)?);
    // The contribution ends inside a number, or before one.
    assert!(rt; views_refused(alloc, &[0, 1, 2], 2, Kind::Short, 3)?);
    assert!(rt; views_refused(alloc, &[0, 1], 2, Kind::Short, 2)?);
    assert!(rt; views_refused(alloc, &[0, 1, 0x80], 2, Kind::Short, 2)?);
    let wide = [0, 0x80, 0x80, 0x80, 0x80, 0x80, 0x80, 0x80, 0x80, 0x80, 2];
    assert!(rt; views_refused(alloc, &wide, 1, Kind::LebWide, 1)?);
    assert!(rt; views_refused(alloc, &[0, 1], (1 << 24) + 1, Kind::Limit, 0)?);
    Ok(())
}

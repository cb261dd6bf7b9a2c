// Sets of address ranges read and patched, and sets that are refused.
ghost use Rattle.std.specs.Prelude.{◌≡◌, ◌<◌, ◌^◌, length, IfOk};
ghost use Rattle.std.specs.List.{All};
ghost use Rattle.companions.specs.Aranges.{AreRising};

use companions::{ArangeSet, patch_aranges, read_aranges};
use dw_base::{Fault, Kind, Refusal};
use std::alloc::Global;
use std::process::Abort;
use std::test::Fail;

// Sets of the units at 0 and 132, without ranges.
const PAIR: [u8; 64] = [
    0x1c, 0, 0, 0, 2, 0, 0, 0, 0, 0, 8, 0, 0, 0, 0, 0, 0, 0, 0, 0, 0, 0, 0, 0, 0, 0, 0, 0, 0, 0, 0,
    0, 0x1c, 0, 0, 0, 2, 0, 0x84, 0, 0, 0, 8, 0, 0, 0, 0, 0, 0, 0, 0, 0, 0, 0, 0, 0, 0, 0, 0, 0, 0,
    0, 0, 0,
];

// The same with the second unit at 129.
const MOVED: [u8; 64] = [
    0x1c, 0, 0, 0, 2, 0, 0, 0, 0, 0, 8, 0, 0, 0, 0, 0, 0, 0, 0, 0, 0, 0, 0, 0, 0, 0, 0, 0, 0, 0, 0,
    0, 0x1c, 0, 0, 0, 2, 0, 0x81, 0, 0, 0, 8, 0, 0, 0, 0, 0, 0, 0, 0, 0, 0, 0, 0, 0, 0, 0, 0, 0, 0,
    0, 0, 0,
];

// The places of two units, of which the first is at 0.
fn starts_of(alloc: Global, second: u64) -> Result<Vec<u64>, Fail>
    requires some { 0 < second }
    requires fits { second < 2 ^ 32 }
    ensures count { IfOk result (λ starts. length starts.items ≡ 2) }
    ensures rising { IfOk result (λ starts. AreRising starts.items) }
    ensures fit { IfOk result (λ starts. All (λ start. start < 2 ^ 32) starts.items) }
{
    let starts = [0, second];
    Ok(starts.to_vec(alloc)?)
}

// The sets of a section that stands at 64 in the file, or its fault. The units are at 0 and 132.
fn sets_of(alloc: Global, section: &[u8]) -> Result<Result<Vec<ArangeSet>, Fault>, Fail> {
    let starts = starts_of(alloc, 132)?;
    match read_aranges(alloc, section, &starts, 64) {
        Ok(sets) => Ok(Ok(sets)),
        Err(Refusal::Refused(fault)) => Ok(Err(fault)),
        Err(Refusal::NoMemory) => Err("no memory")?,
    }
}

// Whether a section is refused with this fault.
fn is_refused(alloc: Global, section: &[u8], kind: Kind, place: u64) -> Result<bool, Fail> {
    match sets_of(alloc, section)? {
        Ok(_) => Ok(false),
        Err(fault) => Ok(fault == Fault { kind, place }),
    }
}

// Whether a section has these sets.
fn has_sets(alloc: Global, section: &[u8], expected: &[ArangeSet]) -> Result<bool, Fail> {
    match sets_of(alloc, section)? {
        Ok(sets) => Ok(sets.as_slice() == expected),
        Err(_) => Ok(false),
    }
}

// The section after its second unit moved from 132 to another place.
fn patched(alloc: Global, section: &[u8], second: u64) -> Result<Vec<u8>, Fail>
    requires some { 0 < second }
    requires fits { second < 2 ^ 32 }
{
    let mut new = section.to_vec(alloc)?;
    let starts = starts_of(alloc, 132)?;
    let sets = read_aranges(alloc, &new, &starts, 64)
        .ok()
        .ok_or("refused")?;
    let moved = starts_of(alloc, second)?;
    patch_aranges(&mut new, &sets, &moved);
    Ok(new)
}

#[test]
fn sets_follow_their_units(rt: HostRuntime) -> Result<(), Fail> {
    let alloc = rt.alloc();
    let first = ArangeSet { at: 0, unit: 0 };
    let second = ArangeSet { at: 32, unit: 1 };
    assert!(rt; has_sets(alloc, &PAIR, &[first, second])?);
    assert!(rt; patched(alloc, &PAIR, 129)?.as_slice() == &MOVED[..]);
    for cut in 0..PAIR.len() {
        let front = &PAIR[..cut];
        assert!(rt;
            match cut {
                0 => has_sets(alloc, front, &[])?,
                32 => has_sets(alloc, front, &[first])?,
                1..=31 => is_refused(alloc, front, Kind::Short, 64)?,
                _ => is_refused(alloc, front, Kind::Short, 96)?,
            }
        );
    }
    Ok(())
}

// A section of which one byte differs.
#[derive(Clone, Copy)]
struct Altered {
    at: usize,
    byte: u8,
    kind: Kind,
    place: u64,
}

fn alter(at: usize, byte: u8, kind: Kind, place: u64) -> Altered {
    Altered {
        at,
        byte,
        kind,
        place,
    }
}

#[test]
fn other_sets_are_refused(rt: HostRuntime) -> Result<(), Fail> {
    let alloc = rt.alloc();
    let altered = [
        // The version.
        alter(4, 1, Kind::Aranges, 64),
        alter(4, 3, Kind::Aranges, 64),
        alter(36, 3, Kind::Aranges, 96),
        alter(37, 1, Kind::Aranges, 96),
        // No unit begins there.
        alter(6, 1, Kind::Aranges, 64),
        alter(38, 0x83, Kind::Aranges, 96),
        alter(38, 0x85, Kind::Aranges, 96),
        // The length: too small for the fields, or past the section's end.
        alter(0, 5, Kind::Aranges, 64),
        alter(32, 0x1d, Kind::Short, 96),
        alter(3, 1, Kind::Short, 64),
    ];
    for case in altered.iter() {
        let mut section = PAIR.to_vec(alloc)?;
        if case.at < section.len() {
            section[case.at] = case.byte;
        }
        assert!(rt; is_refused(alloc, &section, case.kind, case.place)?);
    }
    let least = [6, 0, 0, 0, 2, 0, 0x84, 0, 0, 0];
    assert!(rt; has_sets(alloc, &least, &[ArangeSet { at: 0, unit: 1 }])?);
    let reserved = [0xf0, 0xff, 0xff, 0xff, 2, 0, 0x84, 0, 0, 0];
    assert!(rt; is_refused(alloc, &reserved, Kind::Short, 64)?);
    Ok(())
}

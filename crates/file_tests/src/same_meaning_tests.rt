// A file in the manner of clang, the file that is written for it, and files that differ from the latter in a byte.
ghost use Rattle.dw_base.specs.declared.fault.Reach.TheVariants.{Narrow, Wide};
ghost use Rattle.value_links.specs.World.{IsWorldOf};

use dw_base::Reach;
use list_model::ListKind;
use same_meaning::{Reason, first_difference};
use std::alloc::{AllocError, Global};
use std::test::Fail;
use value_links::World;

// The sections are .debug_info with one unit of four entries, .debug_abbrev, .debug_line with one program without rows, .debug_rnglists
// and .debug_loclists with one list each, which a slot names, and .debug_addr.
const BEFORE: [u8; 936] = [
    0x7f, 0x45, 0x4c, 0x46, 2, 1, 1, 0, 0, 0, 0, 0, 0, 0, 0, 0, 2, 0, 0x3e, 0, 1, 0, 0, 0, 0, 0, 0,
    0, 0, 0, 0, 0, 0, 0, 0, 0, 0, 0, 0, 0, 0xa8, 1, 0, 0, 0, 0, 0, 0, 0, 0, 0, 0, 0x40, 0, 0, 0, 0,
    0, 0x40, 0, 8, 0, 7, 0, 0x49, 0, 0, 0, 5, 0, 1, 8, 0, 0, 0, 0, 1, 0, 0x1d, 0, 1, 8, 0, 0, 0, 0,
    0, 0, 0, 2, 0, 0, 0, 0, 0, 0, 0, 0, 0, 8, 0, 0, 0, 0x0c, 0, 0, 0, 0x0c, 0, 0, 0, 2, 0, 0x10, 0,
    0, 0, 1, 0x57, 3, 0, 1, 0x48, 0, 0, 0, 3, 0, 4, 0, 1, 0x48, 0, 0, 0, 0, 4, 5, 5, 4, 0, 1, 0x11,
    1, 0x25, 0x25, 0x13, 5, 3, 0x25, 0x72, 0x17, 0x10, 0x17, 0x1b, 0x25, 0x11, 1, 0x55, 0x23, 0x73,
    0x17, 0x74, 0x17, 0x8c, 1, 0x17, 0, 0, 2, 0x2e, 1, 0x11, 0x1b, 0x12, 6, 0x40, 0x18, 3, 0x25,
    0x3a, 0x0b, 0x3b, 0x0b, 0x49, 0x13, 0x3f, 0x19, 0, 0, 3, 5, 0, 2, 0x22, 3, 0x25, 0x3a, 0x0b,
    0x3b, 0x0b, 0x49, 0x13, 0, 0, 4, 0x24, 0, 3, 0x25, 0x3e, 0x0b, 0x0b, 0x0b, 0, 0, 0, 0x1e, 0, 0,
    0, 5, 0, 8, 0, 0x16, 0, 0, 0, 1, 1, 1, 0xfb, 0x0e, 0x0d, 0, 1, 1, 1, 1, 0, 0, 0, 1, 0, 0, 1, 0,
    0, 0, 0, 0x13, 0, 0, 0, 5, 0, 8, 0, 1, 0, 0, 0, 4, 0, 0, 0, 3, 0, 0x10, 3, 1, 8, 0, 0x1c, 0, 0,
    0, 5, 0, 8, 0, 1, 0, 0, 0, 4, 0, 0, 0, 1, 0, 4, 0, 4, 1, 0x55, 4, 4, 0x10, 4, 0xa3, 1, 0x55,
    0x9f, 0, 0x14, 0, 0, 0, 5, 0, 8, 0, 0, 0x10, 0x40, 0, 0, 0, 0, 0, 0, 0x20, 0x40, 0, 0, 0, 0, 0,
    0, 0x2e, 0x64, 0x65, 0x62, 0x75, 0x67, 0x5f, 0x69, 0x6e, 0x66, 0x6f, 0, 0x2e, 0x64, 0x65, 0x62,
    0x75, 0x67, 0x5f, 0x61, 0x62, 0x62, 0x72, 0x65, 0x76, 0, 0x2e, 0x64, 0x65, 0x62, 0x75, 0x67,
    0x5f, 0x6c, 0x69, 0x6e, 0x65, 0, 0x2e, 0x64, 0x65, 0x62, 0x75, 0x67, 0x5f, 0x72, 0x6e, 0x67,
    0x6c, 0x69, 0x73, 0x74, 0x73, 0, 0x2e, 0x64, 0x65, 0x62, 0x75, 0x67, 0x5f, 0x6c, 0x6f, 0x63,
    0x6c, 0x69, 0x73, 0x74, 0x73, 0, 0x2e, 0x64, 0x65, 0x62, 0x75, 0x67, 0x5f, 0x61, 0x64, 0x64,
    0x72, 0, 0x2e, 0x73, 0x68, 0x73, 0x74, 0x72, 0x74, 0x61, 0x62, 0, 0, 0, 0, 0, 0, 0, 0, 0, 0, 0,
    0, 0, 0, 0, 0, 0, 0, 0, 0, 0, 0, 0, 0, 0, 0, 0, 0, 0, 0, 0, 0, 0, 0, 0, 0, 0, 0, 0, 0, 0, 0, 0,
    0, 0, 0, 0, 0, 0, 0, 0, 0, 0, 0, 0, 0, 0, 0, 0, 0, 0, 0, 0, 0, 0, 0, 1, 0, 0, 0, 1, 0, 0, 0, 0,
    0, 0, 0, 0, 0, 0, 0, 0, 0, 0, 0, 0, 0, 0, 0, 0x40, 0, 0, 0, 0, 0, 0, 0, 0x4d, 0, 0, 0, 0, 0, 0,
    0, 0, 0, 0, 0, 0, 0, 0, 0, 1, 0, 0, 0, 0, 0, 0, 0, 0, 0, 0, 0, 0, 0, 0, 0, 0x0d, 0, 0, 0, 1, 0,
    0, 0, 0, 0, 0, 0, 0, 0, 0, 0, 0, 0, 0, 0, 0, 0, 0, 0, 0x8d, 0, 0, 0, 0, 0, 0, 0, 0x4c, 0, 0, 0,
    0, 0, 0, 0, 0, 0, 0, 0, 0, 0, 0, 0, 1, 0, 0, 0, 0, 0, 0, 0, 0, 0, 0, 0, 0, 0, 0, 0, 0x1b, 0, 0,
    0, 1, 0, 0, 0, 0, 0, 0, 0, 0, 0, 0, 0, 0, 0, 0, 0, 0, 0, 0, 0, 0xd9, 0, 0, 0, 0, 0, 0, 0, 0x22,
    0, 0, 0, 0, 0, 0, 0, 0, 0, 0, 0, 0, 0, 0, 0, 1, 0, 0, 0, 0, 0, 0, 0, 0, 0, 0, 0, 0, 0, 0, 0,
    0x27, 0, 0, 0, 1, 0, 0, 0, 0, 0, 0, 0, 0, 0, 0, 0, 0, 0, 0, 0, 0, 0, 0, 0, 0xfb, 0, 0, 0, 0, 0,
    0, 0, 0x17, 0, 0, 0, 0, 0, 0, 0, 0, 0, 0, 0, 0, 0, 0, 0, 1, 0, 0, 0, 0, 0, 0, 0, 0, 0, 0, 0, 0,
    0, 0, 0, 0x37, 0, 0, 0, 1, 0, 0, 0, 0, 0, 0, 0, 0, 0, 0, 0, 0, 0, 0, 0, 0, 0, 0, 0, 0x12, 1, 0,
    0, 0, 0, 0, 0, 0x20, 0, 0, 0, 0, 0, 0, 0, 0, 0, 0, 0, 0, 0, 0, 0, 1, 0, 0, 0, 0, 0, 0, 0, 0, 0,
    0, 0, 0, 0, 0, 0, 0x47, 0, 0, 0, 1, 0, 0, 0, 0, 0, 0, 0, 0, 0, 0, 0, 0, 0, 0, 0, 0, 0, 0, 0,
    0x32, 1, 0, 0, 0, 0, 0, 0, 0x18, 0, 0, 0, 0, 0, 0, 0, 0, 0, 0, 0, 0, 0, 0, 0, 1, 0, 0, 0, 0, 0,
    0, 0, 0, 0, 0, 0, 0, 0, 0, 0, 0x53, 0, 0, 0, 3, 0, 0, 0, 0, 0, 0, 0, 0, 0, 0, 0, 0, 0, 0, 0, 0,
    0, 0, 0, 0x4a, 1, 0, 0, 0, 0, 0, 0, 0x5d, 0, 0, 0, 0, 0, 0, 0, 0, 0, 0, 0, 0, 0, 0, 0, 1, 0, 0,
    0, 0, 0, 0, 0, 0, 0, 0, 0, 0, 0, 0, 0,
];

// The same with shorter forms, codes and references.
const AFTER: [u8; 928] = [
    0x7f, 0x45, 0x4c, 0x46, 2, 1, 1, 0, 0, 0, 0, 0, 0, 0, 0, 0, 2, 0, 0x3e, 0, 1, 0, 0, 0, 0, 0, 0,
    0, 0, 0, 0, 0, 0, 0, 0, 0, 0, 0, 0, 0, 0xa0, 1, 0, 0, 0, 0, 0, 0, 0, 0, 0, 0, 0x40, 0, 0, 0, 0,
    0, 0x40, 0, 8, 0, 7, 0, 0x3f, 0, 0, 0, 5, 0, 1, 8, 0, 0, 0, 0, 1, 0, 0x1d, 1, 8, 0, 0, 0, 0, 0,
    0, 0, 2, 0, 0, 0, 0, 0, 0, 0, 0, 0, 8, 0, 0, 0, 0x0c, 0, 0, 0, 0x0c, 0, 0, 0, 2, 0, 0x10, 1,
    0x57, 3, 0, 1, 0x3e, 3, 0, 4, 0, 1, 0x3e, 0, 4, 5, 5, 4, 0, 1, 0x11, 1, 0x25, 0x25, 0x13, 0x0b,
    3, 0x25, 0x72, 0x17, 0x10, 0x17, 0x1b, 0x25, 0x11, 1, 0x55, 0x23, 0x73, 0x17, 0x74, 0x17, 0x8c,
    1, 0x17, 0, 0, 2, 0x2e, 1, 0x11, 0x1b, 0x12, 0x0b, 0x40, 0x18, 3, 0x25, 0x3a, 0x0b, 0x3b, 0x0b,
    0x49, 0x15, 0x3f, 0x19, 0, 0, 3, 5, 0, 2, 0x22, 3, 0x25, 0x3a, 0x0b, 0x3b, 0x0b, 0x49, 0x15, 0,
    0, 4, 0x24, 0, 3, 0x25, 0x3e, 0x0b, 0x0b, 0x0b, 0, 0, 0, 0x1e, 0, 0, 0, 5, 0, 8, 0, 0x16, 0, 0,
    0, 1, 1, 1, 0xfb, 0x0e, 0x0d, 0, 1, 1, 1, 1, 0, 0, 0, 1, 0, 0, 1, 0, 0, 0, 0, 0x13, 0, 0, 0, 5,
    0, 8, 0, 1, 0, 0, 0, 4, 0, 0, 0, 3, 0, 0x10, 3, 1, 8, 0, 0x1c, 0, 0, 0, 5, 0, 8, 0, 1, 0, 0, 0,
    4, 0, 0, 0, 1, 0, 3, 0, 4, 1, 0x55, 4, 4, 0x10, 4, 0xa3, 1, 0x55, 0x9f, 0, 0x14, 0, 0, 0, 5, 0,
    8, 0, 0, 0x10, 0x40, 0, 0, 0, 0, 0, 0, 0x20, 0x40, 0, 0, 0, 0, 0, 0, 0x2e, 0x64, 0x65, 0x62,
    0x75, 0x67, 0x5f, 0x69, 0x6e, 0x66, 0x6f, 0, 0x2e, 0x64, 0x65, 0x62, 0x75, 0x67, 0x5f, 0x61,
    0x62, 0x62, 0x72, 0x65, 0x76, 0, 0x2e, 0x64, 0x65, 0x62, 0x75, 0x67, 0x5f, 0x6c, 0x69, 0x6e,
    0x65, 0, 0x2e, 0x64, 0x65, 0x62, 0x75, 0x67, 0x5f, 0x72, 0x6e, 0x67, 0x6c, 0x69, 0x73, 0x74,
    0x73, 0, 0x2e, 0x64, 0x65, 0x62, 0x75, 0x67, 0x5f, 0x6c, 0x6f, 0x63, 0x6c, 0x69, 0x73, 0x74,
    0x73, 0, 0x2e, 0x64, 0x65, 0x62, 0x75, 0x67, 0x5f, 0x61, 0x64, 0x64, 0x72, 0, 0x2e, 0x73, 0x68,
    0x73, 0x74, 0x72, 0x74, 0x61, 0x62, 0, 0, 0, 0, 0, 0, 0, 0, 0, 0, 0, 0, 0, 0, 0, 0, 0, 0, 0, 0,
    0, 0, 0, 0, 0, 0, 0, 0, 0, 0, 0, 0, 0, 0, 0, 0, 0, 0, 0, 0, 0, 0, 0, 0, 0, 0, 0, 0, 0, 0, 0, 0,
    0, 0, 0, 0, 0, 0, 0, 0, 0, 0, 0, 0, 0, 0, 0, 0, 1, 0, 0, 0, 1, 0, 0, 0, 0, 0, 0, 0, 0, 0, 0, 0,
    0, 0, 0, 0, 0, 0, 0, 0, 0x40, 0, 0, 0, 0, 0, 0, 0, 0x43, 0, 0, 0, 0, 0, 0, 0, 0, 0, 0, 0, 0, 0,
    0, 0, 1, 0, 0, 0, 0, 0, 0, 0, 0, 0, 0, 0, 0, 0, 0, 0, 0x0d, 0, 0, 0, 1, 0, 0, 0, 0, 0, 0, 0, 0,
    0, 0, 0, 0, 0, 0, 0, 0, 0, 0, 0, 0x83, 0, 0, 0, 0, 0, 0, 0, 0x4c, 0, 0, 0, 0, 0, 0, 0, 0, 0, 0,
    0, 0, 0, 0, 0, 1, 0, 0, 0, 0, 0, 0, 0, 0, 0, 0, 0, 0, 0, 0, 0, 0x1b, 0, 0, 0, 1, 0, 0, 0, 0, 0,
    0, 0, 0, 0, 0, 0, 0, 0, 0, 0, 0, 0, 0, 0, 0xcf, 0, 0, 0, 0, 0, 0, 0, 0x22, 0, 0, 0, 0, 0, 0, 0,
    0, 0, 0, 0, 0, 0, 0, 0, 1, 0, 0, 0, 0, 0, 0, 0, 0, 0, 0, 0, 0, 0, 0, 0, 0x27, 0, 0, 0, 1, 0, 0,
    0, 0, 0, 0, 0, 0, 0, 0, 0, 0, 0, 0, 0, 0, 0, 0, 0, 0xf1, 0, 0, 0, 0, 0, 0, 0, 0x17, 0, 0, 0, 0,
    0, 0, 0, 0, 0, 0, 0, 0, 0, 0, 0, 1, 0, 0, 0, 0, 0, 0, 0, 0, 0, 0, 0, 0, 0, 0, 0, 0x37, 0, 0, 0,
    1, 0, 0, 0, 0, 0, 0, 0, 0, 0, 0, 0, 0, 0, 0, 0, 0, 0, 0, 0, 8, 1, 0, 0, 0, 0, 0, 0, 0x20, 0, 0,
    0, 0, 0, 0, 0, 0, 0, 0, 0, 0, 0, 0, 0, 1, 0, 0, 0, 0, 0, 0, 0, 0, 0, 0, 0, 0, 0, 0, 0, 0x47, 0,
    0, 0, 1, 0, 0, 0, 0, 0, 0, 0, 0, 0, 0, 0, 0, 0, 0, 0, 0, 0, 0, 0, 0x28, 1, 0, 0, 0, 0, 0, 0,
    0x18, 0, 0, 0, 0, 0, 0, 0, 0, 0, 0, 0, 0, 0, 0, 0, 1, 0, 0, 0, 0, 0, 0, 0, 0, 0, 0, 0, 0, 0, 0,
    0, 0x53, 0, 0, 0, 3, 0, 0, 0, 0, 0, 0, 0, 0, 0, 0, 0, 0, 0, 0, 0, 0, 0, 0, 0, 0x40, 1, 0, 0, 0,
    0, 0, 0, 0x5d, 0, 0, 0, 0, 0, 0, 0, 0, 0, 0, 0, 0, 0, 0, 0, 1, 0, 0, 0, 0, 0, 0, 0, 0, 0, 0, 0,
    0, 0, 0, 0,
];

// The written file with another byte at a place.
fn changed(alloc: Global, change: Option<(usize, u8)>) -> Result<Vec<u8>, AllocError> {
    let mut file = AFTER.to_vec(alloc)?;
    if let Some((at, byte)) = change {
        for old in file.iter_mut().skip(at).take(1) {
            *old = byte;
        }
    }
    Ok(file)
}

// The first reason why two files don't mean the same.
fn reason_between(
    alloc: Global,
    before: &World<'_>,
    after: &World<'_>,
) -> Result<Option<Reason>, &'static str>
    requires before { IsWorldOf before.now.image Narrow before.now }
    requires after { IsWorldOf after.now.image Wide after.now }
{
    match first_difference(alloc, before, after) {
        Ok(reason) => Ok(reason),
        Err(_) => Err("no memory"),
    }
}

// The first reason why the bytes of a file don't mean the same as a file that was read.
fn reason_after(
    alloc: Global,
    before: &World<'_>,
    file: &[u8],
) -> Result<Option<Reason>, &'static str>
    requires { IsWorldOf before.now.image Narrow before.now }
{
    match World::read(alloc, file, Reach::Wide) {
        Ok(after) => reason_between(alloc, before, &after),
        Err(_) => Err("the file after is refused"),
    }
}

// The first reason why a file doesn't mean the same as the one before.
fn reason_of(alloc: Global, file: &[u8]) -> Result<Option<Reason>, &'static str> {
    match World::read(alloc, &BEFORE, Reach::Narrow) {
        Ok(before) => reason_after(alloc, &before, file),
        Err(_) => Err("the file before is refused"),
    }
}

#[test]
fn the_first_difference_is_named(rt: HostRuntime) -> Result<(), Fail> {
    let alloc = rt.alloc();
    let cases = [
        (None, None),
        (Some((18, 3)), Some(Reason::Kept(0))),
        (Some((304, 1)), Some(Reason::Kept(6))),
        (Some((664, 1)), Some(Reason::Kept(3))),
        (Some((221, 0)), Some(Reason::Rows(0))),
        (Some((259, 0x11)), Some(Reason::Table(ListKind::Ranges, 0))),
        (
            Some((286, 0x56)),
            Some(Reason::Table(ListKind::Locations, 0)),
        ),
        (Some((181, 0x34)), Some(Reason::Differs(0, 2))),
        (Some((117, 2)), Some(Reason::Differs(0, 1))),
        (Some((114, 0x56)), Some(Reason::Differs(0, 1))),
        (Some((118, 0x0c)), Some(Reason::Differs(0, 1))),
    ];
    for (change, reason) in cases {
        let file = changed(alloc, change)?;
        assert!(rt; reason_of(alloc, &file)? == reason);
    }
    assert!(rt; reason_of(alloc, &BEFORE)? == None);
    Ok(())
}

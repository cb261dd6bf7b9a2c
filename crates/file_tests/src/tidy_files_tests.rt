// A file with one unit and one abbreviation table, the file that is written for it, and files that differ from the latter.
ghost use Rattle.dw_base.specs.declared.fault.Reach.TheVariants.{Narrow, Wide};
ghost use Rattle.value_links.specs.World.{IsWorldOf};

use dw_base::{Classes, Reach};
use same_meaning::first_difference;
use std::alloc::{AllocError, Global};
use std::test::Fail;
use tidy_files::accept_classes;
use value_links::World;

// .debug_info has a unit of three entries, of which the second names the third by four bytes; .debug_abbrev begins at place 196.
const BEFORE: [u8; 512] = [
    0x7f, 0x45, 0x4c, 0x46, 2, 1, 1, 0, 0, 0, 0, 0, 0, 0, 0, 0, 2, 0, 0x3e, 0, 1, 0, 0, 0, 0, 0, 0,
    0, 0, 0, 0, 0, 0, 0, 0, 0, 0, 0, 0, 0, 0, 1, 0, 0, 0, 0, 0, 0, 0, 0, 0, 0, 0x40, 0, 0, 0, 0, 0,
    0x40, 0, 4, 0, 3, 0, 0x80, 0, 0, 0, 5, 0, 1, 8, 0, 0, 0, 0, 1, 2, 0x82, 0, 0, 0, 0x6f, 0, 0, 0,
    0, 0, 0, 0, 0, 0, 0, 0, 0, 0, 0, 0, 0, 0, 0, 0, 0, 0, 0, 0, 0, 0, 0, 0, 0, 0, 0, 0, 0, 0, 0, 0,
    0, 0, 0, 0, 0, 0, 0, 0, 0, 0, 0, 0, 0, 0, 0, 0, 0, 0, 0, 0, 0, 0, 0, 0, 0, 0, 0, 0, 0, 0, 0, 0,
    0, 0, 0, 0, 0, 0, 0, 0, 0, 0, 0, 0, 0, 0, 0, 0, 0, 0, 0, 0, 0, 0, 0, 0, 0, 0, 0, 0, 0, 0, 0, 0,
    0, 0, 0, 0, 0, 0, 0, 0, 0, 0, 0, 0, 3, 0, 1, 0x11, 1, 0, 0, 2, 0x34, 0, 0x49, 0x13, 0x1c, 0x0a,
    0, 0, 3, 0x24, 0, 0, 0, 0, 0, 0x2e, 0x64, 0x65, 0x62, 0x75, 0x67, 0x5f, 0x69, 0x6e, 0x66, 0x6f,
    0, 0x2e, 0x64, 0x65, 0x62, 0x75, 0x67, 0x5f, 0x61, 0x62, 0x62, 0x72, 0x65, 0x76, 0, 0x2e, 0x73,
    0x68, 0x73, 0x74, 0x72, 0x74, 0x61, 0x62, 0, 0, 0, 0, 0, 0, 0, 0, 0, 0, 0, 0, 0, 0, 0, 0, 0, 0,
    0, 0, 0, 0, 0, 0, 0, 0, 0, 0, 0, 0, 0, 0, 0, 0, 0, 0, 0, 0, 0, 0, 0, 0, 0, 0, 0, 0, 0, 0, 0, 0,
    0, 0, 0, 0, 0, 0, 0, 0, 0, 0, 0, 0, 0, 0, 0, 0, 0, 0, 1, 0, 0, 0, 1, 0, 0, 0, 0, 0, 0, 0, 0, 0,
    0, 0, 0, 0, 0, 0, 0, 0, 0, 0, 0x40, 0, 0, 0, 0, 0, 0, 0, 0x84, 0, 0, 0, 0, 0, 0, 0, 0, 0, 0, 0,
    0, 0, 0, 0, 1, 0, 0, 0, 0, 0, 0, 0, 0, 0, 0, 0, 0, 0, 0, 0, 0x0d, 0, 0, 0, 1, 0, 0, 0, 0, 0, 0,
    0, 0, 0, 0, 0, 0, 0, 0, 0, 0, 0, 0, 0, 0xc4, 0, 0, 0, 0, 0, 0, 0, 0x14, 0, 0, 0, 0, 0, 0, 0, 0,
    0, 0, 0, 0, 0, 0, 0, 1, 0, 0, 0, 0, 0, 0, 0, 0, 0, 0, 0, 0, 0, 0, 0, 0x1b, 0, 0, 0, 3, 0, 0, 0,
    0, 0, 0, 0, 0, 0, 0, 0, 0, 0, 0, 0, 0, 0, 0, 0, 0xd8, 0, 0, 0, 0, 0, 0, 0, 0x25, 0, 0, 0, 0, 0,
    0, 0, 0, 0, 0, 0, 0, 0, 0, 0, 1, 0, 0, 0, 0, 0, 0, 0, 0, 0, 0, 0, 0, 0, 0, 0,
];

// The same with a reference of one byte. .debug_abbrev begins at place 193.
const AFTER: [u8; 512] = [
    0x7f, 0x45, 0x4c, 0x46, 2, 1, 1, 0, 0, 0, 0, 0, 0, 0, 0, 0, 2, 0, 0x3e, 0, 1, 0, 0, 0, 0, 0, 0,
    0, 0, 0, 0, 0, 0, 0, 0, 0, 0, 0, 0, 0, 0, 1, 0, 0, 0, 0, 0, 0, 0, 0, 0, 0, 0x40, 0, 0, 0, 0, 0,
    0x40, 0, 4, 0, 3, 0, 0x7d, 0, 0, 0, 5, 0, 1, 8, 0, 0, 0, 0, 1, 2, 0x7f, 0x6f, 0, 0, 0, 0, 0, 0,
    0, 0, 0, 0, 0, 0, 0, 0, 0, 0, 0, 0, 0, 0, 0, 0, 0, 0, 0, 0, 0, 0, 0, 0, 0, 0, 0, 0, 0, 0, 0, 0,
    0, 0, 0, 0, 0, 0, 0, 0, 0, 0, 0, 0, 0, 0, 0, 0, 0, 0, 0, 0, 0, 0, 0, 0, 0, 0, 0, 0, 0, 0, 0, 0,
    0, 0, 0, 0, 0, 0, 0, 0, 0, 0, 0, 0, 0, 0, 0, 0, 0, 0, 0, 0, 0, 0, 0, 0, 0, 0, 0, 0, 0, 0, 0, 0,
    0, 0, 0, 0, 0, 0, 0, 0, 0, 3, 0, 1, 0x11, 1, 0, 0, 2, 0x34, 0, 0x49, 0x15, 0x1c, 0x0a, 0, 0, 3,
    0x24, 0, 0, 0, 0, 0, 0x2e, 0x64, 0x65, 0x62, 0x75, 0x67, 0x5f, 0x69, 0x6e, 0x66, 0x6f, 0, 0x2e,
    0x64, 0x65, 0x62, 0x75, 0x67, 0x5f, 0x61, 0x62, 0x62, 0x72, 0x65, 0x76, 0, 0x2e, 0x73, 0x68,
    0x73, 0x74, 0x72, 0x74, 0x61, 0x62, 0, 0, 0, 0, 0, 0, 0, 0, 0, 0, 0, 0, 0, 0, 0, 0, 0, 0, 0, 0,
    0, 0, 0, 0, 0, 0, 0, 0, 0, 0, 0, 0, 0, 0, 0, 0, 0, 0, 0, 0, 0, 0, 0, 0, 0, 0, 0, 0, 0, 0, 0, 0,
    0, 0, 0, 0, 0, 0, 0, 0, 0, 0, 0, 0, 0, 0, 0, 0, 0, 0, 0, 1, 0, 0, 0, 1, 0, 0, 0, 0, 0, 0, 0, 0,
    0, 0, 0, 0, 0, 0, 0, 0, 0, 0, 0, 0x40, 0, 0, 0, 0, 0, 0, 0, 0x81, 0, 0, 0, 0, 0, 0, 0, 0, 0, 0,
    0, 0, 0, 0, 0, 1, 0, 0, 0, 0, 0, 0, 0, 0, 0, 0, 0, 0, 0, 0, 0, 0x0d, 0, 0, 0, 1, 0, 0, 0, 0, 0,
    0, 0, 0, 0, 0, 0, 0, 0, 0, 0, 0, 0, 0, 0, 0xc1, 0, 0, 0, 0, 0, 0, 0, 0x14, 0, 0, 0, 0, 0, 0, 0,
    0, 0, 0, 0, 0, 0, 0, 0, 1, 0, 0, 0, 0, 0, 0, 0, 0, 0, 0, 0, 0, 0, 0, 0, 0x1b, 0, 0, 0, 3, 0, 0,
    0, 0, 0, 0, 0, 0, 0, 0, 0, 0, 0, 0, 0, 0, 0, 0, 0, 0xd5, 0, 0, 0, 0, 0, 0, 0, 0x25, 0, 0, 0, 0,
    0, 0, 0, 0, 0, 0, 0, 0, 0, 0, 0, 1, 0, 0, 0, 0, 0, 0, 0, 0, 0, 0, 0, 0, 0, 0, 0,
];

// AFTER, with another byte at a place if there is one, and with more bytes 0 at the end.
fn changed(alloc: Global, change: Option<(usize, u8)>, more: usize) -> Result<Vec<u8>, AllocError> {
    let mut file = AFTER.to_vec(alloc)?;
    if let Some((at, byte)) = change {
        if let Some(old) = file.get_mut(at) {
            *old = byte;
        }
    }
    for _ in 0..more {
        file.push(0)?;
    }
    Ok(file)
}

// The first place at which a file isn't tidy that means the same as another.
fn place_between(
    alloc: Global,
    before: &World<'_>,
    after: &World<'_>,
) -> Result<Option<u64>, &'static str>
    requires before { IsWorldOf before.now.image Narrow before.now }
    requires after { IsWorldOf after.now.image Wide after.now }
{
    let Ok(None) = first_difference(alloc, before, after) else {
        return Err("the files differ in meaning");
    };
    match accept_classes(alloc, Classes::every(), before, after) {
        Ok(place) => Ok(place),
        Err(_) => Err("no memory"),
    }
}

// The first place at which the bytes of a file aren't tidy that mean the same as a file that was read.
fn place_after(alloc: Global, before: &World<'_>, file: &[u8]) -> Result<Option<u64>, &'static str>
    requires { IsWorldOf before.now.image Narrow before.now }
{
    match World::read(alloc, file, Reach::Wide) {
        Ok(after) => place_between(alloc, before, &after),
        Err(_) => Err("the file after is refused"),
    }
}

// The first place at which a file that means the same as BEFORE isn't tidy.
fn place_of(alloc: Global, file: &[u8]) -> Result<Option<u64>, &'static str> {
    match World::read(alloc, &BEFORE, Reach::Narrow) {
        Ok(before) => place_after(alloc, &before, file),
        Err(_) => Err("the file before is refused"),
    }
}

#[test]
fn the_first_place_is_named(rt: HostRuntime) -> Result<(), Fail> {
    let alloc = rt.alloc();
    let cases = [
        (None, 0, None),
        // A byte between the sections and their headers, and one behind these.
        (Some((250, 1)), 0, Some(250)),
        (None, 1, Some(512)),
    ];
    for (change, more, place) in cases {
        let file = changed(alloc, change, more)?;
        assert!(rt; place_of(alloc, &file)? == place);
    }
    // The second declaration has a reference of four bytes.
    assert!(rt; place_of(alloc, &BEFORE)? == Some(201));
    Ok(())
}

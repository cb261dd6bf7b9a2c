// Small files whose outcome was worked out by hand.
ghost use Rattle.std.specs.Prelude.{◌<◌, ◌^◌, length};
ghost use Rattle.elf_place.specs.Bodies.{IsReplaceable};

use dw_base::{NoMemory, Reach};
use elf_place::{NewBody, place};
use elf_sections::Image;
use std::alloc::Global;

// An executable for x86-64 with section 0 and .shstrtab.
const BARE: [u8; 208] = [
    0x7f, 0x45, 0x4c, 0x46, 0x02, 0x01, 0x01, 0, 0, 0, 0, 0, 0, 0, 0, 0, 0x02, 0, 0x3e, 0, 0x01, 0,
    0, 0, 0, 0, 0, 0, 0, 0, 0, 0, 0, 0, 0, 0, 0, 0, 0, 0, 0x50, 0, 0, 0, 0, 0, 0, 0, 0, 0, 0, 0,
    0x40, 0, 0, 0, 0, 0, 0x40, 0, 0x02, 0, 0x01, 0, 0, 0x2e, 0x73, 0x68, 0x73, 0x74, 0x72, 0x74,
    0x61, 0x62, 0, 0, 0, 0, 0, 0, 0, 0, 0, 0, 0, 0, 0, 0, 0, 0, 0, 0, 0, 0, 0, 0, 0, 0, 0, 0, 0, 0,
    0, 0, 0, 0, 0, 0, 0, 0, 0, 0, 0, 0, 0, 0, 0, 0, 0, 0, 0, 0, 0, 0, 0, 0, 0, 0, 0, 0, 0, 0, 0, 0,
    0, 0, 0, 0, 0, 0, 0, 0, 0, 0, 0x01, 0, 0, 0, 0x03, 0, 0, 0, 0, 0, 0, 0, 0, 0, 0, 0, 0, 0, 0, 0,
    0, 0, 0, 0, 0x40, 0, 0, 0, 0, 0, 0, 0, 0x0b, 0, 0, 0, 0, 0, 0, 0, 0, 0, 0, 0, 0, 0, 0, 0, 0x01,
    0, 0, 0, 0, 0, 0, 0, 0, 0, 0, 0, 0, 0, 0, 0,
];

// The same with .debug_str, which holds `abcd` and a zero byte, before .shstrtab, which is aligned to 4.
const OLD: [u8; 288] = [
    0x7f, 0x45, 0x4c, 0x46, 0x02, 0x01, 0x01, 0, 0, 0, 0, 0, 0, 0, 0, 0, 0x02, 0, 0x3e, 0, 0x01, 0,
    0, 0, 0, 0, 0, 0, 0, 0, 0, 0, 0, 0, 0, 0, 0, 0, 0, 0, 0x60, 0, 0, 0, 0, 0, 0, 0, 0, 0, 0, 0,
    0x40, 0, 0, 0, 0, 0, 0x40, 0, 0x03, 0, 0x02, 0, 0x61, 0x62, 0x63, 0x64, 0, 0xff, 0xff, 0xff, 0,
    0x2e, 0x64, 0x65, 0x62, 0x75, 0x67, 0x5f, 0x73, 0x74, 0x72, 0, 0x2e, 0x73, 0x68, 0x73, 0x74,
    0x72, 0x74, 0x61, 0x62, 0, 0, 0, 0, 0, 0, 0, 0, 0, 0, 0, 0, 0, 0, 0, 0, 0, 0, 0, 0, 0, 0, 0, 0,
    0, 0, 0, 0, 0, 0, 0, 0, 0, 0, 0, 0, 0, 0, 0, 0, 0, 0, 0, 0, 0, 0, 0, 0, 0, 0, 0, 0, 0, 0, 0, 0,
    0, 0, 0, 0, 0, 0, 0, 0, 0, 0, 0, 0x01, 0, 0, 0, 0x01, 0, 0, 0, 0, 0, 0, 0, 0, 0, 0, 0, 0, 0, 0,
    0, 0, 0, 0, 0, 0x40, 0, 0, 0, 0, 0, 0, 0, 0x05, 0, 0, 0, 0, 0, 0, 0, 0, 0, 0, 0, 0, 0, 0, 0,
    0x01, 0, 0, 0, 0, 0, 0, 0, 0, 0, 0, 0, 0, 0, 0, 0, 0x0c, 0, 0, 0, 0x03, 0, 0, 0, 0, 0, 0, 0, 0,
    0, 0, 0, 0, 0, 0, 0, 0, 0, 0, 0, 0x48, 0, 0, 0, 0, 0, 0, 0, 0x16, 0, 0, 0, 0, 0, 0, 0, 0, 0, 0,
    0, 0, 0, 0, 0, 0x04, 0, 0, 0, 0, 0, 0, 0, 0, 0, 0, 0, 0, 0, 0, 0,
];

// The same after .debug_str was cut to `e` and a zero byte: two bytes of padding, and .shstrtab at 68.
const NEW: [u8; 288] = [
    0x7f, 0x45, 0x4c, 0x46, 0x02, 0x01, 0x01, 0, 0, 0, 0, 0, 0, 0, 0, 0, 0x02, 0, 0x3e, 0, 0x01, 0,
    0, 0, 0, 0, 0, 0, 0, 0, 0, 0, 0, 0, 0, 0, 0, 0, 0, 0, 0x60, 0, 0, 0, 0, 0, 0, 0, 0, 0, 0, 0,
    0x40, 0, 0, 0, 0, 0, 0x40, 0, 0x03, 0, 0x02, 0, 0x65, 0, 0, 0, 0, 0x2e, 0x64, 0x65, 0x62, 0x75,
    0x67, 0x5f, 0x73, 0x74, 0x72, 0, 0x2e, 0x73, 0x68, 0x73, 0x74, 0x72, 0x74, 0x61, 0x62, 0, 0, 0,
    0, 0, 0, 0, 0, 0, 0, 0, 0, 0, 0, 0, 0, 0, 0, 0, 0, 0, 0, 0, 0, 0, 0, 0, 0, 0, 0, 0, 0, 0, 0, 0,
    0, 0, 0, 0, 0, 0, 0, 0, 0, 0, 0, 0, 0, 0, 0, 0, 0, 0, 0, 0, 0, 0, 0, 0, 0, 0, 0, 0, 0, 0, 0, 0,
    0, 0, 0, 0, 0x01, 0, 0, 0, 0x01, 0, 0, 0, 0, 0, 0, 0, 0, 0, 0, 0, 0, 0, 0, 0, 0, 0, 0, 0, 0x40,
    0, 0, 0, 0, 0, 0, 0, 0x02, 0, 0, 0, 0, 0, 0, 0, 0, 0, 0, 0, 0, 0, 0, 0, 0x01, 0, 0, 0, 0, 0, 0,
    0, 0, 0, 0, 0, 0, 0, 0, 0, 0x0c, 0, 0, 0, 0x03, 0, 0, 0, 0, 0, 0, 0, 0, 0, 0, 0, 0, 0, 0, 0, 0,
    0, 0, 0, 0x44, 0, 0, 0, 0, 0, 0, 0, 0x16, 0, 0, 0, 0, 0, 0, 0, 0, 0, 0, 0, 0, 0, 0, 0, 0x04, 0,
    0, 0, 0, 0, 0, 0, 0, 0, 0, 0, 0, 0, 0, 0,
];

// The file with this body for section 1.
fn with_body(alloc: Global, image: &Image<'_>, bytes: Vec<u8>) -> Result<Vec<u8>, NoMemory>
    requires movable { IsReplaceable image.now 1 }
    requires small { length bytes.items < 2 ^ 35 }
{
    let mut bodies = Vec::new(alloc);
    bodies.push(NewBody { section: 1, bytes })?;
    place(alloc, image, &bodies)
}

#[test]
fn sections_are_placed(rt: HostRuntime) -> Result<(), NoMemory> {
    let alloc = rt.alloc();
    let Ok(bare) = Image::read(alloc, &BARE, Reach::Narrow) else {
        return Err(NoMemory);
    };
    let none = Vec::new(alloc);
    assert_eq!(rt; place(alloc, &bare, &none)?.as_slice(), BARE.as_slice());
    let Ok(old) = Image::read(alloc, &OLD, Reach::Narrow) else {
        return Err(NoMemory);
    };
    if old.count() != 3 {
        return Err(NoMemory);
    }
    if !old.is_movable(1) {
        return Err(NoMemory);
    }
    let bytes = Vec::from_slice(alloc, b"e\0")?;
    let new = with_body(alloc, &old, bytes)?;
    assert_eq!(rt; new.as_slice(), NEW.as_slice());
    let Ok(again) = Image::read(alloc, &new, Reach::Wide) else {
        return Err(NoMemory);
    };
    assert_eq!(rt; (again.count(), again.find(b".debug_str")), (3, Some(1)));
    Ok(())
}

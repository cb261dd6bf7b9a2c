// A small file whose sections are known from elsewhere, and what becomes of it by changes of a few bytes.
use dw_base::{Fault, Kind, Reach, Refusal, Span};
use elf_sections::{Image, Section};
use std::alloc::{AllocError, Global};

// An executable for x86-64 with section 0, .debug_str, which holds a zero byte at 64, and .shstrtab.
const FILE: [u8; 280] = [
    0x7f, 0x45, 0x4c, 0x46, 0x02, 0x01, 0x01, 0, 0, 0, 0, 0, 0, 0, 0, 0, 0x02, 0, 0x3e, 0, 0x01, 0,
    0, 0, 0, 0, 0, 0, 0, 0, 0, 0, 0, 0, 0, 0, 0, 0, 0, 0, 0x58, 0, 0, 0, 0, 0, 0, 0, 0, 0, 0, 0,
    0x40, 0, 0, 0, 0, 0, 0x40, 0, 0x03, 0, 0x02, 0, 0, 0, 0x2e, 0x64, 0x65, 0x62, 0x75, 0x67, 0x5f,
    0x73, 0x74, 0x72, 0, 0x2e, 0x73, 0x68, 0x73, 0x74, 0x72, 0x74, 0x61, 0x62, 0, 0, 0, 0, 0, 0, 0,
    0, 0, 0, 0, 0, 0, 0, 0, 0, 0, 0, 0, 0, 0, 0, 0, 0, 0, 0, 0, 0, 0, 0, 0, 0, 0, 0, 0, 0, 0, 0, 0,
    0, 0, 0, 0, 0, 0, 0, 0, 0, 0, 0, 0, 0, 0, 0, 0, 0, 0, 0, 0, 0, 0, 0, 0, 0, 0, 0, 0x01, 0, 0, 0,
    0x01, 0, 0, 0, 0, 0, 0, 0, 0, 0, 0, 0, 0, 0, 0, 0, 0, 0, 0, 0, 0x40, 0, 0, 0, 0, 0, 0, 0, 0x01,
    0, 0, 0, 0, 0, 0, 0, 0, 0, 0, 0, 0, 0, 0, 0, 0x01, 0, 0, 0, 0, 0, 0, 0, 0, 0, 0, 0, 0, 0, 0, 0,
    0x0c, 0, 0, 0, 0x03, 0, 0, 0, 0, 0, 0, 0, 0, 0, 0, 0, 0, 0, 0, 0, 0, 0, 0, 0, 0x41, 0, 0, 0, 0,
    0, 0, 0, 0x16, 0, 0, 0, 0, 0, 0, 0, 0, 0, 0, 0, 0, 0, 0, 0, 0x01, 0, 0, 0, 0, 0, 0, 0, 0, 0, 0,
    0, 0, 0, 0, 0,
];

#[test]
fn a_small_file_is_read(rt: HostRuntime) -> Result<(), Refusal> {
    let image = Image::read(rt.alloc(), &FILE, Reach::Narrow)?;
    assert_eq!(rt;
        (image.count(), image.fixed_end(), image.whole().len()),
        (3, 64, 280)
    );
    assert_eq!(rt;
        image.section(1),
        Section {
            name: Span { at: 66, len: 10 },
            kind: 1,
            flags: 0,
            body: Span { at: 64, len: 1 },
            link: 0,
            info: 0,
            align: 1,
        }
    );
    assert_eq!(rt; image.find(b".debug_str"), Some(1));
    assert_eq!(rt; image.find(b".debug_line"), None);
    assert_eq!(rt; image.body(2), b"\0.debug_str\0.shstrtab\0".as_slice());
    assert_eq!(rt; image.header(2).get(4).copied(), Some(3));
    assert_eq!(rt; (image.is_movable(0), image.is_movable(1)), (false, true));
    Ok(())
}

// The file with other bytes from some places on.
fn changed(alloc: Global, changes: &[(usize, &[u8])]) -> Result<Vec<u8>, AllocError> {
    let mut file = FILE.to_vec(alloc)?;
    for (at, bytes) in changes {
        for (old, new) in file.iter_mut().skip(*at).zip(*bytes) {
            *old = *new;
        }
    }
    Ok(file)
}

// Section 1 is .debug_str at 64 with its header at 152, section 2 is .shstrtab at 65 with its header at 216. The name of
// section 1 stands at 66.
#[test]
fn each_fault_has_its_kind_and_place(rt: HostRuntime) -> Result<(), AllocError> {
    let one_segment: (usize, &[u8]) = (54, &[56, 0, 1]);
    let unlisted_name: (usize, &[u8]) = (73, b"xyz");
    let same_name: (usize, &[u8]) = (216, &[1]);
    let large_alignment: (usize, &[u8]) = (265, &[0x20]);
    let rows: [(&[(usize, &[u8])], Kind, u64); 20] = [
        (&[(0, &[0])], Kind::NotElf64, 0),
        (&[(16, &[1])], Kind::FileType, 16),
        (&[(58, &[0x41])], Kind::Torn, 0),
        (&[(62, &[3])], Kind::Torn, 0),
        (&[one_segment, (32, &[64])], Kind::Torn, 64),
        (&[(185, &[1])], Kind::Torn, 152),
        (&[(152, &[0x16])], Kind::Torn, 152),
        (&[(176, &[40])], Kind::Overlap, 40),
        (&[one_segment], Kind::Overlap, 0),
        (&[(161, &[8])], Kind::Compressed, 64),
        (&[(67, b"zdebug_")], Kind::Compressed, 64),
        (&[(220, &[4]), (260, &[1])], Kind::Relocated, 65),
        (&[same_name], Kind::TwoSections, 65),
        (&[same_name, unlisted_name], Kind::TwoSections, 65),
        (&[(73, b"line\0"), (160, &[2])], Kind::Placed, 64),
        (&[(60, &[0, 0, 0])], Kind::Limit, 0),
        (&[large_alignment], Kind::Limit, 65),
        (&[unlisted_name], Kind::Companion, 64),
        (&[(66, b".gdb_index")], Kind::Companion, 64),
        (&[unlisted_name, large_alignment], Kind::Limit, 65),
    ];
    for (changes, kind, place) in rows {
        let file = changed(rt.alloc(), changes)?;
        let refusal = Image::read(rt.alloc(), &file, Reach::Narrow).err();
        assert_eq!(rt; refusal, Some(Refusal::Refused(Fault { kind, place })));
    }
    Ok(())
}

// The names of sections 1 and 2 begin at these places of .shstrtab, where .shstrtab itself begins at 12.
#[test]
fn names_may_share_their_ends(rt: HostRuntime) -> Result<(), Refusal> {
    let rows: [(u8, u8, &[u8], &[u8]); 3] = [
        (12, 17, b".shstrtab", b"rtab"),
        (17, 12, b"rtab", b".shstrtab"),
        (20, 19, b"b", b"ab"),
    ];
    for (first, second, first_name, second_name) in rows {
        let Ok(file) = changed(rt.alloc(), &[(152, &[first]), (216, &[second])]) else {
            return Err(Refusal::NoMemory);
        };
        let image = Image::read(rt.alloc(), &file, Reach::Narrow)?;
        assert_eq!(rt;
            (image.find(first_name), image.find(second_name)),
            (Some(1), Some(2))
        );
    }
    Ok(())
}

// Certificates of small files, worked out by hand.
use dw_base::{Classes, Refusal};
use rewriter::rewrite_in;
use std::alloc::Global;
use std::test::Fail;

// An executable for x86-64 with section 0 and .shstrtab alone.
const BARE: [u8; 208] = [
    0x7f, 0x45, 0x4c, 0x46, 2, 1, 1, 0, 0, 0, 0, 0, 0, 0, 0, 0, 2, 0, 0x3e, 0, 1, 0, 0, 0, 0, 0, 0,
    0, 0, 0, 0, 0, 0, 0, 0, 0, 0, 0, 0, 0, 0x50, 0, 0, 0, 0, 0, 0, 0, 0, 0, 0, 0, 0x40, 0, 0, 0, 0,
    0, 0x40, 0, 2, 0, 1, 0, 0, 0x2e, 0x73, 0x68, 0x73, 0x74, 0x72, 0x74, 0x61, 0x62, 0, 0, 0, 0, 0,
    0, 0, 0, 0, 0, 0, 0, 0, 0, 0, 0, 0, 0, 0, 0, 0, 0, 0, 0, 0, 0, 0, 0, 0, 0, 0, 0, 0, 0, 0, 0, 0,
    0, 0, 0, 0, 0, 0, 0, 0, 0, 0, 0, 0, 0, 0, 0, 0, 0, 0, 0, 0, 0, 0, 0, 0, 0, 0, 0, 0, 0, 0, 0, 0,
    0, 1, 0, 0, 0, 3, 0, 0, 0, 0, 0, 0, 0, 0, 0, 0, 0, 0, 0, 0, 0, 0, 0, 0, 0, 0x40, 0, 0, 0, 0, 0,
    0, 0, 0x0b, 0, 0, 0, 0, 0, 0, 0, 0, 0, 0, 0, 0, 0, 0, 0, 1, 0, 0, 0, 0, 0, 0, 0, 0, 0, 0, 0, 0,
    0, 0, 0,
];

// The same with .debug_line at 64, whose one line number program has no opcodes.
const WITHOUT_ROWS: [u8; 320] = [
    0x7f, 0x45, 0x4c, 0x46, 2, 1, 1, 0, 0, 0, 0, 0, 0, 0, 0, 0, 2, 0, 0x3e, 0, 1, 0, 0, 0, 0, 0, 0,
    0, 0, 0, 0, 0, 0, 0, 0, 0, 0, 0, 0, 0, 0x80, 0, 0, 0, 0, 0, 0, 0, 0, 0, 0, 0, 0x40, 0, 0, 0, 0,
    0, 0x40, 0, 3, 0, 2, 0, 0x1e, 0, 0, 0, 5, 0, 8, 0, 0x16, 0, 0, 0, 1, 1, 1, 0xfb, 0x0e, 0x0d, 0,
    1, 1, 1, 1, 0, 0, 0, 1, 0, 0, 1, 0, 0, 0, 0, 0, 0x2e, 0x64, 0x65, 0x62, 0x75, 0x67, 0x5f, 0x6c,
    0x69, 0x6e, 0x65, 0, 0x2e, 0x73, 0x68, 0x73, 0x74, 0x72, 0x74, 0x61, 0x62, 0, 0, 0, 0, 0, 0, 0,
    0, 0, 0, 0, 0, 0, 0, 0, 0, 0, 0, 0, 0, 0, 0, 0, 0, 0, 0, 0, 0, 0, 0, 0, 0, 0, 0, 0, 0, 0, 0, 0,
    0, 0, 0, 0, 0, 0, 0, 0, 0, 0, 0, 0, 0, 0, 0, 0, 0, 0, 0, 0, 0, 0, 0, 0, 0, 0, 0, 0, 0, 0, 0, 0,
    0, 1, 0, 0, 0, 1, 0, 0, 0, 0, 0, 0, 0, 0, 0, 0, 0, 0, 0, 0, 0, 0, 0, 0, 0, 0x40, 0, 0, 0, 0, 0,
    0, 0, 0x22, 0, 0, 0, 0, 0, 0, 0, 0, 0, 0, 0, 0, 0, 0, 0, 1, 0, 0, 0, 0, 0, 0, 0, 0, 0, 0, 0, 0,
    0, 0, 0, 0x0d, 0, 0, 0, 3, 0, 0, 0, 0, 0, 0, 0, 0, 0, 0, 0, 0, 0, 0, 0, 0, 0, 0, 0, 0x62, 0, 0,
    0, 0, 0, 0, 0, 0x17, 0, 0, 0, 0, 0, 0, 0, 0, 0, 0, 0, 0, 0, 0, 0, 1, 0, 0, 0, 0, 0, 0, 0, 0, 0,
    0, 0, 0, 0, 0, 0,
];

// One with .debug_info at 64, .debug_abbrev at 141, .debug_line at 217, .debug_rnglists at 251, .debug_loclists at 274, .debug_addr
// at 306 and .shstrtab at 330. Its unit names a line number program without opcodes, and by the indexes 0 a list of two ranges
// and a list of two locations.
const WITH_ALL: [u8; 936] = [
    0x7f, 0x45, 0x4c, 0x46, 2, 1, 1, 0, 0, 0, 0, 0, 0, 0, 0, 0, 2, 0, 0x3e, 0, 1, 0, 0, 0, 0, 0, 0,
    0, 0, 0, 0, 0, 0, 0, 0, 0, 0, 0, 0, 0, 0xa8, 1, 0, 0, 0, 0, 0, 0, 0, 0, 0, 0, 0x40, 0, 0, 0, 0,
    0, 0x40, 0, 8, 0, 7, 0, 0x49, 0, 0, 0, 5, 0, 1, 8, 0, 0, 0, 0, 1, 0, 0x1d, 0, 1, 8, 0, 0, 0, 0,
    0, 0, 0, 2, 0, 0, 0, 0, 0, 0, 0, 0, 0, 8, 0, 0, 0, 0x0c, 0, 0, 0, 0x0c, 0, 0, 0, 2, 0, 0x10, 0,
    0, 0, 1, 0x57, 3, 0, 1, 0x48, 0, 0, 0, 3, 0, 4, 0, 1, 0x48, 0, 0, 0, 0, 4, 5, 5, 4, 0, 1, 0x11,
    1, 0x25, 0x25, 0x13, 5, 3, 0x25, 0x72, 0x17, 0x10, 0x17, 0x1b, 0x25, 0x11, 1, 0x55, 0x23, 0x73,
    0x17, 0x74, 0x17, 0x8c, 1, 0x17, 0, 0, 2, 0x2e, 1, 0x11, 0x1b, 0x12, 6, 0x40, 0x18, 3, 0x25,
    0x3a, 0x0b, 0x3b, 0x0b, 0x49, 0x13, 0x3f, 0x19, 0, 0, 3, 5, 0, 2, 0x22, 3, 0x25, 0x3a, 0x0b,
    0x3b, 0x0b, 0x49, 0x13, 0, 0, 4, 0x24, 0, 3, 0x25, 0x3e, 0x0b, 0x0b, 0x0b, 0, 0, 0, 0x1e, 0, 0,
    0, 5, 0, 8, 0, 0x16, 0, 0, 0, 1, 1, 1, 0xfb, 0x0e, 0x0d, 0, 1, 1, 1, 1, 0, 0, 0, 1, 0, 0, 1, 0,
    0, 0, 0, 0x13, 0, 0, 0, 5, 0, 8, 0, 1, 0, 0, 0, 4, 0, 0, 0, 3, 0, 0x10, 3, 1, 8, 0, 0x1c, 0, 0,
    0, 5, 0, 8, 0, 1, 0, 0, 0, 4, 0, 0, 0, 1, 0, 4, 0, 4, 1, 0x55, 4, 4, 0x10, 4, 0xa3, 1, 0x55,
    0x9f, 0, 0x14, 0, 0, 0, 5, 0, 8, 0, 0, 0x10, 0x40, 0, 0, 0, 0, 0, 0, 0x20, 0x40, 0, 0, 0, 0, 0,
    0, 0x2e, 0x64, 0x65, 0x62, 0x75, 0x67, 0x5f, 0x69, 0x6e, 0x66, 0x6f, 0, 0x2e, 0x64, 0x65, 0x62,
    0x75, 0x67, 0x5f, 0x61, 0x62, 0x62, 0x72, 0x65, 0x76, 0, 0x2e, 0x64, 0x65, 0x62, 0x75, 0x67,
    0x5f, 0x6c, 0x69, 0x6e, 0x65, 0, 0x2e, 0x64, 0x65, 0x62, 0x75, 0x67, 0x5f, 0x72, 0x6e, 0x67,
    0x6c, 0x69, 0x73, 0x74, 0x73, 0, 0x2e, 0x64, 0x65, 0x62, 0x75, 0x67, 0x5f, 0x6c, 0x6f, 0x63,
    0x6c, 0x69, 0x73, 0x74, 0x73, 0, 0x2e, 0x64, 0x65, 0x62, 0x75, 0x67, 0x5f, 0x61, 0x64, 0x64,
    0x72, 0, 0x2e, 0x73, 0x68, 0x73, 0x74, 0x72, 0x74, 0x61, 0x62, 0, 0, 0, 0, 0, 0, 0, 0, 0, 0, 0,
    0, 0, 0, 0, 0, 0, 0, 0, 0, 0, 0, 0, 0, 0, 0, 0, 0, 0, 0, 0, 0, 0, 0, 0, 0, 0, 0, 0, 0, 0, 0, 0,
    0, 0, 0, 0, 0, 0, 0, 0, 0, 0, 0, 0, 0, 0, 0, 0, 0, 0, 0, 0, 0, 0, 0, 1, 0, 0, 0, 1, 0, 0, 0, 0,
    0, 0, 0, 0, 0, 0, 0, 0, 0, 0, 0, 0, 0, 0, 0, 0x40, 0, 0, 0, 0, 0, 0, 0, 0x4d, 0, 0, 0, 0, 0, 0,
    0, 0, 0, 0, 0, 0, 0, 0, 0, 1, 0, 0, 0, 0, 0, 0, 0, 0, 0, 0, 0, 0, 0, 0, 0, 0x0d, 0, 0, 0, 1, 0,
    0, 0, 0, 0, 0, 0, 0, 0, 0, 0, 0, 0, 0, 0, 0, 0, 0, 0, 0x8d, 0, 0, 0, 0, 0, 0, 0, 0x4c, 0, 0, 0,
    0, 0, 0, 0, 0, 0, 0, 0, 0, 0, 0, 0, 1, 0, 0, 0, 0, 0, 0, 0, 0, 0, 0, 0, 0, 0, 0, 0, 0x1b, 0, 0,
    0, 1, 0, 0, 0, 0, 0, 0, 0, 0, 0, 0, 0, 0, 0, 0, 0, 0, 0, 0, 0, 0xd9, 0, 0, 0, 0, 0, 0, 0, 0x22,
    0, 0, 0, 0, 0, 0, 0, 0, 0, 0, 0, 0, 0, 0, 0, 1, 0, 0, 0, 0, 0, 0, 0, 0, 0, 0, 0, 0, 0, 0, 0,
    0x27, 0, 0, 0, 1, 0, 0, 0, 0, 0, 0, 0, 0, 0, 0, 0, 0, 0, 0, 0, 0, 0, 0, 0, 0xfb, 0, 0, 0, 0, 0,
    0, 0, 0x17, 0, 0, 0, 0, 0, 0, 0, 0, 0, 0, 0, 0, 0, 0, 0, 1, 0, 0, 0, 0, 0, 0, 0, 0, 0, 0, 0, 0,
    0, 0, 0, 0x37, 0, 0, 0, 1, 0, 0, 0, 0, 0, 0, 0, 0, 0, 0, 0, 0, 0, 0, 0, 0, 0, 0, 0, 0x12, 1, 0,
    0, 0, 0, 0, 0, 0x20, 0, 0, 0, 0, 0, 0, 0, 0, 0, 0, 0, 0, 0, 0, 0, 1, 0, 0, 0, 0, 0, 0, 0, 0, 0,
    0, 0, 0, 0, 0, 0, 0x47, 0, 0, 0, 1, 0, 0, 0, 0, 0, 0, 0, 0, 0, 0, 0, 0, 0, 0, 0, 0, 0, 0, 0,
    0x32, 1, 0, 0, 0, 0, 0, 0, 0x18, 0, 0, 0, 0, 0, 0, 0, 0, 0, 0, 0, 0, 0, 0, 0, 1, 0, 0, 0, 0, 0,
    0, 0, 0, 0, 0, 0, 0, 0, 0, 0, 0x53, 0, 0, 0, 3, 0, 0, 0, 0, 0, 0, 0, 0, 0, 0, 0, 0, 0, 0, 0, 0,
    0, 0, 0, 0x4a, 1, 0, 0, 0, 0, 0, 0, 0x5d, 0, 0, 0, 0, 0, 0, 0, 0, 0, 0, 0, 0, 0, 0, 0, 1, 0, 0,
    0, 0, 0, 0, 0, 0, 0, 0, 0, 0, 0, 0, 0,
];

// The certificate of what is written for a file in some classes.
fn certificate_of(alloc: Global, classes: Classes, file: &[u8]) -> Result<Vec<u8>, Refusal> {
    Ok(rewrite_in(alloc, classes, file)?.cert)
}

// A program without rows has the number 0 for all 65,280 pairs. The potentials of the range list are 9 and 6, and so are those of the
// location list. The slots of the unit have one byte each, so there is nothing to show of them. For packages programs and lists are kept,
// so that the units alone have records.
#[test]
fn certificates_are_written(rt: HostRuntime) -> Result<(), Fail> {
    // classes, files, and the certificate of each
    let table: [(Classes, &[u8], &[u8]); 6] = [
        (Classes::every(), BARE.as_slice(), b"DWMIN01\n".as_slice()),
        (
            Classes::every(),
            WITHOUT_ROWS.as_slice(),
            b"DWMIN01\n\x01\x80\xfe\x03\x00".as_slice(),
        ),
        (
            Classes::every(),
            WITH_ALL.as_slice(),
            b"DWMIN01\n\x01\x80\xfe\x03\x00\x02\x02\x09\x06\x02\x02\x09\x06\x03\x00".as_slice(),
        ),
        (
            Classes::packaged(),
            BARE.as_slice(),
            b"DWMINP1\n".as_slice(),
        ),
        (
            Classes::packaged(),
            WITHOUT_ROWS.as_slice(),
            b"DWMINP1\n".as_slice(),
        ),
        (
            Classes::packaged(),
            WITH_ALL.as_slice(),
            b"DWMINP1\n\x03\x00".as_slice(),
        ),
    ];
    for (classes, file, certificate) in table {
        let written = certificate_of(rt.alloc(), classes, file)?;
        assert_eq!(rt; written.as_slice(), certificate);
    }
    Ok(())
}

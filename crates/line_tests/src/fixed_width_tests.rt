// Numbers read and written at their places.
use fixed_width::{
    LengthFault, end_of_unit, put_u32, put_u64, u16_at, u32_at, u64_at, version_of_unit,
};

const BYTES: [u8; 10] = [1, 2, 3, 4, 5, 6, 7, 8, 9, 10];

#[test]
fn the_lowest_byte_comes_first(rt: HostRuntime) {
    assert_eq!(rt; u16_at(&BYTES, 1), 0x0302);
    assert_eq!(rt; u32_at(&BYTES, 6), 0x0a09_0807);
    assert_eq!(rt; u64_at(&BYTES, 2), 0x0a09_0807_0605_0403);
}

#[test]
fn no_other_byte_changes(rt: HostRuntime) {
    let mut bytes = BYTES;
    put_u32(&mut bytes, 1, 0xa4a3_a2a1);
    assert_eq!(rt; bytes, [1, 0xa1, 0xa2, 0xa3, 0xa4, 6, 7, 8, 9, 10]);
    put_u64(&mut bytes, 2, 0xb8b7_b6b5_b4b3_b2b1);
    assert_eq!(rt;
        bytes,
        [1, 0xa1, 0xb1, 0xb2, 0xb3, 0xb4, 0xb5, 0xb6, 0xb7, 0xb8]
    );
}

#[test]
fn a_unit_ends_by_its_length(rt: HostRuntime) {
    // a unit of a length of 3, with version 5 and one byte, after another byte
    let section = [9, 3, 0, 0, 0, 5, 0, 7];
    assert_eq!(rt; end_of_unit(&section, 1), Ok(8));
    assert_eq!(rt; version_of_unit(&section, 1), 5);
    assert_eq!(rt; end_of_unit(&section[..7], 1), Err(LengthFault::Cut));
    assert_eq!(rt; end_of_unit(&section, 5), Err(LengthFault::Cut));
    assert_eq!(rt;
        end_of_unit(&[0xf0, 0xff, 0xff, 0xff], 0),
        Err(LengthFault::Reserved)
    );
}

// Numbers whose bytes are known from elsewhere.
use dw_base::NoMemory;
use leb_codec::{LebFault, ReadS, ReadU, len_s, len_u, put_padded, put_s, put_u, read_s, read_u};

#[test]
fn known_numbers_are_read(rt: HostRuntime) {
    let longest = [255, 255, 255, 255, 255, 255, 255, 255, 255, 1];
    let too_wide = [255, 255, 255, 255, 255, 255, 255, 255, 255, 2];
    let rows: [(&[u8], Result<ReadU, LebFault>); 5] = [
        (
            &[0xe5, 0x8e, 0x26],
            Ok(ReadU {
                value: 624_485,
                end: 3,
            }),
        ),
        (&[0x81, 0x80, 0x00], Ok(ReadU { value: 1, end: 3 })),
        (
            &longest,
            Ok(ReadU {
                value: u64::MAX,
                end: 10,
            }),
        ),
        (&too_wide, Err(LebFault::Wide)),
        (&[0x80], Err(LebFault::Short)),
    ];
    for (bytes, want) in rows {
        assert_eq!(rt; read_u(bytes, 0), want);
    }
    let signed = ReadS {
        value: -123_456,
        end: 3,
    };
    assert_eq!(rt; read_s(&[0xc0, 0xbb, 0x78], 0), Ok(signed));
}

#[test]
fn known_numbers_are_written(rt: HostRuntime) -> Result<(), NoMemory> {
    let mut out = Vec::new(rt.alloc());
    put_u(&mut out, 624_485)?;
    put_s(&mut out, -123_456)?;
    put_padded(&mut out, 1, 3)?;
    let want = [0xe5, 0x8e, 0x26, 0xc0, 0xbb, 0x78, 0x81, 0x80, 0x00];
    assert_eq!(rt; out.as_slice(), &want[..]);
    assert_eq!(rt; (len_u(u64::MAX), len_s(-64), len_s(64)), (10, 1, 2));
    Ok(())
}

// Expressions written with new references, whose bytes follow from DWARF 5 section 7.7.1.
ghost use Rattle.std.specs.Prelude.{◌<◌, length};

use dw_base::{Reach, Refusal};
use expr_ops::{read_expr, shortest_len, sizes_of, write_expr, write_shortest};
use std::alloc::Global;

// The expression with new references, two at most, and the length that was told of it before.
fn rewritten(
    alloc: Global,
    bytes: &[u8],
    first: u32,
    second: u32,
) -> Result<(Vec<u8>, u64), Refusal> {
    let ops = read_expr(alloc, bytes, 0, Reach::Narrow)?;
    let refs = [u64::from(first), u64::from(second)];
    let mut made = Vec::new(alloc);
    write_shortest(&mut made, &ops, &refs, bytes)?;
    Ok((made, shortest_len(&ops, &refs, bytes)))
}

// The sizes that the slots of the expression need with a new reference, and the expression with slots of these sizes.
fn written_in_sizes(alloc: Global, bytes: &[u8], first: u32) -> Result<(Vec<u8>, Vec<u8>), Refusal>
    requires { length bytes.now < 100 }
{
    let ops = read_expr(alloc, bytes, 0, Reach::Narrow)?;
    let refs = [u64::from(first)];
    let sizes = sizes_of(alloc, &ops, &refs, bytes)?;
    let mut made = Vec::new(alloc);
    write_expr(&mut made, &ops, &refs, &sizes, bytes)?;
    Ok((sizes, made))
}

#[test]
fn references_are_written(rt: HostRuntime) -> Result<(), Refusal> {
    let rows: [(&[u8], u32, u32, &[u8]); 16] = [
        // a call is a call2 where its number fits
        (&[0x98, 0x34, 0x12], 0x0403_0201, 0, &[0x99, 1, 2, 3, 4]),
        (&[0x99, 1, 2, 3, 4], 7, 0, &[0x98, 7, 0]),
        (&[0x99, 1, 2, 3, 4], 65_535, 0, &[0x98, 0xff, 0xff]),
        (&[0x98, 0x34, 0x12], 65_536, 0, &[0x99, 0, 0, 1, 0]),
        (
            &[0x9a, 1, 0, 0, 0],
            0xffff_fffe,
            0,
            &[0x9a, 0xfe, 0xff, 0xff, 0xff],
        ),
        (&[0xa0, 1, 2, 3, 4, 0x7f], 16, 0, &[0xa0, 16, 0, 0, 0, 0x7f]),
        (
            &[0xfa, 1, 0, 0, 0],
            0x0a0b_0c0d,
            0,
            &[0xfa, 0x0d, 0x0c, 0x0b, 0x0a],
        ),
        (&[0xfd, 1, 0, 0, 0], 256, 0, &[0xfd, 0, 1, 0, 0]),
        // in these a 0 is a reference as any other
        (
            &[0xfa, 0, 0, 0, 0],
            0x0a0b_0c0d,
            0,
            &[0xfa, 0x0d, 0x0c, 0x0b, 0x0a],
        ),
        (&[0xfd, 0, 0, 0, 0], 256, 0, &[0xfd, 0, 1, 0, 0]),
        // the bytes of const_type stay
        (&[0xa4, 0x83, 0x80, 0, 2, 7, 8], 3, 0, &[0xa4, 3, 2, 7, 8]),
        (
            &[0xa5, 0x90, 5, 0x2a],
            0x1234,
            0,
            &[0xa5, 0x90, 5, 0xb4, 0x24],
        ),
        (&[0xa6, 8, 0x2a], 128, 0, &[0xa6, 8, 0x80, 1]),
        (
            &[0xa7, 8, 0x2a],
            0xffff_ffff,
            0,
            &[0xa7, 8, 0xff, 0xff, 0xff, 0xff, 0x0f],
        ),
        // the generic type stays, and has a number all the same
        (&[0xa8, 0], 7, 0, &[0xa8, 0]),
        (&[0xa9, 0x80, 0, 0xa8, 0x2a], 7, 1, &[0xa9, 0, 0xa8, 1]),
    ];
    for (old, first, second, new) in rows {
        let (made, told) = rewritten(rt.alloc(), old, first, second)?;
        assert_eq!(rt; made.as_slice(), new);
        assert_eq!(rt; told, new.len() as u64);
    }
    Ok(())
}

#[test]
fn lengths_and_distances_follow(rt: HostRuntime) -> Result<(), Refusal> {
    // bytes, a new reference, the sizes of slots, and what is written
    let rows: [(&[u8], u32, &[u8], &[u8]); 11] = [
        (
            &[0x30, 0x28, 5, 0, 0xa8, 0xaa, 0x80, 0x80, 0, 0x96, 0x9f],
            42,
            &[1],
            &[0x30, 0x28, 2, 0, 0xa8, 0x2a, 0x96, 0x9f],
        ),
        // to the end, back, and over what shrinks
        (
            &[0x28, 2, 0, 0xa8, 0x2a],
            200,
            &[2],
            &[0x28, 3, 0, 0xa8, 0xc8, 1],
        ),
        (
            &[0x30, 0xa8, 0x2a, 0x2f, 0xfb, 0xff],
            200,
            &[2],
            &[0x30, 0xa8, 0xc8, 1, 0x2f, 0xfa, 0xff],
        ),
        (
            &[0x2f, 4, 0, 0x23, 0x85, 0x80, 0],
            0,
            &[],
            &[0x2f, 2, 0, 0x23, 5],
        ),
        (
            &[0x28, 5, 0, 0x99, 1, 0, 0, 0, 0x96],
            7,
            &[2],
            &[0x28, 3, 0, 0x98, 7, 0, 0x96],
        ),
        (&[0x11, 0xff, 0x7f], 0, &[], &[0x11, 0x7f]),
        // the length of an entry_value, which was padded
        (
            &[0xa3, 0x83, 0, 0xa5, 5, 0x2a, 0x9f],
            0x1234,
            &[1, 2],
            &[0xa3, 4, 0xa5, 5, 0xb4, 0x24, 0x9f],
        ),
        (
            &[0xa3, 4, 0xa3, 2, 0xa8, 0x2a],
            16_384,
            &[1, 1, 3],
            &[0xa3, 6, 0xa3, 4, 0xa8, 0x80, 0x80, 1],
        ),
        // a branch inside an entry_value, and one over it
        (
            &[0xa3, 6, 0x28, 2, 0, 0xa8, 0x2a, 0x96],
            300,
            &[1, 2],
            &[0xa3, 7, 0x28, 3, 0, 0xa8, 0xac, 2, 0x96],
        ),
        (
            &[0x2f, 4, 0, 0xa3, 2, 0xa8, 0x2a, 0x96],
            300,
            &[1, 2],
            &[0x2f, 5, 0, 0xa3, 3, 0xa8, 0xac, 2, 0x96],
        ),
        (&[], 0, &[], &[]),
    ];
    for (old, first, sizes, new) in rows {
        let (made, told) = rewritten(rt.alloc(), old, first, 0)?;
        assert_eq!(rt; made.as_slice(), new);
        assert_eq!(rt; told, new.len() as u64);
        assert!(rt; old.len() < 100);
        let (needed, sized) = written_in_sizes(rt.alloc(), old, first)?;
        assert_eq!(rt; needed.as_slice(), sizes);
        assert_eq!(rt; sized.as_slice(), new);
    }
    Ok(())
}

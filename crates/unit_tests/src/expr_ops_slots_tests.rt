// Slots of expressions, counted by DWARF 5 sections 2.5.1, 2.6.1 and 7.7.1.
use dw_base::{Reach, Refusal};
use expr_ops::{fixed_len, read_expr, slot_count, slots_are_few};

#[test]
fn slots_are_counted(rt: HostRuntime) -> Result<(), Refusal> {
    // bytes, slots, and bytes beside them
    let rows: [(&[u8], usize, u64); 15] = [
        (&[], 0, 0),
        // calls: an operand of two bytes or four is a slot
        (&[0x98, 0x34, 0x12], 1, 1),
        (&[0x99, 1, 2, 3, 4], 1, 1),
        // call_ref, implicit_pointer, whose -1 is padded, and GNU_parameter_ref have references of four bytes always
        (&[0x9a, 1, 0, 0, 0], 0, 5),
        (&[0xa0, 1, 2, 3, 4, 0xff, 0x7f], 0, 6),
        (&[0xfa, 1, 0, 0, 0], 0, 5),
        // const_type with its block, regval_type with its register, deref_type with its byte
        (&[0xa4, 0x2a, 2, 7, 8], 1, 4),
        (&[0xa5, 0x90, 5, 0x2a], 1, 3),
        (&[0xa6, 8, 0xaa, 0], 1, 2),
        // convert, and to the generic type, whose padded 0 is written in one byte
        (&[0xa8, 0xaa, 0], 1, 1),
        (&[0xa8, 0x80, 0], 0, 2),
        // an entry_value and what it holds: reg5
        (&[0xa3, 0x81, 0, 0x55], 1, 2),
        // one in another: convert and reinterpret
        (&[0xa3, 4, 0xa3, 2, 0xa8, 0x2a, 0xa9, 0], 3, 5),
        // plus_uconst, padded, and skip
        (&[0x23, 0x85, 0x80, 0, 0x2f, 0, 0], 0, 5),
        // regval_type, convert to the generic type, call2, stack_value
        (&[0xa5, 5, 0x2a, 0xa8, 0, 0x98, 1, 0, 0x9f], 2, 6),
    ];
    slots_are_few();
    for (bytes, slots, fixed) in rows {
        assert!(rt; bytes.len() < 100);
        let ops = read_expr(rt.alloc(), bytes, 0, Reach::Narrow)?;
        assert_eq!(rt; slot_count(&ops), slots);
        assert_eq!(rt; fixed_len(&ops, bytes), fixed);
    }
    Ok(())
}

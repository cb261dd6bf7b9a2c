// Numbers of the worked rows.
use abbrev_numbering::number;
use dw_base::NoMemory;

#[test]
fn most_used_come_first(rt: HostRuntime) -> Result<(), NoMemory> {
    let mut uses = vec![in rt.alloc(); 1u64; 127]?;
    uses.push(5)?;
    let numbers = number(rt.alloc(), &uses)?;
    assert_eq!(rt; numbers.len(), 128);
    assert_eq!(rt; numbers[127], 1);
    for i in 0..127usize {
        assert_eq!(rt; numbers[i] as usize, i + 2);
    }
    let mixed = vec![in rt.alloc(); 3u64, 0, 7, 3]?;
    assert_eq!(rt; number(rt.alloc(), &mixed)?.as_slice(), &[2, 0, 1, 3][..]);
    Ok(())
}

// Files on the disk.
use dw_base::Host;
use std::test::Fail;
use system_host::RealHost;

#[test]
fn real_files(rt: HostRuntime) -> Result<(), Fail> {
    let alloc = rt.alloc();
    let mut host = RealHost::new(&rt, alloc);
    let mut into = [0u8; 4];
    assert_eq!(rt; host.begin("f").is_ok(), true);
    assert_eq!(rt; host.append("f", b"ab").is_ok(), true);
    assert_eq!(rt; host.append("f", b"c").is_ok(), true);
    assert_eq!(rt; host.read_at("f", 1, &mut into), Ok(2));
    assert_eq!(rt; into, [b'b', b'c', 0, 0]);
    assert_eq!(rt; host.read_at("g", 0, &mut into).is_err(), true);
    assert_eq!(rt; host.read_faults(), 1);
    Ok(())
}

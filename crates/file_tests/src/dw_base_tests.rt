// Hosts in memory, under all calls of a host.
use dw_base::{Host, MemHost, NamedFile, QuietHost, Stop};
use std::alloc::{AllocError, Global};
use std::process::Abort;
use std::test::Fail;

fn one_file(alloc: Global) -> Result<Vec<NamedFile>, AllocError> {
    let mut files = Vec::new(alloc);
    files.push(NamedFile {
        name: String::from_str(alloc, "a")?,
        bytes: [1u8, 2, 3].to_vec(alloc)?,
    })?;
    Ok(files)
}

// Five calls, of which none fails.
fn use_each_call<H: Host>(rt: &impl Abort, host: &mut H) {
    let mut into = [0u8; 4];
    assert_eq!(rt; host.begin("b"), Ok(()));
    assert_eq!(rt; host.append("b", &[7, 8]), Ok(()));
    assert_eq!(rt; host.append("b", &[9]), Ok(()));
    assert_eq!(rt; host.read_at("b", 1, &mut into), Ok(2));
    assert_eq!(rt; into, [8, 9, 0, 0]);
    assert_eq!(rt; host.say(b"said"), Ok(()));
}

// What stands in a host on which no call fails, after these.
fn ask_quiet(rt: &impl Abort, host: &mut QuietHost) -> Result<(), Fail> {
    let mut into = [0u8; 4];
    assert_eq!(rt;
        host.file("b").ok_or("no b")?.as_slice(),
        [7u8, 8, 9].as_slice()
    );
    assert_eq!(rt; host.said().as_slice(), "said".as_bytes());
    assert_eq!(rt; host.read_at("c", 0, &mut into), Ok(0));
    Ok(())
}

#[test]
fn a_host_on_which_no_call_fails(rt: HostRuntime) -> Result<(), Fail> {
    let alloc = rt.alloc();
    let mut host = QuietHost::new(alloc, one_file(alloc)?);
    use_each_call(&rt, &mut host);
    ask_quiet(&rt, &mut host)
}

// What stands in a host after these, of which the next three calls and all on missing files fail.
fn ask_failing(rt: &impl Abort, host: &mut MemHost) -> Result<(), Fail> {
    let mut into = [0u8; 4];
    assert_eq!(rt;
        host.file("b").ok_or("no b")?.as_slice(),
        [7u8, 8, 9].as_slice()
    );
    assert_eq!(rt; host.said().as_slice(), "said".as_bytes());
    assert_eq!(rt; host.read_at("a", 0, &mut into), Err(Stop::Failed));
    assert_eq!(rt; host.begin("a"), Err(Stop::Failed));
    assert_eq!(rt; host.say(b"more"), Err(Stop::Failed));
    assert_eq!(rt; host.read_at("c", 0, &mut into), Err(Stop::Failed));
    Ok(())
}

// Which calls failed: those of a missing file too. No file was changed by one, and nothing was said.
fn ask_faults(rt: &impl Abort, host: &MemHost) -> Result<(), Fail> {
    assert_eq!(rt; host.read_faults("a"), 1);
    assert_eq!(rt; host.read_faults("c"), 1);
    assert_eq!(rt; host.write_faults("a"), 1);
    assert_eq!(rt; host.say_faults(), 1);
    assert_eq!(rt;
        host.file("a").ok_or("no a")?.as_slice(),
        [1u8, 2, 3].as_slice()
    );
    assert_eq!(rt; host.said().as_slice(), "said".as_bytes());
    Ok(())
}

#[test]
fn a_host_on_which_calls_fail(rt: HostRuntime) -> Result<(), Fail> {
    let alloc = rt.alloc();
    let mut host = MemHost::new(alloc, one_file(alloc)?, [5u64, 6, 7].to_vec(alloc)?);
    use_each_call(&rt, &mut host);
    ask_failing(&rt, &mut host)?;
    ask_faults(&rt, &host)
}

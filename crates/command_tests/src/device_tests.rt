// A device that fails, call by call, and one that gives a byte at a time, under the commands of both programs.
use crate::packages_tests::{PACKED_CERTIFICATE, PACKED_CLANG};
use crate::sample_tests::{CLANG, CLANG_CERTIFICATE, CLANG_SUMMARY, LEAST_CLANG};
use crate::test_files::{BEFORE, CERTIFICATE_BEFORE, elf_file, named, words_of};
use commands::run_in;
use dw_base::{Classes, MemHost, NamedFile};
use std::alloc::{AllocError, Global};
use std::process::Abort;
use std::test::Fail;

/// The files `a`, `b` and `c` with these bytes.
pub fn held(
    alloc: Global,
    first: &[u8],
    second: &[u8],
    third: &[u8],
) -> Result<Vec<NamedFile>, AllocError> {
    let mut files = Vec::new(alloc);
    files.push(named(alloc, "a", first.to_vec(alloc)?)?)?;
    files.push(named(alloc, "b", second.to_vec(alloc)?)?)?;
    files.push(named(alloc, "c", third.to_vec(alloc)?)?)?;
    Ok(files)
}

// Stops where a command of the program for some classes doesn't end with a status and these words.
fn ends_with(
    rt: &impl Abort,
    alloc: Global,
    classes: Classes,
    words: &[&str],
    host: &mut MemHost,
    status: u8,
    said: &str,
) -> Result<(), Fail> {
    let words = words_of(alloc, words)?;
    assert_eq!(rt; run_in(alloc, classes, &words, host), status, "{said}");
    assert_eq!(rt; host.said().as_slice(), said.as_bytes());
    Ok(())
}

/// Stops where a file doesn't have these bytes.
pub fn is_held(rt: &impl Abort, host: &MemHost, name: &str, bytes: &[u8]) -> Result<(), Fail> {
    assert_eq!(rt;
        host.file(name).ok_or("no file")?.as_slice(),
        bytes,
        "{name}"
    );
    Ok(())
}

// The calls in their order: the input is read, and its end is found; then each file is begun, and has its bytes added. A call that fails
// changes nothing here.
#[test]
fn each_call_of_shrink_fails(rt: HostRuntime) -> Result<(), Fail> {
    let alloc = rt.alloc();
    let input = elf_file(alloc, &CLANG)?;
    let least = elf_file(alloc, &LEAST_CLANG)?;
    let packed = elf_file(alloc, &PACKED_CLANG)?;
    let programs: [(Classes, &[u8], &[u8]); 2] = [
        (Classes::every(), &least, &CLANG_CERTIFICATE),
        (Classes::packaged(), &packed, &PACKED_CERTIFICATE),
    ];
    for (classes, output, certificate) in programs {
        // the status, and what stands in the files then; at last no call fails
        let steps: [(u8, &[u8], &[u8]); 7] = [
            (4, &BEFORE, &CERTIFICATE_BEFORE),
            (4, &BEFORE, &CERTIFICATE_BEFORE),
            (5, &BEFORE, &CERTIFICATE_BEFORE),
            (5, &[], &CERTIFICATE_BEFORE),
            (5, output, &CERTIFICATE_BEFORE),
            (5, output, &[]),
            (0, output, certificate),
        ];
        for (number, (status, second, third)) in steps.into_iter().enumerate() {
            let files = held(alloc, &input, &BEFORE, &CERTIFICATE_BEFORE)?;
            let mut host = MemHost::new(alloc, files, [number as u64].to_vec(alloc)?);
            let words = ["shrink", "a", "b", "c"];
            ends_with(&rt, alloc, classes, &words, &mut host, status, "")?;
            is_held(&rt, &host, "a", &input)?;
            is_held(&rt, &host, "b", second)?;
            is_held(&rt, &host, "c", third)?;
        }
    }
    Ok(())
}

// The calls read each file and find its end, and say the answer.
#[test]
fn each_call_of_the_others_fails(rt: HostRuntime) -> Result<(), Fail> {
    let alloc = rt.alloc();
    let input = elf_file(alloc, &CLANG)?;
    let least = elf_file(alloc, &LEAST_CLANG)?;
    let packed = elf_file(alloc, &PACKED_CLANG)?;
    let check = ["check", "a", "b", "c"];
    let statuses = [4, 4, 4, 4, 4, 4, 5, 0];
    let table: [(Classes, &[&str], [&[u8]; 2], &[u8], &str); 3] = [
        (
            Classes::every(),
            &check,
            [&least, &CLANG_CERTIFICATE],
            &statuses,
            "accepted\n",
        ),
        (
            Classes::packaged(),
            &check,
            [&packed, &PACKED_CERTIFICATE],
            &statuses,
            "accepted\n",
        ),
        (
            Classes::every(),
            &["stat", "a"],
            [&least, &CLANG_CERTIFICATE],
            &[4, 4, 5, 0],
            CLANG_SUMMARY,
        ),
    ];
    for (classes, words, [output, certificate], statuses, last) in table {
        for (number, status) in statuses.iter().enumerate() {
            let files = held(alloc, &input, output, certificate)?;
            let mut host = MemHost::new(alloc, files, [number as u64].to_vec(alloc)?);
            let said = if *status == 0 { last } else { "" };
            ends_with(&rt, alloc, classes, words, &mut host, *status, said)?;
            is_held(&rt, &host, "a", &input)?;
            is_held(&rt, &host, "b", output)?;
            is_held(&rt, &host, "c", certificate)?;
        }
    }
    Ok(())
}

#[test]
fn a_byte_at_a_time(rt: HostRuntime) -> Result<(), Fail> {
    let alloc = rt.alloc();
    let input = elf_file(alloc, &CLANG)?;
    let output = elf_file(alloc, &LEAST_CLANG)?;
    let table: [(&[&str], &[u8], &[u8], &str); 3] = [
        (&["shrink", "a", "b", "c"], &BEFORE, &CERTIFICATE_BEFORE, ""),
        (
            &["check", "a", "b", "c"],
            &output,
            &CLANG_CERTIFICATE,
            "accepted\n",
        ),
        (&["stat", "a"], &output, &CLANG_CERTIFICATE, CLANG_SUMMARY),
    ];
    for (words, second, third, said) in table {
        let files = held(alloc, &input, second, third)?;
        let mut host = MemHost::in_pieces(alloc, files, Vec::new(alloc), 1);
        ends_with(&rt, alloc, Classes::every(), words, &mut host, 0, said)?;
        is_held(&rt, &host, "a", &input)?;
        is_held(&rt, &host, "b", &output)?;
        is_held(&rt, &host, "c", &CLANG_CERTIFICATE)?;
    }
    Ok(())
}

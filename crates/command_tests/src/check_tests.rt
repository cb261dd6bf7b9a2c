// What is said of a file, one that was written for it, and the certificate of this one.
use crate::sample_tests::{
    CLANG, CLANG_CERTIFICATE, GCC, LEAST_CLANG, LEAST_CLANG_INFO_WITH_LISTS,
};
use crate::test_files::{MAGIC, elf_file, named, shrunk, with_bytes, with_section, words_of};
use commands::run;
use dw_base::MemHost;
use std::alloc::{AllocError, Global};
use std::process::Abort;
use std::test::Fail;

/// Stops where `check a b c` isn't answered so, or a file differs afterwards. The calls of the host with the numbers in `failing` fail.
pub fn is_checked(
    rt: &impl Abort,
    alloc: Global,
    files: [&[u8]; 3],
    failing: &[u64],
    status: u8,
    said: &str,
) -> Result<(), Fail> {
    let names = ["a", "b", "c"];
    let mut held = Vec::new(alloc);
    for (name, bytes) in names.iter().zip(files.iter()) {
        held.push(named(alloc, name, bytes.to_vec(alloc)?)?)?;
    }
    let mut host = MemHost::new(alloc, held, failing.to_vec(alloc)?);
    let words = words_of(alloc, &["check", "a", "b", "c"])?;
    assert_eq!(rt; run(alloc, &words, &mut host), status, "{said}");
    assert_eq!(rt; host.said().as_slice(), said.as_bytes());
    for (name, bytes) in names.iter().zip(files.iter()) {
        assert_eq!(rt; host.file(name).ok_or("no file")?.as_slice(), *bytes);
    }
    Ok(())
}

#[test]
fn three_files(rt: HostRuntime) -> Result<(), Fail> {
    let alloc = rt.alloc();
    let input = elf_file(alloc, &GCC)?;
    let written = shrunk(alloc, &GCC)?;
    let faulty = elf_file(alloc, &[(".debug_macro", &[0; 4])])?;
    let other = elf_file(alloc, &[])?;
    let output = written.output.as_slice();
    let certificate = written.certificate.as_slice();
    let table: [([&[u8]; 3], &[u64], u8, &str); 9] = [
        ([&input, output, certificate], &[], 0, "accepted\n"),
        ([&input, output, &[]], &[], 7, "rejected record 0\n"),
        ([&input, output, &MAGIC], &[], 7, "rejected record 8\n"),
        // another count of sections has no name
        ([&input, &other, &MAGIC], &[], 7, "rejected kept \n"),
        (
            [&faulty, &faulty, &[]],
            &[],
            3,
            "refused in Companion at 64\n",
        ),
        (
            [&input, &faulty, &[]],
            &[],
            3,
            "refused out Companion at 64\n",
        ),
        // the calls read each file and then find its end, and the last says the answer
        ([&faulty, output, certificate], &[3], 4, ""),
        ([&faulty, output, certificate], &[5], 4, ""),
        ([&input, output, certificate], &[6], 5, ""),
    ];
    for (files, failing, status, said) in table {
        is_checked(&rt, alloc, files, failing, status, said)?;
    }
    Ok(())
}

// The file in the manner of clang, and what is written for it.
#[test]
fn worked_certificates(rt: HostRuntime) -> Result<(), Fail> {
    let alloc = rt.alloc();
    let input = elf_file(alloc, &CLANG)?;
    let output = elf_file(alloc, &LEAST_CLANG)?;
    let cut = elf_file(
        alloc,
        &with_section(alloc, &LEAST_CLANG, 0, &LEAST_CLANG_INFO_WITH_LISTS[..66])?,
    )?;
    // The last potential of the location list is too high by one, or too low, so that the size isn't shown.
    let high = with_bytes(alloc, &CLANG_CERTIFICATE, &[(20, 7)])?;
    let low = with_bytes(alloc, &CLANG_CERTIFICATE, &[(20, 5)])?;
    // The last record is one of a list, where that of a unit is due.
    let list = with_bytes(alloc, &CLANG_CERTIFICATE, &[(21, 2)])?;
    let table: [([&[u8]; 3], u8, &str); 8] = [
        ([&input, &output, &CLANG_CERTIFICATE], 0, "accepted\n"),
        ([&input, &output, &[]], 7, "rejected record 0\n"),
        ([&input, &output, &high], 7, "rejected list 1 1\n"),
        ([&input, &output, &low], 7, "rejected list 1 2\n"),
        ([&input, &output, &list], 7, "rejected record 21\n"),
        (
            [&input, &output, &CLANG_CERTIFICATE[..21]],
            7,
            "rejected record 21\n",
        ),
        // The first declaration begins at 141, and has a column of two bytes whose value needs one.
        ([&input, &input, &MAGIC], 7, "rejected class 141\n"),
        (
            [&input, &cut, &CLANG_CERTIFICATE],
            3,
            "refused out Short at 64\n",
        ),
    ];
    for (files, status, said) in table {
        is_checked(&rt, alloc, files, &[], status, said)?;
    }
    Ok(())
}

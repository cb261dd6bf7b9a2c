// Files in memory: which are written, and what is answered where a file, a call or the words are at fault.
use crate::line_tests::{LEAST_TWO_ROWS, TWO_ROWS};
use crate::test_files::{
    BEFORE, CERTIFICATE_BEFORE, MAGIC, answer_to, elf_file, is_certified, is_unwritten, is_written,
    shrunk, words_of,
};
use commands::run;
use dw_base::{Host, NamedFile, QuietHost};
use std::test::Fail;

#[test]
fn files_that_are_written(rt: HostRuntime) -> Result<(), Fail> {
    let alloc = rt.alloc();
    // a file header, the names in 16 bytes, and two section headers
    assert_eq!(rt; elf_file(alloc, &[])?.len(), 208);
    let table: [(&[(&str, &[u8])], &[(&str, &[u8])]); 3] = [
        (&[], &[]),
        (&[(".debug_str", &[0])], &[(".debug_str", &[0])]),
        (
            &[(".debug_line", &TWO_ROWS), (".debug_str", &[0])],
            &[(".debug_line", &LEAST_TWO_ROWS), (".debug_str", &[0])],
        ),
    ];
    for (old, new) in table {
        let answer = shrunk(alloc, old)?;
        is_written(&rt, alloc, &answer, new)?;
    }
    // Without a line number program, a list and a unit there are no records.
    is_certified(&rt, alloc, &shrunk(alloc, &[])?, &[])
}

#[test]
fn files_that_are_no_elf_files(rt: HostRuntime) -> Result<(), Fail> {
    let alloc = rt.alloc();
    // the numbers of one whose byte 5 is 2 have the highest byte first
    let mut other = elf_file(alloc, &[])?;
    if let Some(byte) = other.get_mut(5) {
        *byte = 2;
    }
    for input in [other, Vec::new(alloc)] {
        let answer = answer_to(alloc, &["shrink", "a", "b", "c"], Some(input), &[])?;
        is_unwritten(&rt, &answer, 3, "refused NotElf64 at 0\n");
    }
    Ok(())
}

#[test]
fn sections_that_are_refused(rt: HostRuntime) -> Result<(), Fail> {
    let alloc = rt.alloc();
    let table: [(&str, &[u8], &str); 3] = [
        (".debug_macro", &[0; 4], "refused Companion at 64\n"),
        // one byte holds no initial length
        (".debug_rnglists", &[0], "refused Short at 64\n"),
        (".debug_loclists", &[0], "refused Short at 64\n"),
    ];
    for (name, body, said) in table {
        let answer = shrunk(alloc, &[(name, body)])?;
        is_unwritten(&rt, &answer, 3, said);
    }
    Ok(())
}

#[test]
fn wrong_words(rt: HostRuntime) -> Result<(), Fail> {
    let alloc = rt.alloc();
    // no words; one name and two names; four names; two names that are the same; and another verb
    let table: [&[&str]; 8] = [
        &[],
        &["shrink", "a"],
        &["shrink", "a", "b"],
        &["shrink", "a", "b", "c", "d"],
        &["shrink", "b", "b", "c"],
        &["shrink", "a", "b", "b"],
        &["shrink", "c", "b", "c"],
        &["shrunk", "a", "b", "c"],
    ];
    for words in table {
        let input = elf_file(alloc, &[])?;
        let answer = answer_to(alloc, words, Some(input), &[])?;
        is_unwritten(&rt, &answer, 2, "words\n");
    }
    Ok(())
}

#[test]
fn an_input_that_is_missing(rt: HostRuntime) -> Result<(), Fail> {
    let answer = answer_to(rt.alloc(), &["shrink", "a", "b", "c"], None, &[])?;
    is_unwritten(&rt, &answer, 4, "");
    Ok(())
}

#[test]
fn calls_that_fail(rt: HostRuntime) -> Result<(), Fail> {
    let alloc = rt.alloc();
    let whole = elf_file(alloc, &[])?;
    // The calls 0 and 1 read the input; the next two begin the output and write it, and the next two the certificate. A call that
    // fails changes nothing here.
    let table: [(u64, u8, &[u8], &[u8]); 5] = [
        (0, 4, &BEFORE, &CERTIFICATE_BEFORE),
        (2, 5, &BEFORE, &CERTIFICATE_BEFORE),
        (3, 5, &[], &CERTIFICATE_BEFORE),
        (4, 5, &whole, &CERTIFICATE_BEFORE),
        (5, 5, &whole, &[]),
    ];
    for (failing, status, output, certificate) in table {
        let input = elf_file(alloc, &[])?;
        let words = ["shrink", "a", "b", "c"];
        let answer = answer_to(alloc, &words, Some(input), &[failing])?;
        assert_eq!(rt; answer.status, status, "{failing}");
        assert_eq!(rt; answer.said.as_slice(), b"".as_slice());
        assert_eq!(rt; answer.output.as_slice(), output);
        assert_eq!(rt; answer.certificate.as_slice(), certificate);
    }
    Ok(())
}

#[test]
fn quiet_files(rt: HostRuntime) -> Result<(), Fail> {
    let alloc = rt.alloc();
    let mut files = Vec::new(alloc);
    files.push(NamedFile {
        name: String::from_str(alloc, "a")?,
        bytes: elf_file(alloc, &[])?,
    })?;
    let mut host = QuietHost::new(alloc, files);
    let words = words_of(alloc, &["shrink", "a", "b", "c"])?;
    let output = elf_file(alloc, &[])?;
    assert_eq!(rt; run(alloc, &words, &mut host), 0);
    assert_eq!(rt; host.file("b").ok_or("no b")?.as_slice(), output.as_slice());
    assert_eq!(rt; host.file("c").ok_or("no c")?.as_slice(), MAGIC.as_slice());
    Ok(())
}

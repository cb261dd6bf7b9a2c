// Files that are drawn from a number, and what is done with them. The numbers of their entries and rows, and the bytes of their
// units, are those of a plain program.
use crate::check_tests::is_checked;
use crate::test_files::{Answer, BEFORE, CERTIFICATE_BEFORE, answer_to, is_unwritten};
use std::alloc::Global;
use std::process::Abort;
use std::test::Fail;

// The bytes of a file that is drawn.
fn drawn(rt: &impl Abort, alloc: Global, number: &str, units: &str) -> Result<Vec<u8>, Fail> {
    let answer = answer_to(alloc, &["make", number, units, "b"], None, &[])?;
    assert_eq!(rt; answer.status, 0);
    assert_eq!(rt; answer.said.as_slice(), b"".as_slice());
    assert_eq!(rt;
        answer.certificate.as_slice(),
        CERTIFICATE_BEFORE.as_slice()
    );
    Ok(answer.output)
}

// The answer to `shrink a b c`.
fn shrunk_file(alloc: Global, file: &[u8]) -> Result<Answer, Fail> {
    answer_to(
        alloc,
        &["shrink", "a", "b", "c"],
        Some(file.to_vec(alloc)?),
        &[],
    )
}

// What is said of a file.
fn summary(alloc: Global, file: &Vec<u8>) -> Result<Answer, Fail> {
    answer_to(
        alloc,
        &["stat", "a"],
        Some(file.as_slice().to_vec(alloc)?),
        &[],
    )
}

#[test]
fn files_are_drawn_and_shrunk(rt: HostRuntime) -> Result<(), Fail> {
    let alloc = rt.alloc();
    for (number, units, size) in [("7", "2", 3232), ("1", "8", 8256)] {
        let file = drawn(&rt, alloc, number, units)?;
        let again = drawn(&rt, alloc, number, units)?;
        assert_eq!(rt; file.len(), size);
        assert_eq!(rt; file.as_slice(), again.as_slice());
        let answer = shrunk_file(alloc, &file)?;
        assert_eq!(rt; answer.status, 0);
        assert_eq!(rt; answer.output.len() < size, true);
        let second = shrunk_file(alloc, &file)?;
        assert_eq!(rt; second.output.as_slice(), answer.output.as_slice());
        assert_eq!(rt;
            second.certificate.as_slice(),
            answer.certificate.as_slice()
        );
        let files: [&[u8]; 3] = [&file, &answer.output, &answer.certificate];
        is_checked(&rt, alloc, files, &[], 0, "accepted\n")?;
    }
    Ok(())
}

#[test]
fn a_drawn_file_is_summed_up(rt: HostRuntime) -> Result<(), Fail> {
    let alloc = rt.alloc();
    let file = drawn(&rt, alloc, "1", "4")?;
    let first = summary(alloc, &file)?;
    let second = summary(alloc, &file)?;
    assert_eq!(rt; first.status, 0);
    assert_eq!(rt; first.said.as_slice(), second.said.as_slice());
    let said = str::from_utf8(first.said.as_slice()).ok().ok_or("bytes")?;
    assert_eq!(rt; said.starts_with("{\"abbrev\":[78,"), true);
    let (_, sizes) = said
        .split_once("],\"entries\":44,\"info\":[906,")
        .ok_or("info")?;
    let (new, _) = sizes.split_once(']').ok_or("a size")?;
    let new: u64 = new.parse().ok().ok_or("a number")?;
    assert_eq!(rt; new < 906, true);
    assert_eq!(rt; said.ends_with("],\"rows\":279,\"units\":4}\n"), true);
    Ok(())
}

// Numbers are in digits alone, without a zero before others, and in their ranges.
#[test]
fn wrong_numbers(rt: HostRuntime) -> Result<(), Fail> {
    let alloc = rt.alloc();
    let table: [(&str, &str); 13] = [
        ("01", "4"),
        ("00", "4"),
        ("", "4"),
        ("+1", "4"),
        ("-1", "4"),
        ("1a", "4"),
        (" 1", "4"),
        ("4294967296", "4"),
        ("1", "0"),
        ("1", "4097"),
        ("1", "04"),
        ("1", "+4"),
        ("1", "99999999999999999999"),
    ];
    for (number, units) in table {
        let answer = answer_to(alloc, &["make", number, units, "b"], None, &[])?;
        is_unwritten(&rt, &answer, 2, "words\n");
    }
    let table: [&[&str]; 4] = [
        &["make", "1", "b"],
        &["make", "1", "1", "b", "c"],
        &["Make", "1", "1", "b"],
        &["make"],
    ];
    for words in table {
        let answer = answer_to(alloc, words, None, &[])?;
        is_unwritten(&rt, &answer, 2, "words\n");
    }
    Ok(())
}

// The ends of both ranges; and 0 is a number.
#[test]
fn right_numbers(rt: HostRuntime) -> Result<(), Fail> {
    let alloc = rt.alloc();
    assert_eq!(rt; drawn(&rt, alloc, "0", "1")?.len(), 3032);
    assert_eq!(rt; drawn(&rt, alloc, "4294967295", "3")?.len(), 5976);
    Ok(())
}

// Call 0 begins the output, and call 1 writes it. After the second no file but it differs.
#[test]
fn failing_calls(rt: HostRuntime) -> Result<(), Fail> {
    let alloc = rt.alloc();
    let answer = answer_to(alloc, &["make", "1", "1", "b"], None, &[0])?;
    assert_eq!(rt; answer.status, 5);
    assert_eq!(rt; answer.said.as_slice(), b"".as_slice());
    assert_eq!(rt; answer.output.as_slice(), BEFORE.as_slice());
    let answer = answer_to(alloc, &["make", "1", "1", "b"], None, &[1])?;
    assert_eq!(rt; answer.status, 5);
    assert_eq!(rt; answer.said.as_slice(), b"".as_slice());
    assert_eq!(rt;
        answer.certificate.as_slice(),
        CERTIFICATE_BEFORE.as_slice()
    );
    Ok(())
}

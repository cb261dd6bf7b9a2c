// What the program says that writing a file anew would win.
use crate::sample_tests::{CLANG, CLANG_SUMMARY, GCC};
use crate::test_files::{Answer, answer_to, elf_file, is_unwritten};
use crate::unit_tests::{FOUR_BYTES, table_with, unit};
use std::alloc::Global;
use std::test::Fail;

// The answer to `stat a`, where `a` is a file with these sections. The calls of the host with the numbers in `failing` fail.
fn told(alloc: Global, sections: &[(&str, &[u8])], failing: &[u64]) -> Result<Answer, Fail> {
    let input = elf_file(alloc, sections)?;
    answer_to(alloc, &["stat", "a"], Some(input), failing)
}

#[test]
fn compiled_files(rt: HostRuntime) -> Result<(), Fail> {
    let alloc = rt.alloc();
    let said =
        "{\"abbrev\":[71,71],\"entries\":4,\"info\":[101,78],\"line\":[76,69],\"loclists\":[30,30],\"rnglists\":[0,0],\"rows\":3,\"units\":1}\n";
    is_unwritten(&rt, &told(alloc, &GCC, &[])?, 0, said);
    is_unwritten(&rt, &told(alloc, &CLANG, &[])?, 0, CLANG_SUMMARY);
    Ok(())
}

#[test]
fn one_unit_and_none(rt: HostRuntime) -> Result<(), Fail> {
    let alloc = rt.alloc();
    let info = unit(alloc, &FOUR_BYTES, 111)?;
    let abbrevs = table_with(0x13);
    let sections: [(&str, &[u8]); 2] = [(".debug_info", &info), (".debug_abbrev", &abbrevs)];
    let said =
        "{\"abbrev\":[20,20],\"entries\":3,\"info\":[132,129],\"line\":[0,0],\"loclists\":[0,0],\"rnglists\":[0,0],\"rows\":0,\"units\":1}\n";
    is_unwritten(&rt, &told(alloc, &sections, &[])?, 0, said);
    let said =
        "{\"abbrev\":[0,0],\"entries\":0,\"info\":[0,0],\"line\":[0,0],\"loclists\":[0,0],\"rnglists\":[0,0],\"rows\":0,\"units\":0}\n";
    is_unwritten(&rt, &told(alloc, &[], &[])?, 0, said);
    Ok(())
}

// The calls 0 and 1 read the input, and call 2 says the line.
#[test]
fn answers_without_a_line(rt: HostRuntime) -> Result<(), Fail> {
    let alloc = rt.alloc();
    let faulty: [(&str, &[u8]); 1] = [(".debug_macro", &[0; 4])];
    is_unwritten(
        &rt,
        &told(alloc, &faulty, &[])?,
        3,
        "refused Companion at 64\n",
    );
    is_unwritten(&rt, &told(alloc, &[], &[0])?, 4, "");
    is_unwritten(&rt, &told(alloc, &[], &[1])?, 4, "");
    is_unwritten(&rt, &told(alloc, &[], &[2])?, 5, "");
    is_unwritten(&rt, &answer_to(alloc, &["stat", "a"], None, &[])?, 4, "");
    for words in [["stat"].as_slice(), &["stat", "a", "b"], &["stats", "a"]] {
        let input = elf_file(alloc, &[])?;
        is_unwritten(
            &rt,
            &answer_to(alloc, words, Some(input), &[])?,
            2,
            "words\n",
        );
    }
    Ok(())
}

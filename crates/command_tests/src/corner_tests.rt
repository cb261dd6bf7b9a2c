// Files at the edges of what is written: `check` accepts what `shrink` writes of each.
use crate::check_tests::is_checked;
use crate::test_files::{MAGIC, elf_file, is_certified, shrunk};
use std::test::Fail;

// Two runs without pairs at one list: its units,
const TWO_RUNS_INFO: [u8; 32] = [
    0x1c, 0, 0, 0, 5, 0, 1, 8, 0, 0, 0, 0, 1, 2, 0x0e, 0, 0, 0, 0x0c, 0, 0, 0, 2, 0x0e, 0, 0, 0,
    0x0d, 0, 0, 0, 0,
];

// its declarations,
const TWO_RUNS_ABBREVS: [u8; 16] = [
    1, 0x11, 1, 0, 0, 2, 0x34, 0, 2, 0x17, 0xb7, 0x42, 0x17, 0, 0, 0,
];

// and its lists.
const TWO_RUNS_LISTS: [u8; 18] = [0x0e, 0, 0, 0, 5, 0, 8, 0, 0, 0, 0, 0, 0, 0, 5, 1, 0x30, 0];

// One run that goes with two lists: its units,
const ONE_RUN_INFO: [u8; 49] = [
    0x2d, 0, 0, 0, 5, 0, 1, 8, 0, 0, 0, 0, 1, 0, 0, 0, 0, 0, 0, 0, 0, 2, 0x10, 0, 0, 0, 0x0c, 0, 0,
    0, 2, 0x16, 0, 0, 0, 0x0c, 0, 0, 0, 2, 0x10, 0, 0, 0, 0x0e, 0, 0, 0, 0,
];

// its declarations,
const ONE_RUN_ABBREVS: [u8; 18] = [
    1, 0x11, 1, 0x11, 1, 0, 0, 2, 0x34, 0, 2, 0x17, 0xb7, 0x42, 0x17, 0, 0, 0,
];

// and its lists.
const ONE_RUN_LISTS: [u8; 28] = [
    0x18, 0, 0, 0, 5, 0, 8, 0, 0, 0, 0, 0, 0x81, 0, 1, 0, 4, 0, 1, 1, 0x30, 0, 4, 2, 5, 1, 0x31, 0,
];

// A shared list whose operands have bytes too many: its units,
const SHARED_INFO: [u8; 50] = [
    0x15, 0, 0, 0, 5, 0, 1, 8, 0, 0, 0, 0, 1, 0, 0x10, 0, 0, 0, 0, 0, 0, 0x0c, 0, 0, 0, 0x15, 0, 0,
    0, 5, 0, 1, 8, 0, 0, 0, 0, 1, 0, 0x20, 0, 0, 0, 0, 0, 0, 0x0c, 0, 0, 0,
];

// its declarations,
const SHARED_ABBREVS: [u8; 10] = [1, 0x11, 0, 0x11, 1, 0x55, 0x17, 0, 0, 0];

// and its lists.
const SHARED_LISTS: [u8; 19] = [
    0x0f, 0, 0, 0, 5, 0, 8, 0, 0, 0, 0, 0, 4, 0x80, 0, 0x85, 0, 0, 0xff,
];

// A list that a slot alone names: its units,
const UNOWNED_INFO: [u8; 14] = [0x0a, 0, 0, 0, 5, 0, 1, 8, 0, 0, 0, 0, 1, 0];

// its declarations,
const UNOWNED_ABBREVS: [u8; 6] = [1, 0x11, 1, 0, 0, 0];

// and its lists.
const UNOWNED_LISTS: [u8; 32] = [
    0x1c, 0, 0, 0, 5, 0, 8, 0, 1, 0, 0, 0, 4, 0, 0, 0, 4, 0, 4, 0x8a, 0, 0xa8, 0x80, 0, 0xa3, 0x83,
    0, 0x10, 0x81, 0, 0x9f, 0,
];

// Columns of references that count from the section: its units,
const SECTION_REFERENCES_INFO: [u8; 48] = [
    0x19, 0, 0, 0, 5, 0, 1, 8, 0, 0, 0, 0, 1, 2, 0x0d, 0, 0, 0, 2, 0x29, 0, 0, 0, 3, 0x1c, 0, 0, 0,
    0, 0x0f, 0, 0, 0, 5, 0, 1, 8, 0, 0, 0, 0, 1, 3, 0x29, 0, 0, 0, 0,
];

// its declarations.
const SECTION_REFERENCES_ABBREVS: [u8; 20] = [
    1, 0x11, 1, 0, 0, 2, 0x34, 0, 0x49, 0x10, 0, 0, 3, 0x35, 0, 0x49, 0x10, 0, 0, 0,
];

// Calls and types, also inside an entry_value: its units,
const CALLS_INFO: [u8; 35] = [
    0x1f, 0, 0, 0, 5, 0, 1, 8, 0, 0, 0, 0, 1, 2, 0x91, 0, 0x98, 0x21, 0, 0xa3, 0x86, 0, 0xa8, 0xa1,
    0, 0xa9, 0x80, 0, 0x99, 0x21, 0, 0, 0, 3, 0,
];

// its declarations.
const CALLS_ABBREVS: [u8; 18] = [
    1, 0x11, 1, 0, 0, 2, 0x34, 0, 2, 0x18, 0, 0, 3, 0x24, 0, 0, 0, 0,
];

// Two units that name one table,
const TWO_UNITS_INFO: [u8; 26] = [
    9, 0, 0, 0, 5, 0, 1, 8, 0, 0, 0, 0, 1, 9, 0, 0, 0, 5, 0, 1, 8, 0, 0, 0, 0, 1,
];

const ONE_TABLE: [u8; 6] = [1, 0x11, 0, 0, 0, 0];

// and, written with the table twice, of which the first unit names the second.
const APART_INFO: [u8; 26] = [
    9, 0, 0, 0, 5, 0, 1, 8, 6, 0, 0, 0, 1, 9, 0, 0, 0, 5, 0, 1, 8, 0, 0, 0, 0, 1,
];

const TWO_TABLES: [u8; 12] = [1, 0x11, 0, 0, 0, 0, 1, 0x11, 0, 0, 0, 0];

#[test]
fn corner_files(rt: HostRuntime) -> Result<(), Fail> {
    let alloc = rt.alloc();
    // Each with the records of its certificate, where they were worked out by hand.
    let table: [(&[(&str, &[u8])], Option<&[u8]>); 6] = [
        (
            &[
                (".debug_info", &TWO_RUNS_INFO),
                (".debug_abbrev", &TWO_RUNS_ABBREVS),
                (".debug_loclists", &TWO_RUNS_LISTS),
            ],
            Some(&[2, 1, 0x0b, 3, 0]),
        ),
        (
            &[
                (".debug_info", &ONE_RUN_INFO),
                (".debug_abbrev", &ONE_RUN_ABBREVS),
                (".debug_loclists", &ONE_RUN_LISTS),
            ],
            None,
        ),
        (
            &[
                (".debug_info", &SHARED_INFO),
                (".debug_abbrev", &SHARED_ABBREVS),
                (".debug_rnglists", &SHARED_LISTS),
            ],
            Some(&[3, 0, 3, 0]),
        ),
        (
            &[
                (".debug_info", &UNOWNED_INFO),
                (".debug_abbrev", &UNOWNED_ABBREVS),
                (".debug_loclists", &UNOWNED_LISTS),
            ],
            None,
        ),
        (
            &[
                (".debug_info", &SECTION_REFERENCES_INFO),
                (".debug_abbrev", &SECTION_REFERENCES_ABBREVS),
            ],
            None,
        ),
        (
            &[
                (".debug_info", &CALLS_INFO),
                (".debug_abbrev", &CALLS_ABBREVS),
            ],
            None,
        ),
    ];
    for (sections, records) in table {
        let input = elf_file(alloc, sections)?;
        let answer = shrunk(alloc, sections)?;
        let files: [&[u8]; 3] = [&input, &answer.output, &answer.certificate];
        is_checked(&rt, alloc, files, &[], 0, "accepted\n")?;
        if let Some(records) = records {
            is_certified(&rt, alloc, &answer, records)?;
        }
    }
    // Of the two tables the one that stands behind is a further one, whichever unit names it. .debug_abbrev begins at 90.
    let input: [(&str, &[u8]); 2] = [
        (".debug_info", &TWO_UNITS_INFO),
        (".debug_abbrev", &ONE_TABLE),
    ];
    let output: [(&str, &[u8]); 2] = [(".debug_info", &APART_INFO), (".debug_abbrev", &TWO_TABLES)];
    let (input, output) = (elf_file(alloc, &input)?, elf_file(alloc, &output)?);
    is_checked(
        &rt,
        alloc,
        [&input, &output, &MAGIC],
        &[],
        7,
        "rejected class 96\n",
    )
}

// Where sections, tables and units of a file stand that is written anew, and what refers to them, worked out by hand.
use dw_base::Refusal;
use rewriter::rewrite;
use std::alloc::Global;
use std::test::Fail;

// An executable for x86-64 with .debug_info at 64, .debug_abbrev at 138, .debug_line at 184, .debug_aranges at 271 and .shstrtab
// at 335.
//
// Two units name the table at 6 of .debug_abbrev. It declares a base type with a name, in two bytes the code 133; a subprogram
// that no entry has; a compilation unit with DW_AT_stmt_list; variables with DW_AT_type, as ref4 and as ref_addr; and a type
// unit. The table at 0 is named by none.
//
// The compilation unit at 0 has its root at 12 with the program at 53, the base type `a` at 17, a variable at 21 whose type is
// this, another at 26 whose type is the code 0 at 31 that ends the children, and three bytes of padding. The type unit at 35 has
// its root at 24, counted from its own first byte as the next places are; the base type `b` at 25; the base type `c` at 29, its
// type_offset; a variable at 33 whose type is the variable at 26 of .debug_info; and the code 0 at 38.
//
// The line number program at 0 has two rows and a padded operand; the one at 53 has no opcodes. Two sets of address ranges name
// the units at 0 and at 35.
const WITH_UNITS: [u8; 784] = [
    0x7f, 0x45, 0x4c, 0x46, 2, 1, 1, 0, 0, 0, 0, 0, 0, 0, 0, 0, 2, 0, 0x3e, 0, 1, 0, 0, 0, 0, 0, 0,
    0, 0, 0, 0, 0, 0, 0, 0, 0, 0, 0, 0, 0, 0x90, 1, 0, 0, 0, 0, 0, 0, 0, 0, 0, 0, 0x40, 0, 0, 0, 0,
    0, 0x40, 0, 6, 0, 5, 0, 0x1f, 0, 0, 0, 5, 0, 1, 8, 6, 0, 0, 0, 1, 0x35, 0, 0, 0, 0x85, 1, 0x61,
    0, 2, 0x11, 0, 0, 0, 2, 0x1f, 0, 0, 0, 0, 0, 0, 0, 0x23, 0, 0, 0, 5, 0, 2, 8, 6, 0, 0, 0, 1, 2,
    3, 4, 5, 6, 7, 8, 0x1d, 0, 0, 0, 4, 0x85, 1, 0x62, 0, 0x85, 1, 0x63, 0, 3, 0x1a, 0, 0, 0, 0, 7,
    0x11, 0, 0, 0, 0, 0x85, 1, 0x24, 0, 3, 8, 0, 0, 9, 0x2e, 0, 0, 0, 1, 0x11, 1, 0x10, 0x17, 0, 0,
    2, 0x34, 0, 0x49, 0x13, 0, 0, 3, 0x34, 0, 0x49, 0x10, 0, 0, 4, 0x41, 1, 0, 0, 0, 0x31, 0, 0, 0,
    5, 0, 8, 0, 0x16, 0, 0, 0, 1, 1, 1, 0xfb, 0x0e, 0x0d, 0, 1, 1, 1, 1, 0, 0, 0, 1, 0, 0, 1, 0, 0,
    0, 0, 0, 9, 2, 0, 0x10, 0, 0, 0, 0, 0, 0, 1, 0x4c, 2, 0x84, 0, 0, 1, 1, 0x1e, 0, 0, 0, 5, 0, 8,
    0, 0x16, 0, 0, 0, 1, 1, 1, 0xfb, 0x0e, 0x0d, 0, 1, 1, 1, 1, 0, 0, 0, 1, 0, 0, 1, 0, 0, 0, 0,
    0x1c, 0, 0, 0, 2, 0, 0, 0, 0, 0, 8, 0, 0, 0, 0, 0, 0, 0, 0, 0, 0, 0, 0, 0, 0, 0, 0, 0, 0, 0, 0,
    0, 0x1c, 0, 0, 0, 2, 0, 0x23, 0, 0, 0, 8, 0, 0, 0, 0, 0, 0, 0, 0, 0, 0, 0, 0, 0, 0, 0, 0, 0, 0,
    0, 0, 0, 0, 0x2e, 0x64, 0x65, 0x62, 0x75, 0x67, 0x5f, 0x69, 0x6e, 0x66, 0x6f, 0, 0x2e, 0x64,
    0x65, 0x62, 0x75, 0x67, 0x5f, 0x61, 0x62, 0x62, 0x72, 0x65, 0x76, 0, 0x2e, 0x64, 0x65, 0x62,
    0x75, 0x67, 0x5f, 0x6c, 0x69, 0x6e, 0x65, 0, 0x2e, 0x64, 0x65, 0x62, 0x75, 0x67, 0x5f, 0x61,
    0x72, 0x61, 0x6e, 0x67, 0x65, 0x73, 0, 0x2e, 0x73, 0x68, 0x73, 0x74, 0x72, 0x74, 0x61, 0x62, 0,
    0, 0, 0, 0, 0, 0, 0, 0, 0, 0, 0, 0, 0, 0, 0, 0, 0, 0, 0, 0, 0, 0, 0, 0, 0, 0, 0, 0, 0, 0, 0, 0,
    0, 0, 0, 0, 0, 0, 0, 0, 0, 0, 0, 0, 0, 0, 0, 0, 0, 0, 0, 0, 0, 0, 0, 0, 0, 0, 0, 0, 0, 0, 0, 0,
    0, 1, 0, 0, 0, 1, 0, 0, 0, 0, 0, 0, 0, 0, 0, 0, 0, 0, 0, 0, 0, 0, 0, 0, 0, 0x40, 0, 0, 0, 0, 0,
    0, 0, 0x4a, 0, 0, 0, 0, 0, 0, 0, 0, 0, 0, 0, 0, 0, 0, 0, 1, 0, 0, 0, 0, 0, 0, 0, 0, 0, 0, 0, 0,
    0, 0, 0, 0x0d, 0, 0, 0, 1, 0, 0, 0, 0, 0, 0, 0, 0, 0, 0, 0, 0, 0, 0, 0, 0, 0, 0, 0, 0x8a, 0, 0,
    0, 0, 0, 0, 0, 0x2e, 0, 0, 0, 0, 0, 0, 0, 0, 0, 0, 0, 0, 0, 0, 0, 1, 0, 0, 0, 0, 0, 0, 0, 0, 0,
    0, 0, 0, 0, 0, 0, 0x1b, 0, 0, 0, 1, 0, 0, 0, 0, 0, 0, 0, 0, 0, 0, 0, 0, 0, 0, 0, 0, 0, 0, 0,
    0xb8, 0, 0, 0, 0, 0, 0, 0, 0x57, 0, 0, 0, 0, 0, 0, 0, 0, 0, 0, 0, 0, 0, 0, 0, 1, 0, 0, 0, 0, 0,
    0, 0, 0, 0, 0, 0, 0, 0, 0, 0, 0x27, 0, 0, 0, 1, 0, 0, 0, 0, 0, 0, 0, 0, 0, 0, 0, 0, 0, 0, 0, 0,
    0, 0, 0, 0x0f, 1, 0, 0, 0, 0, 0, 0, 0x40, 0, 0, 0, 0, 0, 0, 0, 0, 0, 0, 0, 0, 0, 0, 0, 1, 0, 0,
    0, 0, 0, 0, 0, 0, 0, 0, 0, 0, 0, 0, 0, 0x36, 0, 0, 0, 3, 0, 0, 0, 0, 0, 0, 0, 0, 0, 0, 0, 0, 0,
    0, 0, 0, 0, 0, 0, 0x4f, 1, 0, 0, 0, 0, 0, 0, 0x40, 0, 0, 0, 0, 0, 0, 0, 0, 0, 0, 0, 0, 0, 0, 0,
    1, 0, 0, 0, 0, 0, 0, 0, 0, 0, 0, 0, 0, 0, 0, 0,
];

// The same anew. .debug_info has 62 bytes: codes of two bytes have one, so that each base type has 3 bytes in place of 4; a reference
// within its unit has one in place of 4, as its number is below 128; and the padding is gone. The compilation unit has its root at 12
// with the program at 43, `a` at 17, and variables at 20 and 22 whose types are `a` and the code 0 at 24. The type unit stands at 25: its
// root at 24, `b` at 25 and `c`, its type_offset, at 28 of it; and a variable, whose type is the one at 22 of .debug_info in the 4 bytes of
// ref_addr. Both name the table at 0.
//
// .debug_abbrev, at 126, has 34 bytes. Three entries are base types, with the code 1, two are variables whose ref4 is ref_udata, with
// the code 2, and one has each of the others but the subprogram, which isn't written.
//
// .debug_line, at 160, has 77 bytes: the least program of the two rows, with line_base -44 and line_range 49, and the other one at 43.
// .debug_aranges stands at 237, its second set names the unit at 25, and .shstrtab stands at 301.
const UNITS_ANEW: [u8; 752] = [
    0x7f, 0x45, 0x4c, 0x46, 2, 1, 1, 0, 0, 0, 0, 0, 0, 0, 0, 0, 2, 0, 0x3e, 0, 1, 0, 0, 0, 0, 0, 0,
    0, 0, 0, 0, 0, 0, 0, 0, 0, 0, 0, 0, 0, 0x70, 1, 0, 0, 0, 0, 0, 0, 0, 0, 0, 0, 0x40, 0, 0, 0, 0,
    0, 0x40, 0, 6, 0, 5, 0, 0x15, 0, 0, 0, 5, 0, 1, 8, 0, 0, 0, 0, 3, 0x2b, 0, 0, 0, 1, 0x61, 0, 2,
    0x11, 2, 0x18, 0, 0x21, 0, 0, 0, 5, 0, 2, 8, 0, 0, 0, 0, 1, 2, 3, 4, 5, 6, 7, 8, 0x1c, 0, 0, 0,
    5, 1, 0x62, 0, 1, 0x63, 0, 4, 0x16, 0, 0, 0, 0, 1, 0x24, 0, 3, 8, 0, 0, 2, 0x34, 0, 0x49, 0x15,
    0, 0, 3, 0x11, 1, 0x10, 0x17, 0, 0, 4, 0x34, 0, 0x49, 0x10, 0, 0, 5, 0x41, 1, 0, 0, 0, 0x27, 0,
    0, 0, 5, 0, 8, 0, 0x16, 0, 0, 0, 1, 1, 1, 0xd4, 0x31, 0x0d, 0, 1, 1, 1, 1, 0, 0, 0, 1, 0, 0, 1,
    0, 0, 0, 0, 2, 0x80, 0x20, 1, 0xff, 8, 0, 1, 1, 0x1e, 0, 0, 0, 5, 0, 8, 0, 0x16, 0, 0, 0, 1, 1,
    1, 0xfb, 0x0e, 0x0d, 0, 1, 1, 1, 1, 0, 0, 0, 1, 0, 0, 1, 0, 0, 0, 0, 0x1c, 0, 0, 0, 2, 0, 0, 0,
    0, 0, 8, 0, 0, 0, 0, 0, 0, 0, 0, 0, 0, 0, 0, 0, 0, 0, 0, 0, 0, 0, 0, 0, 0x1c, 0, 0, 0, 2, 0,
    0x19, 0, 0, 0, 8, 0, 0, 0, 0, 0, 0, 0, 0, 0, 0, 0, 0, 0, 0, 0, 0, 0, 0, 0, 0, 0, 0, 0x2e, 0x64,
    0x65, 0x62, 0x75, 0x67, 0x5f, 0x69, 0x6e, 0x66, 0x6f, 0, 0x2e, 0x64, 0x65, 0x62, 0x75, 0x67,
    0x5f, 0x61, 0x62, 0x62, 0x72, 0x65, 0x76, 0, 0x2e, 0x64, 0x65, 0x62, 0x75, 0x67, 0x5f, 0x6c,
    0x69, 0x6e, 0x65, 0, 0x2e, 0x64, 0x65, 0x62, 0x75, 0x67, 0x5f, 0x61, 0x72, 0x61, 0x6e, 0x67,
    0x65, 0x73, 0, 0x2e, 0x73, 0x68, 0x73, 0x74, 0x72, 0x74, 0x61, 0x62, 0, 0, 0, 0, 0, 0, 0, 0, 0,
    0, 0, 0, 0, 0, 0, 0, 0, 0, 0, 0, 0, 0, 0, 0, 0, 0, 0, 0, 0, 0, 0, 0, 0, 0, 0, 0, 0, 0, 0, 0, 0,
    0, 0, 0, 0, 0, 0, 0, 0, 0, 0, 0, 0, 0, 0, 0, 0, 0, 0, 0, 0, 0, 0, 0, 0, 0, 0, 0, 1, 0, 0, 0, 1,
    0, 0, 0, 0, 0, 0, 0, 0, 0, 0, 0, 0, 0, 0, 0, 0, 0, 0, 0, 0x40, 0, 0, 0, 0, 0, 0, 0, 0x3e, 0, 0,
    0, 0, 0, 0, 0, 0, 0, 0, 0, 0, 0, 0, 0, 1, 0, 0, 0, 0, 0, 0, 0, 0, 0, 0, 0, 0, 0, 0, 0, 0x0d, 0,
    0, 0, 1, 0, 0, 0, 0, 0, 0, 0, 0, 0, 0, 0, 0, 0, 0, 0, 0, 0, 0, 0, 0x7e, 0, 0, 0, 0, 0, 0, 0,
    0x22, 0, 0, 0, 0, 0, 0, 0, 0, 0, 0, 0, 0, 0, 0, 0, 1, 0, 0, 0, 0, 0, 0, 0, 0, 0, 0, 0, 0, 0, 0,
    0, 0x1b, 0, 0, 0, 1, 0, 0, 0, 0, 0, 0, 0, 0, 0, 0, 0, 0, 0, 0, 0, 0, 0, 0, 0, 0xa0, 0, 0, 0, 0,
    0, 0, 0, 0x4d, 0, 0, 0, 0, 0, 0, 0, 0, 0, 0, 0, 0, 0, 0, 0, 1, 0, 0, 0, 0, 0, 0, 0, 0, 0, 0, 0,
    0, 0, 0, 0, 0x27, 0, 0, 0, 1, 0, 0, 0, 0, 0, 0, 0, 0, 0, 0, 0, 0, 0, 0, 0, 0, 0, 0, 0, 0xed, 0,
    0, 0, 0, 0, 0, 0, 0x40, 0, 0, 0, 0, 0, 0, 0, 0, 0, 0, 0, 0, 0, 0, 0, 1, 0, 0, 0, 0, 0, 0, 0, 0,
    0, 0, 0, 0, 0, 0, 0, 0x36, 0, 0, 0, 3, 0, 0, 0, 0, 0, 0, 0, 0, 0, 0, 0, 0, 0, 0, 0, 0, 0, 0, 0,
    0x2d, 1, 0, 0, 0, 0, 0, 0, 0x40, 0, 0, 0, 0, 0, 0, 0, 0, 0, 0, 0, 0, 0, 0, 0, 1, 0, 0, 0, 0, 0,
    0, 0, 0, 0, 0, 0, 0, 0, 0, 0,
];

// The byte of the file in which the low one of the only DW_FORM_ref_addr stands.
const SECTION_REF: usize = 133;

// The place of the base type `b` in .debug_info, which is in the unit of that reference.
const INSIDE: u8 = 60;

// What is written where it names that place. A column of DW_FORM_ref_addr stays one where a value of it names a place in another unit;
// where all name places in their own units it becomes DW_FORM_ref_udata. So the variable has 2 bytes for 5, and the number 25, which `b`
// has in its unit. .debug_info has 59 bytes, and the sections behind it stand at 123, 157, 234 and 298.
const INWARD_ANEW: [u8; 752] = [
    0x7f, 0x45, 0x4c, 0x46, 2, 1, 1, 0, 0, 0, 0, 0, 0, 0, 0, 0, 2, 0, 0x3e, 0, 1, 0, 0, 0, 0, 0, 0,
    0, 0, 0, 0, 0, 0, 0, 0, 0, 0, 0, 0, 0, 0x70, 1, 0, 0, 0, 0, 0, 0, 0, 0, 0, 0, 0x40, 0, 0, 0, 0,
    0, 0x40, 0, 6, 0, 5, 0, 0x15, 0, 0, 0, 5, 0, 1, 8, 0, 0, 0, 0, 3, 0x2b, 0, 0, 0, 1, 0x61, 0, 2,
    0x11, 2, 0x18, 0, 0x1e, 0, 0, 0, 5, 0, 2, 8, 0, 0, 0, 0, 1, 2, 3, 4, 5, 6, 7, 8, 0x1c, 0, 0, 0,
    5, 1, 0x62, 0, 1, 0x63, 0, 4, 0x19, 0, 1, 0x24, 0, 3, 8, 0, 0, 2, 0x34, 0, 0x49, 0x15, 0, 0, 3,
    0x11, 1, 0x10, 0x17, 0, 0, 4, 0x34, 0, 0x49, 0x15, 0, 0, 5, 0x41, 1, 0, 0, 0, 0x27, 0, 0, 0, 5,
    0, 8, 0, 0x16, 0, 0, 0, 1, 1, 1, 0xd4, 0x31, 0x0d, 0, 1, 1, 1, 1, 0, 0, 0, 1, 0, 0, 1, 0, 0, 0,
    0, 2, 0x80, 0x20, 1, 0xff, 8, 0, 1, 1, 0x1e, 0, 0, 0, 5, 0, 8, 0, 0x16, 0, 0, 0, 1, 1, 1, 0xfb,
    0x0e, 0x0d, 0, 1, 1, 1, 1, 0, 0, 0, 1, 0, 0, 1, 0, 0, 0, 0, 0x1c, 0, 0, 0, 2, 0, 0, 0, 0, 0, 8,
    0, 0, 0, 0, 0, 0, 0, 0, 0, 0, 0, 0, 0, 0, 0, 0, 0, 0, 0, 0, 0, 0x1c, 0, 0, 0, 2, 0, 0x19, 0, 0,
    0, 8, 0, 0, 0, 0, 0, 0, 0, 0, 0, 0, 0, 0, 0, 0, 0, 0, 0, 0, 0, 0, 0, 0, 0x2e, 0x64, 0x65, 0x62,
    0x75, 0x67, 0x5f, 0x69, 0x6e, 0x66, 0x6f, 0, 0x2e, 0x64, 0x65, 0x62, 0x75, 0x67, 0x5f, 0x61,
    0x62, 0x62, 0x72, 0x65, 0x76, 0, 0x2e, 0x64, 0x65, 0x62, 0x75, 0x67, 0x5f, 0x6c, 0x69, 0x6e,
    0x65, 0, 0x2e, 0x64, 0x65, 0x62, 0x75, 0x67, 0x5f, 0x61, 0x72, 0x61, 0x6e, 0x67, 0x65, 0x73, 0,
    0x2e, 0x73, 0x68, 0x73, 0x74, 0x72, 0x74, 0x61, 0x62, 0, 0, 0, 0, 0, 0, 0, 0, 0, 0, 0, 0, 0, 0,
    0, 0, 0, 0, 0, 0, 0, 0, 0, 0, 0, 0, 0, 0, 0, 0, 0, 0, 0, 0, 0, 0, 0, 0, 0, 0, 0, 0, 0, 0, 0, 0,
    0, 0, 0, 0, 0, 0, 0, 0, 0, 0, 0, 0, 0, 0, 0, 0, 0, 0, 0, 0, 0, 0, 0, 0, 0, 1, 0, 0, 0, 1, 0, 0,
    0, 0, 0, 0, 0, 0, 0, 0, 0, 0, 0, 0, 0, 0, 0, 0, 0, 0x40, 0, 0, 0, 0, 0, 0, 0, 0x3b, 0, 0, 0, 0,
    0, 0, 0, 0, 0, 0, 0, 0, 0, 0, 0, 1, 0, 0, 0, 0, 0, 0, 0, 0, 0, 0, 0, 0, 0, 0, 0, 0x0d, 0, 0, 0,
    1, 0, 0, 0, 0, 0, 0, 0, 0, 0, 0, 0, 0, 0, 0, 0, 0, 0, 0, 0, 0x7b, 0, 0, 0, 0, 0, 0, 0, 0x22, 0,
    0, 0, 0, 0, 0, 0, 0, 0, 0, 0, 0, 0, 0, 0, 1, 0, 0, 0, 0, 0, 0, 0, 0, 0, 0, 0, 0, 0, 0, 0, 0x1b,
    0, 0, 0, 1, 0, 0, 0, 0, 0, 0, 0, 0, 0, 0, 0, 0, 0, 0, 0, 0, 0, 0, 0, 0x9d, 0, 0, 0, 0, 0, 0, 0,
    0x4d, 0, 0, 0, 0, 0, 0, 0, 0, 0, 0, 0, 0, 0, 0, 0, 1, 0, 0, 0, 0, 0, 0, 0, 0, 0, 0, 0, 0, 0, 0,
    0, 0x27, 0, 0, 0, 1, 0, 0, 0, 0, 0, 0, 0, 0, 0, 0, 0, 0, 0, 0, 0, 0, 0, 0, 0, 0xea, 0, 0, 0, 0,
    0, 0, 0, 0x40, 0, 0, 0, 0, 0, 0, 0, 0, 0, 0, 0, 0, 0, 0, 0, 1, 0, 0, 0, 0, 0, 0, 0, 0, 0, 0, 0,
    0, 0, 0, 0, 0x36, 0, 0, 0, 3, 0, 0, 0, 0, 0, 0, 0, 0, 0, 0, 0, 0, 0, 0, 0, 0, 0, 0, 0, 0x2a, 1,
    0, 0, 0, 0, 0, 0, 0x40, 0, 0, 0, 0, 0, 0, 0, 0, 0, 0, 0, 0, 0, 0, 0, 1, 0, 0, 0, 0, 0, 0, 0, 0,
    0, 0, 0, 0, 0, 0, 0,
];

// The file with that reference.
fn inward() -> [u8; 784] {
    let mut file = WITH_UNITS;
    file[SECTION_REF] = INSIDE;
    file
}

// An executable for x86-64 with .debug_abbrev at 64 and .debug_info at 85. Three units name the tables at 0, 13 and 0. By the
// first table a variable has a line in DW_FORM_data2, and two of the first unit have the line 5, one of the third the line 6. By
// the second table the unit itself has the line 7.
const WITH_TABLES: [u8; 432] = [
    0x7f, 0x45, 0x4c, 0x46, 2, 1, 1, 0, 0, 0, 0, 0, 0, 0, 0, 0, 2, 0, 0x3e, 0, 1, 0, 0, 0, 0, 0, 0,
    0, 0, 0, 0, 0, 0, 0, 0, 0, 0, 0, 0, 0, 0xb0, 0, 0, 0, 0, 0, 0, 0, 0, 0, 0, 0, 0x40, 0, 0, 0, 0,
    0, 0x40, 0, 4, 0, 3, 0, 1, 0x11, 1, 0, 0, 2, 0x34, 0, 0x3b, 5, 0, 0, 0, 1, 0x11, 0, 0x3b, 5, 0,
    0, 0, 0x10, 0, 0, 0, 5, 0, 1, 8, 0, 0, 0, 0, 1, 2, 5, 0, 2, 5, 0, 0, 0x0b, 0, 0, 0, 5, 0, 1, 8,
    0x0d, 0, 0, 0, 1, 7, 0, 0x0d, 0, 0, 0, 5, 0, 1, 8, 0, 0, 0, 0, 1, 2, 6, 0, 0, 0, 0x2e, 0x64,
    0x65, 0x62, 0x75, 0x67, 0x5f, 0x61, 0x62, 0x62, 0x72, 0x65, 0x76, 0, 0x2e, 0x64, 0x65, 0x62,
    0x75, 0x67, 0x5f, 0x69, 0x6e, 0x66, 0x6f, 0, 0x2e, 0x73, 0x68, 0x73, 0x74, 0x72, 0x74, 0x61,
    0x62, 0, 0, 0, 0, 0, 0, 0, 0, 0, 0, 0, 0, 0, 0, 0, 0, 0, 0, 0, 0, 0, 0, 0, 0, 0, 0, 0, 0, 0, 0,
    0, 0, 0, 0, 0, 0, 0, 0, 0, 0, 0, 0, 0, 0, 0, 0, 0, 0, 0, 0, 0, 0, 0, 0, 0, 0, 0, 0, 0, 0, 0, 0,
    0, 0, 0, 0, 0, 1, 0, 0, 0, 1, 0, 0, 0, 0, 0, 0, 0, 0, 0, 0, 0, 0, 0, 0, 0, 0, 0, 0, 0, 0x40, 0,
    0, 0, 0, 0, 0, 0, 0x15, 0, 0, 0, 0, 0, 0, 0, 0, 0, 0, 0, 0, 0, 0, 0, 1, 0, 0, 0, 0, 0, 0, 0, 0,
    0, 0, 0, 0, 0, 0, 0, 0x0f, 0, 0, 0, 1, 0, 0, 0, 0, 0, 0, 0, 0, 0, 0, 0, 0, 0, 0, 0, 0, 0, 0, 0,
    0x55, 0, 0, 0, 0, 0, 0, 0, 0x34, 0, 0, 0, 0, 0, 0, 0, 0, 0, 0, 0, 0, 0, 0, 0, 1, 0, 0, 0, 0, 0,
    0, 0, 0, 0, 0, 0, 0, 0, 0, 0, 0x1b, 0, 0, 0, 3, 0, 0, 0, 0, 0, 0, 0, 0, 0, 0, 0, 0, 0, 0, 0, 0,
    0, 0, 0, 0x89, 0, 0, 0, 0, 0, 0, 0, 0x25, 0, 0, 0, 0, 0, 0, 0, 0, 0, 0, 0, 0, 0, 0, 0, 1, 0, 0,
    0, 0, 0, 0, 0, 0, 0, 0, 0, 0, 0, 0, 0,
];

// The line takes one byte in each variable in DW_FORM_data1. With the line 5 alone it would be DW_FORM_implicit_const. The three
// variables give their declaration the code 1, and it stands first; the second table is at 13 still. The units have 18, 14 and 16 bytes.
const TABLES_ANEW: [u8; 432] = [
    0x7f, 0x45, 0x4c, 0x46, 2, 1, 1, 0, 0, 0, 0, 0, 0, 0, 0, 0, 2, 0, 0x3e, 0, 1, 0, 0, 0, 0, 0, 0,
    0, 0, 0, 0, 0, 0, 0, 0, 0, 0, 0, 0, 0, 0xb0, 0, 0, 0, 0, 0, 0, 0, 0, 0, 0, 0, 0x40, 0, 0, 0, 0,
    0, 0x40, 0, 4, 0, 3, 0, 1, 0x34, 0, 0x3b, 0x0b, 0, 0, 2, 0x11, 1, 0, 0, 0, 1, 0x11, 0, 0x3b,
    0x0b, 0, 0, 0, 0x0e, 0, 0, 0, 5, 0, 1, 8, 0, 0, 0, 0, 2, 1, 5, 1, 5, 0, 0x0a, 0, 0, 0, 5, 0, 1,
    8, 0x0d, 0, 0, 0, 1, 7, 0x0c, 0, 0, 0, 5, 0, 1, 8, 0, 0, 0, 0, 2, 1, 6, 0, 0, 0x2e, 0x64, 0x65,
    0x62, 0x75, 0x67, 0x5f, 0x61, 0x62, 0x62, 0x72, 0x65, 0x76, 0, 0x2e, 0x64, 0x65, 0x62, 0x75,
    0x67, 0x5f, 0x69, 0x6e, 0x66, 0x6f, 0, 0x2e, 0x73, 0x68, 0x73, 0x74, 0x72, 0x74, 0x61, 0x62, 0,
    0, 0, 0, 0, 0, 0, 0, 0, 0, 0, 0, 0, 0, 0, 0, 0, 0, 0, 0, 0, 0, 0, 0, 0, 0, 0, 0, 0, 0, 0, 0, 0,
    0, 0, 0, 0, 0, 0, 0, 0, 0, 0, 0, 0, 0, 0, 0, 0, 0, 0, 0, 0, 0, 0, 0, 0, 0, 0, 0, 0, 0, 0, 0, 0,
    0, 0, 0, 0, 0, 0, 1, 0, 0, 0, 1, 0, 0, 0, 0, 0, 0, 0, 0, 0, 0, 0, 0, 0, 0, 0, 0, 0, 0, 0, 0x40,
    0, 0, 0, 0, 0, 0, 0, 0x15, 0, 0, 0, 0, 0, 0, 0, 0, 0, 0, 0, 0, 0, 0, 0, 1, 0, 0, 0, 0, 0, 0, 0,
    0, 0, 0, 0, 0, 0, 0, 0, 0x0f, 0, 0, 0, 1, 0, 0, 0, 0, 0, 0, 0, 0, 0, 0, 0, 0, 0, 0, 0, 0, 0, 0,
    0, 0x55, 0, 0, 0, 0, 0, 0, 0, 0x30, 0, 0, 0, 0, 0, 0, 0, 0, 0, 0, 0, 0, 0, 0, 0, 1, 0, 0, 0, 0,
    0, 0, 0, 0, 0, 0, 0, 0, 0, 0, 0, 0x1b, 0, 0, 0, 3, 0, 0, 0, 0, 0, 0, 0, 0, 0, 0, 0, 0, 0, 0, 0,
    0, 0, 0, 0, 0x85, 0, 0, 0, 0, 0, 0, 0, 0x25, 0, 0, 0, 0, 0, 0, 0, 0, 0, 0, 0, 0, 0, 0, 0, 1, 0,
    0, 0, 0, 0, 0, 0, 0, 0, 0, 0, 0, 0, 0, 0,
];

// An executable for x86-64 with .debug_abbrev at 64, .debug_info at 74, .debug_rnglists at 96 and .shstrtab, which is aligned to 4, at
// 116. The unit's entry has DW_AT_ranges with the list at 12, whose ranges are 0 to 4 and 8 to 12, and DW_AT_start_scope with the list
// at 15, which is the other's second range; a byte of padding follows it. The section headers stand at 176.
const WITH_PADDING: [u8; 496] = [
    0x7f, 0x45, 0x4c, 0x46, 2, 1, 1, 0, 0, 0, 0, 0, 0, 0, 0, 0, 2, 0, 0x3e, 0, 1, 0, 0, 0, 0, 0, 0,
    0, 0, 0, 0, 0, 0, 0, 0, 0, 0, 0, 0, 0, 0xb0, 0, 0, 0, 0, 0, 0, 0, 0, 0, 0, 0, 0x40, 0, 0, 0, 0,
    0, 0x40, 0, 5, 0, 4, 0, 1, 0x11, 0, 0x55, 0x17, 0x2c, 0x17, 0, 0, 0, 0x12, 0, 0, 0, 5, 0, 1, 8,
    0, 0, 0, 0, 1, 0x0c, 0, 0, 0, 0x0f, 0, 0, 0, 0, 0x0f, 0, 0, 0, 5, 0, 8, 0, 0, 0, 0, 0, 4, 0, 4,
    4, 8, 0x0c, 0, 0, 0, 0x2e, 0x64, 0x65, 0x62, 0x75, 0x67, 0x5f, 0x61, 0x62, 0x62, 0x72, 0x65,
    0x76, 0, 0x2e, 0x64, 0x65, 0x62, 0x75, 0x67, 0x5f, 0x69, 0x6e, 0x66, 0x6f, 0, 0x2e, 0x64, 0x65,
    0x62, 0x75, 0x67, 0x5f, 0x72, 0x6e, 0x67, 0x6c, 0x69, 0x73, 0x74, 0x73, 0, 0x2e, 0x73, 0x68,
    0x73, 0x74, 0x72, 0x74, 0x61, 0x62, 0, 0, 0, 0, 0, 0, 0, 0, 0, 0, 0, 0, 0, 0, 0, 0, 0, 0, 0, 0,
    0, 0, 0, 0, 0, 0, 0, 0, 0, 0, 0, 0, 0, 0, 0, 0, 0, 0, 0, 0, 0, 0, 0, 0, 0, 0, 0, 0, 0, 0, 0, 0,
    0, 0, 0, 0, 0, 0, 0, 0, 0, 0, 0, 0, 0, 0, 0, 0, 0, 0, 0, 0, 1, 0, 0, 0, 1, 0, 0, 0, 0, 0, 0, 0,
    0, 0, 0, 0, 0, 0, 0, 0, 0, 0, 0, 0, 0x40, 0, 0, 0, 0, 0, 0, 0, 0x0a, 0, 0, 0, 0, 0, 0, 0, 0, 0,
    0, 0, 0, 0, 0, 0, 1, 0, 0, 0, 0, 0, 0, 0, 0, 0, 0, 0, 0, 0, 0, 0, 0x0f, 0, 0, 0, 1, 0, 0, 0, 0,
    0, 0, 0, 0, 0, 0, 0, 0, 0, 0, 0, 0, 0, 0, 0, 0x4a, 0, 0, 0, 0, 0, 0, 0, 0x16, 0, 0, 0, 0, 0, 0,
    0, 0, 0, 0, 0, 0, 0, 0, 0, 1, 0, 0, 0, 0, 0, 0, 0, 0, 0, 0, 0, 0, 0, 0, 0, 0x1b, 0, 0, 0, 1, 0,
    0, 0, 0, 0, 0, 0, 0, 0, 0, 0, 0, 0, 0, 0, 0, 0, 0, 0, 0x60, 0, 0, 0, 0, 0, 0, 0, 0x13, 0, 0, 0,
    0, 0, 0, 0, 0, 0, 0, 0, 0, 0, 0, 0, 1, 0, 0, 0, 0, 0, 0, 0, 0, 0, 0, 0, 0, 0, 0, 0, 0x2b, 0, 0,
    0, 3, 0, 0, 0, 0, 0, 0, 0, 0, 0, 0, 0, 0, 0, 0, 0, 0, 0, 0, 0, 0x74, 0, 0, 0, 0, 0, 0, 0, 0x35,
    0, 0, 0, 0, 0, 0, 0, 0, 0, 0, 0, 0, 0, 0, 0, 4, 0, 0, 0, 0, 0, 0, 0, 0, 0, 0, 0, 0, 0, 0, 0,
];

// The same without that byte, and with each list by itself: .debug_rnglists has 23 bytes for 19 and stands at 95, and .shstrtab at 120,
// after two bytes of padding.
const PADDING_ANEW: [u8; 496] = [
    0x7f, 0x45, 0x4c, 0x46, 2, 1, 1, 0, 0, 0, 0, 0, 0, 0, 0, 0, 2, 0, 0x3e, 0, 1, 0, 0, 0, 0, 0, 0,
    0, 0, 0, 0, 0, 0, 0, 0, 0, 0, 0, 0, 0, 0xb0, 0, 0, 0, 0, 0, 0, 0, 0, 0, 0, 0, 0x40, 0, 0, 0, 0,
    0, 0x40, 0, 5, 0, 4, 0, 1, 0x11, 0, 0x55, 0x17, 0x2c, 0x17, 0, 0, 0, 0x11, 0, 0, 0, 5, 0, 1, 8,
    0, 0, 0, 0, 1, 0x0c, 0, 0, 0, 0x13, 0, 0, 0, 0x13, 0, 0, 0, 5, 0, 8, 0, 0, 0, 0, 0, 4, 0, 4, 4,
    8, 0x0c, 0, 4, 8, 0x0c, 0, 0, 0, 0, 0x2e, 0x64, 0x65, 0x62, 0x75, 0x67, 0x5f, 0x61, 0x62, 0x62,
    0x72, 0x65, 0x76, 0, 0x2e, 0x64, 0x65, 0x62, 0x75, 0x67, 0x5f, 0x69, 0x6e, 0x66, 0x6f, 0, 0x2e,
    0x64, 0x65, 0x62, 0x75, 0x67, 0x5f, 0x72, 0x6e, 0x67, 0x6c, 0x69, 0x73, 0x74, 0x73, 0, 0x2e,
    0x73, 0x68, 0x73, 0x74, 0x72, 0x74, 0x61, 0x62, 0, 0, 0, 0, 0, 0, 0, 0, 0, 0, 0, 0, 0, 0, 0, 0,
    0, 0, 0, 0, 0, 0, 0, 0, 0, 0, 0, 0, 0, 0, 0, 0, 0, 0, 0, 0, 0, 0, 0, 0, 0, 0, 0, 0, 0, 0, 0, 0,
    0, 0, 0, 0, 0, 0, 0, 0, 0, 0, 0, 0, 0, 0, 0, 0, 0, 0, 0, 0, 1, 0, 0, 0, 1, 0, 0, 0, 0, 0, 0, 0,
    0, 0, 0, 0, 0, 0, 0, 0, 0, 0, 0, 0, 0x40, 0, 0, 0, 0, 0, 0, 0, 0x0a, 0, 0, 0, 0, 0, 0, 0, 0, 0,
    0, 0, 0, 0, 0, 0, 1, 0, 0, 0, 0, 0, 0, 0, 0, 0, 0, 0, 0, 0, 0, 0, 0x0f, 0, 0, 0, 1, 0, 0, 0, 0,
    0, 0, 0, 0, 0, 0, 0, 0, 0, 0, 0, 0, 0, 0, 0, 0x4a, 0, 0, 0, 0, 0, 0, 0, 0x15, 0, 0, 0, 0, 0, 0,
    0, 0, 0, 0, 0, 0, 0, 0, 0, 1, 0, 0, 0, 0, 0, 0, 0, 0, 0, 0, 0, 0, 0, 0, 0, 0x1b, 0, 0, 0, 1, 0,
    0, 0, 0, 0, 0, 0, 0, 0, 0, 0, 0, 0, 0, 0, 0, 0, 0, 0, 0x5f, 0, 0, 0, 0, 0, 0, 0, 0x17, 0, 0, 0,
    0, 0, 0, 0, 0, 0, 0, 0, 0, 0, 0, 0, 1, 0, 0, 0, 0, 0, 0, 0, 0, 0, 0, 0, 0, 0, 0, 0, 0x2b, 0, 0,
    0, 3, 0, 0, 0, 0, 0, 0, 0, 0, 0, 0, 0, 0, 0, 0, 0, 0, 0, 0, 0, 0x78, 0, 0, 0, 0, 0, 0, 0, 0x35,
    0, 0, 0, 0, 0, 0, 0, 0, 0, 0, 0, 0, 0, 0, 0, 4, 0, 0, 0, 0, 0, 0, 0, 0, 0, 0, 0, 0, 0, 0, 0,
];

// The bytes to be written for a file.
fn file_anew(alloc: Global, file: &[u8]) -> Result<Vec<u8>, Refusal> {
    Ok(rewrite(alloc, file)?.file)
}

#[test]
fn units_follow_one_another(rt: HostRuntime) -> Result<(), Fail> {
    let written = file_anew(rt.alloc(), &WITH_UNITS)?;
    assert_eq!(rt; written.as_slice(), UNITS_ANEW.as_slice());
    Ok(())
}

#[test]
fn references_into_their_own_unit(rt: HostRuntime) -> Result<(), Fail> {
    let written = file_anew(rt.alloc(), &inward())?;
    assert_eq!(rt; written.as_slice(), INWARD_ANEW.as_slice());
    Ok(())
}

#[test]
fn columns_over_all_units(rt: HostRuntime) -> Result<(), Fail> {
    let written = file_anew(rt.alloc(), &WITH_TABLES)?;
    assert_eq!(rt; written.as_slice(), TABLES_ANEW.as_slice());
    Ok(())
}

#[test]
fn sections_are_replaced(rt: HostRuntime) -> Result<(), Fail> {
    let written = file_anew(rt.alloc(), &WITH_PADDING)?;
    assert_eq!(rt; written.as_slice(), PADDING_ANEW.as_slice());
    Ok(())
}

// The certificate of what is written for a file.
fn certificate_of(alloc: Global, file: &[u8]) -> Result<Vec<u8>, Refusal> {
    Ok(rewrite(alloc, file)?.cert)
}

// No slot takes a step from its least size, so that the records of the two units, the last of the certificate, have no ranks.
#[test]
fn slots_without_steps(rt: HostRuntime) -> Result<(), Fail> {
    let written = certificate_of(rt.alloc(), &WITH_UNITS)?;
    assert_eq!(rt; written.as_slice().ends_with(&[3, 0, 3, 0]), true);
    Ok(())
}

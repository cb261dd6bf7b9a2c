//! Codes of DWARF 5, by the standard's names.

// Names of attributes (section 7.5.4).
pub const DW_AT_LOCATION: u64 = 0x02;

pub const DW_AT_ORDERING: u64 = 0x09;

pub const DW_AT_BYTE_SIZE: u64 = 0x0b;

pub const DW_AT_BIT_SIZE: u64 = 0x0d;

pub const DW_AT_STMT_LIST: u64 = 0x10;

pub const DW_AT_LOW_PC: u64 = 0x11;

pub const DW_AT_HIGH_PC: u64 = 0x12;

pub const DW_AT_LANGUAGE: u64 = 0x13;

pub const DW_AT_VISIBILITY: u64 = 0x17;

pub const DW_AT_STRING_LENGTH: u64 = 0x19;

pub const DW_AT_CONST_VALUE: u64 = 0x1c;

pub const DW_AT_INLINE: u64 = 0x20;

pub const DW_AT_RETURN_ADDR: u64 = 0x2a;

pub const DW_AT_START_SCOPE: u64 = 0x2c;

pub const DW_AT_ACCESSIBILITY: u64 = 0x32;

pub const DW_AT_CALLING_CONVENTION: u64 = 0x36;

pub const DW_AT_DATA_MEMBER_LOCATION: u64 = 0x38;

pub const DW_AT_DECL_COLUMN: u64 = 0x39;

pub const DW_AT_DECL_FILE: u64 = 0x3a;

pub const DW_AT_DECL_LINE: u64 = 0x3b;

pub const DW_AT_ENCODING: u64 = 0x3e;

pub const DW_AT_FRAME_BASE: u64 = 0x40;

pub const DW_AT_IDENTIFIER_CASE: u64 = 0x42;

pub const DW_AT_SEGMENT: u64 = 0x46;

pub const DW_AT_STATIC_LINK: u64 = 0x48;

pub const DW_AT_USE_LOCATION: u64 = 0x4a;

pub const DW_AT_VIRTUALITY: u64 = 0x4c;

pub const DW_AT_VTABLE_ELEM_LOCATION: u64 = 0x4d;

pub const DW_AT_RANGES: u64 = 0x55;

pub const DW_AT_CALL_COLUMN: u64 = 0x57;

pub const DW_AT_CALL_FILE: u64 = 0x58;

pub const DW_AT_CALL_LINE: u64 = 0x59;

pub const DW_AT_DECIMAL_SIGN: u64 = 0x5e;

pub const DW_AT_DIGIT_COUNT: u64 = 0x5f;

pub const DW_AT_ENDIANITY: u64 = 0x65;

pub const DW_AT_STR_OFFSETS_BASE: u64 = 0x72;

pub const DW_AT_ADDR_BASE: u64 = 0x73;

pub const DW_AT_RNGLISTS_BASE: u64 = 0x74;

pub const DW_AT_MACROS: u64 = 0x79;

pub const DW_AT_ALIGNMENT: u64 = 0x88;

pub const DW_AT_DEFAULTED: u64 = 0x8b;

pub const DW_AT_LOCLISTS_BASE: u64 = 0x8c;

/// An extension: view numbers for the entries of a location list.
pub const DW_AT_GNU_LOCVIEWS: u64 = 0x2137;

// Forms (section 7.5.6).
pub const DW_FORM_ADDR: u64 = 0x01;

pub const DW_FORM_BLOCK2: u64 = 0x03;

pub const DW_FORM_BLOCK4: u64 = 0x04;

pub const DW_FORM_DATA2: u64 = 0x05;

pub const DW_FORM_DATA4: u64 = 0x06;

pub const DW_FORM_DATA8: u64 = 0x07;

pub const DW_FORM_STRING: u64 = 0x08;

pub const DW_FORM_BLOCK: u64 = 0x09;

pub const DW_FORM_BLOCK1: u64 = 0x0a;

pub const DW_FORM_DATA1: u64 = 0x0b;

pub const DW_FORM_FLAG: u64 = 0x0c;

pub const DW_FORM_SDATA: u64 = 0x0d;

pub const DW_FORM_STRP: u64 = 0x0e;

pub const DW_FORM_UDATA: u64 = 0x0f;

pub const DW_FORM_REF_ADDR: u64 = 0x10;

pub const DW_FORM_REF1: u64 = 0x11;

pub const DW_FORM_REF2: u64 = 0x12;

pub const DW_FORM_REF4: u64 = 0x13;

pub const DW_FORM_REF8: u64 = 0x14;

pub const DW_FORM_REF_UDATA: u64 = 0x15;

pub const DW_FORM_SEC_OFFSET: u64 = 0x17;

pub const DW_FORM_EXPRLOC: u64 = 0x18;

pub const DW_FORM_FLAG_PRESENT: u64 = 0x19;

pub const DW_FORM_STRX: u64 = 0x1a;

pub const DW_FORM_ADDRX: u64 = 0x1b;

pub const DW_FORM_REF_SUP4: u64 = 0x1c;

pub const DW_FORM_STRP_SUP: u64 = 0x1d;

pub const DW_FORM_DATA16: u64 = 0x1e;

pub const DW_FORM_LINE_STRP: u64 = 0x1f;

pub const DW_FORM_REF_SIG8: u64 = 0x20;

pub const DW_FORM_IMPLICIT_CONST: u64 = 0x21;

pub const DW_FORM_LOCLISTX: u64 = 0x22;

pub const DW_FORM_RNGLISTX: u64 = 0x23;

pub const DW_FORM_REF_SUP8: u64 = 0x24;

pub const DW_FORM_STRX1: u64 = 0x25;

pub const DW_FORM_STRX2: u64 = 0x26;

pub const DW_FORM_STRX3: u64 = 0x27;

pub const DW_FORM_STRX4: u64 = 0x28;

pub const DW_FORM_ADDRX1: u64 = 0x29;

pub const DW_FORM_ADDRX2: u64 = 0x2a;

pub const DW_FORM_ADDRX3: u64 = 0x2b;

pub const DW_FORM_ADDRX4: u64 = 0x2c;

// Types of units (section 7.5.1).
pub const DW_UT_COMPILE: u8 = 0x01;

pub const DW_UT_TYPE: u8 = 0x02;

pub const DW_UT_PARTIAL: u8 = 0x03;

pub const DW_UT_SKELETON: u8 = 0x04;

// Standard opcodes of line programs (section 7.22).
pub const DW_LNS_COPY: u8 = 0x01;

pub const DW_LNS_ADVANCE_PC: u8 = 0x02;

pub const DW_LNS_ADVANCE_LINE: u8 = 0x03;

pub const DW_LNS_SET_FILE: u8 = 0x04;

pub const DW_LNS_SET_COLUMN: u8 = 0x05;

pub const DW_LNS_NEGATE_STMT: u8 = 0x06;

pub const DW_LNS_SET_BASIC_BLOCK: u8 = 0x07;

pub const DW_LNS_CONST_ADD_PC: u8 = 0x08;

pub const DW_LNS_FIXED_ADVANCE_PC: u8 = 0x09;

pub const DW_LNS_SET_PROLOGUE_END: u8 = 0x0a;

pub const DW_LNS_SET_EPILOGUE_BEGIN: u8 = 0x0b;

pub const DW_LNS_SET_ISA: u8 = 0x0c;

// Extended opcodes of line programs (section 7.22).
pub const DW_LNE_END_SEQUENCE: u8 = 0x01;

pub const DW_LNE_SET_ADDRESS: u8 = 0x02;

pub const DW_LNE_SET_DISCRIMINATOR: u8 = 0x04;

// Entries of range lists (section 7.25).
pub const DW_RLE_END_OF_LIST: u8 = 0x00;

pub const DW_RLE_BASE_ADDRESSX: u8 = 0x01;

pub const DW_RLE_STARTX_ENDX: u8 = 0x02;

pub const DW_RLE_STARTX_LENGTH: u8 = 0x03;

pub const DW_RLE_OFFSET_PAIR: u8 = 0x04;

pub const DW_RLE_BASE_ADDRESS: u8 = 0x05;

pub const DW_RLE_START_END: u8 = 0x06;

pub const DW_RLE_START_LENGTH: u8 = 0x07;

// Entries of location lists (section 7.7.3).
pub const DW_LLE_END_OF_LIST: u8 = 0x00;

pub const DW_LLE_BASE_ADDRESSX: u8 = 0x01;

pub const DW_LLE_STARTX_ENDX: u8 = 0x02;

pub const DW_LLE_STARTX_LENGTH: u8 = 0x03;

pub const DW_LLE_OFFSET_PAIR: u8 = 0x04;

pub const DW_LLE_DEFAULT_LOCATION: u8 = 0x05;

pub const DW_LLE_BASE_ADDRESS: u8 = 0x06;

pub const DW_LLE_START_END: u8 = 0x07;

pub const DW_LLE_START_LENGTH: u8 = 0x08;

// Operations of expressions that name entries (section 7.7.1).
pub const DW_OP_CALL2: u8 = 0x98;

pub const DW_OP_CALL4: u8 = 0x99;

pub const DW_OP_CALL_REF: u8 = 0x9a;

pub const DW_OP_IMPLICIT_POINTER: u8 = 0xa0;

pub const DW_OP_CONST_TYPE: u8 = 0xa4;

pub const DW_OP_REGVAL_TYPE: u8 = 0xa5;

pub const DW_OP_DEREF_TYPE: u8 = 0xa6;

pub const DW_OP_XDEREF_TYPE: u8 = 0xa7;

pub const DW_OP_CONVERT: u8 = 0xa8;

pub const DW_OP_REINTERPRET: u8 = 0xa9;

/// An extension: the operand names the entry of a parameter.
pub const DW_OP_GNU_PARAMETER_REF: u8 = 0xfa;

/// An extension: the operand names the entry of a variable.
pub const DW_OP_GNU_VARIABLE_VALUE: u8 = 0xfd;

// Attributes whose constants of fixed size have no sign.
ghost use Rattle.std.specs.Prelude.{◌≡◌};
ghost use Rattle.form_codec.specs.Signs.{is_unsigned, constant_role};

use crate::form::Role;
use dw_base::constants;

/// Whether a constant of fixed size (DW_FORM_data1, data2, data4 and data8) has no sign under this name, since it is a size, a count, a place in
/// the source or a number of an enumeration (DWARF 5 sections 7.5.4 and 7.5.5). Under another name its sign isn't known.
pub fn unsigned(name: u64) -> bool
    ensures { result ≡ is_unsigned name }
{
    matches!(
        name,
        constants::DW_AT_ORDERING
            | constants::DW_AT_BYTE_SIZE
            | constants::DW_AT_BIT_SIZE
            | constants::DW_AT_HIGH_PC
            | constants::DW_AT_LANGUAGE
            | constants::DW_AT_VISIBILITY
            | constants::DW_AT_INLINE
            | constants::DW_AT_ACCESSIBILITY
            | constants::DW_AT_CALLING_CONVENTION
            | constants::DW_AT_DECL_COLUMN
            | constants::DW_AT_DECL_FILE
            | constants::DW_AT_DECL_LINE
            | constants::DW_AT_ENCODING
            | constants::DW_AT_IDENTIFIER_CASE
            | constants::DW_AT_VIRTUALITY
            | constants::DW_AT_CALL_COLUMN
            | constants::DW_AT_CALL_FILE
            | constants::DW_AT_CALL_LINE
            | constants::DW_AT_DECIMAL_SIGN
            | constants::DW_AT_DIGIT_COUNT
            | constants::DW_AT_ENDIANITY
            | constants::DW_AT_ALIGNMENT
            | constants::DW_AT_DEFAULTED
    )
}

/// What a constant of fixed size is under a name.
#[inline(always)]
pub(crate) fn constant_role(name: u64) -> Role
    ensures { result ≡ constant_role name }
{
    if unsigned(name) {
        Role::Unsigned
    } else {
        Role::Data
    }
}

// Which members classes have.
ghost use Rattle.std.specs.Prelude.{◌≡◌};
ghost use Rattle.dw_base.specs.Classes.{every, packaged};

/// Which members the classes have in which the least is written, beside those that they always have. A part of a file is least where no
/// member of its class is shorter.
#[derive(Clone, Copy, Debug, PartialEq, Eq)]
pub struct Classes {
    /// A column of indices of addresses may have DW_FORM_addrx1 to DW_FORM_addrx4 (DWARF 5 sections 7.5.5 and 7.5.6).
    pub indexes: bool,
    /// A column may have DW_FORM_sdata where DW_FORM_udata spells each of its values too (sections 7.5.5 and 7.5.6).
    pub signed: bool,
    /// A column of DW_AT_high_pc or of DW_AT_const_value may have DW_FORM_implicit_const (sections 7.5.3 and 7.5.6).
    pub implicit: bool,
    /// A line number program may have any opcodes that give its rows (section 6.2). Where it may not, .debug_line stays as it is.
    pub lines: bool,
    /// A list may have any entries that give its items (sections 2.6.2 and 2.17.3). Where it may not, it keeps the kinds of its entries and
    /// their operands.
    pub lists: bool,
}

impl Classes {
    /// The classes with all members: what is least in them has the fewest bytes.
    pub fn every() -> Self
        ensures { result ≡ every }
    {
        Classes {
            indexes: true,
            signed: true,
            implicit: true,
            lines: true,
            lists: true,
        }
    }

    /// The classes for debug packages, without the members that debuggers of today misread or that archives pack worse.
    pub fn packaged() -> Self
        ensures { result ≡ packaged }
    {
        Classes {
            indexes: false,
            signed: false,
            implicit: false,
            lines: false,
            lists: false,
        }
    }
}

// Forms, and the shapes of their bytes.
ghost use Rattle.std.specs.Prelude.{◌≡◌, ◌≢◌, ◌+◌, ◌-◌, ◌*◌, ◌^◌, true, MatchOption};
ghost use Rattle.form_codec.specs.declared.form.Form.{Form as AnyForm};
ghost use Rattle.form_codec.specs.Forms.{code_of, shape_of, size_of, is_written};

use crate::signs::constant_role;
use dw_base::constants;

/// How many bytes a number of fixed size has.
#[derive(Clone, Copy)]
pub enum Width {
    One,
    Two,
    Three,
    Four,
    Eight,
}

/// What a number is.
#[derive(Clone, Copy)]
pub enum Role {
    Address,
    AddrIndex,
    /// A constant that doesn't tell its sign.
    Data,
    /// A constant without a sign.
    Unsigned,
    Truth,
    LocalRef,
    SectionRef,
    Signature,
    SupRef,
    StrOffset,
    LineStrOffset,
    SupStr,
    StrIndex,
    Offset,
    LocIndex,
    RangeIndex,
}

/// What a block holds.
#[derive(Clone, Copy)]
pub enum Content {
    Data,
    Expression,
}

/// How the bytes of a value end, and what they hold.
#[derive(Clone, Copy)]
pub enum Shape {
    /// No bytes: the constant of the declaration.
    Constant(i64),
    /// No bytes: a flag that is set.
    Present,
    /// A number of fixed size.
    Number(Width, Role),
    /// A number in unsigned LEB128.
    Uleb(Role),
    /// A constant in signed LEB128.
    Sleb,
    /// A count of fixed size, then as many bytes.
    Counted(Width),
    /// A count in unsigned LEB128, then as many bytes.
    UlebCounted(Content),
    /// Sixteen bytes.
    Sixteen,
    /// Text up to a zero byte.
    ZeroEnded,
}

/// The forms that are read, by the names of DWARF 5 section 7.5.6.
#[derive(Clone, Copy)]
pub enum Form {
    Addr,
    Block2,
    Block4,
    Data2,
    Data4,
    Data8,
    String,
    Block,
    Block1,
    Data1,
    Flag,
    Sdata,
    Strp,
    Udata,
    RefAddr,
    Ref1,
    Ref2,
    Ref4,
    Ref8,
    RefUdata,
    SecOffset,
    Exprloc,
    FlagPresent,
    Strx,
    Addrx,
    RefSup4,
    StrpSup,
    Data16,
    LineStrp,
    RefSig8,
    ImplicitConst,
    Loclistx,
    Rnglistx,
    RefSup8,
    Strx1,
    Strx2,
    Strx3,
    Strx4,
    Addrx1,
    Addrx2,
    Addrx3,
    Addrx4,
}

impl Width {
    /// The number of bytes.
    pub fn size(self) -> u8
        ensures { result ≡ size_of self }
    {
        match self {
            Width::One => 1,
            Width::Two => 2,
            Width::Three => 3,
            Width::Four => 4,
            Width::Eight => 8,
        }
    }

    /// The greatest number of this width.
    pub fn greatest(self) -> u64
        ensures { result + 1 ≡ 256 ^ size_of self }
    {
        match self {
            Width::One => 0xff,
            Width::Two => 0xffff,
            Width::Three => 0xff_ffff,
            Width::Four => 0xffff_ffff,
            Width::Eight => 0xffff_ffff_ffff_ffff,
        }
    }

    /// The least number of this width whose top bit is set.
    pub fn half(self) -> u64
        ensures { result ≡ 2 ^ (8 * size_of self - 1) }
    {
        match self {
            Width::One => 0x80,
            Width::Two => 0x8000,
            Width::Three => 0x80_0000,
            Width::Four => 0x8000_0000,
            Width::Eight => 0x8000_0000_0000_0000,
        }
    }
}

impl Form {
    /// The form with a code, or None where this code has no form here.
    pub fn from_code(code: u64) -> Option<Form>
        ensures { MatchOption result ((form : AnyForm) → code_of form ≢ code) (λ form. code_of form ≡ code) }
    {
        Some(match code {
            constants::DW_FORM_ADDR => Form::Addr,
            constants::DW_FORM_BLOCK2 => Form::Block2,
            constants::DW_FORM_BLOCK4 => Form::Block4,
            constants::DW_FORM_DATA2 => Form::Data2,
            constants::DW_FORM_DATA4 => Form::Data4,
            constants::DW_FORM_DATA8 => Form::Data8,
            constants::DW_FORM_STRING => Form::String,
            constants::DW_FORM_BLOCK => Form::Block,
            constants::DW_FORM_BLOCK1 => Form::Block1,
            constants::DW_FORM_DATA1 => Form::Data1,
            constants::DW_FORM_FLAG => Form::Flag,
            constants::DW_FORM_SDATA => Form::Sdata,
            constants::DW_FORM_STRP => Form::Strp,
            constants::DW_FORM_UDATA => Form::Udata,
            constants::DW_FORM_REF_ADDR => Form::RefAddr,
            constants::DW_FORM_REF1 => Form::Ref1,
            constants::DW_FORM_REF2 => Form::Ref2,
            constants::DW_FORM_REF4 => Form::Ref4,
            constants::DW_FORM_REF8 => Form::Ref8,
            constants::DW_FORM_REF_UDATA => Form::RefUdata,
            constants::DW_FORM_SEC_OFFSET => Form::SecOffset,
            constants::DW_FORM_EXPRLOC => Form::Exprloc,
            constants::DW_FORM_FLAG_PRESENT => Form::FlagPresent,
            constants::DW_FORM_STRX => Form::Strx,
            constants::DW_FORM_ADDRX => Form::Addrx,
            constants::DW_FORM_REF_SUP4 => Form::RefSup4,
            constants::DW_FORM_STRP_SUP => Form::StrpSup,
            constants::DW_FORM_DATA16 => Form::Data16,
            constants::DW_FORM_LINE_STRP => Form::LineStrp,
            constants::DW_FORM_REF_SIG8 => Form::RefSig8,
            constants::DW_FORM_IMPLICIT_CONST => Form::ImplicitConst,
            constants::DW_FORM_LOCLISTX => Form::Loclistx,
            constants::DW_FORM_RNGLISTX => Form::Rnglistx,
            constants::DW_FORM_REF_SUP8 => Form::RefSup8,
            constants::DW_FORM_STRX1 => Form::Strx1,
            constants::DW_FORM_STRX2 => Form::Strx2,
            constants::DW_FORM_STRX3 => Form::Strx3,
            constants::DW_FORM_STRX4 => Form::Strx4,
            constants::DW_FORM_ADDRX1 => Form::Addrx1,
            constants::DW_FORM_ADDRX2 => Form::Addrx2,
            constants::DW_FORM_ADDRX3 => Form::Addrx3,
            constants::DW_FORM_ADDRX4 => Form::Addrx4,
            _ => return None,
        })
    }

    /// Whether values are written in this form: not in ref1, ref2, ref4 and ref8.
    pub fn is_written(self) -> bool
        ensures { result ≡ is_written self }
    {
        match self {
            Form::Ref1 => false,
            Form::Ref2 => false,
            Form::Ref4 => false,
            Form::Ref8 => false,
            _ => true,
        }
    }

    /// The shape of the form's bytes under an attribute's name, in a declaration that has this constant.
    pub fn shape(self, name: u64, constant: i64) -> Shape
        ensures { result ≡ shape_of self name constant }
    {
        match self {
            Form::Addr => Shape::Number(Width::Eight, Role::Address),
            Form::Block2 => Shape::Counted(Width::Two),
            Form::Block4 => Shape::Counted(Width::Four),
            Form::Block1 => Shape::Counted(Width::One),
            Form::Block => Shape::UlebCounted(Content::Data),
            Form::Data1 => Shape::Number(Width::One, constant_role(name)),
            Form::Data2 => Shape::Number(Width::Two, constant_role(name)),
            Form::Data4 => Shape::Number(Width::Four, constant_role(name)),
            Form::Data8 => Shape::Number(Width::Eight, constant_role(name)),
            Form::Data16 => Shape::Sixteen,
            Form::Sdata => Shape::Sleb,
            Form::Udata => Shape::Uleb(Role::Unsigned),
            Form::ImplicitConst => Shape::Constant(constant),
            Form::Flag => Shape::Number(Width::One, Role::Truth),
            Form::FlagPresent => Shape::Present,
            Form::String => Shape::ZeroEnded,
            Form::Strp => Shape::Number(Width::Four, Role::StrOffset),
            Form::LineStrp => Shape::Number(Width::Four, Role::LineStrOffset),
            Form::StrpSup => Shape::Number(Width::Four, Role::SupStr),
            Form::Strx => Shape::Uleb(Role::StrIndex),
            Form::Strx1 => Shape::Number(Width::One, Role::StrIndex),
            Form::Strx2 => Shape::Number(Width::Two, Role::StrIndex),
            Form::Strx3 => Shape::Number(Width::Three, Role::StrIndex),
            Form::Strx4 => Shape::Number(Width::Four, Role::StrIndex),
            Form::Addrx => Shape::Uleb(Role::AddrIndex),
            Form::Addrx1 => Shape::Number(Width::One, Role::AddrIndex),
            Form::Addrx2 => Shape::Number(Width::Two, Role::AddrIndex),
            Form::Addrx3 => Shape::Number(Width::Three, Role::AddrIndex),
            Form::Addrx4 => Shape::Number(Width::Four, Role::AddrIndex),
            Form::Ref1 => Shape::Number(Width::One, Role::LocalRef),
            Form::Ref2 => Shape::Number(Width::Two, Role::LocalRef),
            Form::Ref4 => Shape::Number(Width::Four, Role::LocalRef),
            Form::Ref8 => Shape::Number(Width::Eight, Role::LocalRef),
            Form::RefUdata => Shape::Uleb(Role::LocalRef),
            Form::RefAddr => Shape::Number(Width::Four, Role::SectionRef),
            Form::RefSig8 => Shape::Number(Width::Eight, Role::Signature),
            Form::RefSup4 => Shape::Number(Width::Four, Role::SupRef),
            Form::RefSup8 => Shape::Number(Width::Eight, Role::SupRef),
            Form::SecOffset => Shape::Number(Width::Four, Role::Offset),
            Form::Exprloc => Shape::UlebCounted(Content::Expression),
            Form::Loclistx => Shape::Uleb(Role::LocIndex),
            Form::Rnglistx => Shape::Uleb(Role::RangeIndex),
        }
    }
}

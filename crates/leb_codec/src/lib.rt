//! Numbers in LEB128 (DWARF 5 section 7.6): seven bits a byte, the low ones first.
#![tactic(auto)]

ghost use Rattle.spelled.specs.Spelled.{HasUniqueFronts};
ghost use Rattle.leb_codec.specs.Leb.{Uleb, Sleb};
ghost use Rattle.leb_codec.specs.LebLaws.{UnsignedLens, SignedLens, UnsignedSpellings, SignedSpellings};

mod read;
mod signed;
mod write;

pub use read::{LebFault, ReadU, read_u};
pub use signed::{ReadS, read_s};
pub use write::{len_s, len_u, put_padded, put_s, put_u};

/// A law: the bytes of a number end by themselves, so no spelling begins another, and bytes spell one number.
pub fn numbers_end()
    ensures u { HasUniqueFronts Uleb }
    ensures s { HasUniqueFronts Sleb }
{}

/// Laws of the least lengths: what they are, that they rise with the number, and what the length of a sum is at most.
pub fn least_lens()
    ensures u { UnsignedLens }
    ensures s { SignedLens }
{}

/// Laws of spellings: a number has exactly one of each length from the least on, and none that is shorter.
pub fn spellings()
    ensures u { UnsignedSpellings }
    ensures s { SignedSpellings }
{}

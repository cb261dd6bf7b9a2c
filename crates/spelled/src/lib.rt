//! Things that are spelled by bytes, one after the other: pairs, sequences up to an end, and their faults, over any
//! relation between values and bytes. Readers and writers of all formats speak in these words, and `proofs/Joins` has the
//! laws that they share. There is nothing to run here.
#![tactic(auto)]

ghost use Rattle.spelled.specs.Spelled.{IsByte, HasUniqueFronts};

/// A law: bytes are spelled so that each ends by itself.
pub fn bytes_end()
    ensures { HasUniqueFronts IsByte }
{}

// Record files read.
ghost use Rattle.std.specs.Prelude.{◌≡◌, ◌++◌, ◌↔◌, ℕ, List, map, IsTrue, IfOk, IfErr, OnOk, ◌∷◌, []};
ghost use Rattle.std.specs.List.{All};
ghost use Rattle.dw_base.specs.Classes.{every};
ghost use Rattle.leb_codec.specs.Records.{SpellsFile, magic};
ghost use Rattle.certificates.specs.Reading.{record_of, CanBeWritten, IsFaultOf, IsWhole};

use crate::proof::{CertFault, Proof};
use crate::record::read_record;
use dw_base::{Classes, NoMemory};
use std::alloc::Global;

/// The first bytes of a record file for all members of classes: "DWMIN01" and the end of a line.
pub const MAGIC: [u8; 8] = [0x44, 0x57, 0x4d, 0x49, 0x4e, 0x30, 0x31, 0x0a];

/// The first bytes of a record file for these classes: [`MAGIC`], or "DWMINP1" and the end of a line where line number programs stay as
/// they are. They tell this one switch of the classes alone: those that differ in the others have the same.
pub fn magic(classes: Classes) -> [u8; 8]
    ensures { result ≡ magic classes }
{
    let mark = if classes.lines { b'0' } else { b'P' };
    [b'D', b'W', b'M', b'I', b'N', mark, b'1', b'\n']
}

/// The bytes begin as a record file for these classes does.
pub fn begins(classes: Classes, bytes: &[u8]) -> bool
    ensures { IsTrue result ↔ ((body : List ℕ) × (bytes.now ≡ magic classes ++ body)) }
{
    let first = magic(classes);
    bytes.len() >= first.len() && bytes[..first.len()] == first[..]
}

// Appends a record.
fn push(proofs: &mut Vec<Proof>, proof: Proof) -> Result<(), NoMemory>
    ensures { OnOk result (proofs.new.items ≡ proofs.old.items ++ proof ∷ []) }
{
    proofs.push(proof)?;
    Ok(())
}

/// The records of a record file for all members of classes, in their order; they can be written again.
///
/// Broken comes exactly where the bytes are no record file. It names the first byte of the first record that isn't one,
/// counted from 0 in the bytes, or 0 where the first eight bytes aren't those of a record file. NoMemory may come wherever
/// memory is wanting.
pub fn read(alloc: Global, bytes: &[u8]) -> Result<Vec<Proof>, CertFault>
    ensures records { IfOk result (λ proofs. SpellsFile every (map record_of proofs.items) bytes.now) }
    ensures writable { IfOk result (λ proofs. All CanBeWritten proofs.items) }
    ensures whole { IfOk result (λ proofs. IsWhole bytes.now) }
    ensures fault { IfErr result (IsFaultOf bytes.now) }
{
    if !begins(Classes::every(), bytes) {
        return Err(CertFault::Broken(0));
    }
    let mut proofs: Vec<Proof> = Vec::new(alloc);
    let mut at = MAGIC.len();
    while at < bytes.len() {
        let Some(read) = read_record(alloc, bytes, at)? else {
            return Err(CertFault::Broken(at as u64));
        };
        push(&mut proofs, read.proof)?;
        at = read.end;
    }
    Ok(proofs)
}

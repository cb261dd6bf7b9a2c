// Files kept as a list, the first of a name being the one that is meant.
ghost use Rattle.std.specs.Prelude.{◌≡◌, ◌≢◌, ◌≤◌, ◌<◌, ◌++◌, ℕ, List, [], length, Option, Some, MatchOption, IsSome, IfSome, IfNone, IsTrue, ◌↔◌, OnOk, OnErr, false, true};
ghost use Rattle.dw_base.specs.Host.{IsPartRead};
ghost use Rattle.dw_base.specs.Files.{is_there, content};
ghost use Rattle.dw_base.specs.inside.Files.{IsFirst, SameFiles};

use crate::NoMemory;
use std::alloc::Global;

/// A file in memory.
#[derive(Drop)]
pub struct NamedFile {
    /// Its name. Of several files of one name the first is meant.
    pub name: String,
    /// What it holds.
    pub bytes: Vec<u8>,
}

/// The place of the first file of this name.
pub fn place_of(files: &[NamedFile], name: &str) -> Option<usize>
    ensures place { MatchOption result (is_there files.now name.now ≡ false) (λ i. IsFirst files.now name.now i) }
{
    for (i, file) in files.iter().enumerate() {
        if file.name.as_str() == name {
            return Some(i);
        }
    }
    None
}

/// The bytes of the first file of this name.
pub fn find<'a>(files: &'a [NamedFile], name: &str) -> Option<&'a Vec<u8>>
    ensures there { IsSome result ↔ IsTrue (is_there files.now name.now) }
    ensures bytes { IfSome result (λ b. content files.now name.now ≡ b.now.items) }
    ensures none { IfNone result (content files.now name.now ≡ []) }
{
    match place_of(files, name) {
        Some(i) => {
            let file = &files[i];
            Some(&file.bytes)
        }
        None => None,
    }
}

/// Puts bytes in the place of those of a file, which is made where it is missing.
pub fn replace(
    alloc: Global,
    files: &mut Vec<NamedFile>,
    name: &str,
    bytes: Vec<u8>,
) -> Result<(), NoMemory>
    ensures ok { OnOk result (content files.new.items name.now ≡ bytes.items) }
    ensures others { (f : List ℕ) → f ≢ name.now → content files.new.items f ≡ content files.old.items f }
    ensures err { OnErr result (SameFiles files.old.items files.new.items) }
    ensures made { OnOk result (is_there files.new.items name.now ≡ true) }
    ensures names { (f : List ℕ) → f ≢ name.now → is_there files.new.items f ≡ is_there files.old.items f }
{
    match place_of(files, name) {
        Some(i) => {
            let file = &mut files[i];
            file.bytes = bytes;
        }
        None => files.push(NamedFile {
            name: String::from_str(alloc, name)?,
            bytes,
        })?,
    }
    Ok(())
}

/// Adds bytes at the end of a file, which is made where it is missing.
pub fn extend(
    alloc: Global,
    files: &mut Vec<NamedFile>,
    name: &str,
    piece: &[u8],
) -> Result<(), NoMemory>
    ensures ok { OnOk result (content files.new.items name.now ≡ content files.old.items name.now ++ piece.now) }
    ensures others { (f : List ℕ) → f ≢ name.now → content files.new.items f ≡ content files.old.items f }
    ensures err { OnErr result (SameFiles files.old.items files.new.items) }
    ensures made { OnOk result (is_there files.new.items name.now ≡ true) }
    ensures names { (f : List ℕ) → f ≢ name.now → is_there files.new.items f ≡ is_there files.old.items f }
{
    match place_of(files, name) {
        Some(i) => {
            let file = &mut files[i];
            file.bytes.extend_from_slice(piece)?;
        }
        None => files.push(NamedFile {
            name: String::from_str(alloc, name)?,
            bytes: piece.to_vec(alloc)?,
        })?,
    }
    Ok(())
}

/// Copies what there is of a list from a place on, as much as fits, but no more than so many bytes.
pub fn copy_part(from: &[u8], at: u64, most: usize, into: &mut [u8]) -> usize
    ensures bound { result ≤ length into.new }
    ensures few { result ≤ most }
    ensures part { 0 < length into.old → 0 < most → IsPartRead (Some from.now) at into.new result }
{
    if at >= from.len() as u64 {
        return 0;
    }
    let start = at as usize;
    let count = into.len().min(from.len() - start).min(most);
    into[..count].copy_from_slice(&from[start..start + count]);
    count
}

// Lists written anew.
ghost use Rattle.std.specs.Prelude.{List, map, IfOk};
ghost use Rattle.std.specs.List.{All, AllZip};
ghost use Rattle.list_write.specs.Written.{ToWrite, AreEnds, to_write, CanBeWritten, IsPieceOf, AreWritten};

use crate::image::ListImage;
use crate::named::NamedList;
use crate::part::{put_header, put_slots};
use crate::pieces::WrittenPieces;
use crate::places::{front_size, place_parts};
use dw_base::NoMemory;
use list_model::{Contribution, ListKind};
use std::alloc::Global;

/// The body of .debug_rnglists or .debug_loclists with its lists written anew (DWARF 5 sections 7.28 and 7.29). `section` is the
/// old body, `parts` are its contributions, and `pieces` are those of its lists that something names, by rising place, as they
/// are written. Each contribution keeps its header but for the length, and the count of its offsets. Then its lists follow in the
/// order of their old places, each once and directly behind its view pairs, and nothing else: lists that shared their ends become
/// lists of their own. Each offset tells the new place of the list that it told. The only error is want of memory.
pub fn assemble(
    alloc: Global,
    kind: ListKind,
    section: &[u8],
    parts: &[Contribution],
    pieces: &WrittenPieces,
) -> Result<ListImage, NoMemory>
    requires lists { (lists : List ToWrite) × AllZip (IsPieceOf kind) lists pieces.now × CanBeWritten kind section.now parts.now lists }
    ensures written { IfOk result (λ image. (lists : List ToWrite) → AllZip (IsPieceOf kind) lists pieces.now → CanBeWritten kind section.now parts.now lists → AreWritten kind section.now parts.now lists image.bytes.items image.parts.items image.lists.items image.views.items) }
{
    let places = place_parts(alloc, parts, &pieces.lists, &pieces.runs)?;
    let mut bytes = Vec::new(alloc);
    let mut from = 0;
    for (number, part) in parts.iter().enumerate() {
        let new_part = places.parts[number];
        put_header(&mut bytes, &new_part)?;
        put_slots(&mut bytes, section, part, new_part.at, &places.lists)?;
        let end = from + (new_part.len - front_size(part)) as usize;
        bytes.extend_from_slice(&pieces.bytes[from..end])?;
        from = end;
    }
    Ok(ListImage {
        bytes,
        parts: places.parts,
        lists: places.lists,
        views: places.views,
    })
}

/// The body of .debug_rnglists or .debug_loclists with lists that are all at hand, as `assemble` makes it of those that
/// `WrittenPieces::push` writes one by one. `lists` are those of `section` that something names, by rising place. The only error is
/// want of memory.
pub fn write_lists(
    alloc: Global,
    kind: ListKind,
    section: &[u8],
    parts: &[Contribution],
    lists: &[NamedList],
) -> Result<ListImage, NoMemory>
    requires lists { CanBeWritten kind section.now parts.now (map to_write lists.now) }
    requires ends { All (λ list. AreEnds list.expressions) lists.now }
    ensures written { IfOk result (λ image. AreWritten kind section.now parts.now (map to_write lists.now) image.bytes.items image.parts.items image.lists.items image.views.items) }
{
    let mut pieces = WrittenPieces::new(alloc);
    for list in lists {
        pieces.push(kind, list)?;
    }
    assemble(alloc, kind, section, parts, &pieces)
}

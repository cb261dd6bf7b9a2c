// The line that says why three files are rejected.
ghost use Rattle.std.specs.Prelude.{◌≡◌, ◌++◌, IfOk, codes};
ghost use Rattle.std.specs.Fmt.{decimal};
ghost use Rattle.commands.specs.Said.{kept_name, reason_text, rejection_text};

use elf_sections::Image;
use list_model::ListKind;
use std::alloc::{AllocError, Global};
use verdict::Reason;

// The name by which a section is told; none for 0, which stands for bytes that no section has too.
fn name_of_kept<'a>(image: &'a Image<'_>, section: u32) -> &'a [u8]
    ensures { result.now ≡ kept_name image.entry.now section }
{
    if 0 < section && section < image.count() {
        image.name(section)
    } else {
        b""
    }
}

// The words for a section that isn't kept as it was.
fn kept_words(alloc: Global, image: &Image<'_>, section: u32) -> Result<Vec<u8>, AllocError>
    ensures { IfOk result (λ words. words.items ≡ codes "kept " ++ kept_name image.now section) }
{
    let mut words = Vec::new(alloc);
    words.extend_from_slice(b"kept ")?;
    words.extend_from_slice(name_of_kept(image, section))?;
    Ok(words)
}

// A word and the number of what it speaks of.
fn with_number(alloc: Global, word: &str, number: u64) -> Result<Vec<u8>, AllocError>
    ensures { IfOk result (λ words. words.items ≡ word.now ++ codes " " ++ decimal number) }
{
    let words = format!(in alloc; "{word} {number}")?;
    Ok(words.into_bytes())
}

// A word and two such numbers.
fn with_numbers(alloc: Global, word: &str, number: u32, inside: u32) -> Result<Vec<u8>, AllocError>
    ensures { IfOk result (λ words. words.items ≡ word.now ++ codes " " ++ decimal number ++ codes " " ++ decimal inside) }
{
    let words = format!(in alloc; "{word} {number} {inside}")?;
    Ok(words.into_bytes())
}

// The words for a reason.
fn words_of(alloc: Global, image: &Image<'_>, reason: Reason) -> Result<Vec<u8>, AllocError>
    ensures { IfOk result (λ words. words.items ≡ reason_text image.now reason) }
{
    match reason {
        Reason::Broken(place) => with_number(alloc, "record", place),
        Reason::Kept(section) => kept_words(alloc, image, section),
        Reason::Rows(program) => with_number(alloc, "rows", u64::from(program)),
        Reason::Table(ListKind::Ranges, part) => {
            with_number(alloc, "table ranges", u64::from(part))
        }
        Reason::Table(ListKind::Locations, part) => {
            with_number(alloc, "table locations", u64::from(part))
        }
        Reason::Differs(unit, entry) => with_numbers(alloc, "differs", unit, entry),
        Reason::Class(place) => with_number(alloc, "class", place),
        Reason::Line(program, pair) => with_numbers(alloc, "line", program, pair),
        Reason::List(list, item) => with_numbers(alloc, "list", list, item),
        Reason::Slot(unit, slot) => with_numbers(alloc, "slot", unit, slot),
    }
}

/// The line for a reason. A section is told by its name in the image.
pub fn rejection(alloc: Global, image: &Image<'_>, reason: Reason) -> Result<Vec<u8>, AllocError>
    ensures { IfOk result (λ line. line.items ≡ rejection_text image.now reason) }
{
    let words = words_of(alloc, image, reason)?;
    let mut line = Vec::new(alloc);
    line.extend_from_slice(b"rejected ")?;
    line.extend_from_slice(&words)?;
    line.push(b'\n')?;
    Ok(line)
}

// A file with new debug sections.
ghost use Rattle.std.specs.Prelude.{IfOk, OnOk};
ghost use Rattle.dw_base.specs.declared.fault.Reach.TheVariants.{Narrow};
ghost use Rattle.value_links.specs.Laws.{IsImageInOrder};
ghost use Rattle.rewriter.specs.inside.Bodies.{AddsBody, AreBodiesWith, new_bytes};
ghost use Rattle.rewriter.specs.inside.Sections.{AreFor, HasSections};

use crate::sections::NewSections;
use dw_base::NoMemory;
use elf_place::{NewBody, place};
use elf_sections::Image;
use std::alloc::Global;

// Adds the new body of the section with a name, where the file has one.
fn push_body(
    bodies: &mut Vec<NewBody>,
    image: &Image<'_>,
    name: &[u8],
    bytes: Vec<u8>,
) -> Result<(), NoMemory>
    ensures { OnOk result (AddsBody image.now (record { name = name.now; bytes = bytes.items }) bodies.old.items bodies.new.items) }
{
    if let Some(section) = image.find(name) {
        bodies.push(NewBody { section, bytes })?;
    }
    Ok(())
}

// The new bodies of those sections that the file has.
fn new_bodies(
    alloc: Global,
    image: &Image<'_>,
    sections: NewSections,
) -> Result<Vec<NewBody>, NoMemory>
    ensures { IfOk result (λ bodies. AreBodiesWith image.now (new_bytes sections) bodies.items) }
{
    let NewSections {
        info,
        abbrevs,
        lines,
        ranges,
        locations,
        aranges,
    } = sections;
    let mut bodies = Vec::new(alloc);
    push_body(&mut bodies, image, b".debug_info".as_slice(), info)?;
    push_body(&mut bodies, image, b".debug_abbrev".as_slice(), abbrevs)?;
    push_body(&mut bodies, image, b".debug_line".as_slice(), lines)?;
    push_body(&mut bodies, image, b".debug_rnglists".as_slice(), ranges)?;
    push_body(&mut bodies, image, b".debug_loclists".as_slice(), locations)?;
    push_body(&mut bodies, image, b".debug_aranges".as_slice(), aranges)?;
    Ok(bodies)
}

/// The file with these sections in place of its own (System V ABI, ELF-64). A section that the file lacks isn't added.
///
/// The file is within the narrow limits; the written one is within the wide limits. What is loaded stays where it is. The movable sections follow, each at the next multiple of its alignment, then the section headers; all
/// sections keep their names and headers, but for where they stand and how long they are, and those that aren't written anew
/// keep their bytes. The only error is want of memory.
pub fn assemble(
    alloc: Global,
    image: &Image<'_>,
    sections: NewSections,
) -> Result<Vec<u8>, NoMemory>
    requires image { IsImageInOrder image.now Narrow }
    requires sections { AreFor image.now sections }
    ensures has { IfOk result (λ written. HasSections image.now sections written.items) }
{
    let bodies = new_bodies(alloc, image, sections)?;
    place(alloc, image, &bodies)
}

// A whole file written anew.
ghost use Rattle.std.specs.Prelude.{IfOk, IfErr};
ghost use Rattle.dw_base.specs.Classes.{every};
ghost use Rattle.dw_base.specs.declared.fault.Reach.TheVariants.{Narrow, Wide};
ghost use Rattle.value_links.specs.Faults.{IsValid, NamesFault};
ghost use Rattle.value_links.specs.Same.{Same};
ghost use Rattle.value_links.specs.World.{IsWorldOf};
ghost use Rattle.written_files.specs.Placed.{IsPlaced};
ghost use Rattle.written_files.specs.Certificates.{IsCertificate, IsFirstCertificate};
ghost use Rattle.written_files.specs.Classes.{HaveLeastCodes, HaveOrderedCodes, HaveLeastColumns, HaveFirstColumns, HaveLeastLists};
ghost use Rattle.written_files.specs.Kept.{HaveLeastLines, HaveOrderedLines};
ghost use Rattle.written_files.specs.Layouts.{HaveLeastLayouts};
ghost use Rattle.written_files.specs.Tidy.{IsTidy};

use crate::assemble::assemble;
use crate::sections::{Anew, write_sections};
use dw_base::{Classes, NoMemory, Reach, Refusal};
use std::alloc::Global;
use value_links::{World, valid_files};

/// A file that was written anew, and why nothing shorter is in its classes.
#[derive(Drop)]
pub struct Rewritten {
    /// Its bytes.
    pub file: Vec<u8>,
    /// Its certificate: a record file, as docs/CERTIFICATE.md tells.
    pub cert: Vec<u8>,
}

/// The bytes to be written for a file that was read, and their certificate: what [`rewrite_in`] gives for it. Who also asks a
/// [`World`] for something else reads the file once. The only error is want of memory.
pub fn rewrite_world(
    alloc: Global,
    classes: Classes,
    world: World<'_>,
) -> Result<Rewritten, NoMemory>
    requires world { IsWorldOf world.image Narrow world }
    ensures same { IfOk result (λ written. Same world.entry.image written.file.items) }
    ensures still_valid { IfOk result (λ written. IsValid written.file.items Wide) }
    ensures least { IfOk result (λ written. HaveLeastLines classes world.entry.image written.file.items) }
    ensures order { IfOk result (λ written. HaveOrderedLines classes world.entry.image written.file.items) }
    ensures lists { IfOk result (λ written. HaveLeastLists classes world.entry.image written.file.items) }
    ensures columns { IfOk result (λ written. HaveLeastColumns classes world.entry.image written.file.items) }
    ensures columns_order { IfOk result (λ written. HaveFirstColumns classes world.entry.image written.file.items) }
    ensures codes { IfOk result (λ written. HaveLeastCodes world.entry.image written.file.items) }
    ensures codes_order { IfOk result (λ written. HaveOrderedCodes world.entry.image written.file.items) }
    ensures layouts { IfOk result (λ written. HaveLeastLayouts world.entry.image written.file.items) }
    ensures tidy { IfOk result (λ written. IsTidy world.entry.image written.file.items) }
    ensures placed { IfOk result (λ written. IsPlaced world.entry.image written.file.items) }
    ensures certified { IfOk result (λ written. IsCertificate classes written.file.items written.cert.items) }
    ensures certified_first { IfOk result (λ written. IsFirstCertificate classes written.file.items written.cert.items) }
{
    // A law: what is read, means something and keeps the limits is valid.
    valid_files();
    let Anew {
        sections,
        certificate,
    } = write_sections(alloc, classes, &world)?;
    // All else that was read takes several times the memory of the file: it goes before the new file is put together.
    let image = world.into_image();
    let file = assemble(alloc, &image, sections)?;
    Ok(Rewritten {
        file,
        cert: certificate,
    })
}

/// The bytes to be written for a file in some classes, and their certificate.
///
/// Refused exactly where the file isn't valid, with a fault of the first pass that has one, or for want of memory. The written
/// file means the same: the same line number rows, units, entries and values, each reference at what it named, and all other
/// sections as they are. It is valid within the wide limits.
///
/// Each line number program is the shortest that gives its rows (DWARF 5 section 6.2), or .debug_line is as it was where the classes keep
/// it. Each range list and location list that something names is the shortest that gives its ranges or locations in the context of its
/// unit or, where it is frozen or the classes keep it, the shortest with its own entries, expressions left out. The view pairs of a
/// location list, which are an extension of GNU's, stand directly before it, each number in its fewest bytes. But for headers and offsets
/// nothing else stands in .debug_rnglists and .debug_loclists (sections 2.6.2, 2.17.3, 7.25, 7.28 and 7.29). Each abbreviation table that
/// units name is written once, without unused declarations, with the codes that take the fewest bytes (DWARF 5 section 7.5.3).
///
/// A column is what one attribute of a declaration has in all entries of the declaration, over all units that name its table. Each
/// column of a used declaration has the form of the classes in which its values and,
/// for DW_FORM_implicit_const, the constant take the fewest bytes (DWARF 5 sections 7.5.5 and 7.5.6); among equals its own, else
/// the one with the lowest code. So an entry may grow where its column as a whole shrinks. References within a unit have
/// DW_FORM_ref_udata. They, the lengths of expressions, calls and references to base types in expressions have the least sizes under
/// which each holds its number: these depend on each other, and no others have a smaller sum.
///
/// Each number of a table, each code and each value in its form has its fewest bytes. An expression of an entry or a list keeps its
/// operations, each reference at the new place of what it named; each number in it has its fewest bytes, and a call is a DW_OP_call2
/// where its number is below 65,536 (sections 2.5 and 7.7.1). Bytes after a unit's entries are dropped.
///
/// The certificate has a record for each line number program and each list that isn't kept and for each unit, from which it can be seen that
/// nothing shorter gives the same rows, items or layout. Of several that would do it is the one with the least numbers of steps, the
/// greatest potentials and the first ranks.
pub fn rewrite_in(alloc: Global, classes: Classes, file: &[u8]) -> Result<Rewritten, Refusal>
    ensures valid { IfOk result (λ _. IsValid file.now Narrow) }
    ensures same { IfOk result (λ written. Same file.now written.file.items) }
    ensures still_valid { IfOk result (λ written. IsValid written.file.items Wide) }
    ensures least { IfOk result (λ written. HaveLeastLines classes file.now written.file.items) }
    ensures order { IfOk result (λ written. HaveOrderedLines classes file.now written.file.items) }
    ensures lists { IfOk result (λ written. HaveLeastLists classes file.now written.file.items) }
    ensures columns { IfOk result (λ written. HaveLeastColumns classes file.now written.file.items) }
    ensures columns_order { IfOk result (λ written. HaveFirstColumns classes file.now written.file.items) }
    ensures codes { IfOk result (λ written. HaveLeastCodes file.now written.file.items) }
    ensures codes_order { IfOk result (λ written. HaveOrderedCodes file.now written.file.items) }
    ensures layouts { IfOk result (λ written. HaveLeastLayouts file.now written.file.items) }
    ensures tidy { IfOk result (λ written. IsTidy file.now written.file.items) }
    ensures placed { IfOk result (λ written. IsPlaced file.now written.file.items) }
    ensures certified { IfOk result (λ written. IsCertificate classes written.file.items written.cert.items) }
    ensures certified_first { IfOk result (λ written. IsFirstCertificate classes written.file.items written.cert.items) }
    ensures refused { IfErr result (λ refusal. NamesFault file.now Narrow refusal) }
{
    let world = World::read(alloc, file, Reach::Narrow)?;
    Ok(rewrite_world(alloc, classes, world)?)
}

/// The bytes to be written for a file in the classes that have all members, and their certificate: what [`rewrite_in`] gives for them.
pub fn rewrite(alloc: Global, file: &[u8]) -> Result<Rewritten, Refusal>
    ensures valid { IfOk result (λ _. IsValid file.now Narrow) }
    ensures same { IfOk result (λ written. Same file.now written.file.items) }
    ensures still_valid { IfOk result (λ written. IsValid written.file.items Wide) }
    ensures least { IfOk result (λ written. HaveLeastLines every file.now written.file.items) }
    ensures order { IfOk result (λ written. HaveOrderedLines every file.now written.file.items) }
    ensures lists { IfOk result (λ written. HaveLeastLists every file.now written.file.items) }
    ensures columns { IfOk result (λ written. HaveLeastColumns every file.now written.file.items) }
    ensures columns_order { IfOk result (λ written. HaveFirstColumns every file.now written.file.items) }
    ensures codes { IfOk result (λ written. HaveLeastCodes file.now written.file.items) }
    ensures codes_order { IfOk result (λ written. HaveOrderedCodes file.now written.file.items) }
    ensures layouts { IfOk result (λ written. HaveLeastLayouts file.now written.file.items) }
    ensures tidy { IfOk result (λ written. IsTidy file.now written.file.items) }
    ensures placed { IfOk result (λ written. IsPlaced file.now written.file.items) }
    ensures certified { IfOk result (λ written. IsCertificate every written.file.items written.cert.items) }
    ensures certified_first { IfOk result (λ written. IsFirstCertificate every written.file.items written.cert.items) }
    ensures refused { IfErr result (λ refusal. NamesFault file.now Narrow refusal) }
{
    rewrite_in(alloc, Classes::every(), file)
}

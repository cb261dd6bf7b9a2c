//! Whether a file that was written anew for another is accepted with its certificate, and else the first reason why it isn't.
#![tactic(auto)]

ghost use Rattle.std.specs.Prelude.{◌↔◌, IfOk, IfSome, IsNone};
ghost use Rattle.dw_base.specs.declared.fault.Reach.TheVariants.{Narrow, Wide};
ghost use Rattle.spelled.specs.Spelled.{AreBytes};
ghost use Rattle.value_links.specs.Sections.{debug_addr, debug_line};
ghost use Rattle.value_links.specs.World.{IsWorldOf};
ghost use Rattle.verdict.specs.Accepts.{Accepts, IsFirstReason, IsAllLeast, IsAllKept};

mod laws;

pub use crate::laws::written_are_accepted;
use check_records::{first_broken, first_refused, first_stray};
use dw_base::{Classes, NoMemory};
pub use same_meaning::Reason;
use same_meaning::first_difference;
use std::alloc::Global;
use tidy_files::accept_classes;
use value_links::World;

// A law: contracts see a section as a list of numbers, and each is a byte.
fn bytes_are_small(section: &[u8])
    ensures { AreBytes section.now }
{
    let _section = section;
}

// The same of two sections of a file.
fn sections_are_bytes(world: &World<'_>)
    ensures lines { AreBytes (debug_line world.now.image) }
    ensures addresses { AreBytes (debug_addr world.now.image) }
{
    bytes_are_small(world.section(b".debug_line".as_slice()));
    bytes_are_small(world.section(b".debug_addr".as_slice()));
}

/// Whether a written file is accepted with its certificate: None where it is, and else the first reason why it isn't. `before` and `after`
/// are what was read of the file for which it was written, within the narrow limits, and of itself, within the wide ones.
///
/// It is accepted where both mean the same, the written one is as a writer makes it in these classes (DWARF 5 sections 2.6.2, 2.17.3, 6.2, 7.5 and 7.6), and
/// the certificate has a record for each of its line number programs, lists and units, by which none of them could be shorter; those that the
/// classes keep, and frozen lists, have none. Then no line number program, list, form of a column, numbering of a table and layout of a unit is shorter in its class.
///
/// Reasons are looked for in this order: a certificate that is no record file, a difference in meaning, a place that isn't in its class, a
/// record that is missing, of another kind or left over, and the first record that isn't accepted. Numbers count from 0; the place of `Broken`
/// is one of the certificate, and that of `Class` one of the written file. The only error is want of memory.
pub fn verdict(
    alloc: Global,
    classes: Classes,
    before: &World<'_>,
    after: &World<'_>,
    certificate: &[u8],
) -> Result<Option<Reason>, NoMemory>
    requires before { IsWorldOf before.now.image Narrow before.now }
    requires after { IsWorldOf after.now.image Wide after.now }
    ensures accepted { IfOk result (λ reason. IsNone reason ↔ Accepts classes before.now.image after.now.image certificate.now) }
    ensures first { IfOk result (λ reason. IfSome reason (IsFirstReason classes before.now.image after.now.image certificate.now)) }
    ensures least { IfOk result (λ reason. IsNone reason → IsAllLeast classes after.now.image) }
    ensures kept { IfOk result (λ reason. IsNone reason → IsAllKept classes before.now.image after.now.image) }
{
    if let Some(place) = first_broken(alloc, classes, certificate)? {
        return Ok(Some(Reason::Broken(place)));
    }
    if let Some(reason) = first_difference(alloc, before, after)? {
        return Ok(Some(reason));
    }
    if let Some(place) = accept_classes(alloc, classes, before, after)? {
        return Ok(Some(Reason::Class(place)));
    }
    if let Some(place) = first_stray(alloc, classes, after, certificate)? {
        return Ok(Some(Reason::Broken(place)));
    }
    sections_are_bytes(after);
    first_refused(alloc, classes, after, certificate)
}

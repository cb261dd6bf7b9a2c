// A file in memory written anew, so that a check accepts it.
ghost use Rattle.std.specs.Prelude.{IfOk, IfErr};
ghost use Rattle.dw_base.specs.declared.fault.Reach.TheVariants.{Narrow};
ghost use Rattle.value_links.specs.Faults.{NamesFault};
ghost use Rattle.value_links.specs.World.{IsWorldOf};
ghost use Rattle.written_files.specs.Certificates.{IsCertificate, IsFirstCertificate};
ghost use Rattle.verdict.specs.Accepts.{Accepts};
ghost use Rattle.commands.specs.File.{IsValid, IsWhole};

use dw_base::{Classes, NoMemory, Reach, Refusal};
use rewriter::{Rewritten, rewrite_world};
use std::alloc::Global;
use unit_slots::written_slots;
use value_links::World;
use verdict::written_are_accepted;

/// The bytes to be written for a file that was read, in some classes, and their certificate: what [`rewrite_world`] gives. Two laws add that
/// slots have in the written file the bytes that their numbers need (`layouts` in `whole`), and that it is accepted with its certificate by the
/// definition by which `check` goes (`accepted`). Nothing is checked here. The only error is want of memory.
pub(crate) fn rewrite_held(
    alloc: Global,
    classes: Classes,
    world: World<'_>,
) -> Result<Rewritten, NoMemory>
    requires world { IsWorldOf world.image Narrow world }
    ensures whole { IfOk result (λ written. IsWhole classes world.entry.image written.file.items) }
    ensures certified { IfOk result (λ written. IsCertificate classes written.file.items written.cert.items) }
    ensures certified_first { IfOk result (λ written. IsFirstCertificate classes written.file.items written.cert.items) }
    ensures accepted { IfOk result (λ written. Accepts classes world.entry.image written.file.items written.cert.items) }
{
    let written = rewrite_world(alloc, classes, world)?;
    // Laws: slots stand in the bytes that their numbers need, and what is written so is accepted.
    written_slots();
    written_are_accepted();
    Ok(written)
}

/// The bytes to be written for a file in some classes, and their certificate: what [`rewrite_held`] gives.
///
/// Refused exactly where the file isn't valid, with a fault of the first pass that has one; the only other error is want of memory.
pub fn rewrite_file(alloc: Global, classes: Classes, file: &[u8]) -> Result<Rewritten, Refusal>
    ensures valid { IfOk result (λ _. IsValid file.now) }
    ensures whole { IfOk result (λ written. IsWhole classes file.now written.file.items) }
    ensures certified { IfOk result (λ written. IsCertificate classes written.file.items written.cert.items) }
    ensures certified_first { IfOk result (λ written. IsFirstCertificate classes written.file.items written.cert.items) }
    ensures accepted { IfOk result (λ written. Accepts classes file.now written.file.items written.cert.items) }
    ensures refused { IfErr result (λ refusal. NamesFault file.now Narrow refusal) }
{
    let world = World::read(alloc, file, Reach::Narrow)?;
    Ok(rewrite_held(alloc, classes, world)?)
}

// Reads a file, and writes what is made of it.
ghost use Rattle.std.specs.Prelude.{◌≡◌, ◌≢◌, ◌<◌, ◌⊎◌, ℕ, List, Some, IsSome, OnOk};
ghost use Rattle.std.specs.Option.{ForSome};
ghost use Rattle.dw_base.specs.Host.{Rose};
ghost use Rattle.written_files.specs.Certificates.{IsCertificate, IsFirstCertificate};
ghost use Rattle.verdict.specs.Accepts.{Accepts};
ghost use Rattle.commands.specs.File.{IsValid, IsWhole};
ghost use Rattle.commands.specs.Run.{Writes, Certifies, WritesBoth, IsUntouched};
ghost use Rattle.commands.specs.inside.Run.{HasReadCause, HasWriteCause, LeavesFiles, EndsByFault, RefusesLong};

use crate::anew::rewrite_file;
use crate::ending::Ending;
use crate::reading::read_input;
use crate::writing::write_files;
use dw_base::{Classes, Host};
use std::alloc::Global;

/// Reads the input, and writes the output and its certificate, in some classes.
pub fn shrink<H: Host>(
    alloc: Global,
    classes: Classes,
    input: &str,
    output: &str,
    certificate: &str,
    host: &mut H,
) -> Result<(), Ending>
    requires apart { output.now ≢ certificate.now }
    ensures valid { OnOk result (ForSome (H.bytes host.old input.now) IsValid) }
    ensures written { OnOk result (Writes (IsWhole classes) (H.bytes host.old) (H.bytes host.new) input.now output.now) }
    ensures certified { OnOk result (Certifies (IsCertificate classes) (H.bytes host.old) (H.bytes host.new) output.now certificate.now) }
    ensures certified_first { OnOk result (Certifies (IsFirstCertificate classes) (H.bytes host.old) (H.bytes host.new) output.now certificate.now) }
    ensures accepted { OnOk result (WritesBoth (Accepts classes) (H.bytes host.old) (H.bytes host.new) input.now output.now certificate.now) }
    ensures later { IsSome (H.bytes host.old output.now) → H.write_faults host.old output.now < H.write_faults host.new output.now → H.bytes host.new certificate.now ≡ H.bytes host.old certificate.now }
    ensures whole { IsSome (H.bytes host.old certificate.now) → IsUntouched (H.bytes host.old) (H.bytes host.new) (H.write_faults host.old) (H.write_faults host.new) certificate.now ⊎ Writes (IsWhole classes) (H.bytes host.old) (H.bytes host.new) input.now output.now }
    ensures refused { EndsByFault (H.bytes host.old input.now) result }
    ensures long { RefusesLong (H.bytes host.old input.now) result }
    ensures files { LeavesFiles (H.bytes host.old) (H.bytes host.new) result }
    ensures faulty_kept { (file : List ℕ) → H.bytes host.old input.now ≡ Some file → ¬ IsValid file → (f : List ℕ) → H.bytes host.new f ≡ H.bytes host.old f }
    ensures faulty_unwritten { (file : List ℕ) → H.bytes host.old input.now ≡ Some file → ¬ IsValid file → (f : List ℕ) → H.write_faults host.new f ≡ H.write_faults host.old f }
    ensures others { (f : List ℕ) → f ≢ output.now → f ≢ certificate.now → H.bytes host.new f ≡ H.bytes host.old f }
    ensures said { H.said host.new ≡ H.said host.old }
    ensures reads { HasReadCause (H.read_faults host.old input.now) (H.read_faults host.new input.now) result }
    ensures writes { HasWriteCause (Rose (H.write_faults host.old output.now) (H.write_faults host.new output.now) ⊎ Rose (H.write_faults host.old certificate.now) (H.write_faults host.new certificate.now)) (H.write_faults host.old) (H.write_faults host.new) result }
    ensures says { H.say_faults host.new ≡ H.say_faults host.old }
{
    let file = read_input(alloc, input, host)?;
    let written = rewrite_file(alloc, classes, &file)?;
    // All memory was found: nothing was written yet.
    write_files(output, certificate, &written, host)
}

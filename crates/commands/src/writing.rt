// Whole files to a host.
ghost use Rattle.std.specs.Prelude.{◌≡◌, ◌≢◌, ◌<◌, ◌⊎◌, ℕ, List, [], ◌++◌, option_map, IsSome, OnOk};
ghost use Rattle.dw_base.specs.Host.{Rose};
ghost use Rattle.commands.specs.Run.{IsUntouched};
ghost use Rattle.commands.specs.inside.Run.{OnlyWriteFault};

use crate::ending::Ending;
use dw_base::{Host, Stop};
use rewriter::Rewritten;

/// Writes the output whole, and then the certificate. Where writing this one fails, the output stays.
pub fn write_files<H: Host>(
    output: &str,
    certificate: &str,
    written: &Rewritten,
    host: &mut H,
) -> Result<(), Ending>
    requires apart { output.now ≢ certificate.now }
    ensures output { OnOk result (H.bytes host.new output.now ≡ option_map (λ _. written.now.file.items) (H.bytes host.old output.now)) }
    ensures certificate { OnOk result (H.bytes host.new certificate.now ≡ option_map (λ _. written.now.cert.items) (H.bytes host.old certificate.now)) }
    ensures later { IsSome (H.bytes host.old output.now) → H.write_faults host.old output.now < H.write_faults host.new output.now → H.bytes host.new certificate.now ≡ H.bytes host.old certificate.now }
    ensures whole { IsSome (H.bytes host.old certificate.now) → IsUntouched (H.bytes host.old) (H.bytes host.new) (H.write_faults host.old) (H.write_faults host.new) certificate.now ⊎ (H.bytes host.new output.now ≡ option_map (λ _. written.now.file.items) (H.bytes host.old output.now)) }
    ensures others { (f : List ℕ) → f ≢ output.now → f ≢ certificate.now → H.bytes host.new f ≡ H.bytes host.old f }
    ensures said { H.said host.new ≡ H.said host.old }
    ensures reads { (f : List ℕ) → H.read_faults host.new f ≡ H.read_faults host.old f }
    ensures writes { OnlyWriteFault (Rose (H.write_faults host.old output.now) (H.write_faults host.new output.now) ⊎ Rose (H.write_faults host.old certificate.now) (H.write_faults host.new certificate.now)) (H.write_faults host.old) (H.write_faults host.new) result }
    ensures says { H.say_faults host.new ≡ H.say_faults host.old }
{
    write_file(output, &written.file, host)?;
    write_file(certificate, &written.cert, host)
}

/// Writes a whole file.
pub fn write_file<H: Host>(name: &str, bytes: &[u8], host: &mut H) -> Result<(), Ending>
    ensures written { OnOk result (H.bytes host.new name.now ≡ option_map (λ _. bytes.now) (H.bytes host.old name.now)) }
    ensures others { (f : List ℕ) → f ≢ name.now → H.bytes host.new f ≡ H.bytes host.old f }
    ensures said { H.said host.new ≡ H.said host.old }
    ensures reads { (f : List ℕ) → H.read_faults host.new f ≡ H.read_faults host.old f }
    ensures writes { OnlyWriteFault (Rose (H.write_faults host.old name.now) (H.write_faults host.new name.now)) (H.write_faults host.old) (H.write_faults host.new) result }
    ensures apart { (f : List ℕ) → f ≢ name.now → IsSome (H.bytes host.old f) → H.write_faults host.new f ≡ H.write_faults host.old f }
    ensures says { H.say_faults host.new ≡ H.say_faults host.old }
{
    begin(name, host)?;
    append(name, bytes, host)
}

fn begin<H: Host>(name: &str, host: &mut H) -> Result<(), Ending>
    ensures begun { OnOk result (H.bytes host.new name.now ≡ option_map (λ _. []) (H.bytes host.old name.now)) }
    ensures others { (f : List ℕ) → f ≢ name.now → H.bytes host.new f ≡ H.bytes host.old f }
    ensures said { H.said host.new ≡ H.said host.old }
    ensures reads { (f : List ℕ) → H.read_faults host.new f ≡ H.read_faults host.old f }
    ensures writes { OnlyWriteFault (Rose (H.write_faults host.old name.now) (H.write_faults host.new name.now)) (H.write_faults host.old) (H.write_faults host.new) result }
    ensures apart { (f : List ℕ) → f ≢ name.now → IsSome (H.bytes host.old f) → H.write_faults host.new f ≡ H.write_faults host.old f }
    ensures says { H.say_faults host.new ≡ H.say_faults host.old }
{
    match host.begin(name) {
        Ok(()) => Ok(()),
        Err(Stop::Failed) => Err(Ending::WriteFault),
        Err(Stop::NoMemory) => Err(Ending::NoMemory),
    }
}

fn append<H: Host>(name: &str, piece: &[u8], host: &mut H) -> Result<(), Ending>
    ensures added { OnOk result (H.bytes host.new name.now ≡ option_map (λ b. b ++ piece.now) (H.bytes host.old name.now)) }
    ensures others { (f : List ℕ) → f ≢ name.now → H.bytes host.new f ≡ H.bytes host.old f }
    ensures said { H.said host.new ≡ H.said host.old }
    ensures reads { (f : List ℕ) → H.read_faults host.new f ≡ H.read_faults host.old f }
    ensures writes { OnlyWriteFault (Rose (H.write_faults host.old name.now) (H.write_faults host.new name.now)) (H.write_faults host.old) (H.write_faults host.new) result }
    ensures apart { (f : List ℕ) → f ≢ name.now → IsSome (H.bytes host.old f) → H.write_faults host.new f ≡ H.write_faults host.old f }
    ensures says { H.say_faults host.new ≡ H.say_faults host.old }
{
    match host.append(name, piece) {
        Ok(()) => Ok(()),
        Err(Stop::Failed) => Err(Ending::WriteFault),
        Err(Stop::NoMemory) => Err(Ending::NoMemory),
    }
}

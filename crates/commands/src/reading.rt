// A whole file from a host.
ghost use Rattle.std.specs.Prelude.{◌≡◌, ◌≢◌, ◌≤◌, ◌<◌, ◌+◌, ◌^◌, ℕ, List, [], ◌++◌, length, take, vec_len, option_map, IfOk, IfErr, OnOk};
ghost use Rattle.std.specs.Option.{ForSome};
ghost use Rattle.dw_base.specs.Host.{Rose};
ghost use Rattle.commands.specs.declared.ending.Ending.TheVariants.{WriteFault};
ghost use Rattle.commands.specs.inside.Run.{OnlyReadFault, HasReadCause, IsReadOn, EndsByFault, RefusesLong};

use crate::ending::Ending;
use dw_base::{Fault, Host, Kind, Stop};
use std::alloc::Global;
use value_links::first_faults_decide;

/// The length past which an input isn't read on, since it is refused.
pub const INPUT_LIMIT: usize = 1 << 30;

/// The same of a file that was written for an input.
pub const OUTPUT_LIMIT: usize = 1 << 35;

/// The most bytes that can be held. No length is refused of a certificate.
pub const NO_LIMIT: usize = isize::MAX as usize;

// The most bytes that are asked for at once.
const PIECE: usize = 65_536;

// Reads on at the end of what was read, and answers how many bytes came.
fn read_on<H: Host>(
    host: &mut H,
    name: &str,
    piece: &mut [u8],
    file: &mut Vec<u8>,
) -> Result<usize, Ending>
    requires { 0 < length piece.old }
    ensures grown { IfOk result (λ n. (n ≤ length piece.old) × (vec_len file.new ≡ vec_len file.old + n)) }
    ensures read { IfOk result (λ n. ForSome (H.bytes host.old name.now) (λ b. IsReadOn b file.old.items file.new.items n)) }
    ensures files { (f : List ℕ) → H.bytes host.new f ≡ H.bytes host.old f }
    ensures said { H.said host.new ≡ H.said host.old }
    ensures reads { OnlyReadFault (Rose (H.read_faults host.old name.now) (H.read_faults host.new name.now)) (H.read_faults host.old) (H.read_faults host.new) result }
    ensures writes { (f : List ℕ) → H.write_faults host.new f ≡ H.write_faults host.old f }
    ensures says { H.say_faults host.new ≡ H.say_faults host.old }
{
    let at = file.len() as u64;
    match host.read_at(name, at, piece) {
        Ok(count) => {
            file.extend_from_slice(&piece[..count])?;
            Ok(count)
        }
        Err(Stop::Failed) => Err(Ending::ReadFault),
        Err(Stop::NoMemory) => Err(Ending::NoMemory),
    }
}

// A buffer of this many bytes.
fn zeros(alloc: Global, count: usize) -> Result<Vec<u8>, Ending>
    ensures count { IfOk result (λ buffer. vec_len buffer ≡ count) }
    ensures memory { IfErr result (λ e. e ≡ Ending.NoMemory) }
{
    Ok(vec![in alloc; 0u8; count]?)
}

/// The bytes of a file, to its end or to one past the limit.
pub fn read_file<H: Host>(
    alloc: Global,
    name: &str,
    limit: usize,
    host: &mut H,
) -> Result<Vec<u8>, Ending>
    requires { limit < 2 ^ 63 }
    ensures read { IfOk result (λ file. ForSome (H.bytes host.old name.now) (λ b. file.items ≡ take (limit + 1) b)) }
    ensures files { (f : List ℕ) → H.bytes host.new f ≡ H.bytes host.old f }
    ensures said { H.said host.new ≡ H.said host.old }
    ensures reads { OnlyReadFault (Rose (H.read_faults host.old name.now) (H.read_faults host.new name.now)) (H.read_faults host.old) (H.read_faults host.new) result }
    ensures writes { (f : List ℕ) → H.write_faults host.new f ≡ H.write_faults host.old f }
    ensures says { H.say_faults host.new ≡ H.say_faults host.old }
{
    let mut piece = zeros(alloc, PIECE)?;
    let mut file = Vec::new(alloc);
    while file.len() <= limit {
        let room = PIECE.min(limit + 1 - file.len());
        if read_on(host, name, &mut piece[..room], &mut file)? == 0 {
            // It is held while it is read and written anew.
            file.shrink_to_fit();
            return Ok(file);
        }
    }
    Ok(file)
}

/// The bytes of a file that isn't longer than its limit; a longer one is refused as Limit at 0, whatever its first bytes are.
pub fn read_input<H: Host>(alloc: Global, name: &str, host: &mut H) -> Result<Vec<u8>, Ending>
    ensures read { IfOk result (λ file. ForSome (H.bytes host.old name.now) (λ b. file.items ≡ b)) }
    ensures refused { EndsByFault (H.bytes host.old name.now) result }
    ensures long { RefusesLong (H.bytes host.old name.now) result }
    ensures unwritten { IfErr result (λ ending. ending ≡ WriteFault → ⊥) }
    ensures files { (f : List ℕ) → H.bytes host.new f ≡ H.bytes host.old f }
    ensures said { H.said host.new ≡ H.said host.old }
    ensures reads { HasReadCause (H.read_faults host.old name.now) (H.read_faults host.new name.now) result }
    ensures writes { (f : List ℕ) → H.write_faults host.new f ≡ H.write_faults host.old f }
    ensures says { H.say_faults host.new ≡ H.say_faults host.old }
{
    let file = match read_file(alloc, name, INPUT_LIMIT, host) {
        Ok(file) => file,
        Err(ending) => return Err(ending),
    };
    // A law, which costs nothing: a fault of the first pass is one of the file.
    first_faults_decide();
    if file.len() > INPUT_LIMIT {
        return Err(Ending::Refused(Fault {
            kind: Kind::Limit,
            place: 0,
        }));
    }
    Ok(file)
}

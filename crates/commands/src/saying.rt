// What the program says.
ghost use Rattle.std.specs.Prelude.{◌≡◌, ◌⊎◌, ◌++◌, ℕ, List, IfOk, option_map, string_bytes};
ghost use Rattle.dw_base.specs.Host.{AddsPart};
ghost use Rattle.commands.specs.Said.{refusal_text, input_refusal_text, output_refusal_text};
ghost use Rattle.commands.specs.inside.Said.{SaysOrStops, EndsFor};

use crate::ending::Ending;
use dw_base::{Fault, Host, Stop};
use std::alloc::{AllocError, Global};

/// Says a text, and gives the status, or that of a failed message.
pub fn say<H: Host>(host: &mut H, text: &[u8], status: u8) -> u8
    requires { (status ≡ 0) ⊎ ((status ≡ 2) ⊎ ((status ≡ 3) ⊎ (status ≡ 7))) }
    ensures said { result ≡ status → H.said host.new ≡ option_map (λ b. b ++ text.now) (H.said host.old) }
    ensures part { (result ≡ 5) ⊎ (result ≡ 6) → AddsPart (H.said host.old) text.now (H.said host.new) }
    ensures answer { SaysOrStops status (H.say_faults host.old) (H.say_faults host.new) result }
    ensures files { (f : List ℕ) → H.bytes host.new f ≡ H.bytes host.old f }
    ensures reads { (f : List ℕ) → H.read_faults host.new f ≡ H.read_faults host.old f }
    ensures writes { (f : List ℕ) → H.write_faults host.new f ≡ H.write_faults host.old f }
{
    match host.say(text) {
        Ok(()) => status,
        Err(Stop::Failed) => 5,
        Err(Stop::NoMemory) => 6,
    }
}

/// The line that names a fault.
pub fn text_of(alloc: Global, fault: Fault) -> Result<String, AllocError>
    ensures { IfOk result (λ text. string_bytes text ≡ refusal_text fault.kind fault.place) }
{
    let kind = fault.kind.name();
    let place = fault.place;
    format!(in alloc; "refused {kind} at {place}\n")
}

/// The line that names a fault of the first file of a check.
pub fn input_refusal(alloc: Global, fault: Fault) -> Result<String, AllocError>
    ensures { IfOk result (λ text. string_bytes text ≡ input_refusal_text fault.kind fault.place) }
{
    let kind = fault.kind.name();
    let place = fault.place;
    format!(in alloc; "refused in {kind} at {place}\n")
}

/// The line that names a fault of the second file of a check.
pub fn output_refusal(alloc: Global, fault: Fault) -> Result<String, AllocError>
    ensures { IfOk result (λ text. string_bytes text ≡ output_refusal_text fault.kind fault.place) }
{
    let kind = fault.kind.name();
    let place = fault.place;
    format!(in alloc; "refused out {kind} at {place}\n")
}

/// Gives the status where the work ended early, after the line that names a fault, where one was the reason.
pub fn end<H: Host>(alloc: Global, ending: Ending, host: &mut H) -> u8
    ensures ends { EndsFor ending (H.said host.old) (H.said host.new) (H.say_faults host.old) (H.say_faults host.new) result }
    ensures files { (f : List ℕ) → H.bytes host.new f ≡ H.bytes host.old f }
    ensures reads { (f : List ℕ) → H.read_faults host.new f ≡ H.read_faults host.old f }
    ensures writes { (f : List ℕ) → H.write_faults host.new f ≡ H.write_faults host.old f }
{
    match ending {
        Ending::Refused(fault) => match text_of(alloc, fault) {
            Ok(text) => say(host, text.as_bytes(), 3),
            Err(_) => 6,
        },
        Ending::ReadFault => 4,
        Ending::WriteFault => 5,
        Ending::NoMemory => 6,
    }
}

// Writes a file that is drawn from a number.
ghost use Rattle.std.specs.Prelude.{◌≡◌, ◌≢◌, ◌≤◌, ℕ, List, OnOk};
ghost use Rattle.dw_base.specs.Host.{Rose};
ghost use Rattle.commands.specs.File.{IsDrawn};
ghost use Rattle.commands.specs.Run.{WritesOut};
ghost use Rattle.commands.specs.inside.Run.{OnlyWriteFault};

use crate::ending::Ending;
use crate::writing::write_file;
use dw_base::Host;
use sample_maker::sample;
use std::alloc::Global;

/// Writes the output: the file with so many units, 4,096 at most, that is drawn from a number.
pub fn make<H: Host>(
    alloc: Global,
    number: u32,
    units: u32,
    output: &str,
    host: &mut H,
) -> Result<(), Ending>
    requires { units ≤ 4096 }
    ensures written { OnOk result (WritesOut (IsDrawn number units) (H.bytes host.old) (H.bytes host.new) output.now) }
    ensures others { (f : List ℕ) → f ≢ output.now → H.bytes host.new f ≡ H.bytes host.old f }
    ensures said { H.said host.new ≡ H.said host.old }
    ensures reads { (f : List ℕ) → H.read_faults host.new f ≡ H.read_faults host.old f }
    ensures writes { OnlyWriteFault (Rose (H.write_faults host.old output.now) (H.write_faults host.new output.now)) (H.write_faults host.old) (H.write_faults host.new) result }
    ensures says { H.say_faults host.new ≡ H.say_faults host.old }
{
    let file = sample(alloc, number, units)?;
    write_file(output, &file, host)
}

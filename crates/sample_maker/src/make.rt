// The file that is drawn from a number.
ghost use Rattle.std.specs.Prelude.{◌≤◌, IfOk};
ghost use Rattle.dw_base.specs.declared.fault.Reach.TheVariants.{Narrow};
ghost use Rattle.value_links.specs.Debug.{Means};
ghost use Rattle.value_links.specs.Faults.{IsValid};
ghost use Rattle.sample_maker.specs.Drawn.{units_drawn};
ghost use Rattle.sample_maker.specs.Generated.{Generated};
ghost use Rattle.sample_maker.specs.inside.Sections.{AreSections};

use crate::drawn::draw_unit;
use crate::draws::Draws;
use crate::elf::write_file;
use crate::units::{Sections, put_unit};
use dw_base::NoMemory;
use std::alloc::Global;
use value_links::valid_files;

// The sections of so many units that are drawn from a number.
fn draw_sections(alloc: Global, number: u32, units: u32) -> Result<Sections, NoMemory>
    requires { units ≤ 4096 }
    ensures { IfOk result (λ sections. AreSections (units_drawn number units) sections) }
{
    let mut draws = Draws::new(number);
    let mut sections = Sections {
        info: Vec::new(alloc),
        lines: Vec::new(alloc),
        ranges: Vec::new(alloc),
        locations: Vec::new(alloc),
        aranges: Vec::new(alloc),
    };
    for u in 0..units {
        let unit = draw_unit(alloc, &mut draws)?;
        put_unit(alloc, &mut sections, u, &unit)?;
    }
    Ok(sections)
}

/// A valid file with so many units, 4,096 at most, all of which is drawn from a number, and which means what is drawn. The only error is
/// want of memory.
pub fn sample(alloc: Global, number: u32, units: u32) -> Result<Vec<u8>, NoMemory>
    requires { units ≤ 4096 }
    ensures valid { IfOk result (λ file. IsValid file.items Narrow) }
    ensures means { IfOk result (λ file. Means file.items (Generated number units)) }
{
    let sections = draw_sections(alloc, number, units)?;
    // A law, which costs nothing: a file that means something and keeps the limits is valid.
    valid_files();
    write_file(alloc, &sections)
}

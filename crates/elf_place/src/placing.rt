// A file written anew.
ghost use Rattle.std.specs.Prelude.{◌≡◌, ◌≢◌, ◌≤◌, ◌<◌, ◌+◌, ◌*◌, ◌++◌, ◌^◌, ℕ, length, map, IfOk, OnOk, IsFalse};
ghost use Rattle.std.specs.List.{All, AllPairs};
ghost use Rattle.dw_base.specs.declared.fault.Reach.TheVariants.{Narrow, Wide};
ghost use Rattle.elf_sections.specs.Elf.{section_count, fixed_end_of, body_of, is_movable};
ghost use Rattle.elf_sections.specs.Faults.{IsRead};
ghost use Rattle.elf_place.specs.Bodies.{AreApart, AreSmall, body_after, has_new_body, bytes_of, IsReplaceable, KeepsNames};
ghost use Rattle.elf_place.specs.inside.Bodies.{IsTable};
ghost use Rattle.elf_place.specs.Layout.{IsLaidOut};
ghost use Rattle.elf_place.specs.Same.{SameImage};
ghost use Rattle.elf_place.specs.inside.Spots.{IsChain, IsWritten, filled, laid};

use crate::bodies::{NewBody, body_of, table_of};
use crate::headers::{push_headers, put_places};
use crate::order::moving_order;
use crate::spots::{Plan, Spot, next_multiple, plan_spots};
use dw_base::NoMemory;
use elf_sections::Image;
use std::alloc::Global;

// Adds zeros up to a place.
fn fill(out: &mut Vec<u8>, at: u64) -> Result<(), NoMemory>
    requires { length out.old.items ≤ at }
    ensures { OnOk result (out.new.items ≡ filled out.old.items at) }
{
    out.resize(at as usize, 0)?;
    Ok(())
}

// Adds the bodies of sections at their spots, after zeros.
fn push_bodies(
    out: &mut Vec<u8>,
    image: &Image<'_>,
    bodies: &[NewBody],
    table: &[Option<usize>],
    spots: &[Spot],
) -> Result<(), NoMemory>
    requires apart { AreApart bodies.now }
    requires table { IsTable bodies.now table.now }
    requires count { length table.now ≡ section_count image.now }
    requires inside { All (λ spot. spot.section < section_count image.now) spots.now }
    requires room { (end : ℕ) × IsChain image.now (body_after image.now bodies.now) (length out.old.items) spots.now end }
    ensures { OnOk result (out.new.items ≡ laid (body_after image.now bodies.now) out.old.items spots.now) }
{
    for spot in spots {
        fill(out, spot.at)?;
        out.extend_from_slice(body_of(&*image, &*bodies, &*table, spot.section))?;
    }
    Ok(())
}

// The file with its movable sections at these spots.
fn write_out(
    alloc: Global,
    image: &Image<'_>,
    bodies: &[NewBody],
    table: &[Option<usize>],
    plan: &Plan,
) -> Result<Vec<u8>, NoMemory>
    requires apart { AreApart bodies.now }
    requires table { IsTable bodies.now table.now }
    requires count { length table.now ≡ section_count image.now }
    requires inside { All (λ spot. spot.section < section_count image.now) plan.now.spots.items }
    requires once { AllPairs (λ one other. one.section ≢ other.section) plan.now.spots.items }
    requires chain { IsChain image.now (body_after image.now bodies.now) (fixed_end_of image.now) plan.now.spots.items plan.now.end }
    requires low { plan.now.end ≤ 2 ^ 60 }
    requires some { section_count image.now ≢ 0 }
    ensures { IfOk result (λ out. IsWritten image.now (body_after image.now bodies.now) plan.now.spots.items plan.now.end out.items) }
{
    let headers = next_multiple(plan.end, 8);
    let mut out = Vec::with_capacity(alloc, headers as usize + 64 * image.count() as usize)?;
    out.extend_from_slice(&image.whole()[..image.fixed_end() as usize])?;
    push_bodies(&mut out, image, bodies, table, &plan.spots)?;
    fill(&mut out, headers)?;
    push_headers(&mut out, image)?;
    put_places(&mut out, headers as usize, &plan.spots);
    Ok(out)
}

/// The file written anew with new bodies for some of its movable sections (System V ABI, ELF-64).
///
/// Each of the bodies is for another section, which is below `image.count()` and movable, and all of them together have
/// fewer than 2^35 bytes.
///
/// The bytes below the fixed end are kept, but for e_shoff. The movable sections follow in the order of their old
/// offsets and, where these are equal, of their numbers, each at the next multiple of its alignment (0 counts as 1), with
/// zeros between them. The section header table follows at the next multiple of 8, and ends the file. A section that is
/// given no new body keeps the one that it has, and a file without sections is copied as it is.
///
/// Where the section that holds the names (e_shstrndx) is given a new body, the names are those that stand in it. Where it
/// is given none, the file is within the narrow limits, and the bodies have fewer than 2^32 bytes each and no more than
/// 5 * 2^32 together, the new file has no fault under the wide limits.
///
/// All memory is taken before the first byte is copied. `NoMemory` is the only error, and comes where that memory is
/// wanting.
pub fn place(alloc: Global, image: &Image<'_>, bodies: &Vec<NewBody>) -> Result<Vec<u8>, NoMemory>
    requires movable { All (λ new. IsReplaceable image.now new.section) bodies.now.items }
    requires apart { AreApart bodies.now.items }
    requires small { bytes_of bodies.now.items < 2 ^ 35 }
    ensures laid_out { IfOk result (λ out. section_count image.now ≢ 0 → IsLaidOut image.now (body_after image.now bodies.now.items) out.items) }
    ensures bare { IfOk result (λ out. section_count image.now ≡ 0 → out.items ≡ image.now) }
    ensures same { IfOk result (λ out. KeepsNames image.now bodies.now.items → SameImage (has_new_body bodies.now.items) image.now out.items) }
    ensures bodies { IfOk result (λ out. All (λ new. body_of out.items new.section ≡ new.bytes.items) bodies.now.items) }
    ensures kept { IfOk result (λ out. (i : ℕ) → i < section_count image.now → IsFalse (has_new_body bodies.now.items i) → body_of out.items i ≡ body_of image.now i) }
    ensures fixed_end { IfOk result (λ out. section_count image.now ≢ 0 → fixed_end_of out.items ≡ fixed_end_of image.now) }
    ensures still_movable { IfOk result (λ out. (i : ℕ) → i < section_count image.now → is_movable out.items i ≡ is_movable image.now i) }
    ensures read { IfOk result (λ out. IsRead image.now Narrow → KeepsNames image.now bodies.now.items → AreSmall bodies.now.items → IsRead out.items Wide) }
{
    let file = image.whole();
    if image.count() == 0 {
        return Ok(file.to_vec(alloc)?);
    }
    let table = table_of(alloc, image.count(), bodies)?;
    let order = moving_order(alloc, image)?;
    let plan = plan_spots(alloc, image, bodies, &table, &order)?;
    write_out(alloc, image, bodies, &table, &plan)
}

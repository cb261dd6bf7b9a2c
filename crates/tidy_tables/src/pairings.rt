// Pairs of declarations: one of an old table, and the one that an entry has in its place in the written file.
ghost use Rattle.std.specs.Prelude.{◌≡◌, ◌≢◌, ◌<◌, ℕ, [], length, Some, OnOk, IfOk};
ghost use Rattle.std.specs.List.{All};
ghost use Rattle.tidy_tables.specs.inside.Pairings.{partner_of, AreOneToOne, IsAdded, IsUnitAdded};

use dw_base::NoMemory;
use entry_arena::Entry;
use std::alloc::Global;

/// The pairs of the declarations of one old table. Each declaration is in one pair at most.
#[derive(Drop)]
pub(crate) struct Pairings {
    // Of each old declaration the written one, up to the last old one that is in a pair.
    written_of: Vec<Option<u32>>,
    // Of each written declaration the old one, likewise.
    old_of: Vec<Option<u32>>,
}

// What the declaration with a number is paired with.
fn partner(partners: &Vec<Option<u32>>, number: u32) -> Option<u32>
    ensures { result ≡ partner_of partners.now.items number }
{
    let place = number as usize;
    if place < partners.len() {
        partners[place]
    } else {
        None
    }
}

// Pairs the declaration with a number.
fn set_partner(partners: &mut Vec<Option<u32>>, number: u32, partner: u32) -> Result<(), NoMemory>
    ensures here { OnOk result (partner_of partners.new.items number ≡ Some partner) }
    ensures others { OnOk result ((other : ℕ) → other ≢ number → partner_of partners.new.items other ≡ partner_of partners.old.items other) }
{
    let place = number as usize;
    if partners.len() <= place {
        partners.resize(place + 1, None)?;
    }
    partners[place] = Some(partner);
    Ok(())
}

// Adds a pair, or answers false where one of both is paired with another.
fn add_pair(pairings: &mut Pairings, old: u32, written: u32) -> Result<bool, NoMemory>
    requires { AreOneToOne pairings.old }
    ensures { IfOk result (IsAdded pairings.old pairings.new old written) }
{
    if let Some(other) = partner(&pairings.written_of, old) {
        return Ok(other == written);
    }
    if partner(&pairings.old_of, written).is_some() {
        return Ok(false);
    }
    set_partner(&mut pairings.written_of, old, written)?;
    set_partner(&mut pairings.old_of, written, old)?;
    Ok(true)
}

/// Adds the pairs of a unit's entries, or gives the place of the first entry that has another declaration than an earlier one where both
/// had one, or one declaration where both had others. `old` and `written` are the entries in both files.
pub(crate) fn add_unit(
    pairings: &mut Pairings,
    old: &[Entry],
    written: &[Entry],
) -> Result<Option<u64>, NoMemory>
    requires count { length old.now ≡ length written.now }
    requires one { AreOneToOne pairings.old }
    ensures { IfOk result (IsUnitAdded pairings.old pairings.new old.now written.now) }
{
    for id in 0..written.len() {
        if !add_pair(pairings, old[id].decl, written[id].decl)? {
            return Ok(Some(u64::from(written[id].at)));
        }
    }
    Ok(None)
}

/// For each of so many tables no pairs.
pub(crate) fn no_pairings(alloc: Global, tables: usize) -> Result<Vec<Pairings>, NoMemory>
    ensures count { IfOk result (λ all. length all.items ≡ tables) }
    ensures none { IfOk result (λ all. All (λ pairings. (pairings.written_of.items ≡ []) × (pairings.old_of.items ≡ [])) all.items) }
{
    let mut all = Vec::new(alloc);
    for _ in 0..tables {
        all.push(Pairings {
            written_of: Vec::new(alloc),
            old_of: Vec::new(alloc),
        })?;
    }
    Ok(all)
}

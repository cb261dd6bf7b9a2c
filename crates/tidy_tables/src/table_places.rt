// Where the written tables stand: by the order of the old ones, apart from one another, and each once.
ghost use Rattle.std.specs.Prelude.{◌≡◌, ◌<◌, ℕ, length, slice_index};
ghost use Rattle.tidy_places.specs.Firsts.{IsLeastFound};
ghost use Rattle.tidy_tables.specs.inside.Marked.{IsAmong, lesser_of};
ghost use Rattle.tidy_tables.specs.inside.WrittenTables.{place_in, AreNumbersOf, AreByPlace, IsBelowEarlier, IsInEarlier, NamesOther};

use value_links::NamedTable;

/// The lesser of two places, where there are some.
pub(crate) fn lesser(one: Option<u64>, other: Option<u64>) -> Option<u64>
    ensures { result ≡ lesser_of one other }
{
    match (one, other) {
        (Some(one), Some(other)) => Some(one.min(other)),
        (Some(one), None) => Some(one),
        (None, other) => other,
    }
}

/// The least place of a written table that stands before the one of an earlier old table. `written` has for each old table the number of
/// the written one.
pub(crate) fn first_early(written: &Vec<u32>, tables: &Vec<NamedTable>) -> Option<u64>
    requires { AreNumbersOf tables.now.items written.now.items }
    ensures { IsLeastFound (IsAmong (IsBelowEarlier written.now.items) (λ k. place_in tables.now.items (slice_index written.now.items k)) (length written.now.items)) result }
{
    let mut least = None;
    let mut greatest = 0;
    for number in written {
        if *number < greatest {
            least = lesser(least, Some(tables[*number as usize].place));
        }
        greatest = greatest.max(*number);
    }
    least
}

/// The least place of a table that begins inside another.
pub(crate) fn first_inside(tables: &Vec<NamedTable>) -> Option<u64>
    requires { AreByPlace tables.now.items }
    ensures { IsLeastFound (IsAmong (IsInEarlier tables.now.items) (place_in tables.now.items) (length tables.now.items)) result }
{
    let mut end = 0;
    for named in tables {
        if named.place < end {
            return Some(named.place);
        }
        end = end.max(named.table.end());
    }
    None
}

/// The least place of a written table that a unit names whose old table is written as another. `old_of` and `new_of` have for each unit
/// the numbers of its tables in both files.
pub(crate) fn first_further(
    written: &Vec<u32>,
    old_of: &Vec<u32>,
    new_of: &Vec<u32>,
    tables: &Vec<NamedTable>,
) -> Option<u64>
    requires units { length old_of.now.items ≡ length new_of.now.items }
    requires known { (u : ℕ) → u < length old_of.now.items → slice_index old_of.now.items u < length written.now.items }
    requires numbers { AreNumbersOf tables.now.items new_of.now.items }
    ensures { IsLeastFound (IsAmong (NamesOther written.now.items old_of.now.items new_of.now.items) (λ u. place_in tables.now.items (slice_index new_of.now.items u)) (length new_of.now.items)) result }
{
    let mut least = None;
    for unit in 0..new_of.len() {
        let number = new_of[unit];
        if written[old_of[unit] as usize] != number {
            least = lesser(least, Some(tables[number as usize].place));
        }
    }
    least
}

// The numbers of view pairs.
ghost use Rattle.std.specs.Prelude.{◌≡◌, ◌<◌, ◌⊎◌, length, slice_index_or, Some};
ghost use Rattle.dw_base.specs.declared.fault.Reach.{Reach};
ghost use Rattle.list_arena.specs.Held.{HeldViews};
ghost use Rattle.loc_lists.specs.declared.views.ViewPair.{ViewPair};
ghost use Rattle.loc_lists.specs.Views.{SpellsPair};
ghost use Rattle.value_links.specs.World.{IsWorldOf};
ghost use Rattle.tidy_places.specs.Firsts.{IsLeastFound};
ghost use Rattle.tidy_numbers.specs.LongLists.{IsLongInRun, IsLongInViews};
ghost use Rattle.tidy_numbers.specs.inside.Held.{OfReading};
ghost use Rattle.tidy_numbers.specs.inside.NumberWalks.{StandsFrom, EndsFrom, IsFoundFrom, IsLongPair, run_read, IsRunIn};

use crate::number_walk::Walk;
use list_arena::Views;
use value_links::World;

// Looks at the two numbers of a pair that stands next.
fn past_pair(walk: Walk, bytes: &[u8]) -> Walk
    requires { (pair : ViewPair) × StandsFrom (SpellsPair pair) bytes.now walk.at }
    ensures ends { (pair : ViewPair) → EndsFrom (SpellsPair pair) bytes.now walk.at result.at }
    ensures long { IsFoundFrom walk.long IsLongPair bytes.now walk.at result.long }
{
    let first = walk.past_unsigned(bytes);
    first.past_unsigned(bytes)
}

// The first place of a number of a run with a byte too many, or an earlier one that was found before.
fn first_in_run(bytes: &[u8], views: &Views, number: usize, before: Option<u64>) -> Option<u64>
    requires inside { number < length views.now }
    requires run { (d : HeldViews) → IsRunIn bytes.now (run_read (slice_index_or views.now number d)) }
    ensures { (d : HeldViews) → IsLeastFound (λ p. (before ≡ Some p) ⊎ IsLongInRun bytes.now (run_read (slice_index_or views.now number d)) p) result }
{
    let mut next = Walk {
        at: views.at(number) as usize,
        long: before,
    };
    for _ in 0..views.pair_count(number) {
        next = past_pair(next, bytes);
    }
    next.long
}

/// The first number of view pairs with a byte too many, by its place in .debug_loclists.
pub(crate) fn first_in_views(world: &World<'_>) -> Option<u64>
    requires { (reach : Reach) × IsWorldOf world.now.image reach world.now }
    ensures { OfReading world.now (λ s. IsLeastFound (IsLongInViews s) result) }
{
    let bytes = world.section(b".debug_loclists");
    let mut first = None;
    let views = world.views();
    for number in 0..views.len() {
        first = first_in_run(bytes, views, number, first);
    }
    first
}

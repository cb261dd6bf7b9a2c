// The least places at which something is amiss.
ghost use Rattle.std.specs.Prelude.{◌≡◌, length};
ghost use Rattle.tidy_places.specs.Firsts.{IsLeastFound};
ghost use Rattle.tidy_lists.specs.inside.LeastPlaces.{lesser_of, AreInside, IsDisplaced};

use crate::due::Place;
use crate::followers::Follower;

/// The lesser of two places, where there are two.
pub(crate) fn lesser(one: Option<u64>, other: Option<u64>) -> Option<u64>
    ensures { result ≡ lesser_of one other }
{
    match (one, other) {
        (None, found) | (found, None) => found,
        (Some(first), Some(second)) => Some(first.min(second)),
    }
}

/// The least place at which a written thing stands that isn't where an old one is due that it is, by some pairs.
pub(crate) fn first_displaced(pairs: &[Follower], stands: &[Place], due: &[Place]) -> Option<u64>
    requires { AreInside (length due.now) (length stands.now) pairs.now }
    ensures { IsLeastFound (IsDisplaced (length pairs.now) pairs.now stands.now due.now) result }
{
    let mut least = None;
    for pair in pairs {
        let place = stands[pair.new as usize];
        if place != due[pair.old as usize] {
            least = lesser(least, Some(place.at));
        }
    }
    least
}

// The pair that is taken.
ghost use Rattle.std.specs.Prelude.{◌≡◌, ◌<◌, ◌↔◌, ◌⊎◌, ◌≤ℤ◌, ◌<ℤ◌, IsTrue, IsNone, IfSome};
ghost use Rattle.line_sums.specs.Sums.{base_at};
ghost use Rattle.line_params.specs.inside.PairSearch.{MayCome, TakesPlace};

use crate::pair::Pair;
use line_machine::Head;

// A pair, and the bytes of a program's steps under it.
#[derive(Clone, Copy, Debug)]
pub struct Choice {
    pub pair: Pair,
    pub bytes: u64,
}

/// The pair of a head.
pub fn own_pair(head: &Head) -> Pair
    ensures base { result.base ≡ head.now.base }
    ensures range { result.range ≡ head.now.range }
{
    Pair {
        base: head.base,
        range: head.range,
    }
}

/// Whether a pair with a line_range may come before another one that takes as many bytes, or be it.
pub fn may_come(head: &Head, range: u8, pair: Pair) -> bool
    ensures { IsTrue result ↔ MayCome head.now range pair }
{
    range <= pair.range && pair != own_pair(head)
}

// A pair comes before another one that takes as many bytes.
fn comes_before(head: &Head, pair: Pair, other: Pair) -> bool
    ensures { IsTrue result ↔ (MayCome head.now pair.range other × ((pair.range < other.range) ⊎ (pair.base <ℤ other.base))) }
{
    may_come(head, pair.range, other) && (pair.range < other.range || pair.base < other.base)
}

/// The pair of a line_range and the place of its line_base, if it is to take the place of a choice: it takes fewer bytes, or as
/// many and comes first.
pub fn better_choice(
    head: &Head,
    best: Choice,
    range: u8,
    place: usize,
    bytes: u64,
) -> Option<Choice>
    requires { place < 256 }
    ensures some { IfSome result (λ next. TakesPlace head.now best next × (next.pair.base ≡ base_at place) × (next.pair.range ≡ range) × (next.bytes ≡ bytes)) }
    ensures none { IsNone result → (best.bytes < bytes) ⊎ ((best.bytes ≡ bytes) × (MayCome head.now range best.pair → (range ≡ best.pair.range) × (best.pair.base ≤ℤ base_at place))) }
{
    let pair = Pair {
        base: (place as i64 - 128) as i8,
        range,
    };
    if bytes < best.bytes || (bytes == best.bytes && comes_before(head, pair, best.pair)) {
        Some(Choice { pair, bytes })
    } else {
        None
    }
}

// Drawn numbers.
ghost use Rattle.std.specs.Prelude.{◌≡◌, ◌<◌};
ghost use Rattle.sample_maker.specs.Draws.{next, drawn};

/// A linear congruential generator over 64 bits, so that a plain program can draw the same numbers. Its state is the number from
/// which all is drawn at first.
#[derive(Drop)]
pub(crate) struct Draws {
    pub(crate) state: u64,
}

const MULTIPLIER: u64 = 6_364_136_223_846_793_005;

const INCREMENT: u64 = 1_442_695_040_888_963_407;

// The upper bits of a state are drawn, since the lower ones repeat soon.
const DROPPED_BITS: u32 = 33;

impl Draws {
    pub(crate) fn new(number: u32) -> Draws
        ensures { result.state ≡ number }
    {
        Draws {
            state: u64::from(number),
        }
    }

    /// The number that is drawn next, below `n`.
    #[tactic(auto, unfolding(crate::specs::Draws::next, crate::specs::Draws::drawn))]
    pub(crate) fn below(&mut self, n: u32) -> u32
        requires { 0 < n }
        ensures state { self.new.state ≡ next self.old.state }
        ensures drawn { result ≡ drawn n self.old.state }
        ensures below { result < n }
    {
        self.state = self.state.wrapping_mul(MULTIPLIER).wrapping_add(INCREMENT);
        (self.state >> DROPPED_BITS) as u32 % n
    }
}

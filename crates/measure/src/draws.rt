// Drawn numbers.
ghost use Rattle.std.specs.Prelude.{◌<◌};

/// A fixed linear congruential generator over 64 bits, so that a plain program can draw the same numbers: its state is
/// 0 at first, and each draw multiplies it by 6364136223846793005 and adds 1442695040888963407.
#[derive(Default, Drop)]
pub struct Draws {
    state: u64,
}

impl Draws {
    /// The remainder of the next state's upper 31 bits by `n`.
    pub fn below(&mut self, n: u32) -> u32
        requires { 0 < n }
        ensures { result < n }
    {
        self.state = self
            .state
            .wrapping_mul(6_364_136_223_846_793_005)
            .wrapping_add(1_442_695_040_888_963_407);
        (self.state >> 33) as u32 % n
    }
}

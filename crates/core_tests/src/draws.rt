//! Numbers drawn from a seed.

ghost use Rattle.std.specs.Prelude.{◌<◌};

/// A generator of numbers, each made from the one before.
#[derive(Debug, Drop)]
pub struct Draws {
    state: u64,
}

impl Draws {
    /// The generator of a seed.
    pub fn of(seed: u64) -> Draws {
        Draws { state: seed }
    }

    /// The next number, below `count`.
    pub fn below(&mut self, count: u32) -> u32
        requires { 0 < count }
        ensures { result < count }
    {
        self.state = self
            .state
            .wrapping_mul(6_364_136_223_846_793_005)
            .wrapping_add(1_442_695_040_888_963_407);
        ((self.state >> 33) % u64::from(count)) as u32
    }
}

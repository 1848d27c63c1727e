//! Pseudo-random numbers from a fixed seed.
ghost use Rattle.std.specs.Prelude.{◌≤◌};

/// A pseudo-random sequence from a fixed seed.
#[derive(Clone, Copy)]
pub struct Draws {
    state: u64,
}

impl Draws {
    /// The sequence of that seed.
    pub fn of(seed: u64) -> Draws {
        Draws { state: seed }
    }

    /// A number below `below`; 0 if that is 0.
    pub fn next(&mut self, below: u64) -> u64
        ensures { result ≤ below }
    {
        self.state = self
            .state
            .wrapping_mul(6_364_136_223_846_793_005)
            .wrapping_add(1_442_695_040_888_963_407);
        if below == 0 {
            return 0;
        }
        (self.state >> 33) % below
    }

    /// A number from `low` on, one of `count`.
    pub fn from(&mut self, low: u8, count: u8) -> u8 {
        low.wrapping_add(self.next(u64::from(count)) as u8)
    }

    /// True once in `times` draws.
    pub fn once_in(&mut self, times: u64) -> bool {
        self.next(times) == 0
    }
}

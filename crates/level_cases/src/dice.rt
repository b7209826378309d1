//! Numbers drawn from a seed.

/// A row of numbers that a seed fixes (the linear congruential generator of Knuth's MMIX).
#[derive(Drop)]
pub struct Dice {
    state: u64,
}

impl Dice {
    pub fn new(seed: u64) -> Dice {
        Dice { state: seed }
    }

    /// The next number, from 0 up to one less than `faces`.
    pub fn roll(&mut self, faces: u64) -> u64 {
        self.state = self
            .state
            .wrapping_mul(6_364_136_223_846_793_005)
            .wrapping_add(1_442_695_040_888_963_407);
        (self.state >> 33) % faces.max(1)
    }
}

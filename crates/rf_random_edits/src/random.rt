//! Numbers in no order that one can see.

/// Numbers that follow from the first one.
#[derive(Clone, Copy)]
pub struct Random {
    pub word: u64,
}

impl Random {
    ghost use Rattle.std.specs.Prelude.{◌<◌};

    /// The next one, below `end`.
    pub fn below(&mut self, end: u64) -> u64
        requires { 0 < end }
        ensures { result < end }
    {
        let next = self.word.wrapping_mul(6_364_136_223_846_793_005);
        self.word = next.wrapping_add(1_442_695_040_888_963_407);
        (self.word >> 33) % end
    }
}

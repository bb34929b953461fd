//! The words by which a search chooses.

ghost use Rattle.std.specs.Prelude.{◌≡◌, ◌+◌, ℕ};
ghost use Rattle.rf_decide.specs.Words.{HasTaken, word};

use rand_core::SeedableRng;
use rand_core::utils::NextWord;
use rand_pcg::Lcg64Xsh32;

/// The words of a seed, one after another: those that `rand_pcg`'s `Lcg64Xsh32` gives, made by `seed_from_u64`.
#[derive(Debug, Drop)]
pub struct Words {
    pub(crate) generator: Lcg64Xsh32,
}

impl Words {
    /// The words of a seed, from the first.
    pub fn new(seed: u64) -> Words
        ensures { HasTaken seed 0 result }
    {
        Words {
            generator: Lcg64Xsh32::seed_from_u64(seed),
        }
    }

    /// The next word.
    pub fn next(&mut self) -> u32
        ensures word { (seed k : ℕ) → HasTaken seed k self.old → result ≡ word seed k }
        ensures taken { (seed k : ℕ) → HasTaken seed k self.old → HasTaken seed (k + 1) self.new }
    {
        self.generator.next_word()
    }
}

//! Elements that come into question.

ghost use Rattle.std.specs.Prelude.{◌≡◌, ◌<◌};
ghost use Rattle.rf_evaluate.specs.Elements.{count, element_at};

/// Elements that come into question, and no others.
#[derive(Clone, Copy)]
pub enum Elements<'a> {
    /// All below this number.
    Below(u64),
    /// These.
    Listed(&'a [u64]),
}

impl Elements<'_> {
    /// How many they are.
    pub fn count(&self) -> u64
        ensures { result ≡ count self.now }
    {
        match self {
            Elements::Below(end) => *end,
            Elements::Listed(items) => items.len() as u64,
        }
    }

    /// The one of this number.
    pub fn at(&self, number: u64) -> u64
        requires { number < count self.now }
        ensures { result ≡ element_at self.now number }
    {
        match self {
            Elements::Below(_) => number,
            Elements::Listed(items) => match items.get(number as usize) {
                Some(x) => *x,
                None => 0,
            },
        }
    }
}

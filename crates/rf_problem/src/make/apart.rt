//! Whether no two things of a list clash.

ghost use Rattle.std.specs.Prelude.{◌↔◌, All, AllPairs, IsTrue};

/// Things that may clash.
pub trait Apart {
    ghost AreApart: { Self → Self → Type 0 };

    /// Whether it doesn't clash with another.
    fn is_apart(&self, other: &Self) -> bool
        ensures { IsTrue result ↔ AreApart self.now other.now };
}

fn is_apart_from_all<T: Apart>(thing: &T, others: &[T]) -> bool
    ensures { IsTrue result ↔ All (T.AreApart thing.now) others.now }
{
    others.iter().all(|other| thing.is_apart(other))
}

/// Whether none of these clashes with a later one.
pub fn are_apart<T: Apart>(things: &[T]) -> bool
    ensures { IsTrue result ↔ AllPairs T.AreApart things.now }
{
    for number in 0..things.len() {
        if !is_apart_from_all(&things[number], &things[number + 1..]) {
            return false;
        }
    }
    true
}

//! Where a list has what is told of each edge.

ghost use Rattle.std.specs.Prelude.{◌≡◌, ◌<◌, IfSome};
ghost use Rattle.rf_mirror.specs.Cells.{cell, pair_number};

/// How many objects may have cells.
pub const MOST_OBJECTS: u64 = 32_768;

// The number of a pair of objects: pairs are numbered by the greater of the two.
fn pair_number(a: u64, b: u64) -> u64
    requires from { a < 32_768 }
    requires to { b < 32_768 }
    ensures { result ≡ pair_number a b }
{
    if b < a { a * a + b } else { b * b + (b + a) }
}

/// The cell of an edge, if its objects have cells.
pub fn cell(references: u32, r: u32, a: u64, b: u64) -> Option<usize>
    requires { r < references }
    ensures { IfSome result (λ k. k ≡ cell references r a b) }
{
    if a < MOST_OBJECTS && b < MOST_OBJECTS {
        Some((pair_number(a, b) * references as u64 + r as u64) as usize)
    } else {
        None
    }
}

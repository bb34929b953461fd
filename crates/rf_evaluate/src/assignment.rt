//! The elements that the variables of a clause stand for: a clause has at most eight.

ghost use Rattle.std.specs.Prelude.{◌≡◌, ◌<◌, ◌≤◌, length, slice_index};
ghost use Rattle.rf_problem.specs.Reading.{assign};

/// The element that variable `v` stands for.
pub fn element_of(elements: [u64; 8], v: u8) -> u64
    ensures { result ≡ slice_index elements v }
{
    match elements.get(v as usize) {
        Some(x) => *x,
        None => 0,
    }
}

/// The elements, but `x` for variable `v`.
pub fn assign(elements: [u64; 8], v: usize, x: u64) -> [u64; 8]
    requires { v < 8 }
    ensures { slice_index result ≡ assign (slice_index elements) v x }
{
    let mut changed = elements;
    changed[v] = x;
    changed
}

/// The elements of a tuple.
pub fn of_tuple(tuple: &[u64]) -> [u64; 8]
    requires { length tuple.now ≤ 8 }
    ensures { slice_index result ≡ slice_index tuple.now }
{
    let mut cells = [0; 8];
    for (i, x) in tuple.iter().enumerate() {
        cells[i] = *x;
    }
    cells
}

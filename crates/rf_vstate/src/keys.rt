//! Where in a map the entries of a state stand.

ghost use Rattle.std.specs.Prelude.{◌≡◌};
ghost use Rattle.rf_vstate.specs.Words.{fact_key, number_key, object_key};

use rf_store::Key;

/// Where the number of objects stands.
pub fn number_key() -> Key
    ensures { result ≡ number_key }
{
    [0; 6]
}

/// Where an object stands.
pub fn object_key(o: u64) -> Key
    ensures { result ≡ object_key o }
{
    [1, o, 0, 0, 0, 0]
}

/// Where it stands what was added of an edge.
pub fn fact_key(r: u32, a: u64, b: u64) -> Key
    ensures { result ≡ fact_key r a b }
{
    [2, r as u64, a, b, 0, 0]
}

//! Keys: a symbol and a list of arguments, of a fixed size and quick to compare.

ghost use Rattle.std.specs.Prelude.{◌≡◌, ◌<◌, slice_get};
ghost use Rattle.rf_problem.specs.Keys.{key_of, object_of, place_of, star, stars_of};

use crate::Symbol;

/// What an assertion has at a place for an argument.
#[derive(Clone, Copy, PartialEq, Eq, PartialOrd, Ord)]
pub enum Place {
    Absent,
    Star,
    Object,
}

/// A symbol and what stands for arguments at each of the first four places. What tells most keys apart comes
/// first: the object at each place, 0 where there is none.
#[derive(Clone, Copy, PartialEq, Eq, PartialOrd, Ord)]
pub struct Key {
    objects: [u64; 4],
    symbol: Symbol,
    places: [Place; 4],
}

fn object_at(args: &[Option<u64>], place: usize) -> u64
    ensures { result ≡ object_of (slice_get args.now place) }
{
    match args.get(place) {
        Some(Some(object)) => *object,
        Some(None) | None => 0,
    }
}

fn place_at(args: &[Option<u64>], place: usize) -> Place
    ensures { result ≡ place_of (slice_get args.now place) }
{
    match args.get(place) {
        None => Place::Absent,
        Some(None) => Place::Star,
        Some(Some(_)) => Place::Object,
    }
}

/// The key of a symbol and a list of arguments.
pub fn key_of(symbol: Symbol, args: &[Option<u64>]) -> Key
    ensures { result ≡ key_of symbol args.now }
{
    Key {
        objects: [
            object_at(args, 0),
            object_at(args, 1),
            object_at(args, 2),
            object_at(args, 3),
        ],
        symbol,
        places: [
            place_at(args, 0),
            place_at(args, 1),
            place_at(args, 2),
            place_at(args, 3),
        ],
    }
}

// 1 where `*` stands.
fn star_at(args: &[Option<u64>], place: usize) -> usize
    ensures number { result ≡ star (slice_get args.now place) }
    ensures digit { result < 2 }
{
    match args.get(place) {
        Some(None) => 1,
        Some(Some(_)) | None => 0,
    }
}

/// The number whose binary digits say at which of the first four places `*` stands.
pub fn stars_of(args: &[Option<u64>]) -> usize
    ensures number { result ≡ stars_of args.now }
    ensures few { result < 16 }
{
    star_at(args, 0) + 2 * star_at(args, 1) + 4 * star_at(args, 2) + 8 * star_at(args, 3)
}

//! Names that have numbers by their order, found without a scan of them all.

ghost use Rattle.std.specs.Prelude.{◌≡◌, [], ◌∷◌, ◌++◌, map, position, IfOk};
ghost use Rattle.std.specs.List.{list_any};
ghost use Rattle.rf_names.specs.LookUp.{first_of_each};
ghost use Rattle.rf_names.specs.Texts.{reads};
ghost use Rattle.rf_names.specs.Tables.{AreNumbered};

use crate::bodies::reads;
use indexmap::IndexMap;
use rf_syntax::Name;
use std::alloc::{AllocError, Global};
use std::hash::{BuildHasher, DefaultHasher, Hasher};

/// Starts each hasher with a digest of names. A text that puts its names into one slot of a table would
/// have to contain its own digest.
#[derive(Clone, Copy)]
pub struct DigestState {
    start: DefaultHasher,
}

impl DigestState {
    fn of(names: &[&Name]) -> DigestState {
        let mut digest = DefaultHasher::new();
        for name in names {
            digest.write(name.text.as_str().as_bytes());
            digest.write_u8(0xff);
        }
        let mut start = DefaultHasher::new();
        start.write_u64(digest.finish());
        DigestState { start }
    }
}

impl BuildHasher for DigestState {
    type Hasher = DefaultHasher;

    ghost build_hasher = { λ state. state.start };

    fn build_hasher(&self) -> DefaultHasher {
        self.start
    }
}

// The number of a name that is the only one, if it reads so.
fn number_of_one(text: &str, name: &Name) -> Option<u64>
    ensures { result ≡ position (reads text.now) (name.now ∷ []) }
{
    if reads(text, name) { Some(0) } else { None }
}

/// Names, and for each text the number of the first that reads so.
#[derive(Drop)]
pub struct Numbering<'a> {
    pub names: Vec<&'a Name>,
    numbers: IndexMap<&'a str, u64, DigestState>,
    ghost exact: { AreNumbered (map (λ n. n.now) names.items) numbers },
}

impl<'a> Numbering<'a> {
    fn new(alloc: Global, state: DigestState) -> Numbering<'a>
        ensures { result.names.items ≡ [] }
    {
        Numbering {
            names: Vec::new(alloc),
            numbers: IndexMap::with_hasher(alloc, state),
        }
    }

    // The same with one name more, which has the next number.
    fn with(self, name: &'a Name) -> Result<Numbering<'a>, AllocError>
        ensures { IfOk result (λ more. map (λ n. n.now) more.names.items
            ≡ map (λ n. n.now) self.entry.names.items ++ name.now ∷ []) }
    {
        let Numbering {
            mut names,
            mut numbers,
        } = self;
        let text = name.text.as_str();
        if !numbers.contains_key(text) {
            numbers.insert(text, names.len() as u64)?;
        }
        names.push(name)?;
        Ok(Numbering { names, numbers })
    }

    /// These names, with numbers from 0 on.
    pub fn of(alloc: Global, names: &[&'a Name]) -> Result<Numbering<'a>, AllocError>
        ensures { IfOk result (λ numbering. map (λ n. n.now) numbering.names.items
            ≡ map (λ n. n.now) names.now) }
    {
        let mut numbering = Numbering::new(alloc, DigestState::of(names));
        for name in names {
            numbering = numbering.with(*name)?;
        }
        Ok(numbering)
    }

    /// The first of these names that reads so, for each text, in the order in which they occur.
    pub fn of_first(alloc: Global, names: &[&'a Name]) -> Result<Numbering<'a>, AllocError>
        ensures { IfOk result (λ numbering. map (λ n. n.now) numbering.names.items
            ≡ first_of_each [] (map (λ n. n.now) names.now)) }
    {
        let mut numbering = Numbering::new(alloc, DigestState::of(names));
        for name in names {
            if numbering.find(name.text.as_str()).is_none() {
                numbering = numbering.with(*name)?;
            }
        }
        Ok(numbering)
    }

    /// Whether a name reads so.
    #[tactic(auto, using(crate::proofs::FirstLemmas::some_position))]
    pub fn contains(&self, text: &str) -> bool
        ensures { result ≡ list_any (reads text.now) (map (λ n. n.now) self.now.names.items) }
    {
        self.find(text).is_some()
    }

    /// The number of the first name that reads so. Where there is one name at most, nothing is hashed.
    pub fn find(&self, text: &str) -> Option<u64>
        ensures { result ≡ position (reads text.now) (map (λ n. n.now) self.now.names.items) }
    {
        match self.names.as_slice() {
            [] => None,
            [name] => number_of_one(text, *name),
            _ => self.numbers.get(text).copied(),
        }
    }
}

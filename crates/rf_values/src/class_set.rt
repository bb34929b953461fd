//! Sets of classes.

ghost use Rattle.std.specs.Prelude.{◌≡◌, ◌↔◌, ℕ, ◌<◌, ◌≤◌, ◌==◌, ◌&&◌, ◌||◌, not, false, IsTrue, nat_eq};
ghost use Rattle.std.specs.Cmp.{on_per, on_equiv, partial_equiv_from_equiv};
ghost use Rattle.std.specs.Cmp.Lexicographic.{pointwise, nat_list_eq_equiv};
ghost use Rattle.std.specs.FinSet as set;
ghost use Rattle.rf_values.specs.ClassSet.{SameMembersAreSameSet, EqualIsSameSet};

use std::marker::Model;

/// A set of class numbers below 256.
#[derive(Clone, Copy, Debug)]
pub struct ClassSet {
    // The bit c % 64 of the word c / 64 is that of the class c.
    words: [u64; 4],
}

impl Model for ClassSet {
    ghost use Rattle.std.specs.FinSet as set;
    ghost use Rattle.std.specs.Ordering.{nat_cmp};
    ghost use Rattle.std.specs.Coded.{coded_ℕ};
    ghost use Rattle.rf_values.specs.Words.{AreWords, marked, words_of};
    ghost use Rattle.rf_values.specs.WordLemmas.{words_of-marked};

    ghost Value = { set.FinSet nat_cmp };

    ghost coded = { set.code coded_ℕ };

    ghost view = { λ s. marked s.words };

    ghost invariant = { λ s. AreWords s.words };

    ghost inverse = { λ members. record { words = words_of members } };

    ghost inverse_ok = { λ s h. λ i. record { words = words_of-marked s.words h i } };
}

impl PartialEq for ClassSet {
    ghost eq = { λ a b. pointwise nat_eq (set.items a) (set.items b) };

    ghost laws = { on_per set.items (partial_equiv_from_equiv nat_list_eq_equiv) };

    fn eq(&self, other: &ClassSet) -> bool {
        self.words == other.words
    }
}

impl Eq for ClassSet {
    ghost laws = { on_equiv set.items nat_list_eq_equiv };
}

impl ClassSet {
    /// No class.
    pub fn empty() -> ClassSet
        ensures classes { result ≡ set.empty }
        ensures members { (d : ℕ) → set.contains result d ≡ false }
    {
        ClassSet { words: [0; 4] }
    }

    /// These and the class `c`.
    pub fn adding(self, c: u32) -> ClassSet
        requires { c < 256 }
        ensures classes { result ≡ set.insert self c }
        ensures members { (d : ℕ) → set.contains result d ≡ (d == c || set.contains self d) }
    {
        let mut words = self.words;
        words[(c / 64) as usize] |= 1 << (c % 64);
        ClassSet { words }
    }

    /// Whether the class `c` is among these.
    pub fn has(self, c: u32) -> bool
        ensures has { result ≡ set.contains self c }
        ensures beyond { 256 ≤ c → result ≡ false }
    {
        c < 256 && self.words[(c / 64) as usize] >> (c % 64) & 1 == 1
    }

    /// The classes that are in both sets.
    pub fn both(self, other: ClassSet) -> ClassSet
        ensures classes { result ≡ set.intersection self other }
        ensures members { (d : ℕ) → set.contains result d ≡ (set.contains self d && set.contains other d) }
    {
        ClassSet {
            words: [
                self.words[0] & other.words[0],
                self.words[1] & other.words[1],
                self.words[2] & other.words[2],
                self.words[3] & other.words[3],
            ],
        }
    }

    /// The classes that are in one of the two sets.
    pub fn either(self, other: ClassSet) -> ClassSet
        ensures classes { result ≡ set.union self other }
        ensures members { (d : ℕ) → set.contains result d ≡ (set.contains self d || set.contains other d) }
    {
        ClassSet {
            words: [
                self.words[0] | other.words[0],
                self.words[1] | other.words[1],
                self.words[2] | other.words[2],
                self.words[3] | other.words[3],
            ],
        }
    }

    /// These but for those of the other set.
    pub fn without(self, other: ClassSet) -> ClassSet
        ensures classes { result ≡ set.difference self other }
        ensures members { (d : ℕ) → set.contains result d ≡ (set.contains self d && not (set.contains other d)) }
    {
        ClassSet {
            words: [
                self.words[0] & !other.words[0],
                self.words[1] & !other.words[1],
                self.words[2] & !other.words[2],
                self.words[3] & !other.words[3],
            ],
        }
    }

    /// Whether the set is empty.
    pub fn is_empty(self) -> bool
        ensures classes { IsTrue result ↔ (self ≡ set.empty) }
        ensures members { IsTrue result ↔ ((d : ℕ) → set.contains self d ≡ false) }
    {
        self.words == [0; 4]
    }
}

/// A set is determined by which classes are in it, and `==` tells two sets apart.
pub fn same_members_law()
    ensures members { SameMembersAreSameSet }
    ensures equal { EqualIsSameSet }
{}

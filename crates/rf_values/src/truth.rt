//! What is known of a fact.

ghost use Rattle.std.specs.Prelude.{◌≡◌};
ghost use Rattle.rf_values.specs.Truth.{merge, must, may, below, keeps, truth_of, conjunction, disjunction, negation};
ghost use Rattle.rf_values.specs.Truth.{BelowIsReflexive, BelowIsAntisymmetric, BelowIsTransitive, UnknownIsLeast, ErrorIsGreatest};
ghost use Rattle.rf_values.specs.Truth.{MergeIsLeastAbove, MergeIsAssociative, MergeIsCommutative, MergeIsIdempotent, UnknownIsNeutral, ErrorAbsorbs, MergeJoinsPairs};
ghost use Rattle.rf_values.specs.Truth.{TruthIsItsPair, PairIsItsTruth};
ghost use Rattle.rf_values.specs.Truth.{MergeIsKeptWhereBothAre, KeptIsBetweenMustAndMay};

/// What is known of a fact. More may become known: then the truth goes up in the order that `below`
/// tests, where `Unknown` is lowest and `Error`, that is true and false at once, is highest.
#[derive(Clone, Copy, Debug, PartialEq, Eq)]
pub enum Truth {
    True,
    False,
    Unknown,
    Error,
}

impl Truth {
    /// What is known by both together: the least truth that neither exceeds.
    pub fn merge(self, other: Truth) -> Truth
        ensures { result ≡ merge self other }
    {
        if self.below(other) {
            other
        } else if other.below(self) {
            self
        } else {
            Truth::Error
        }
    }

    /// Whether the fact has to hold.
    pub fn must(self) -> bool
        ensures { result ≡ must self }
    {
        matches!(self, Truth::True | Truth::Error)
    }

    /// Whether the fact can hold.
    pub fn may(self) -> bool
        ensures { result ≡ may self }
    {
        matches!(self, Truth::True | Truth::Unknown)
    }

    /// The truth of a fact that has to hold or not, and can or can't.
    pub fn of(must: bool, may: bool) -> Truth
        ensures { result ≡ truth_of must may }
    {
        match (must, may) {
            (true, true) => Truth::True,
            (false, false) => Truth::False,
            (false, true) => Truth::Unknown,
            (true, false) => Truth::Error,
        }
    }

    /// What is known of two facts together.
    pub fn and(self, other: Truth) -> Truth
        ensures { result ≡ conjunction self other }
    {
        Truth::of(self.must() && other.must(), self.may() && other.may())
    }

    /// What is known of one of two facts holding at least.
    pub fn or(self, other: Truth) -> Truth
        ensures { result ≡ disjunction self other }
    {
        Truth::of(self.must() || other.must(), self.may() || other.may())
    }

    /// What is known of a fact not holding.
    pub fn negate(self) -> Truth
        ensures { result ≡ negation self }
    {
        Truth::of(!self.may(), !self.must())
    }

    /// Whether `other` knows all that this does.
    pub fn below(self, other: Truth) -> bool
        ensures { result ≡ below self other }
    {
        self == other || self == Truth::Unknown || other == Truth::Error
    }

    /// Whether a fact that holds, or doesn't, keeps what is known of it.
    pub fn keeps(self, holds: bool) -> bool
        ensures { result ≡ keeps self holds }
    {
        match self {
            Truth::True => holds,
            Truth::False => !holds,
            Truth::Unknown => true,
            Truth::Error => false,
        }
    }
}

/// The truths are ordered, from unknown up to error.
pub fn order_law()
    ensures reflexive { BelowIsReflexive }
    ensures antisymmetric { BelowIsAntisymmetric }
    ensures transitive { BelowIsTransitive }
    ensures least { UnknownIsLeast }
    ensures greatest { ErrorIsGreatest }
{}

/// Merging gives the least truth above both. So it doesn't matter in which order truths are merged,
/// nor how often.
pub fn merge_law()
    ensures least_above { MergeIsLeastAbove }
    ensures associative { MergeIsAssociative }
    ensures commutative { MergeIsCommutative }
    ensures idempotent { MergeIsIdempotent }
    ensures neutral { UnknownIsNeutral }
    ensures absorbing { ErrorAbsorbs }
    ensures pairs { MergeJoinsPairs }
{}

/// A truth is no more and no less than whether the fact has to hold and whether it can.
pub fn pair_law()
    ensures truth { TruthIsItsPair }
    ensures pair { PairIsItsTruth }
{}

/// A fact keeps what is merged where it keeps both parts. It keeps a truth where it holds if it has
/// to, and holds only if it can.
pub fn keeps_law()
    ensures merge { MergeIsKeptWhereBothAre }
    ensures between { KeptIsBetweenMustAndMay }
{}

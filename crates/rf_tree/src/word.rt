//! The words that lines begin with, and those that they end with.

ghost use Rattle.std.specs.Prelude.{◌≡◌, IfSome, IfNone};
ghost use Rattle.rf_tree.specs.Private.Words.{tail_spelling, word_spelling};

/// The word of a line: a rule or a kind of decision.
#[derive(Clone, Copy, Debug, PartialEq, Eq)]
pub enum Word {
    Empty,
    NoClass,
    Src,
    Tgt,
    Clash,
    Full,
    Room,
    Need,
    NeedCount,
    TypeLow,
    OneContainer,
    Alone,
    MustContain,
    ContainCount,
    NoContainer,
    Acyclic,
    Under,
    ScopeTop,
    ScopeBottom,
    ScopeOut,
    ScopeIn,
    Broken,
    Forced,
    Fresh,
    Kind,
    Ref,
}

/// What a line ends with, after its numbers: an end of an edge, or the side of a decision that comes first.
#[derive(Clone, Copy, Debug, PartialEq, Eq)]
pub enum Tail {
    Target,
    Source,
    First,
    Second,
}

impl Word {
    /// How the word is written.
    pub fn as_str(self) -> &'static str
        ensures { result.now ≡ word_spelling self }
    {
        match self {
            Word::Empty => "empty",
            Word::NoClass => "no-class",
            Word::Src => "src",
            Word::Tgt => "tgt",
            Word::Clash => "clash",
            Word::Full => "full",
            Word::Room => "room",
            Word::Need => "need",
            Word::NeedCount => "need-count",
            Word::TypeLow => "type-low",
            Word::OneContainer => "one-container",
            Word::Alone => "alone",
            Word::MustContain => "must-contain",
            Word::ContainCount => "contain-count",
            Word::NoContainer => "no-container",
            Word::Acyclic => "acyclic",
            Word::Under => "under",
            Word::ScopeTop => "scope-top",
            Word::ScopeBottom => "scope-bottom",
            Word::ScopeOut => "scope-out",
            Word::ScopeIn => "scope-in",
            Word::Broken => "broken",
            Word::Forced => "forced",
            Word::Fresh => "new",
            Word::Kind => "type",
            Word::Ref => "ref",
        }
    }
}

impl Tail {
    /// How the word is written.
    pub fn as_str(self) -> &'static str
        ensures { result.now ≡ tail_spelling self }
    {
        match self {
            Tail::Target => "target",
            Tail::Source => "source",
            Tail::First => "first",
            Tail::Second => "second",
        }
    }
}

/// The word that is written so.
pub fn word_of(bytes: &[u8]) -> Option<Word>
    ensures found { IfSome result (λ word. bytes.now ≡ word_spelling word) }
    ensures none { IfNone result ((word : _) → bytes.now ≡ word_spelling word → ⊥) }
{
    match bytes {
        b"empty" => Some(Word::Empty),
        b"no-class" => Some(Word::NoClass),
        b"src" => Some(Word::Src),
        b"tgt" => Some(Word::Tgt),
        b"clash" => Some(Word::Clash),
        b"full" => Some(Word::Full),
        b"room" => Some(Word::Room),
        b"need" => Some(Word::Need),
        b"need-count" => Some(Word::NeedCount),
        b"type-low" => Some(Word::TypeLow),
        b"one-container" => Some(Word::OneContainer),
        b"alone" => Some(Word::Alone),
        b"must-contain" => Some(Word::MustContain),
        b"contain-count" => Some(Word::ContainCount),
        b"no-container" => Some(Word::NoContainer),
        b"acyclic" => Some(Word::Acyclic),
        b"under" => Some(Word::Under),
        b"scope-top" => Some(Word::ScopeTop),
        b"scope-bottom" => Some(Word::ScopeBottom),
        b"scope-out" => Some(Word::ScopeOut),
        b"scope-in" => Some(Word::ScopeIn),
        b"broken" => Some(Word::Broken),
        b"forced" => Some(Word::Forced),
        b"new" => Some(Word::Fresh),
        b"type" => Some(Word::Kind),
        b"ref" => Some(Word::Ref),
        _ => None,
    }
}

/// The word at the end of a line that is written so.
pub fn tail_of(bytes: &[u8]) -> Option<Tail>
    ensures found { IfSome result (λ tail. bytes.now ≡ tail_spelling tail) }
    ensures none { IfNone result ((tail : _) → bytes.now ≡ tail_spelling tail → ⊥) }
{
    match bytes {
        b"target" => Some(Tail::Target),
        b"source" => Some(Tail::Source),
        b"first" => Some(Tail::First),
        b"second" => Some(Tail::Second),
        _ => None,
    }
}

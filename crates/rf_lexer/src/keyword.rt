ghost use Rattle.std.specs.Prelude.{◌≡◌, IfSome, IfNone};
ghost use Rattle.rf_lexer.specs.Spelling.{keyword_spelling};

/// A word that the language keeps for itself.
#[derive(Clone, Copy, Debug, PartialEq, Eq)]
pub enum Keyword {
    Abstract,
    Atom,
    Class,
    Container,
    Contains,
    Declare,
    Default,
    Enum,
    Error,
    Extends,
    False,
    Multi,
    Opposite,
    Pred,
    Refers,
    Scope,
    True,
    Unknown,
}

impl Keyword {
    /// How the keyword is written.
    pub fn as_str(self) -> &'static str
        ensures { result.now ≡ keyword_spelling self }
    {
        match self {
            Keyword::Abstract => "abstract",
            Keyword::Atom => "atom",
            Keyword::Class => "class",
            Keyword::Container => "container",
            Keyword::Contains => "contains",
            Keyword::Declare => "declare",
            Keyword::Default => "default",
            Keyword::Enum => "enum",
            Keyword::Error => "error",
            Keyword::Extends => "extends",
            Keyword::False => "false",
            Keyword::Multi => "multi",
            Keyword::Opposite => "opposite",
            Keyword::Pred => "pred",
            Keyword::Refers => "refers",
            Keyword::Scope => "scope",
            Keyword::True => "true",
            Keyword::Unknown => "unknown",
        }
    }
}

/// The keyword that is written so.
pub fn keyword_of(word: &str) -> Option<Keyword>
    ensures found { IfSome result (λ k. word.now ≡ keyword_spelling k) }
    ensures none { IfNone result ((k : _) → word.now ≡ keyword_spelling k → ⊥) }
{
    match word {
        "abstract" => Some(Keyword::Abstract),
        "atom" => Some(Keyword::Atom),
        "class" => Some(Keyword::Class),
        "container" => Some(Keyword::Container),
        "contains" => Some(Keyword::Contains),
        "declare" => Some(Keyword::Declare),
        "default" => Some(Keyword::Default),
        "enum" => Some(Keyword::Enum),
        "error" => Some(Keyword::Error),
        "extends" => Some(Keyword::Extends),
        "false" => Some(Keyword::False),
        "multi" => Some(Keyword::Multi),
        "opposite" => Some(Keyword::Opposite),
        "pred" => Some(Keyword::Pred),
        "refers" => Some(Keyword::Refers),
        "scope" => Some(Keyword::Scope),
        "true" => Some(Keyword::True),
        "unknown" => Some(Keyword::Unknown),
        _ => None,
    }
}

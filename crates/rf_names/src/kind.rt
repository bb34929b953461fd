//! The kinds of references.

ghost use Rattle.std.specs.Prelude.{◌≡◌};
ghost use Rattle.rf_names.specs.Declarations.{kind_of_word};

use rf_problem::RefKind;
use rf_syntax::FeatureWord;

/// The kind of a reference, by the word before it.
pub fn kind_of(word: Option<FeatureWord>) -> RefKind
    ensures { result ≡ kind_of_word word }
{
    match word {
        None => RefKind::Plain,
        Some(FeatureWord::Refers) => RefKind::Plain,
        Some(FeatureWord::Contains) => RefKind::Contains,
        Some(FeatureWord::Container) => RefKind::Container,
    }
}

ghost use Rattle.std.specs.Prelude.{◌≡◌, ◌++◌, OnOk};
ghost use Rattle.rf_syntax.specs.Piece.{kinds_of};
ghost use Rattle.rf_syntax.specs.Class.{body_pieces, class_pieces, feature_pieces, feature_word_pieces, with_mult_pieces};

use super::parts::{
    push_each, push_flagged, push_mark, push_optional, push_optional_after, push_word,
};
use super::production::Production;
use crate::{Feature, FeatureWord, MultPlace, Name, NonEmpty};
use rf_lexer::{Keyword, Kind, Mark};
use rf_text::Items;
use std::alloc::AllocError;

impl Production for FeatureWord {
    ghost pieces = { feature_word_pieces };

    fn push_to(&self, out: &mut Vec<Kind>) -> Result<(), AllocError> {
        match *self {
            FeatureWord::Contains => push_word(out, Keyword::Contains),
            FeatureWord::Container => push_word(out, Keyword::Container),
            FeatureWord::Refers => push_word(out, Keyword::Refers),
        }
    }
}

// Appends a reference's name with its multiplicity.
fn push_with_mult(out: &mut Vec<Kind>, place: &MultPlace, name: &Name) -> Result<(), AllocError>
    ensures { OnOk result (
        out.new.items
        ≡ out.old.items ++ kinds_of (with_mult_pieces place.now name.now)) }
{
    match place {
        MultPlace::Absent => name.push_to(out),
        MultPlace::AfterType(mult) => {
            mult.push_to(out)?;
            name.push_to(out)
        }
        MultPlace::AfterName(mult) => {
            name.push_to(out)?;
            mult.push_to(out)
        }
    }
}

impl Production for Feature {
    ghost pieces = { feature_pieces };

    fn push_to(&self, out: &mut Vec<Kind>) -> Result<(), AllocError> {
        push_optional(out, &self.word)?;
        self.target.push_to(out)?;
        push_with_mult(out, &self.mult, &self.name)?;
        push_optional_after(out, Kind::Word(Keyword::Opposite), &self.opposite)?;
        push_flagged(out, self.semicolon, Kind::Mark(Mark::Semicolon))
    }
}

// Appends the full stop or the features between braces.
fn push_body(out: &mut Vec<Kind>, body: &Option<Items<Feature>>) -> Result<(), AllocError>
    ensures { OnOk result (out.new.items ≡ out.old.items ++ kinds_of (body_pieces body.now)) }
{
    match body {
        None => push_mark(out, Mark::Dot),
        Some(features) => {
            push_mark(out, Mark::LeftBrace)?;
            push_each(out, features.as_slice())?;
            push_mark(out, Mark::RightBrace)
        }
    }
}

pub fn push_class(
    out: &mut Vec<Kind>,
    is_abstract: bool,
    name: &Name,
    supers: &Option<NonEmpty<Name>>,
    body: &Option<Items<Feature>>,
) -> Result<(), AllocError>
    ensures { OnOk result (
        out.new.items
        ≡ out.old.items ++ kinds_of (class_pieces is_abstract name.now supers.now body.now)) }
{
    push_flagged(out, is_abstract, Kind::Word(Keyword::Abstract))?;
    push_word(out, Keyword::Class)?;
    name.push_to(out)?;
    push_optional_after(out, Kind::Word(Keyword::Extends), supers)?;
    push_body(out, body)
}

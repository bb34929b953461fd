ghost use Rattle.std.specs.Prelude.{IfOk, IfErr};
ghost use Rattle.rf_syntax.specs.Class.{feature_word_pieces, feature_pieces, body_pieces};
ghost use Rattle.rf_syntax.specs.Name.{name_pieces};
ghost use Rattle.rf_syntax.specs.Parts.{optional, separated};
ghost use Rattle.rf_syntax.specs.Statement.{statement_pieces};
ghost use Rattle.rf_syntax.specs.Terminals.{container_word, contains_word, opposite_word, refers_word, comma, semicolon, left_bracket};
ghost use Rattle.rf_parser.specs.Fit.{token_kinds};
ghost use Rattle.rf_parser.specs.Private.Parts.{mult_and_name, features_to_brace, BeginsClass};
ghost use Rattle.rf_parser.specs.Private.Parsing.{first_kind, never, either, Parses, StopsAt};

use crate::lists::{parse_optional_after, parse_separated};
use crate::part::{Part, Stop};
use crate::terminals::{Terminal, accept, begins_with, expect, flag};
use rf_lexer::{Keyword, Mark, Token};
use rf_syntax::{Feature, FeatureWord, Mult, MultPlace, Name, NonEmpty, Statement};
use rf_text::Items;
use std::alloc::Global;

impl Part for NonEmpty<Name> {
    ghost pieces = { separated comma name_pieces };

    ghost longer = { either comma never };

    fn parse(alloc: Global, tokens: &[Token]) -> Result<(NonEmpty<Name>, &[Token]), Stop> {
        parse_separated(alloc, Terminal::Mark(Mark::Comma), tokens)
    }
}

fn parse_feature_word(tokens: &[Token]) -> (Option<FeatureWord>, &[Token])
    ensures { Parses (optional feature_word_pieces)
        (either contains_word (either container_word (either refers_word never)))
        tokens.now result.0 result.1.now }
{
    if let Some(rest) = accept(tokens, Terminal::Word(Keyword::Contains)) {
        return (Some(FeatureWord::Contains), rest);
    }
    if let Some(rest) = accept(tokens, Terminal::Word(Keyword::Container)) {
        return (Some(FeatureWord::Container), rest);
    }
    if let Some(rest) = accept(tokens, Terminal::Word(Keyword::Refers)) {
        return (Some(FeatureWord::Refers), rest);
    }
    (None, tokens)
}

// A reference's name with its multiplicity, which is before it or after it or nowhere.
fn parse_with_mult(alloc: Global, tokens: &[Token]) -> Result<((MultPlace, Name), &[Token]), Stop>
    ensures ok { IfOk result (λ p.
        Parses mult_and_name (either left_bracket never) tokens.now p.0 p.1.now) }
    ensures stop { IfErr result (λ e.
        StopsAt mult_and_name (either left_bracket never) tokens.now e) }
{
    if begins_with(tokens, Terminal::Mark(Mark::LeftBracket)) {
        let (mult, rest) = Mult::parse(alloc, tokens)?;
        let (name, rest) = Name::parse(alloc, rest)?;
        return Ok(((MultPlace::AfterType(mult), name), rest));
    }
    let (name, after) = Name::parse(alloc, tokens)?;
    if !begins_with(after, Terminal::Mark(Mark::LeftBracket)) {
        return Ok(((MultPlace::Absent, name), after));
    }
    let (mult, rest) = Mult::parse(alloc, after)?;
    Ok(((MultPlace::AfterName(mult), name), rest))
}

impl Part for Feature {
    ghost pieces = { feature_pieces };

    ghost longer = { either left_bracket (either opposite_word (either semicolon never)) };

    fn parse(alloc: Global, tokens: &[Token]) -> Result<(Feature, &[Token]), Stop> {
        let (word, rest) = parse_feature_word(tokens);
        let (target, rest) = Name::parse(alloc, rest)?;
        let ((mult, name), rest) = parse_with_mult(alloc, rest)?;
        let (opposite, rest) = parse_optional_after(
            alloc,
            Terminal::Word(Keyword::Opposite),
            rest,
        )?;
        let (semicolon, rest) = flag(rest, Terminal::Mark(Mark::Semicolon));
        let feature = Feature {
            word,
            target,
            name,
            mult,
            opposite,
            semicolon,
        };
        Ok((feature, rest))
    }
}

// Features up to the closing brace, and the tokens after it.
fn parse_features(alloc: Global, tokens: &[Token]) -> Result<(Items<Feature>, &[Token]), Stop>
    ensures ok { IfOk result (λ p. Parses features_to_brace never tokens.now p.0 p.1.now) }
    ensures stop { IfErr result (λ e. StopsAt features_to_brace never tokens.now e) }
{
    let mut features = Items::from_vec(Vec::new(alloc));
    let mut rest = tokens;
    loop {
        if let Some(after) = accept(rest, Terminal::Mark(Mark::RightBrace)) {
            return Ok((features, after));
        }
        let (feature, next) = Feature::parse(alloc, rest)?;
        features.push(feature)?;
        rest = next;
    }
}

fn parse_body(alloc: Global, tokens: &[Token]) -> Result<(Option<Items<Feature>>, &[Token]), Stop>
    ensures ok { IfOk result (λ p. Parses body_pieces never tokens.now p.0 p.1.now) }
    ensures stop { IfErr result (λ e. StopsAt body_pieces never tokens.now e) }
{
    if let Some(inner) = accept(tokens, Terminal::Mark(Mark::LeftBrace)) {
        let (features, rest) = parse_features(alloc, inner)?;
        return Ok((Some(features), rest));
    }
    let rest = expect(tokens, Terminal::Mark(Mark::Dot))?;
    Ok((None, rest))
}

pub fn parse_class(alloc: Global, tokens: &[Token]) -> Result<(Statement, &[Token]), Stop>
    requires { BeginsClass (first_kind (token_kinds tokens.now)) }
    ensures ok { IfOk result (λ p. Parses statement_pieces never tokens.now p.0 p.1.now) }
    ensures stop { IfErr result (λ e. StopsAt statement_pieces never tokens.now e) }
{
    let (is_abstract, rest) = flag(tokens, Terminal::Word(Keyword::Abstract));
    let rest = expect(rest, Terminal::Word(Keyword::Class))?;
    let (name, rest) = Name::parse(alloc, rest)?;
    let (supers, rest) = parse_optional_after(alloc, Terminal::Word(Keyword::Extends), rest)?;
    let (body, rest) = parse_body(alloc, rest)?;
    let class = Statement::Class {
        is_abstract,
        name,
        supers,
        body,
    };
    Ok((class, rest))
}

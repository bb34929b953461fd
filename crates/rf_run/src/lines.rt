//! The lines that name refusals on the error output.

ghost use Rattle.std.specs.Prelude.{◌≡◌, ◌++◌, IfOk, codes, decimal};
ghost use Rattle.rf_run.specs.Line.{fault_line, file_word, lexical_line, limit_word, line_of, name_line, source_line};

use crate::{File, Refusal};
use rf_lexer::LexError;
use rf_resolve::{LimitKind, NameError};
use rf_source::SourceError;
use rf_text::{Text, push_number};
use std::alloc::{AllocError, Global};

fn fault_line(alloc: Global, fault: &str, at: u64) -> Result<Text, AllocError>
    ensures { IfOk result (λ text. text ≡ fault_line fault.now at) }
{
    let mut text = Text::from_str(alloc, "problem: ")?;
    text.push_str(fault)?;
    text.push_str(" at ")?;
    push_number(alloc, &mut text, at)?;
    text.push_str("\n")?;
    Ok(text)
}

fn lexical_line(alloc: Global, error: LexError) -> Result<Text, AllocError>
    ensures { IfOk result (λ text. text ≡ lexical_line error) }
{
    match error {
        LexError::BadCharacter(at) => fault_line(alloc, "bad character", at),
        LexError::OpenComment(at) => fault_line(alloc, "open comment", at),
        LexError::OpenQuote(at) => fault_line(alloc, "open quote", at),
        LexError::LongName(at) => fault_line(alloc, "long name", at),
        LexError::BigNumber(at) => fault_line(alloc, "big number", at),
    }
}

fn limit_word(kind: LimitKind) -> &'static str
    ensures { result.now ≡ limit_word kind }
{
    match kind {
        LimitKind::Classes => "limit classes",
        LimitKind::References => "limit references",
        LimitKind::Predicates => "limit predicates",
        LimitKind::Scopes => "limit scopes",
        LimitKind::Parameters => "limit parameters",
        LimitKind::Clauses => "limit clauses",
        LimitKind::Literals => "limit literals",
        LimitKind::Variables => "limit variables",
        LimitKind::Objects => "limit objects",
        LimitKind::Assertions => "limit assertions",
    }
}

fn name_line(alloc: Global, error: NameError) -> Result<Text, AllocError>
    ensures { IfOk result (λ text. text ≡ name_line error) }
{
    match error {
        NameError::Twice(at) => fault_line(alloc, "twice", at),
        NameError::Unknown(at) => fault_line(alloc, "unknown", at),
        NameError::Ambiguous(at) => fault_line(alloc, "ambiguous", at),
        NameError::ClassCycle(at) => fault_line(alloc, "class cycle", at),
        NameError::BadOpposite(at) => fault_line(alloc, "bad opposite", at),
        NameError::BadContainer(at) => fault_line(alloc, "bad container", at),
        NameError::BadRange(at) => fault_line(alloc, "bad range", at),
        NameError::Arity(at) => fault_line(alloc, "arity", at),
        NameError::LooseVariable(at) => fault_line(alloc, "loose variable", at),
        NameError::Recursive(at) => fault_line(alloc, "recursive", at),
        NameError::EqualsTwo(at) => fault_line(alloc, "equals two", at),
        NameError::Limit(kind, at) => fault_line(alloc, limit_word(kind), at),
    }
}

fn unexpected_line(alloc: Global, token: u64, at: u64) -> Result<Text, AllocError>
    ensures { IfOk result (λ text. text ≡ fault_line (codes "unexpected token "
        ++ decimal token) at) }
{
    let mut fault = Text::from_str(alloc, "unexpected token ")?;
    push_number(alloc, &mut fault, token)?;
    fault_line(alloc, fault.as_str(), at)
}

fn source_line(alloc: Global, error: SourceError) -> Result<Text, AllocError>
    ensures { IfOk result (λ text. text ≡ source_line error) }
{
    match error {
        SourceError::NotUtf8(at) => fault_line(alloc, "not utf-8", at),
        SourceError::Lexical(error) => lexical_line(alloc, error),
        SourceError::Unexpected { token, at } => unexpected_line(alloc, token, at),
        SourceError::Names(error) => name_line(alloc, error),
    }
}

fn file_word(sort: File) -> &'static str
    ensures { result.now ≡ file_word sort }
{
    match sort {
        File::Problem => "problem",
        File::Graph => "graph",
        File::Script => "script",
        File::Tree => "tree",
    }
}

fn too_long_line(alloc: Global, sort: File) -> Result<Text, AllocError>
    ensures { IfOk result (λ text. text ≡ file_word sort ++ codes ": too long\n") }
{
    let mut text = Text::from_str(alloc, file_word(sort))?;
    text.push_str(": too long\n")?;
    Ok(text)
}

fn bad_line(alloc: Global, sort: File, number: u64) -> Result<Text, AllocError>
    ensures { IfOk result (λ text. text ≡ file_word sort ++ codes ": bad line " ++ decimal number
        ++ codes "\n") }
{
    let mut text = Text::from_str(alloc, file_word(sort))?;
    text.push_str(": bad line ")?;
    push_number(alloc, &mut text, number)?;
    text.push_str("\n")?;
    Ok(text)
}

/// The line that names a refusal.
pub fn line(alloc: Global, refusal: Refusal) -> Result<Text, AllocError>
    ensures { IfOk result (λ text. text ≡ line_of refusal) }
{
    match refusal {
        Refusal::TooLong(sort) => too_long_line(alloc, sort),
        Refusal::Problem(fault) => source_line(alloc, fault),
        Refusal::BadLine(sort, number) => bad_line(alloc, sort, number),
    }
}

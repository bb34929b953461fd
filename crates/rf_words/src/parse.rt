ghost use Rattle.std.specs.Prelude.{◌≡◌, ◌≢◌, ◌≤◌, ℕ, List, [], ◌∷◌, IfOk, IfErr, IfSome, None, true};
ghost use Rattle.std.specs.List.{list_all};
ghost use Rattle.std.specs.Option.{option_map_or};
ghost use Rattle.clap.specs.Matches.{found_of};
ghost use Rattle.clap.specs.Simple.{app_of, with_rule};
ghost use Rattle.clap.specs.Values.{kind_of};
ghost use Rattle.clap.specs.declared.error.kind.ErrorKind.TheVariants.{OutOfMemory};
ghost use Rattle.clap.specs.Walk.{rows_of};
ghost use Rattle.rf_words.specs.Arguments.{said};
ghost use Rattle.rf_words.specs.Reader.{are_names, is_word, texts};
ghost use Rattle.rf_words.specs.Meaning.{HasNumber};
ghost use Rattle.rf_words.specs.Reader.{Holds, option_rule, reader, values_at};

use crate::WordsError;
use clap::error::ErrorKind;
use clap::{Arg, ArgAction, ArgMatches, Command, Error};
use rf_text::read_number;
use std::alloc::{AllocError, Global};

// The plain words are the values of the one argument without dashes.
const PLAIN: &str = "plain";

fn with_option<'a>(
    alloc: Global,
    command: Command<'a>,
    name: &'a str,
) -> Result<Command<'a>, AllocError>
    ensures { IfOk result (λ more. app_of more
        ≡ with_rule (app_of command.entry) (option_rule name.entry.now)) }
{
    let option = Arg::new(alloc, name).long(name).action(ArgAction::Append);
    command.arg(option)
}

#[tactic(auto, using(crate::proofs::Readers::reader_next))]
fn reader<'a>(alloc: Global, names: &[&'a str]) -> Result<Command<'a>, AllocError>
    ensures { IfOk result (λ command. app_of command ≡ reader (texts names.now)) }
{
    let plain = Arg::new(alloc, PLAIN).action(ArgAction::Append);
    let mut command = Command::new(alloc, "refine")
        .no_binary_name(true)
        .disable_help_flag(true)
        .arg(plain)?;
    for name in names {
        command = with_option(alloc, command, name)?;
    }
    Ok(command)
}

fn refusal(error: &Error) -> WordsError
    ensures { result ≡ WordsError.Usage → kind_of error.now ≢ OutOfMemory }
{
    match error.kind() {
        ErrorKind::OutOfMemory => WordsError::Memory,
        _ => WordsError::Usage,
    }
}

/// What checked words say, by options of these names.
pub fn parse<'a>(
    alloc: Global,
    names: &[&'a str],
    words: &'a [&'a str],
) -> Result<ArgMatches<'a>, WordsError>
    requires names { are_names (texts names.now) ≡ true }
    requires checked { list_all (is_word (texts names.now)) (texts words.now) ≡ true }
    ensures ok { IfOk result (λ matches. Holds (texts names.now) (rows_of (found_of matches))
        (said (texts names.now) (texts words.now))) }
    ensures usage { IfErr result (λ e. e ≡ WordsError.Usage
        → said (texts names.now) (texts words.now) ≡ None) }
{
    let command = reader(alloc, names)?;
    match command.try_get_matches_from(words) {
        Ok(matches) => Ok(matches),
        Err(error) => Err(refusal(&error)),
    }
}

// The values by an id.
fn values<'m, 'a>(matches: &'m ArgMatches<'a>, id: &str) -> Option<&'m [&'a str]>
    ensures { option_map_or (λ vs. texts vs.now) result []
        ≡ values_at id.now (rows_of (found_of matches.now)) }
{
    matches.get_raw(id)
}

/// The one word that is no option.
pub fn one_plain<'a>(matches: &ArgMatches<'a>) -> Option<&'a str>
    ensures some { IfSome result (λ word. values_at PLAIN.now (rows_of (found_of matches.now))
        ≡ word.now ∷ []) }
    ensures none { result ≡ None → (word : List ℕ)
        → values_at PLAIN.now (rows_of (found_of matches.now)) ≡ word ∷ [] → ⊥ }
{
    match values(matches, PLAIN)? {
        [word] => Some(*word),
        _ => None,
    }
}

/// The two words that are no options.
pub fn two_plain<'a>(matches: &ArgMatches<'a>) -> Option<(&'a str, &'a str)>
    ensures some { IfSome result (λ p. values_at PLAIN.now (rows_of (found_of matches.now))
        ≡ p.0.now ∷ p.1.now ∷ []) }
    ensures none { result ≡ None → (a b : List ℕ)
        → values_at PLAIN.now (rows_of (found_of matches.now)) ≡ a ∷ b ∷ [] → ⊥ }
{
    match values(matches, PLAIN)? {
        [first, second] => Some((*first, *second)),
        _ => None,
    }
}

fn number_in(values: &[&str], least: u64, most: u64, default: u64) -> Option<u64>
    requires { default ≤ most }
    ensures some { IfSome result (λ n. HasNumber (texts values.now) least most default n) }
    ensures none { result ≡ None → (n : ℕ) → HasNumber (texts values.now) least most default n → ⊥ }
    ensures bound { IfSome result (λ n. n ≤ most) }
{
    match values {
        [] => Some(default),
        [value] => read_number(value.as_bytes()).filter(|n| least <= *n && *n <= most),
        _ => None,
    }
}

/// The number of an option that stands at most once, within limits.
pub fn number(
    matches: &ArgMatches<'_>,
    name: &str,
    least: u64,
    most: u64,
    default: u64,
) -> Option<u64>
    requires { default ≤ most }
    ensures some { IfSome result (λ n.
        HasNumber (values_at name.now (rows_of (found_of matches.now))) least most default n) }
    ensures none { result ≡ None → (n : ℕ)
        → HasNumber (values_at name.now (rows_of (found_of matches.now))) least most default n → ⊥ }
    ensures bound { IfSome result (λ n. n ≤ most) }
{
    match values(matches, name) {
        Some(values) => number_in(values, least, most, default),
        None => Some(default),
    }
}

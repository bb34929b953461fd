ghost use Rattle.std.specs.Prelude.{◌≡◌, ◌==◌, map, is_some, option_map, IfOk, IfErr, None, true};
ghost use Rattle.std.specs.List.{list_all, list_any, position};
ghost use Rattle.std.specs.Str.{bytes_eq};
ghost use Rattle.rf_words.specs.Arguments.{after_dashes, is_plain, name_of_option, option_in, said};
ghost use Rattle.rf_words.specs.Reader.{is_word, texts};

use crate::WordsError;
use rf_text::Text;
use std::alloc::Global;

fn is_plain(word: &str) -> bool
    ensures { result ≡ is_plain word.now }
{
    match word.as_bytes().first() {
        None => false,
        Some(first) => *first != b'-',
    }
}

fn after_dashes(word: &str) -> Option<&[u8]>
    ensures { option_map (λ text. text.now) result ≡ after_dashes word.now }
{
    match word.as_bytes() {
        [b'-', b'-', rest @ ..] => Some(rest),
        _ => None,
    }
}

fn equals_at(text: &[u8]) -> Option<usize>
    ensures { result ≡ position (λ b. b == 61) text.now }
{
    text.iter().position(|b| *b == b'=')
}

// What is before the first `=`.
fn name_of(text: &[u8]) -> &[u8]
    ensures { result.now ≡ name_of_option text.now }
{
    match equals_at(text) {
        Some(end) => &text[..end],
        None => text,
    }
}

fn is_among(names: &[&str], name: &[u8]) -> bool
    ensures { result ≡ list_any (λ n. bytes_eq n.now name.now) names.now }
{
    names.iter().any(|n| n.as_bytes() == name)
}

fn is_option(names: &[&str], word: &str) -> bool
    ensures { result ≡ is_some (option_in (texts names.now) word.now) }
{
    match after_dashes(word) {
        Some(text) => is_among(names, name_of(text)),
        None => false,
    }
}

fn is_word(names: &[&str], word: &str) -> bool
    ensures { result ≡ is_word (texts names.now) word.now }
{
    is_plain(word) || is_option(names, word)
}

/// The words, where each is a plain one or an option of these names.
#[tactic(auto, using(crate::proofs::Fronts::said_stray))]
pub fn checked<'a>(
    alloc: Global,
    names: &[&str],
    arguments: &'a [Text],
) -> Result<Vec<&'a str>, WordsError>
    ensures same { IfOk result (λ words. texts words.items ≡ arguments.now) }
    ensures ok { IfOk result (λ words. list_all (is_word (texts names.now)) arguments.now ≡ true) }
    ensures usage { IfErr result (λ e. e ≡ WordsError.Usage
        → said (texts names.now) arguments.now ≡ None) }
{
    let mut words = Vec::new(alloc);
    for argument in arguments {
        let word = argument.as_str();
        if !is_word(names, word) {
            return Err(WordsError::Usage);
        }
        words.push(word)?;
    }
    Ok(words)
}

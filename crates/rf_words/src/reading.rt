ghost use Rattle.std.specs.Prelude.{◌≡◌, ◌∷◌, [], IfOk, IfErr, MatchResult, codes};
ghost use Rattle.rf_words.specs.Meaning.{IsCommand, SaysPlain};

use crate::options::checked;
use crate::parse::{number, one_plain, parse, two_plain};
use crate::request::{DEFAULT_BUDGET, DEFAULT_SEED, MOST_GROWTH};
use crate::{Command, WordsError};
use rf_bounds::MOST_DECISIONS;
use rf_text::{Text, read_number};
use std::alloc::Global;

fn generate(alloc: Global, arguments: &[Text]) -> Result<Command, WordsError>
    ensures ok { IfOk result (λ c. IsCommand (codes "generate" ∷ arguments.now) c) }
    ensures usage { IfErr result (λ e. e ≡ WordsError.Usage → (c : _)
        → IsCommand (codes "generate" ∷ arguments.now) c → ⊥) }
{
    let names = ["seed", "budget"].as_slice();
    let words = match checked(alloc, names, arguments) {
        Ok(words) => words,
        Err(error) => return Err(error),
    };
    let matches = match parse(alloc, names, words.as_slice()) {
        Ok(matches) => matches,
        Err(error) => return Err(error),
    };
    let Some(file) = one_plain(&matches) else {
        return Err(WordsError::Usage);
    };
    let Some(seed) = number(&matches, "seed", 0, u64::MAX, DEFAULT_SEED) else {
        return Err(WordsError::Usage);
    };
    let Some(budget) = number(&matches, "budget", 1, MOST_DECISIONS, DEFAULT_BUDGET) else {
        return Err(WordsError::Usage);
    };
    Ok(Command::Generate {
        file: Text::from_str(alloc, file)?,
        seed,
        budget: budget as u32,
        json: false,
    })
}

// The one word of a command without options.
fn one_word(alloc: Global, arguments: &[Text]) -> Result<Text, WordsError>
    ensures ok { IfOk result (λ word. SaysPlain arguments.now (word ∷ [])) }
    ensures usage { IfErr result (λ e. e ≡ WordsError.Usage → (word : _)
        → SaysPlain arguments.now (word ∷ []) → ⊥) }
{
    let names = [].as_slice();
    let words = match checked(alloc, names, arguments) {
        Ok(words) => words,
        Err(error) => return Err(error),
    };
    let matches = match parse(alloc, names, words.as_slice()) {
        Ok(matches) => matches,
        Err(error) => return Err(error),
    };
    let Some(word) = one_plain(&matches) else {
        return Err(WordsError::Usage);
    };
    Ok(Text::from_str(alloc, word)?)
}

// The two words of a command without options.
fn two_words(alloc: Global, arguments: &[Text]) -> Result<(Text, Text), WordsError>
    ensures ok { IfOk result (λ p. SaysPlain arguments.now (p.0 ∷ p.1 ∷ [])) }
    ensures usage { IfErr result (λ e. e ≡ WordsError.Usage → (a : _) (b : _)
        → SaysPlain arguments.now (a ∷ b ∷ []) → ⊥) }
{
    let names = [].as_slice();
    let words = match checked(alloc, names, arguments) {
        Ok(words) => words,
        Err(error) => return Err(error),
    };
    let matches = match parse(alloc, names, words.as_slice()) {
        Ok(matches) => matches,
        Err(error) => return Err(error),
    };
    let Some((first, second)) = two_plain(&matches) else {
        return Err(WordsError::Usage);
    };
    Ok((
        Text::from_str(alloc, first)?,
        Text::from_str(alloc, second)?,
    ))
}

fn check(alloc: Global, arguments: &[Text]) -> Result<Command, WordsError>
    ensures ok { IfOk result (λ c. IsCommand (codes "check" ∷ arguments.now) c) }
    ensures usage { IfErr result (λ e. e ≡ WordsError.Usage → (c : _)
        → IsCommand (codes "check" ∷ arguments.now) c → ⊥) }
{
    match two_words(alloc, arguments) {
        Ok((file, graph)) => Ok(Command::Check { file, graph }),
        Err(error) => Err(error),
    }
}

fn verify(alloc: Global, arguments: &[Text]) -> Result<Command, WordsError>
    ensures ok { IfOk result (λ c. IsCommand (codes "verify" ∷ arguments.now) c) }
    ensures usage { IfErr result (λ e. e ≡ WordsError.Usage → (c : _)
        → IsCommand (codes "verify" ∷ arguments.now) c → ⊥) }
{
    match two_words(alloc, arguments) {
        Ok((file, tree)) => Ok(Command::Verify { file, tree }),
        Err(error) => Err(error),
    }
}

fn session(alloc: Global, arguments: &[Text]) -> Result<Command, WordsError>
    ensures ok { IfOk result (λ c. IsCommand (codes "session" ∷ arguments.now) c) }
    ensures usage { IfErr result (λ e. e ≡ WordsError.Usage → (c : _)
        → IsCommand (codes "session" ∷ arguments.now) c → ⊥) }
{
    match two_words(alloc, arguments) {
        Ok((file, script)) => Ok(Command::Session { file, script }),
        Err(error) => Err(error),
    }
}

fn evaluate(alloc: Global, arguments: &[Text]) -> Result<Command, WordsError>
    ensures ok { IfOk result (λ c. IsCommand (codes "evaluate" ∷ arguments.now) c) }
    ensures usage { IfErr result (λ e. e ≡ WordsError.Usage → (c : _)
        → IsCommand (codes "evaluate" ∷ arguments.now) c → ⊥) }
{
    match one_word(alloc, arguments) {
        Ok(file) => Ok(Command::Evaluate { file }),
        Err(error) => Err(error),
    }
}

fn grow(alloc: Global, arguments: &[Text]) -> Result<Command, WordsError>
    ensures ok { IfOk result (λ c. IsCommand (codes "grow" ∷ arguments.now) c) }
    ensures usage { IfErr result (λ e. e ≡ WordsError.Usage → (c : _)
        → IsCommand (codes "grow" ∷ arguments.now) c → ⊥) }
{
    let word = match one_word(alloc, arguments) {
        Ok(word) => word,
        Err(error) => return Err(error),
    };
    match read_number(word.as_str().as_bytes()) {
        Some(n) if 1 <= n && n <= MOST_GROWTH => Ok(Command::Grow(n as u32)),
        _ => Err(WordsError::Usage),
    }
}

fn named(alloc: Global, name: &str, arguments: &[Text]) -> Result<Command, WordsError>
    ensures ok { IfOk result (λ c. IsCommand (name.now ∷ arguments.now) c) }
    ensures usage { IfErr result (λ e. e ≡ WordsError.Usage → (c : _)
        → IsCommand (name.now ∷ arguments.now) c → ⊥) }
{
    match name {
        "generate" => generate(alloc, arguments),
        "check" => check(alloc, arguments),
        "verify" => verify(alloc, arguments),
        "evaluate" => evaluate(alloc, arguments),
        "session" => session(alloc, arguments),
        "grow" => grow(alloc, arguments),
        _ => Err(WordsError::Usage),
    }
}

fn read(alloc: Global, words: &[Text]) -> Result<Command, WordsError>
    ensures ok { IfOk result (λ c. IsCommand words.now c) }
    ensures usage { IfErr result (λ e. e ≡ WordsError.Usage → (c : _) → IsCommand words.now c → ⊥) }
{
    match words {
        [name, arguments @ ..] => named(alloc, name.as_str(), arguments),
        [] => Err(WordsError::Usage),
    }
}

/// The command that the words after the program's name are.
pub fn command(alloc: Global, words: &[Text]) -> Result<Command, WordsError>
    ensures ok { IfOk result (λ c. IsCommand words.now c) }
    ensures found { (c : _) → IsCommand words.now c
        → MatchResult result (λ r. r ≡ c) (λ e. e ≡ WordsError.Memory) }
    ensures usage { IfErr result (λ e. e ≡ WordsError.Usage → (c : _) → IsCommand words.now c → ⊥) }
{
    read(alloc, words)
}

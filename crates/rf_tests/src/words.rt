//! The words of every command, the ones that no run shows yet too.

use rf_text::Text;
use rf_words::{WordsError, command};
use std::alloc::{AllocError, Global};
use std::process::Abort;

// The words of a line, cut at spaces.
fn words_of(alloc: Global, line: &str) -> Result<Vec<Text>, AllocError> {
    let mut words = Vec::new(alloc);
    for word in line.split(' ') {
        words.push(Text::from_str(alloc, word)?)?;
    }
    Ok(words)
}

// The command of a line, as it is printed for whoever looks for a fault.
fn shown(alloc: Global, line: &str) -> Result<String, WordsError> {
    let words = words_of(alloc, line)?;
    let command = command(alloc, words.as_slice())?;
    Ok(format!(in alloc; "{command:?}")?)
}

fn expect_command(rt: &impl Abort, alloc: Global, line: &str, want: &str) {
    let Ok(text) = shown(alloc, line) else {
        panic!(rt; "{line} is a command");
    };
    assert_eq!(rt; text.as_str(), want);
}

#[test]
fn words_are_commands(rt: HostRuntime) {
    for (line, want) in [
        (
            "generate p",
            r#"Generate { file: Text { inner: "p" }, seed: 0, budget: 10000, json: false }"#,
        ),
        (
            "generate --seed 7 p",
            r#"Generate { file: Text { inner: "p" }, seed: 7, budget: 10000, json: false }"#,
        ),
        (
            "generate p --budget=1 --seed=18446744073709551615",
            r#"Generate { file: Text { inner: "p" }, seed: 18446744073709551615, budget: 1, json: false }"#,
        ),
        (
            "check ./-p g",
            r#"Check { file: Text { inner: "./-p" }, graph: Text { inner: "g" } }"#,
        ),
        (
            "verify p t",
            r#"Verify { file: Text { inner: "p" }, tree: Text { inner: "t" } }"#,
        ),
        ("evaluate p", r#"Evaluate { file: Text { inner: "p" } }"#),
        (
            "session p s",
            r#"Session { file: Text { inner: "p" }, script: Text { inner: "s" } }"#,
        ),
        ("grow 200", "Grow(200)"),
    ] {
        expect_command(&rt, rt.alloc(), line, want);
    }
}

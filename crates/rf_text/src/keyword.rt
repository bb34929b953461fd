ghost use Rattle.std.specs.Prelude.{◌≡◌};
ghost use Rattle.std.specs.List.{list_any};
ghost use Rattle.std.specs.Str.{bytes_eq};
ghost use Rattle.rf_text.specs.Keyword.{is_keyword};

fn is_among(name: &[u8], words: &[&str]) -> bool
    ensures { result ≡ list_any (λ word. bytes_eq word.now name.now) words.now }
{
    words.iter().any(|word| word.as_bytes() == name)
}

/// Whether the bytes are a keyword of the language.
pub fn is_keyword(name: &[u8]) -> bool
    ensures { result ≡ is_keyword name.now }
{
    is_among(
        name,
        &[
            "abstract",
            "atom",
            "class",
            "container",
            "contains",
            "declare",
            "default",
            "enum",
            "error",
            "extends",
            "false",
            "multi",
            "opposite",
            "pred",
            "refers",
            "scope",
            "true",
            "unknown",
        ],
    )
}

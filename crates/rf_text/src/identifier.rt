ghost use Rattle.std.specs.Prelude.{◌≡◌};
ghost use Rattle.std.specs.List.{list_all};
ghost use Rattle.std.specs.Str.{chars};
ghost use Rattle.unicode_ident.specs.Ident.{is_xid_continue};
ghost use Rattle.rf_text.specs.Identifier.{starts_identifier, is_identifier};

/// Whether an identifier may begin with the character: one of XID_Start or `_`.
pub fn starts_identifier(c: char) -> bool
    ensures { result ≡ starts_identifier c }
{
    unicode_ident::is_xid_start(c) || c == '_'
}

// Whether all characters may continue an identifier.
fn continues_identifier(text: &str) -> bool
    ensures { result ≡ list_all is_xid_continue (chars text.now) }
{
    text.chars().all(|c| unicode_ident::is_xid_continue(c))
}

/// Whether the text is such a character and then characters of XID_Continue.
pub fn is_identifier(text: &str) -> bool
    ensures { result ≡ is_identifier (chars text.now) }
{
    let mut rest = text.chars();
    match rest.next() {
        Some(first) => starts_identifier(first) && continues_identifier(rest.as_str()),
        None => false,
    }
}

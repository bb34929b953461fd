ghost use Rattle.std.specs.Prelude.{IfSome, IfNone};
ghost use Rattle.rf_text.specs.Line.{IsLine, NoBreak};

/// The first line, without its line feed, and the bytes after that line feed; None where no line
/// feed is in the bytes.
pub fn first_line(bytes: &[u8]) -> Option<(&[u8], &[u8])>
    ensures found { IfSome result (λ p. IsLine bytes.now p.0.now p.1.now) }
    ensures none { IfNone result (NoBreak bytes.now) }
{
    let end = bytes.iter().position(|byte| *byte == b'\n')?;
    Some((&bytes[..end], &bytes[end + 1..]))
}

//! Bytes, as case files write them in lines of text.

use anyhow::{Result, bail};
use std::alloc::Global;

fn hex_digit(digit: u8) -> Result<u8> {
    match digit {
        b'0'..=b'9' => Ok(digit - b'0'),
        b'a'..=b'f' => Ok(digit - b'a' + 10),
        _ => bail!("\\x stands before two digits of 0 to 9 and a to f"),
    }
}

// Adds what follows a backslash.
fn push_escape(bytes: &mut Vec<u8>, text: &str) -> Result<()> {
    let rest = match text.as_bytes() {
        [b'n', rest @ ..] => {
            bytes.push(b'\n')?;
            rest
        }
        [b'r', rest @ ..] => {
            bytes.push(b'\r')?;
            rest
        }
        [b't', rest @ ..] => {
            bytes.push(b'\t')?;
            rest
        }
        [b'e', rest @ ..] => rest,
        [b'x', high, low, rest @ ..] => {
            bytes.push(hex_digit(*high)? << 4 | hex_digit(*low)?)?;
            rest
        }
        _ => bail!("no such escape: \\{text}"),
    };
    bytes.extend_from_slice(rest)?;
    Ok(())
}

/// Adds a text with its escapes replaced: `\n`, `\r` and `\t`; `\xff` for any byte; `\e` for nothing.
pub fn push_text(bytes: &mut Vec<u8>, text: &str) -> Result<()> {
    for (place, part) in text.split('\\').enumerate() {
        if place == 0 {
            bytes.extend_from_slice(part.as_bytes())?;
        } else {
            push_escape(bytes, part)?;
        }
    }
    Ok(())
}

/// Adds a line: a text and a line feed, which a backslash at the end of the text leaves out.
pub fn push_line(bytes: &mut Vec<u8>, text: &str) -> Result<()> {
    if let Some(front) = text.strip_suffix('\\') {
        return push_text(bytes, front);
    }
    push_text(bytes, text)?;
    bytes.push(b'\n')?;
    Ok(())
}

/// Adds a text once for each number, which stands for `#`, and its successor for `@`.
pub fn push_repeated(
    alloc: Global,
    bytes: &mut Vec<u8>,
    text: &str,
    numbers: &[u64],
) -> Result<()> {
    let mut item = Vec::new(alloc);
    push_text(&mut item, text)?;
    let has_number = item.contains(&b'#') || item.contains(&b'@');
    for number in numbers {
        if has_number {
            push_item(alloc, bytes, item.as_slice(), *number)?;
        } else {
            bytes.extend_from_slice(item.as_slice())?;
        }
    }
    Ok(())
}

fn push_item(alloc: Global, bytes: &mut Vec<u8>, item: &[u8], number: u64) -> Result<()> {
    for byte in item {
        match byte {
            b'#' => push_number(alloc, bytes, number)?,
            b'@' => push_number(alloc, bytes, number.saturating_add(1))?,
            _ => bytes.push(*byte)?,
        }
    }
    Ok(())
}

fn push_number(alloc: Global, bytes: &mut Vec<u8>, number: u64) -> Result<()> {
    let spelling = number.to_string(alloc)?;
    bytes.extend_from_slice(spelling.as_str().as_bytes())?;
    Ok(())
}

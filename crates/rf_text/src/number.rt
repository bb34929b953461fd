ghost use Rattle.std.specs.Prelude.{◌≡◌, ◌++◌, ◌<◌, ◌^◌, ℕ, Some, IfSome, OnOk, OnErr, decimal, IsTrue, ◌↔◌};
ghost use Rattle.rf_text.specs.Private.Number.{IsPlain};

use crate::Text;
use std::alloc::{AllocError, Global};

// The bytes don't begin with a plus, and a 0 that they begin with is alone.
fn is_plain(bytes: &[u8]) -> bool
    ensures { IsTrue result ↔ IsPlain bytes.now }
{
    match bytes.first() {
        None => false,
        Some(b'+') => false,
        Some(b'0') => bytes.len() == 1,
        Some(_) => true,
    }
}

/// The number below 2^64 that the bytes spell in decimal, without a leading zero; None where they
/// spell none.
pub fn read_number(bytes: &[u8]) -> Option<u64>
    ensures spelled { IfSome result (λ n. bytes.now ≡ decimal n) }
    ensures found { (n : ℕ) → n < 2 ^ 64 → bytes.now ≡ decimal n → result ≡ Some n }
{
    if !is_plain(bytes) {
        return None;
    }
    let Ok(text) = str::from_utf8(bytes) else {
        return None;
    };
    match text.parse::<u64>() {
        Ok(n) => Some(n),
        Err(_) => None,
    }
}

/// Appends the decimal spelling of a number, without a leading zero.
pub fn push_number(alloc: Global, out: &mut Text, n: u64) -> Result<(), AllocError>
    ensures ok { OnOk result (out.new ≡ out.old ++ decimal n) }
    ensures err { OnErr result (out.new ≡ out.old) }
{
    let spelling = n.to_string(alloc)?;
    out.push_str(spelling.as_str())
}

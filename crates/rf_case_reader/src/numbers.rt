//! Numbers and ranges of numbers, as case files write them.

use anyhow::{Result, bail};

/// A number, written in digits.
pub fn read_number(word: &str) -> Result<u64> {
    match word.parse::<u64>() {
        Ok(number) => Ok(number),
        Err(_) => bail!("{word} isn't a number"),
    }
}

/// Adds the numbers of a range: `7`; `0..9`, which goes up or down and has both its ends; or `0..9/2`,
/// which takes every second one of these.
pub fn push_range(numbers: &mut Vec<u64>, word: &str) -> Result<()> {
    let (range, stride) = match word.split_once('/') {
        Some((range, stride)) => (range, read_number(stride)?.max(1)),
        None => (word, 1),
    };
    let (first, last) = match range.split_once("..") {
        Some((first, last)) => (read_number(first)?, read_number(last)?),
        None => (read_number(range)?, read_number(range)?),
    };
    for step in 0..=first.abs_diff(last) / stride {
        let way = step.saturating_mul(stride);
        numbers.push(if first <= last {
            first.saturating_add(way)
        } else {
            first.saturating_sub(way)
        })?;
    }
    Ok(())
}

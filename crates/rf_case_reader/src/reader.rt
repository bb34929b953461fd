//! The reader of case files.

use crate::bytes::{push_line, push_repeated, push_text};
use crate::case::{Case, Part, Reads};
use crate::numbers::{push_range, read_number};
use anyhow::{Context, Result, bail, ensure};
use rf_text::Text;
use std::alloc::Global;

/// The cases that were read, and the fields that each case begins with from here on.
#[derive(Drop)]
struct Reader<'t> {
    cases: Vec<Case>,
    shared: Vec<&'t str>,
}

/// The cases of a text, which has one at least.
pub fn read_cases(alloc: Global, text: &str) -> Result<Vec<Case>> {
    let mut reader = Reader {
        cases: Vec::new(alloc),
        shared: Vec::new(alloc),
    };
    let mut is_shared = true;
    for (place, line) in text.lines().enumerate() {
        let number = place.saturating_add(1);
        is_shared = read_line(alloc, &mut reader, is_shared, line).context(format_args!(
            "line {number}"
        ))?;
    }
    ensure!(!reader.cases.is_empty(), "there is no case");
    Ok(reader.cases)
}

// Reads a line after lines that are shared or not, and says whether the next one is.
fn read_line<'t>(
    alloc: Global,
    reader: &mut Reader<'t>,
    is_shared: bool,
    line: &'t str,
) -> Result<bool> {
    if line.is_empty() || line.starts_with('#') {
        return Ok(is_shared);
    }
    if line.starts_with("--") {
        reader.shared.clear();
        return Ok(true);
    }
    if let Some(title) = line.strip_prefix("== ") {
        let mut case = Case::new(alloc, title)?;
        for field in reader.shared.iter() {
            read_field(alloc, &mut case, field)?;
        }
        reader.cases.push(case)?;
        return Ok(false);
    }
    if is_shared {
        reader.shared.push(line)?;
    } else if let Some(case) = reader.cases.last_mut() {
        read_field(alloc, case, line)?;
    }
    Ok(is_shared)
}

// The fields that say in which settings a case is run.
const PARTS: [(&str, Part); 6] = [
    ("step ", Part::Step),
    ("failing read ", Part::FailingRead),
    ("failing out ", Part::FailingOut),
    ("failing err ", Part::FailingErr),
    ("room out ", Part::OutRoom),
    ("room err ", Part::ErrRoom),
];

fn read_field(alloc: Global, case: &mut Case, line: &str) -> Result<()> {
    if let Some(answer) = line.strip_prefix("gives ") {
        return read_answer(case, answer);
    }
    if line == "words" {
        case.words.clear();
        return Ok(());
    }
    if let Some(words) = line.strip_prefix("words ") {
        return read_words(alloc, case, words);
    }
    if let Some(reads) = line.strip_prefix("reads ") {
        return read_reads(alloc, case, reads);
    }
    for (name, part) in PARTS {
        if let Some(numbers) = line.strip_prefix(name) {
            return read_settings(alloc, case, part, numbers);
        }
    }
    match line.split_once('|') {
        Some((name, text)) => read_text(alloc, case, name, text.strip_prefix(' ').unwrap_or(text)),
        None => bail!("no such field"),
    }
}

// The status, and the one line that such a status leaves.
fn read_answer(case: &mut Case, answer: &str) -> Result<()> {
    ensure!(case.wanted.status.is_none(), "the second answer of a case");
    let (status, line) = match answer.split_once(' ') {
        Some((status, line)) => (status, Some(line)),
        None => (answer, None),
    };
    let Ok(status) = u8::try_from(read_number(status)?) else {
        bail!("no such status");
    };
    case.wanted.status = Some(status);
    match line {
        Some(line) if matches!(status, 0 | 1 | 6) => push_line(&mut case.wanted.out, line),
        Some(line) => push_line(&mut case.wanted.err, line),
        None => Ok(()),
    }
}

fn read_words(alloc: Global, case: &mut Case, line: &str) -> Result<()> {
    case.words.clear();
    for word in line.split(' ') {
        let mut bytes = Vec::new(alloc);
        push_text(&mut bytes, word)?;
        let Ok(text) = str::from_utf8(bytes.as_slice()) else {
            bail!("a word is a text");
        };
        case.words.push(Text::from_str(alloc, text)?)?;
    }
    Ok(())
}

fn read_settings(alloc: Global, case: &mut Case, part: Part, line: &str) -> Result<()> {
    let mut numbers = Vec::new(alloc);
    for word in line.split(' ') {
        push_range(&mut numbers, word)?;
    }
    case.vary(alloc, part, numbers.as_slice())?;
    Ok(())
}

// The reads of a run: a number stands for so many, and a name for those of the file.
fn read_reads(alloc: Global, case: &mut Case, line: &str) -> Result<()> {
    let mut reads = Vec::new(alloc);
    for word in line.split(' ') {
        reads.push(match word.parse::<u64>() {
            Ok(count) => Reads::Count(count),
            Err(_) => Reads::File(Text::from_str(alloc, word)?),
        })?;
    }
    case.reads = Some(reads);
    Ok(())
}

// A line of a file, or a text that is repeated in it, or a line of one of the outputs.
fn read_text(alloc: Global, case: &mut Case, name: &str, text: &str) -> Result<()> {
    ensure!(!name.contains(' '), "no such field");
    match name {
        "out" => return push_line(&mut case.wanted.out, text),
        "err" => return push_line(&mut case.wanted.err, text),
        _ => (),
    }
    let Some((name, range)) = name.split_once('*') else {
        return push_line(case.file(alloc, name)?, text);
    };
    let mut numbers = Vec::new(alloc);
    push_range(&mut numbers, range)?;
    push_repeated(alloc, case.file(alloc, name)?, text, numbers.as_slice())
}

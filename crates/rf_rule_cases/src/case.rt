//! Files of cases: README.md has their form.

use anyhow::{Result, bail, ensure};
use std::alloc::{AllocError, Global};

/// A line of a case, and its number in the file, from 1.
#[derive(Clone, Copy, Debug)]
pub struct Line<'t> {
    pub number: usize,
    pub text: &'t str,
}

/// A case: the text of its problem, and the steps that are made from its root on.
#[derive(Debug, Drop)]
pub struct Case<'t> {
    pub title: &'t str,
    pub problem: Vec<u8>,
    pub steps: Vec<Line<'t>>,
}

impl<'t> Case<'t> {
    // A case that begins with these lines.
    fn new(alloc: Global, title: &'t str, shared: &[Line<'t>]) -> Result<Case<'t>, AllocError> {
        let mut case = Case {
            title,
            problem: Vec::new(alloc),
            steps: Vec::new(alloc),
        };
        for line in shared {
            case.add(*line)?;
        }
        Ok(case)
    }

    // Adds a line of the problem, or a step.
    fn add(&mut self, line: Line<'t>) -> Result<(), AllocError> {
        match line.text.strip_prefix("p| ") {
            Some(text) => {
                self.problem.extend_from_slice(text.as_bytes())?;
                self.problem.push(b'\n')?;
            }
            None => self.steps.push(line)?,
        }
        Ok(())
    }
}

/// The cases that were read, and the lines that each case begins with from here on.
#[derive(Drop)]
struct Reader<'t> {
    cases: Vec<Case<'t>>,
    shared: Vec<Line<'t>>,
}

/// The cases of a text, which has one at least.
pub fn read_cases<'t>(alloc: Global, text: &'t str) -> Result<Vec<Case<'t>>> {
    let mut reader = Reader {
        cases: Vec::new(alloc),
        shared: Vec::new(alloc),
    };
    let mut is_shared = true;
    for (place, text) in text.lines().enumerate() {
        let number = place.saturating_add(1);
        is_shared = read_line(alloc, &mut reader, is_shared, Line { number, text })?;
    }
    ensure!(!reader.cases.is_empty(), "there is no case");
    Ok(reader.cases)
}

// Reads a line after lines that are shared or not, and says whether the next one is.
fn read_line<'t>(
    alloc: Global,
    reader: &mut Reader<'t>,
    is_shared: bool,
    line: Line<'t>,
) -> Result<bool> {
    if line.text.is_empty() || line.text.starts_with('#') {
        return Ok(is_shared);
    }
    if line.text.starts_with("--") {
        reader.shared.clear();
        return Ok(true);
    }
    if let Some(title) = line.text.strip_prefix("== ") {
        let case = Case::new(alloc, title, reader.shared.as_slice())?;
        reader.cases.push(case)?;
        return Ok(false);
    }
    if is_shared {
        reader.shared.push(line)?;
        return Ok(true);
    }
    match reader.cases.last_mut() {
        Some(case) => case.add(line)?,
        None => bail!("a step before the first case"),
    }
    Ok(false)
}

//! The trial of a case.

use crate::case::Case;
use crate::steps::try_step;
use anyhow::{Result, bail, ensure};
use rf_eval::Scratch;
use rf_failure::Failure;
use rf_problem::Problem;
use rf_source::read_source;
use rf_state::State;
use std::alloc::Global;

// The most bytes that the problem of a case has.
const PROBLEM_LIMIT: usize = 65_536;

/// The state that a case has come to, and one that it came by and saved, at first the root.
#[derive(Drop)]
struct Trial<'p> {
    state: Scratch<'p>,
    saved: Scratch<'p>,
}

impl<'p> Trial<'p> {
    fn new(alloc: Global, problem: &'p Problem) -> Result<Trial<'p>> {
        let state = Scratch::new(State::root(alloc, problem)?);
        let saved = state.copy(alloc)?;
        Ok(Trial { state, saved })
    }

    // Makes a step.
    fn step(&mut self, alloc: Global, line: &str) -> Result<()> {
        match line {
            "save" => self.saved = self.state.copy(alloc)?,
            "back" => self.state = self.saved.copy(alloc)?,
            _ => {
                let words: Vec<&str> = line.split_whitespace().collect(alloc)?;
                try_step(alloc, &mut self.state, words.as_slice())?;
            }
        }
        Ok(())
    }
}

fn problem_of(alloc: Global, case: &Case) -> Result<Problem> {
    ensure!(case.problem.len() <= PROBLEM_LIMIT, "too long a problem");
    match read_source(alloc, case.problem.as_slice()) {
        Ok(problem) => Ok(problem),
        Err(Failure::Fault(error)) => bail!("{error}"),
        Err(Failure::Memory) => bail!("out of memory"),
    }
}

/// Makes the steps of a case, and prints each that goes otherwise than is wanted.
pub fn try_case(rt: &HostRuntime, file: &str, case: &Case) -> Result<bool> {
    let alloc = rt.alloc();
    let title = case.title;
    let problem = match problem_of(alloc, case) {
        Ok(problem) => problem,
        Err(error) => {
            println!(rt; "{file}: {title}: {error:#}")?;
            return Ok(false);
        }
    };
    let mut trial = Trial::new(alloc, &problem)?;
    let mut has_passed = true;
    for line in case.steps.iter() {
        if let Err(error) = trial.step(alloc, line.text) {
            let number = line.number;
            let text = line.text;
            println!(rt; "{file}: line {number}: {title}: {text}: {error:#}")?;
            has_passed = false;
        }
    }
    Ok(has_passed)
}

//! The trial of a case, and the count of trials.

use anyhow::Result;
use rf_case_reader::{Case, Outcome, Setting, error_output_of, folder_of, output_of};
use rf_run::run;
use std::alloc::{AllocError, Global};
use std::fmt;

/// How many cases passed, and how many failed.
#[derive(Clone, Copy, Default)]
pub struct Tally {
    passed: u64,
    failed: u64,
}

impl Tally {
    pub fn count(&mut self, has_passed: bool) {
        if has_passed {
            self.passed = self.passed.saturating_add(1);
        } else {
            self.failed = self.failed.saturating_add(1);
        }
    }

    pub fn add(&mut self, other: Tally) {
        self.passed = self.passed.saturating_add(other.passed);
        self.failed = self.failed.saturating_add(other.failed);
    }

    /// Whether no case failed, and one passed.
    pub fn is_clean(&self) -> bool {
        self.failed == 0 && self.passed > 0
    }
}

impl fmt::Display for Tally {
    fn fmt<W: fmt::Write>(&self, f: &mut fmt::Formatter<W>) -> fmt::Result {
        let passed = self.passed;
        let failed = self.failed;
        write!(f, "{passed} passed, {failed} failed")
    }
}

// What a run of the case leaves in one of its settings.
fn outcome(alloc: Global, case: &Case, setting: &Setting) -> Result<Outcome, AllocError> {
    let mut folder = folder_of(alloc, case, setting)?;
    let mut out = output_of(alloc, setting)?;
    let mut err = error_output_of(alloc, setting)?;
    let words = case.words.as_slice();
    let status = run(alloc, words, &mut folder, &mut out, &mut err);
    Ok(Outcome {
        status: Some(status.code()),
        out: out.bytes().to_vec(alloc)?,
        err: err.bytes().to_vec(alloc)?,
    })
}

/// Runs each trial of a case, and prints each that ends otherwise than is wanted.
pub fn try_case(rt: &HostRuntime, name: &str, case: &Case) -> Result<bool> {
    let mut has_passed = true;
    for trial in case.trials(rt.alloc())?.iter() {
        let setting = &trial.setting;
        let wanted = &trial.wanted;
        let got = outcome(rt.alloc(), case, setting)?;
        if got != *wanted {
            has_passed = false;
            let title = case.title.as_str();
            println!(rt; "{name}: {title}: {setting:?}\n  wanted {wanted}\n  got    {got}")?;
        }
    }
    Ok(has_passed)
}

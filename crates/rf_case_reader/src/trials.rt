//! The trials of a case: in which settings it is run, and what each run is to leave.

use crate::case::{Case, Outcome, Part, Reads, Setting};
use std::alloc::{AllocError, Global};

/// A run in a setting, and what it is to leave.
#[derive(Debug, Drop)]
pub struct Trial {
    pub setting: Setting,
    pub wanted: Outcome,
}

// How many calls move so many bytes.
fn calls_for(bytes: &[u8], step: u64) -> u64 {
    let bytes = bytes.len() as u64;
    bytes / step.max(1) + (bytes % step.max(1)).min(1)
}

// How many bytes so many calls move.
fn moved(bytes: &[u8], calls: u64, step: u64) -> &[u8] {
    let count = calls.saturating_mul(step).min(bytes.len() as u64) as usize;
    &bytes[..count]
}

// Whether a call fails that is made.
fn fails(failing: Option<u64>, calls: u64) -> bool {
    match failing {
        Some(call) => call < calls,
        None => false,
    }
}

// What a run leaves that a fault ends.
fn fault(alloc: Global, status: u8, out: &[u8], line: &str) -> Result<Outcome, AllocError> {
    Ok(Outcome {
        status: Some(status),
        out: out.to_vec(alloc)?,
        err: line.as_bytes().to_vec(alloc)?,
    })
}

impl Case {
    /// The trials: one in each setting of the case, and where the case says which reads it makes, one
    /// with each call failing, and with a call failing that is never made.
    pub fn trials(&self, alloc: Global) -> Result<Vec<Trial>, AllocError> {
        let mut trials = Vec::new(alloc);
        for setting in self.settings.iter() {
            trials.push(self.trial(alloc, *setting)?)?;
            if self.reads.is_some() {
                let step = setting.step;
                let out = calls_for(self.wanted.out.as_slice(), step);
                let err = calls_for(self.wanted.err.as_slice(), step);
                let reads = self.count_reads(step);
                self.fail_each(alloc, &mut trials, *setting, Part::FailingRead, reads)?;
                self.fail_each(alloc, &mut trials, *setting, Part::FailingOut, out)?;
                self.fail_each(alloc, &mut trials, *setting, Part::FailingErr, err)?;
            }
        }
        Ok(trials)
    }

    // Adds a trial with each of so many calls failing, and one with the call after them.
    fn fail_each(
        &self,
        alloc: Global,
        trials: &mut Vec<Trial>,
        setting: Setting,
        part: Part,
        calls: u64,
    ) -> Result<(), AllocError> {
        for call in 0..=calls {
            trials.push(self.trial(alloc, setting.with(part, call))?)?;
        }
        Ok(())
    }

    fn trial(&self, alloc: Global, setting: Setting) -> Result<Trial, AllocError> {
        let wanted = match self.reads {
            Some(_) => self.wanted_where_calls_fail(alloc, &setting)?,
            None => self.wanted_in_full(alloc)?,
        };
        Ok(Trial { setting, wanted })
    }

    fn wanted_in_full(&self, alloc: Global) -> Result<Outcome, AllocError> {
        Ok(Outcome {
            status: self.wanted.status,
            out: self.wanted.out.as_slice().to_vec(alloc)?,
            err: self.wanted.err.as_slice().to_vec(alloc)?,
        })
    }

    // A read that fails leaves nothing on the output, a write of it what those before it moved, and a
    // write of the error output leaves the status.
    fn wanted_where_calls_fail(
        &self,
        alloc: Global,
        setting: &Setting,
    ) -> Result<Outcome, AllocError> {
        let step = setting.step;
        let out = self.wanted.out.as_slice();
        let mut wanted = if fails(setting.failing_read, self.count_reads(step)) {
            fault(alloc, 4, &[], "read fault\n")?
        } else if fails(setting.failing_out, calls_for(out, step)) {
            let calls = setting.failing_out.unwrap_or(0);
            fault(alloc, 5, moved(out, calls, step), "write fault\n")?
        } else {
            self.wanted_in_full(alloc)?
        };
        if let Some(call) = setting.failing_err {
            wanted.err = moved(wanted.err.as_slice(), call, step).to_vec(alloc)?;
        }
        Ok(wanted)
    }

    // How many reads the case makes: the last one of a file finds its end.
    fn count_reads(&self, step: u64) -> u64 {
        let mut count: u64 = 0;
        if let Some(reads) = &self.reads {
            for read in reads.iter() {
                count = count.saturating_add(self.reads_of(read, step));
            }
        }
        count
    }

    fn reads_of(&self, reads: &Reads, step: u64) -> u64 {
        match reads {
            Reads::Count(count) => *count,
            Reads::File(name) => {
                match self
                    .files
                    .iter()
                    .find(|file| file.0.as_str() == name.as_str())
                {
                    Some(file) => calls_for(file.1.as_slice(), step).saturating_add(1),
                    None => 1,
                }
            }
        }
    }
}

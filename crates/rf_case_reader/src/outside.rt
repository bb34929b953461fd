//! The folder and the outputs of a run, as a case and one of its settings have them.

use crate::case::{Case, Setting};
use rf_io::{MemFolder, MemSink};
use rf_text::Text;
use std::alloc::{AllocError, Global};

fn copy_files(
    alloc: Global,
    files: &[(Text, Vec<u8>)],
) -> Result<Vec<(Text, Vec<u8>)>, AllocError> {
    let mut copies = Vec::new(alloc);
    for file in files {
        copies.push((file.0.clone()?, file.1.as_slice().to_vec(alloc)?))?;
    }
    Ok(copies)
}

// The numbers of the calls that fail.
fn only(alloc: Global, call: Option<u64>) -> Result<Vec<u64>, AllocError> {
    let mut calls = Vec::new(alloc);
    if let Some(call) = call {
        calls.push(call)?;
    }
    Ok(calls)
}

fn sink(alloc: Global, room: u64, failing: Option<u64>, step: u64) -> Result<MemSink, AllocError> {
    MemSink::new(alloc, room, only(alloc, failing)?, step.max(1))
}

/// A folder with copies of the files of a case.
pub fn folder_of(alloc: Global, case: &Case, setting: &Setting) -> Result<MemFolder, AllocError> {
    let files = copy_files(alloc, case.files.as_slice())?;
    let failing = only(alloc, setting.failing_read)?;
    Ok(MemFolder::new(files, failing, setting.step.max(1)))
}

/// The output, with nothing written yet.
pub fn output_of(alloc: Global, setting: &Setting) -> Result<MemSink, AllocError> {
    sink(alloc, setting.out_room, setting.failing_out, setting.step)
}

/// The error output, with nothing written yet.
pub fn error_output_of(alloc: Global, setting: &Setting) -> Result<MemSink, AllocError> {
    sink(alloc, setting.err_room, setting.failing_err, setting.step)
}

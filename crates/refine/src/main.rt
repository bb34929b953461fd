//! The program `refine`: it makes the real words, folder and sinks, and runs.
#![tactic(auto)]

use rf_io::{RealFolder, StreamSink};
use rf_run::{Status, run};
use rf_text::Text;
use std::alloc::{AllocError, AllocFailed, Global};
use std::process::ExitCode;
use std::{env, io};

/// Why the words can't be had.
#[derive(Clone, Copy, Debug)]
enum WordsError {
    Memory,
    NotText,
}

impl From<AllocError> for WordsError {
    fn from(_: AllocError) -> WordsError {
        WordsError::Memory
    }
}

impl<T: Drop> From<AllocFailed<T>> for WordsError {
    fn from(_: AllocFailed<T>) -> WordsError {
        WordsError::Memory
    }
}

// The words after the program's name.
fn words(rt: &HostRuntime, alloc: Global) -> Result<Vec<Text>, WordsError> {
    let args = match env::args(rt) {
        Ok(args) => args,
        Err(error) if error.kind() == io::ErrorKind::OutOfMemory => return Err(WordsError::Memory),
        Err(_) => return Err(WordsError::NotText),
    };
    let mut words = Vec::new(alloc);
    for word in args.skip(1) {
        words.push(Text::from_str(alloc, word.as_str())?)?;
    }
    Ok(words)
}

fn main(rt: HostRuntime) -> ExitCode {
    let alloc = rt.alloc();
    let status = match words(&rt, alloc) {
        Ok(words) => {
            let mut folder = RealFolder::new(&rt);
            let mut out = StreamSink::new(rt.stdout());
            let mut err = StreamSink::new(rt.stderr());
            run(alloc, words.as_slice(), &mut folder, &mut out, &mut err)
        }
        Err(WordsError::Memory) => Status::NoMemory,
        Err(WordsError::NotText) => Status::Usage,
    };
    ExitCode::from(status.code())
}

//! The program `rf_rule_cases`: it reads cases of rules and decisions from its files, tries each, and
//! says which of them go otherwise than is wanted.
#![tactic(auto)]

mod case;
mod reading;
mod rules;
mod steps;
mod tally;
mod trial;

use anyhow::Result;
use case::read_cases;
use std::fs;
use std::process::ExitCode;
use tally::Tally;
use trial::try_case;

// The file with the names of all others, a line each.
const INDEX: &str = "index";

// Tries the cases of a file, and prints how many of them passed.
fn try_file(rt: &HostRuntime, name: &str) -> Result<Tally> {
    let alloc = rt.alloc();
    let path = format!(in alloc; "{name}.cases")?;
    let text = fs::read_to_string(rt, path.as_str())?;
    let mut tally = Tally::default();
    for case in read_cases(alloc, text.as_str())?.iter() {
        tally.count(try_case(rt, name, case)?);
    }
    println!(rt; "{name}: {tally}")?;
    Ok(tally)
}

// Tries the cases of all files. A file that can't be read counts as a case that failed.
fn try_all(rt: &HostRuntime) -> Result<Tally> {
    let index = fs::read_to_string(rt, INDEX)?;
    let mut total = Tally::default();
    for name in index.lines() {
        match try_file(rt, name) {
            Ok(tally) => total.add(tally),
            Err(error) => {
                println!(rt; "{name}: {error:#}")?;
                total.count(false);
            }
        }
    }
    println!(rt; "{total}")?;
    Ok(total)
}

fn main(rt: HostRuntime) -> Result<ExitCode> {
    let total = try_all(&rt)?;
    Ok(if total.is_clean() {
        ExitCode::SUCCESS
    } else {
        ExitCode::FAILURE
    })
}

//! Tests of the words of errors, which no run prints.
#![tactic(auto)]

#[cfg(test)]
mod errors;

//! Tests of rules that are applied until none fires.
#![tactic(auto)]

#[cfg(test)]
mod bounding;
#[cfg(test)]
mod noted;
#[cfg(test)]
mod searching;
#[cfg(test)]
mod settling;

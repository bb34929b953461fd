//! Tests of states in maps with versions beside states that are copied.
#![tactic(auto)]

#[cfg(test)]
mod both;
#[cfg(test)]
mod same;
#[cfg(test)]
mod scripts;
#[cfg(test)]
mod worked;

//! Tests of what no run of the program shows.
#![tactic(auto)]

#[cfg(test)]
mod documents;
#[cfg(test)]
mod files;
#[cfg(test)]
mod grown;
#[cfg(test)]
mod ranks;
#[cfg(test)]
mod reach;
#[cfg(test)]
mod rows;
#[cfg(test)]
mod store;
#[cfg(test)]
mod sums;
#[cfg(test)]
mod trees;
#[cfg(test)]
mod words;

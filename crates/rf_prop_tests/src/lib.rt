//! Tests of the propagators beside a scan of all rules.
#![tactic(auto)]

#[cfg(test)]
mod compared;
#[cfg(test)]
mod kinds;
#[cfg(test)]
mod scanned;
#[cfg(test)]
mod scripts;
#[cfg(test)]
mod steps;

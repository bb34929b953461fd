//! Finitely many things: tests, counts, sums and first values over the numbers below a bound, upper
//! ends of counts, firsts in an order, and walks over edges between numbered vertices. Most of it are
//! definitions for contracts, with their lemmas.
#![tactic(auto)]

mod laws;
mod order;
mod parts;
mod rule;
mod test;
mod totals;
mod upper_ends;

pub use laws::{
    all_below_law, count_below_law, ends_below_law, first_below_law, first_law, first_tuple_law,
    no_cycle_law, passing_law, some_below_law, sum_below_law, walk_law,
};
pub use order::earlier;
pub use parts::{Parts, sum_of_ends, sum_of_parts};
pub use rule::{Rule, first_found};
pub use test::{Test, first_passing};
pub use totals::{EndsTotal, sum_beside, total_of_ends};
pub use upper_ends::{add_ends, within};

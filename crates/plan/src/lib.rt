// Plans: starts checked.
#![tactic(auto)]

mod check;

pub use check::check_starts;

// The clause layer of document 01 as code, its second half: which clauses the summary has, and their records.

#![tactic(auto)]

mod clause;
mod last;
mod premises;
mod readings;
mod stretches;
pub mod summary;
mod writing;

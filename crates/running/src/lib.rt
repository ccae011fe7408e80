// The library's own run of closure steps over the tables read, as code on arrays.

#![tactic(auto)]

mod congruence;
pub mod run;
mod search;
pub mod state;
mod step;

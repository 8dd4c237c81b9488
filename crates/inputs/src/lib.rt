// What the programs are given and what they tell: the pair's key, a capture, faults, and where in a capture the reading ended.

#![tactic(auto)]

mod fault;
mod place;
mod reading;

pub use fault::{Fault, status, tell};
pub use place::Unread;
pub use reading::{key_file, key_of, standard_input};

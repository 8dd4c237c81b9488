// The levels of a pebbled key source. The specs have the rule by which they move, and the proofs what holds over whole runs.

#![tactic(auto)]

mod level;
mod moving;

pub use level::Level;

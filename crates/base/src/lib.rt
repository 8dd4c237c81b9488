// The base: it makes the orders of each interval, discloses the keys later, and answers who asks to join.

#![tactic(auto)]

mod clock;
mod drawing;
mod founding;
mod joins;
mod keys;
mod orders;
mod schedule;
mod state;

pub use schedule::Schedule;
pub use state::Base;

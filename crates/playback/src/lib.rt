// Replay of a capture: the node's part in it record by record, and the orders that come out.

#![tactic(auto)]

mod counts;
mod hearing;
mod opening;
mod outcome;
mod releasing;
mod replaying;
mod stage;
mod step;
mod walk;
mod walking;

pub use counts::Counts;
pub use opening::{MAX_CAPTURE, open};
pub use outcome::Outcome;
pub use replaying::replay;
pub use step::Step;
pub use walk::Walk;

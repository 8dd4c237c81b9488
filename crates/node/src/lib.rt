// The joining node and the receiver: what they ask of each packet, and the orders that they let out.

#![tactic(auto)]

mod clock;
mod holding;
mod place;
mod receiver;
mod reception;
mod released;
mod requesting;
mod slot;
mod table;
mod time;
mod timing;

pub use receiver::Receiver;
pub use released::Released;
pub use requesting::Requesting;
pub use time::Reading;

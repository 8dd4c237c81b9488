// The four kinds of packet: read and written, each the inverse of the other.

#![tactic(auto)]

mod fields;
mod kinds;
mod reading;
mod writing;

pub use kinds::{Answer, Data, Disclosure, MAX_PAYLOAD, Packet, Request};
pub use reading::{read, read_answer, read_data, read_key, read_request};
pub use writing::write;

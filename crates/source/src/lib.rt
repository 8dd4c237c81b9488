// Key sources: where a base draws the keys of its chain from, in their order.

#![tactic(auto)]

mod key_source;
mod limits;
mod pebbled;
mod table;

pub use key_source::KeySource;
pub use pebbled::Pebbled;
pub use table::Table;

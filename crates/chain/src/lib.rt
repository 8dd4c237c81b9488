// Tags of messages, keys derived from keys, and steps down the one-way chain, over any block cipher.

#![tactic(auto)]

mod derivation;
mod mac;

pub use derivation::{derive, down, interval_tag_key, pair_tag_key, step};
pub use mac::tag;

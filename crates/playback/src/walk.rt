// A walk through the records of a capture in the node's part.
use crate::stage::Stage;
use capture::{Records, Time};
use cipher::Key;

#[derive(Drop)]
pub struct Walk<'a, B> {
    pub(crate) pair: Key,
    pub(crate) records: Records<'a>,
    pub(crate) stage: Stage<B>,
    // The time of the key whose packets are going out.
    pub(crate) releasing: Option<Time>,
}

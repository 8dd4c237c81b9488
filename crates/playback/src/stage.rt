// How far the node has come in a capture.
use node::{Receiver, Requesting};

#[derive(Drop)]
pub(crate) enum Stage<B> {
    Silent,
    Asking(Requesting),
    Receiving(Receiver<B>),
}

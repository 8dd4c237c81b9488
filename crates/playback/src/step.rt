// What a walk tells: a record with what the node made of it, or a packet that went out.
use crate::outcome::Outcome;
use capture::{Record, Time};
use node::Released;
use refusal::Refusal;

#[derive(Clone, Copy, PartialEq, Eq, Debug)]
pub enum Step<'a> {
    Heard(Record<'a>, Result<Outcome, Refusal>),
    // At the time of its key; the payload is in the start of the buffer.
    Out(Time, Released),
}

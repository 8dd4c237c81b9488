// The line for a record: its time, its kind and what the node made of it.
use crate::kind::Kind;
use capture::Record;
use packet::read;
use playback::Outcome;
use refusal::{Numbered, Refusal};
use std::fmt;

#[derive(Clone, Copy)]
pub struct Heard<'a> {
    pub record: Record<'a>,
    pub outcome: Result<Outcome, Refusal>,
}

impl fmt::Display for Heard<'_> {
    fn fmt<W: fmt::Write>(&self, f: &mut fmt::Formatter<W>) -> fmt::Result {
        let Heard { record, outcome } = *self;
        let kind = Kind(read(record.bytes).ok());
        write!(f, "{} {kind}: ", record.at)?;
        match outcome {
            Err(refusal) => write!(f, "{}", Numbered(refusal)),
            Ok(Outcome::TooSoon) => write!(f, "passed over, {}", kind.still_to_do()),
            Ok(Outcome::Repeated) => write!(f, "passed over, {}", kind.done_before()),
            Ok(Outcome::Asked) => f.write_str("granted, the node asks to join"),
            Ok(Outcome::Joined) => f.write_str("granted, the node has joined"),
            Ok(Outcome::Held(count)) => write!(f, "granted, held {count}"),
            Ok(Outcome::Adopted(steps)) => write!(f, "granted, steps {steps}"),
        }
    }
}

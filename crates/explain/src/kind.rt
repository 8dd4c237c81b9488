// The kind of what was heard, with the numbers by which a packet is known.
use packet::{Answer, Data, Disclosure, Packet};
use std::fmt;

// There is none where the bytes are no packet.
#[derive(Clone, Copy)]
pub struct Kind<'a>(pub Option<Packet<'a>>);

impl Kind<'_> {
    // What the node has yet to do before it can use a packet of this kind.
    pub(crate) fn still_to_do(&self) -> &'static str {
        match self.0 {
            Some(Packet::Answer(_)) => "the node has not asked yet",
            _ => "the node has not joined yet",
        }
    }

    // What the node did before, so that a packet of this kind comes again.
    pub(crate) fn done_before(&self) -> &'static str {
        match self.0 {
            Some(Packet::Answer(_)) => "the node has joined before",
            _ => "the node has asked before",
        }
    }
}

impl fmt::Display for Kind<'_> {
    fn fmt<W: fmt::Write>(&self, f: &mut fmt::Formatter<W>) -> fmt::Result {
        match self.0 {
            Some(Packet::Request(_)) => f.write_str("request"),
            Some(Packet::Answer(Answer { interval, .. })) => {
                write!(f, "answer, interval {interval}")
            }
            Some(
                Packet::Data(
                    Data {
                        interval,
                        number,
                        ..
                    },
                ),
            ) => { write!(f, "data, interval {interval}, number {number}") }
            Some(Packet::Key(Disclosure { interval, .. })) => {
                write!(f, "key, interval {interval}")
            }
            None => f.write_str("no packet"),
        }
    }
}

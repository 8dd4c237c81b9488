// The line for a packet that went out: when, which one, whether it is true, and then its payload.
use byte_text::Readable;
use capture::Time;
use node::Released;
use std::fmt;

#[derive(Clone, Copy)]
pub struct Out<'a> {
    pub at: Time,
    pub released: Released,
    pub payload: &'a [u8],
}

impl fmt::Display for Out<'_> {
    fn fmt<W: fmt::Write>(&self, f: &mut fmt::Formatter<W>) -> fmt::Result {
        let Out {
            at,
            released,
            payload,
        } = *self;
        let interval = released.interval;
        let number = released.number;
        write!(f, "{at} out: interval {interval}, number {number}, ")?;
        if released.verdict {
            write!(f, "true, {}", Readable(payload))
        } else {
            f.write_str("false")
        }
    }
}

// Where in a capture the reading ended.
use std::fmt;

// The bytes behind the last record that was read.
#[derive(Clone, Copy)]
pub struct Unread {
    pub at: usize,
    pub left: usize,
}

impl fmt::Display for Unread {
    fn fmt<W: fmt::Write>(&self, f: &mut fmt::Formatter<W>) -> fmt::Result {
        let Unread { at, left } = *self;
        write!(
            f,
            "at byte {at}: an incomplete or irregular record ends the reading, {left} bytes are not read"
        )
    }
}

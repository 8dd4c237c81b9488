// The records of a capture, read one after another.
ghost use Rattle.std.specs.Prelude.{◌≡◌, length};
ghost use Rattle.std.specs.Iterator.{at_most};
ghost use Rattle.capture.specs.Reading.{records, Whole, RecordsBack};
ghost use Rattle.capture.specs.Ahead.{unread, ahead, GivesRecord};

use crate::forms::{Record, RecordFormat};
use std::iter::FusedIterator;

// What a copy of it takes is not taken off the original.
#[derive(Clone, Copy, PartialEq, Eq, Debug)]
pub struct Records<'a> {
    format: RecordFormat,
    rest: &'a [u8],
}

impl<'a> Records<'a> {
    // The records behind a header.
    #[tactic(auto, using(crate::proofs::RecordsLaws::records_whole, crate::proofs::RecordsLaws::records_back))]
    pub fn new(format: RecordFormat, bytes: &'a [u8]) -> Records<'a>
        ensures bytes { unread result ≡ bytes.now }
        ensures records { ahead result ≡ records format.order format.limit bytes.now }
        ensures whole { Whole format.order format.limit bytes.now (ahead result) }
        ensures back { RecordsBack format.order format.limit bytes.now (ahead result) }
        ensures format { result.format ≡ format }
    {
        Records {
            format,
            rest: bytes,
        }
    }

    // How many bytes are still unread.
    pub fn unread(&self) -> usize
        ensures { result ≡ length (unread self.now) }
    {
        self.rest.len()
    }
}

impl<'a> Iterator for Records<'a> {
    type Item = Record<'a>;

    ghost next_gives = { GivesRecord };

    ghost remaining = { λ s. at_most (length (unread s)) };

    // The first record ahead; none where no regular record stands there, and then none is ever answered.
    #[tactic(auto, using(crate::proofs::RecordsLaws::ends))]
    fn next(&mut self) -> Option<Record<'a>> {
        let first = Record::read(self.format, self.rest)?;
        self.rest = &self.rest[Record::LEAD + first.bytes.len()..];
        Some(first)
    }
}

impl FusedIterator for Records<'_> {}

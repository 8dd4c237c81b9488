// What the steps of a walk come to: records and orders, and the bytes read and written for them.
use capture::{Header, Record};
use inputs::Unread;
use playback::Step;
use std::fmt;

// A replay's own counts are bounded by its buffer. These are only printed, and stop at the largest number.
#[derive(Clone, Copy)]
pub struct Tally {
    total: usize,
    records: u64,
    read: usize,
    orders: u64,
    written: usize,
}

impl Tally {
    // Of a capture of so many bytes, whose header is read.
    pub(crate) fn new(total: usize) -> Tally {
        Tally {
            total,
            records: 0,
            read: Header::LENGTH,
            orders: 0,
            written: Header::LENGTH,
        }
    }

    pub(crate) fn count(&mut self, step: Step) {
        match step {
            Step::Heard(record, _) => {
                self.records = self.records.saturating_add(1);
                self.read = self
                    .read
                    .saturating_add(Record::LEAD)
                    .saturating_add(record.bytes.len());
            }
            Step::Out(_, released) if released.verdict => {
                self.orders = self.orders.saturating_add(1);
                self.written = self
                    .written
                    .saturating_add(Record::LEAD)
                    .saturating_add(released.length);
            }
            Step::Out(_, _) => {}
        }
    }

    pub(crate) fn unread(&self) -> Option<Unread> {
        let at = self.read;
        match self.total.saturating_sub(at) {
            0 => None,
            left => Some(Unread { at, left }),
        }
    }
}

impl fmt::Display for Tally {
    fn fmt<W: fmt::Write>(&self, f: &mut fmt::Formatter<W>) -> fmt::Result {
        let Tally {
            total,
            records,
            read,
            orders,
            written,
        } = *self;
        write!(
            f,
            "records {records}, bytes read {read} of {total}, orders {orders}, bytes written {written}"
        )
    }
}

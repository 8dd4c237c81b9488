// One record of a capture: its time, and the record read and written.
ghost use Rattle.std.specs.Prelude.{◌≡◌, ◌+◌, ◌^◌, ◌<◌, ◌≤◌, length, Some, IfSome, OnOk};
ghost use Rattle.std.specs.Option.{option_map};
ghost use Rattle.packet.specs.Writing.{filled};
ghost use Rattle.capture.specs.Format.{record_said, time, record_bytes};
ghost use Rattle.capture.specs.Reading.{read_record, RecordForm, EndsAt, ReadsBack};
ghost use Rattle.capture.specs.Writing.{write_record};

use crate::fields::put;
use crate::forms::{ByteOrder, Record, RecordFormat, Time};
use crate::time::MICROS_PER_SECOND;
use refusal::Refusal;

impl RecordFormat {
    // Where the record at the start of the bytes ends, if it is regular and all of it is there.
    fn end_of(self, bytes: &[u8]) -> Option<usize>
        ensures { EndsAt self.order self.limit bytes.now result }
    {
        let RecordFormat { order, limit } = self;
        if bytes.len() < Record::LEAD {
            return None;
        }
        let stored = order.word(bytes, 8);
        let original = order.word(bytes, 12);
        if order.word(bytes, 4) >= MICROS_PER_SECOND || stored > limit || stored != original {
            return None;
        }
        let end = Record::LEAD + stored as usize;
        (end <= bytes.len()).then_some(end)
    }
}

fn put_record(heard: &Record, order: ByteOrder, out: &mut [u8])
    requires bytes_len_bound { length heard.now.bytes.now < 2 ^ 32 }
    requires bytes_in_bounds { 16 + length heard.now.bytes.now ≤ length out.old }
    ensures after { out.new ≡ filled (record_bytes order (record_said heard.now)) out.old }
    ensures back { ReadsBack order (record_said heard.now) out.new }
{
    let stored = heard.bytes.len() as u32;
    order.put_word(out, 0, heard.at.seconds);
    order.put_word(out, 4, heard.at.micros);
    order.put_word(out, 8, stored);
    order.put_word(out, 12, stored);
    put(out, Record::LEAD, heard.bytes);
}

impl<'a> Record<'a> {
    // The bytes before what was heard: the time, and its length twice.
    pub const LEAD: usize = 16;

    // In microseconds.
    pub fn time(&self) -> u64
        ensures value { result ≡ time (record_said self.now) }
        ensures small { result < 2 ^ 52 }
    {
        let Time { seconds, micros } = self.at;
        u64::from(seconds) * u64::from(MICROS_PER_SECOND) + u64::from(micros)
    }

    // The record at the start of the bytes, if it is regular and all of it is there.
    pub fn read(format: RecordFormat, bytes: &'a [u8]) -> Option<Record<'a>>
        ensures value { option_map record_said result ≡ read_record format.order format.limit bytes.now }
        ensures form { RecordForm format.order format.limit bytes.now (option_map record_said result) }
        ensures long { IfSome result (λ r. 16 + length r.bytes.now ≤ length bytes.now) }
    {
        let end = format.end_of(bytes)?;
        Some(Record {
            at: Time {
                seconds: format.order.word(bytes, 0),
                micros: format.order.word(bytes, 4),
            },
            bytes: &bytes[Self::LEAD..end],
        })
    }

    // Fills the start of the buffer, or leaves all of it as it was. What the record may be is asked before the room.
    pub fn write(&self, format: RecordFormat, out: &mut [u8]) -> Result<usize, Refusal>
        ensures value { result ≡ (write_record format.order format.limit (record_said self.now) out.old).0 }
        ensures after { out.new ≡ (write_record format.order format.limit (record_said self.now) out.old).1 }
        ensures back { OnOk result (read_record format.order format.limit out.new ≡ Some (record_said self.now)) }
    {
        let RecordFormat { order, limit } = format;
        if self.at.micros >= MICROS_PER_SECOND || self.bytes.len() > limit as usize {
            return Err(Refusal::OutOfLimits);
        }
        let length = Self::LEAD + self.bytes.len();
        if out.len() < length {
            return Err(Refusal::BufferTooShort);
        }
        put_record(self, order, out);
        Ok(length)
    }
}

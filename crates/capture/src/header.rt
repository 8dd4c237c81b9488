// The header of a capture, read and written.
ghost use Rattle.std.specs.Prelude.{◌≡◌, ◌≤◌, length, Ok, OnOk};
ghost use Rattle.packet.specs.Writing.{filled};
ghost use Rattle.capture.specs.Format.{marks, header_bytes, header_of};
ghost use Rattle.capture.specs.Reading.{MarkedIn, read_header, HeaderForm};
ghost use Rattle.capture.specs.Writing.{write_header};

use crate::fields::put;
use crate::forms::{ByteOrder, Header, RecordFormat};
use refusal::Refusal;

impl ByteOrder {
    // The magic and version 2.4.
    #[tactic(auto, unfolding(crate::specs::Format::marks, cipher::specs::Bytes::to_le, cipher::specs::Bytes::to_be))]
    fn marks(self) -> [u8; 8]
        ensures { result ≡ marks self }
    {
        match self {
            ByteOrder::Little => [0xd4, 0xc3, 0xb2, 0xa1, 2, 0, 4, 0],
            ByteOrder::Big => [0xa1, 0xb2, 0xc3, 0xd4, 0, 2, 0, 4],
        }
    }

    // The order in which the marks stand at the start of the bytes.
    fn of_marks(bytes: &[u8]) -> Option<ByteOrder>
        ensures { MarkedIn bytes.now result }
    {
        [ByteOrder::Little, ByteOrder::Big]
            .into_iter()
            .find(|order| bytes.starts_with(&order.marks()))
    }
}

fn put_header(header: &Header, out: &mut [u8])
    requires { 24 ≤ length out.old }
    ensures after { out.new ≡ filled (header_bytes header.now) out.old }
    ensures back { read_header out.new ≡ Ok header.now }
{
    let order = header.order;
    put(out, 0, &order.marks());
    order.put_word(out, 8, header.zone);
    order.put_word(out, 12, header.accuracy);
    order.put_word(out, 16, header.longest);
    order.put_word(out, 20, header.link);
}

impl Header {
    // The bytes of every header.
    pub const LENGTH: usize = 24;

    // The link type of packets under RC5.
    pub const RC5: u32 = 147;

    // The header before records of this format. It tells no zone and no accuracy.
    pub fn of_records(format: RecordFormat, link: u32) -> Header
        ensures { result ≡ header_of format.order format.limit link }
    {
        Header {
            order: format.order,
            zone: 0,
            accuracy: 0,
            longest: format.limit,
            link,
        }
    }

    pub fn read(bytes: &[u8]) -> Result<Header, Refusal>
        ensures value { result ≡ read_header bytes.now }
        ensures form { HeaderForm bytes.now result }
        ensures long { OnOk result (24 ≤ length bytes.now) }
    {
        if bytes.len() < Self::LENGTH {
            return Err(Refusal::NotACapture);
        }
        let Some(order) = ByteOrder::of_marks(bytes) else {
            return Err(Refusal::NotACapture);
        };
        Ok(Header {
            order,
            zone: order.word(bytes, 8),
            accuracy: order.word(bytes, 12),
            longest: order.word(bytes, 16),
            link: order.word(bytes, 20),
        })
    }

    // Fills the start of the buffer, or leaves all of it as it was.
    pub fn write(&self, out: &mut [u8]) -> Result<usize, Refusal>
        ensures value { result ≡ (write_header self.now out.old).0 }
        ensures after { out.new ≡ (write_header self.now out.old).1 }
        ensures back { OnOk result (read_header out.new ≡ Ok self.now) }
    {
        if out.len() < Self::LENGTH {
            return Err(Refusal::BufferTooShort);
        }
        put_header(self, out);
        Ok(Self::LENGTH)
    }
}

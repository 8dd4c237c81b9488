// Numbers of four bytes in either byte order, read from an offset and put at one.
ghost use Rattle.std.specs.Prelude.{◌≡◌, ◌+◌, ◌≤◌, length};
ghost use Rattle.packet.specs.Writing.{Puts};
ghost use Rattle.capture.specs.Format.{number};
ghost use Rattle.capture.specs.Reading.{word_at};

use crate::forms::ByteOrder;

// Written here too: a public one, for packet and capture, would have to test its room again.
#[tactic(auto, using(packet::proofs::BufferLaws::puts_mid))]
pub(crate) fn put(out: &mut [u8], at: usize, part: &[u8])
    requires { at + length part.now ≤ length out.old }
    ensures { Puts at part.now out.old out.new }
{
    out[at..at + part.len()].copy_from_slice(part);
}

impl ByteOrder {
    // The number in the four bytes from an offset on.
    #[tactic(auto, using(crate::proofs::FieldLaws::four_bytes_le, packet::proofs::NumberLaws::four_bytes_read))]
    pub(crate) fn word(self, bytes: &[u8], from: usize) -> u32
        requires { from + 4 ≤ length bytes.now }
        ensures { result ≡ word_at self from bytes.now }
    {
        let four = *bytes[from..].first_chunk().unwrap();
        match self {
            ByteOrder::Little => u32::from_le_bytes(four),
            ByteOrder::Big => u32::from_be_bytes(four),
        }
    }

    // Puts a number into the four bytes from an offset on.
    #[tactic(auto, using(cipher::proofs::ByteLaws::to_le_4, packet::proofs::NumberLaws::four_bytes_written))]
    pub(crate) fn put_word(self, out: &mut [u8], at: usize, value: u32)
        requires { at + 4 ≤ length out.old }
        ensures { Puts at (number self 4 value) out.old out.new }
    {
        match self {
            ByteOrder::Little => put(out, at, &value.to_le_bytes()),
            ByteOrder::Big => put(out, at, &value.to_be_bytes()),
        }
    }
}

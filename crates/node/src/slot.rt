// The record of one place in the table of held packets.
ghost use Rattle.std.specs.Prelude.{◌≤◌};

use packet::MAX_PAYLOAD;

// The packet's payload is the first `length` bytes of `payload`. A plain record, as the table's rule asks.
#[derive(Clone, Copy)]
pub(crate) struct Slot {
    pub(crate) interval: u16,
    pub(crate) number: u8,
    pub(crate) length: usize,
    pub(crate) payload: [u8; MAX_PAYLOAD],
    pub(crate) tag: [u8; 8],
    ghost short: { length ≤ 64 },
}

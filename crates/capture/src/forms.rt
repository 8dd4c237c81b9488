// What a capture says: its header, and each record with the time at which it was heard.

// The order of the bytes in every number of a capture.
#[derive(Clone, Copy, PartialEq, Eq, Debug)]
pub enum ByteOrder {
    Little,
    Big,
}

// Zone, accuracy and longest record are only told; the link type says what the records carry.
#[derive(Clone, Copy, PartialEq, Eq, Debug)]
pub struct Header {
    pub order: ByteOrder,
    pub zone: u32,
    pub accuracy: u32,
    pub longest: u32,
    pub link: u32,
}

// Seconds, and the microseconds behind them.
#[derive(Clone, Copy, PartialEq, Eq, Debug)]
pub struct Time {
    pub seconds: u32,
    pub micros: u32,
}

// What was heard, and when.
#[derive(Clone, Copy, PartialEq, Eq, Debug)]
pub struct Record<'a> {
    pub at: Time,
    pub bytes: &'a [u8],
}

// How the records of a capture are written: the order of their bytes, and the most bytes of each.
#[derive(Clone, Copy, PartialEq, Eq, Debug)]
pub struct RecordFormat {
    pub order: ByteOrder,
    pub limit: u32,
}

impl RecordFormat {
    // Captures are written little-endian, with at most 256 bytes in a record.
    pub const WRITTEN: RecordFormat = RecordFormat {
        order: ByteOrder::Little,
        limit: 256,
    };
}

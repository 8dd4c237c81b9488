// Captures in the classic pcap format: their header and their records, read and written.

#![tactic(auto)]

mod fields;
mod forms;
mod header;
mod record;
mod records;
mod time;

pub use forms::{ByteOrder, Header, Record, RecordFormat, Time};
pub use records::Records;

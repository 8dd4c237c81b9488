// What a carriage sent and heard, as a capture.
use anyhow::anyhow;
use capture::{Header, Record, RecordFormat, Time};
use node::Reading;
use packet::Data;
use std::alloc::Global;

// The longest packet, and what stands before it.
const ROOM: usize = Record::LEAD + Data::MOST;

#[derive(Drop)]
pub struct Recording {
    bytes: Vec<u8>,
}

impl Recording {
    pub(crate) fn new(heap: Global) -> anyhow::Result<Recording> {
        let header = Header::of_records(RecordFormat::WRITTEN, Header::RC5);
        let mut front = [0; Header::LENGTH];
        let written = header.write(&mut front);
        written.map_err(|_| anyhow!("the header of the capture cannot be written"))?;
        let mut bytes = Vec::new(heap);
        bytes.extend_from_slice(&front)?;
        Ok(Recording { bytes })
    }

    // Adds a packet with the carriage's reading when it was sent or heard.
    pub(crate) fn add(&mut self, at: Reading, packet: &[u8]) -> anyhow::Result<()> {
        let time = Time::from_micros(at.0);
        let at = time.ok_or_else(|| anyhow!("the reading is too large for a capture"))?;
        let record = Record { at, bytes: packet };
        let mut room = [0; ROOM];
        let written = record.write(RecordFormat::WRITTEN, &mut room);
        let length = written.map_err(|_| anyhow!("the packet is too long for the capture"))?;
        self.bytes.extend_from_slice(&room[..length])?;
        Ok(())
    }

    pub(crate) fn bytes(&self) -> &[u8] {
        self.bytes.as_slice()
    }
}

// What is sent by radio.
use anyhow::anyhow;
use packet::read_key;
use std::alloc::{AllocError, Global};

// A packet on its way.
#[derive(Drop)]
pub struct Sent {
    bytes: Vec<u8>,
}

impl Sent {
    // What a call wrote into the front of a buffer. Each call words its refusal in its own way, so none is made in here.
    pub(crate) fn front(heap: Global, buffer: &[u8], length: usize) -> Result<Sent, AllocError> {
        let bytes = buffer[..length.min(buffer.len())].to_vec(heap)?;
        Ok(Sent { bytes })
    }

    pub(crate) fn packet(&self) -> &[u8] {
        self.bytes.as_slice()
    }

    // The interval of the key that is sent.
    pub(crate) fn interval(&self) -> anyhow::Result<u16> {
        let read = read_key(self.packet());
        let disclosure = read.map_err(|_| anyhow!("what is sent is not a key"))?;
        Ok(disclosure.interval)
    }

    // The same with one byte changed on the way.
    pub(crate) fn damaged(&self) -> Result<Sent, AllocError> {
        let mut bytes = self.bytes.clone()?;
        if let Some(byte) = bytes.get_mut(12) {
            *byte ^= 1;
        }
        Ok(Sent { bytes })
    }
}

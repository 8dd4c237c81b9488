// A place is filled with a packet, gives the packet back, and is freed.
ghost use Rattle.std.specs.Prelude.{◌≡◌, ◌≤◌, length};
ghost use Rattle.packet.specs.Kinds.{data_said};
ghost use Rattle.packet.specs.Writing.{filled};
ghost use Rattle.link.specs.Receiver.{out_of};
ghost use Rattle.node.specs.Answers.{released_says, written};
ghost use Rattle.node.specs.Places.{nothing, slot_said};

use crate::released::Released;
use crate::slot::Slot;
use packet::{Data, MAX_PAYLOAD};

impl Slot {
    pub(crate) fn new() -> Slot
        ensures { slot_said result ≡ nothing }
    {
        Slot {
            interval: 0,
            number: 0,
            length: 0,
            payload: [0; MAX_PAYLOAD],
            tag: [0; 8],
        }
    }

    // A packet is a plain record of the link's rules, so that its payload is short is asked of whoever hands one on.
    pub(crate) fn fill(&mut self, packet: &Data)
        requires { length packet.now.payload.now ≤ 64 }
        ensures { slot_said self.new ≡ data_said packet.now }
    {
        let payload = packet.payload;
        self.interval = packet.interval;
        self.number = packet.number;
        self.payload[0..payload.len()].copy_from_slice(payload);
        self.length = payload.len();
        self.tag = *packet.tag;
    }

    // Nothing is left of the packet.
    pub(crate) fn free(&mut self)
        ensures { slot_said self.new ≡ nothing }
    {
        *self = Slot::new();
    }

    pub(crate) fn packet(&self) -> Data<'_>
        ensures { data_said result ≡ slot_said self.now }
    {
        Data {
            interval: self.interval,
            number: self.number,
            payload: &self.payload[..self.length],
            tag: &self.tag,
        }
    }

    // The packet goes out: its payload into the start of the buffer, if its tag was right.
    pub(crate) fn let_out(&self, verdict: bool, out: &mut [u8]) -> Released
        requires { 64 ≤ length out.old }
        ensures says { released_says result out.new ≡ out_of (slot_said self.now) verdict }
        ensures length { result.length ≡ length (written (out_of (slot_said self.now) verdict)) }
        ensures buffer { out.new ≡ filled (written (out_of (slot_said self.now) verdict)) out.old }
    {
        let length = if verdict { self.length } else { 0 };
        out[..length].copy_from_slice(&self.payload[..length]);
        Released {
            interval: self.interval,
            number: self.number,
            length,
            verdict,
        }
    }
}

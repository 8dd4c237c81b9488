// The receiver takes packets and keys, and lets out what a key has proved.
ghost use Rattle.std.specs.Prelude.{◌≡◌, ◌≤◌, length};
ghost use Rattle.packet.specs.Kinds.{data_said};
ghost use Rattle.packet.specs.Writing.{filled};
ghost use Rattle.link.specs.Questions.{first_no};
ghost use Rattle.link.specs.Receiver.{answer, then, to_key, to_release, to_take, world};
ghost use Rattle.link.specs.Reception.{key_questions, right_now, take_questions};
ghost use Rattle.node.specs.Answers.{asked, key_says, release_length, release_says, take_says, written};
ghost use Rattle.node.specs.Receivers.{meaning};

use crate::receiver::Receiver;
use crate::released::Released;
use crate::time::{Reading, is_interval};
use chain::down;
use cipher::{Block, Key};
use link::{PLACES, data_tag, in_order};
use packet::{Data, MAX_PAYLOAD, read_data, read_key};
use refusal::Refusal;

impl<B: Block> Receiver<B> {
    // The questions of a take, once the packet is read.
    fn may_take(&self, at: Reading, packet: &Data) -> Result<(), Refusal>
        ensures { result ≡ asked (first_no (take_questions (world B.make (meaning self.now).clock) (meaning self.now).state at.0 (data_said packet.now))) }
    {
        if !in_order(self.latest.0, at.0) {
            return Err(Refusal::ReadingOutOfOrder);
        }
        if !is_interval(packet.interval) {
            return Err(Refusal::IntervalOutOfRange);
        }
        if !self.clock.is_early(at, packet.interval) {
            return Err(Refusal::TooLate);
        }
        if self.table.holds(packet) {
            return Err(Refusal::AlreadyHeld);
        }
        if self.table.len() >= PLACES {
            return Err(Refusal::NoFreePlace);
        }
        Ok(())
    }

    // Takes a packet in, to be held until its key is known, and answers how many are then held.
    pub fn take(&mut self, at: Reading, bytes: &[u8]) -> Result<usize, Refusal>
        ensures answer { take_says result ≡ answer B.make (meaning self.old) (to_take at.0 bytes.now) }
        ensures after { meaning self.new ≡ then B.make (meaning self.old) (to_take at.0 bytes.now) }
    {
        let packet = read_data(bytes)?;
        self.may_take(at, &packet)?;
        self.table.add(&packet);
        self.latest = at;
        Ok(self.table.len())
    }

    // The questions of a key, once its packet is read.
    fn may_adopt(&self, at: Reading, key: Key, interval: u16) -> Result<(), Refusal>
        ensures { result ≡ asked (first_no (key_questions (world B.make (meaning self.now).clock) (meaning self.now).state at.0 key interval)) }
    {
        if !in_order(self.latest.0, at.0) {
            return Err(Refusal::ReadingOutOfOrder);
        }
        if !is_interval(interval) {
            return Err(Refusal::IntervalOutOfRange);
        }
        if interval <= self.reached {
            return Err(Refusal::KeyNotNewer);
        }
        if self.clock.is_early(at, interval) {
            return Err(Refusal::KeyNotDue);
        }
        let end = down::<B>(key, u32::from(interval - self.reached));
        if end != self.newest {
            return Err(Refusal::KeyNotOfChain);
        }
        Ok(())
    }

    // Takes a key as the newest, however many were missed before it, and answers the steps from it to the last one.
    pub fn key(&mut self, at: Reading, bytes: &[u8]) -> Result<u32, Refusal>
        ensures answer { key_says result ≡ answer B.make (meaning self.old) (to_key at.0 bytes.now) }
        ensures after { meaning self.new ≡ then B.make (meaning self.old) (to_key at.0 bytes.now) }
    {
        let disclosed = read_key(bytes)?;
        let key = Key::from_bytes(*disclosed.key);
        self.may_adopt(at, key, disclosed.interval)?;
        let steps = u32::from(disclosed.interval.saturating_sub(self.reached));
        self.latest = at;
        self.newest = key;
        self.reached = disclosed.interval;
        Ok(steps)
    }

    // The packet's tag is right under the newest key, stepped down to the packet's interval.
    fn is_right(&self, packet: &Data) -> bool
        requires { length packet.now.payload.now ≤ 64 }
        ensures { result ≡ right_now (world B.make (meaning self.now).clock) (meaning self.now).state (data_said packet.now) }
    {
        let steps = u32::from(self.reached.saturating_sub(packet.interval));
        let right = data_tag::<B>(down::<B>(self.newest, steps), packet).unwrap();
        *packet.tag == right
    }

    // Lets out the first packet whose key is known, with its payload if its tag is right.
    pub fn release(&mut self, out: &mut [u8]) -> Result<Option<Released>, Refusal>
        ensures answer { release_says result out.new ≡ answer B.make (meaning self.old) (to_release (length out.old)) }
        ensures length { release_length result ≡ length (written (answer B.make (meaning self.old) (to_release (length out.old)))) }
        ensures after { meaning self.new ≡ then B.make (meaning self.old) (to_release (length out.old)) }
        ensures buffer { out.new ≡ filled (written (answer B.make (meaning self.old) (to_release (length out.old)))) out.old }
    {
        if out.len() < MAX_PAYLOAD {
            return Err(Refusal::BufferTooShort);
        }
        let Some(place) = self.table.first_known(self.reached) else {
            return Ok(None);
        };
        let record = self.table.get(place);
        let verdict = self.is_right(&record.packet());
        self.table.remove(place);
        Ok(Some(record.let_out(verdict, out)))
    }
}

// How a base makes its orders.
ghost use Rattle.std.specs.Prelude.{◌≡◌, ◌+◌, ◌-◌, ◌/◌, ◌≤◌, length, Ok, Err};
ghost use Rattle.packet.specs.Layouts.{data_bytes};
ghost use Rattle.packet.specs.Writing.{filled};
ghost use Rattle.link.specs.Base.{Base as AnyBase, to_make};
ghost use Rattle.base.specs.Meaning.{Called, Means, Untouched, held};
ghost use Rattle.base.specs.Asked.{asked, data_under, made_at, make_questions};

use crate::state::Base;
use cipher::{Block, Key};
use link::data_tag;
use packet::{Data, MAX_PAYLOAD, Packet, write};
use refusal::Refusal;
use source::KeySource;

// Writes an order with its tag into the start of the buffer.
fn write_order<B: Block>(
    key: Key,
    interval: u16,
    number: u8,
    payload: &[u8],
    out: &mut [u8],
) -> Result<usize, Refusal>
    requires short { length payload.now ≤ 64 }
    requires room { 12 + length payload.now ≤ length out.old }
    ensures value { result ≡ Ok (12 + length payload.now) }
    ensures after { out.new ≡ filled (data_bytes (data_under B.make key interval number payload.now)) out.old }
{
    let draft = Data {
        interval,
        number,
        payload,
        tag: &[0; 8],
    };
    let tag = data_tag::<B>(key, &draft)?;
    write(&Packet::Data(Data { tag: &tag, ..draft }), out)
}

impl<B: Block, M: KeySource, D: KeySource> Base<B, M, D> {
    // How many packets were made in an interval.
    fn made_in(&self, interval: u32) -> u16
        ensures { result ≡ made_at (held M.KeySource D.KeySource self.now) interval }
    {
        if interval == self.making.source.given() {
            self.made
        } else {
            0
        }
    }

    // The questions of a make, and the interval of its order.
    fn order_interval(&self, reading: u64, payload: &[u8], room: usize) -> Result<u32, Refusal>
        ensures { result ≡ asked (make_questions (held M.KeySource D.KeySource self.now) reading (length payload.now) room) ((reading - self.now.schedule.start) / self.now.schedule.duration) }
    {
        if !self.in_order(reading) {
            return Err(Refusal::ReadingOutOfOrder);
        }
        let interval = self.interval_at(reading);
        if !(1..=u64::from(self.making.source.count())).contains(&interval) {
            return Err(Refusal::NoSuchInterval);
        }
        let interval = interval as u32;
        if payload.len() > MAX_PAYLOAD {
            return Err(Refusal::TooLong);
        }
        if self.made_in(interval) > 255 {
            return Err(Refusal::IntervalFull);
        }
        if room < Data::LEAST + payload.len() {
            return Err(Refusal::BufferTooShort);
        }
        Ok(interval)
    }

    // Writes an order with the payload into the start of the buffer, and answers its length.
    pub fn make(&mut self, reading: u64, payload: &[u8], out: &mut [u8]) -> Result<usize, Refusal>
        ensures rules { (x : AnyBase) → Means M.KeySource D.KeySource self.old x → Called B.Block.make M.KeySource D.KeySource x (to_make reading payload.now (length out.old)) result out.old out.new self.new }
        ensures refused { Untouched result self.old self.new }
        ensures refused_buffer { Untouched result out.old out.new }
    {
        let interval = self.order_interval(reading, payload, out.len())?;
        let number = self.made_in(interval);
        self.making.draw_to(interval);
        self.made = number + 1;
        self.latest = reading;
        write_order::<B>(
            self.making.last,
            interval as u16,
            number as u8,
            payload,
            out,
        )
    }
}

// The needle bed: a base whose two sources draw from one chain. It tells what it sends.
use crate::sent::Sent;
use anyhow::anyhow;
use base::{Base, Schedule};
use chain::down;
use cipher::{Key, Rc5};
use packet::Data;
use refusal::Numbered;
use source::Pebbled;

// The chain has 2^4 keys; the last is chosen, and all others follow from it.
const BITS: u32 = 4;

const COUNT: u32 = 1 << BITS;

const LAST: Key = Key {
    high: 0x0011223344556677,
    low: 0x8899aabbccddeeff,
};

// Interval 0 begins at this time; an interval lasts 100,000; a key is disclosed two intervals after its own.
pub(crate) const SCHEDULE: Schedule = Schedule {
    start: 1_000_000,
    duration: 100_000,
    delay: 2,
};

#[derive(Drop)]
pub struct Bed {
    base: Base<Rc5, Pebbled<Rc5>, Pebbled<Rc5>>,
}

// A source of the chain that has given no key yet.
fn new_source(of: &str) -> anyhow::Result<Pebbled<Rc5>> {
    Pebbled::make(LAST, BITS).map_err(|_| anyhow!("the chain of {of} cannot be made"))
}

// The runtime and a time go side by side through these calls: each has a time of its own.
impl Bed {
    pub(crate) fn new() -> anyhow::Result<Bed> {
        let commitment = down::<Rc5>(LAST, COUNT);
        let first = new_source("the orders")?;
        let second = new_source("the keys")?;
        let made = Base::new(first, second, commitment, SCHEDULE);
        let base = made.map_err(|_| anyhow!("the base cannot be made"))?;
        Ok(Bed { base })
    }

    // The base makes an order, and what it wrote is sent.
    pub(crate) fn order(
        &mut self,
        rt: &HostRuntime,
        time: u64,
        payload: &str,
    ) -> anyhow::Result<Sent> {
        let mut buffer = [0; Data::MOST];
        let made = self.base.make(time, payload.as_bytes(), &mut buffer);
        let length = made.map_err(|refusal| anyhow!(
            "{time} base makes an order: {}",
            Numbered(refusal)
        ))?;
        println!(rt; "{time} base makes \"{payload}\": {length} bytes")?;
        Ok(Sent::front(rt.alloc(), &buffer, length)?)
    }

    pub(crate) fn disclose(&mut self, rt: &HostRuntime, time: u64) -> anyhow::Result<Sent> {
        let mut buffer = [0; Data::MOST];
        let disclosed = self.base.disclose(time, &mut buffer);
        let length = disclosed.map_err(|refusal| anyhow!(
            "{time} base discloses a key: {}",
            Numbered(refusal)
        ))?;
        let sent = Sent::front(rt.alloc(), &buffer, length)?;
        println!(rt;
            "{time} base discloses the key of interval {}",
            sent.interval()?
        )?;
        Ok(sent)
    }

    // The base answers a node that asks to join.
    pub(crate) fn answer(
        &mut self,
        rt: &HostRuntime,
        time: u64,
        pair: Key,
        asked: &Sent,
    ) -> anyhow::Result<Sent> {
        let mut buffer = [0; Data::MOST];
        let answered = self.base.answer(time, pair, asked.packet(), &mut buffer);
        let length = answered.map_err(|_| anyhow!("the answer is refused"))?;
        Ok(Sent::front(rt.alloc(), &buffer, length)?)
    }
}

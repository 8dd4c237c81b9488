// The base and the two carriages that have joined, in one rehearsal.
use crate::bed::Bed;
use crate::carriage::Carriage;
use crate::sent::Sent;
use anyhow::anyhow;
use packet::{Data, Packet, write};

#[derive(Drop)]
pub struct Rehearsal<'a> {
    pub rt: &'a HostRuntime,
    pub bed: Bed,
    pub a: Carriage,
    pub b: Carriage,
}

// An order of interval 5 that the base never made.
fn forged(rt: &HostRuntime) -> anyhow::Result<Sent> {
    let order = Packet::Data(Data {
        interval: 5,
        number: 0,
        payload: b"!",
        tag: &[0; 8],
    });
    let mut buffer = [0; Data::MOST];
    let written = write(&order, &mut buffer);
    let length = written.map_err(|_| anyhow!("the forged order cannot be written"))?;
    Ok(Sent::front(rt.alloc(), &buffer, length)?)
}

impl Rehearsal<'_> {
    fn order(&mut self, time: u64, payload: &str) -> anyhow::Result<Sent> {
        self.bed.order(self.rt, time, payload)
    }

    // Both carriages hear an order.
    fn take(&mut self, time: u64, sent: &Sent, what: &str) -> anyhow::Result<()> {
        self.a.hear_order(self.rt, time, sent, what)?;
        self.b.hear_order(self.rt, time, sent, what)
    }

    // A key is disclosed that neither carriage hears.
    fn lose_key(&mut self, time: u64) -> anyhow::Result<()> {
        self.bed.disclose(self.rt, time)?;
        println!(self.rt; "{time} the key is lost on the way to both")?;
        Ok(())
    }

    // The orders of three intervals, while the keys of intervals 2 to 4 are lost.
    pub(crate) fn orders(&mut self) -> anyhow::Result<()> {
        let first = self.order(1_320_000, "racking +2")?;
        self.take(1_320_000, &first, "the order")?;
        let second = self.order(1_330_000, "confirm course 41")?;
        self.take(1_330_000, &second, "the order")?;
        self.lose_key(1_400_500)?;
        let turn = self.order(1_420_000, "reverse")?;
        self.take(1_420_000, &turn, "the order")?;
        self.lose_key(1_500_500)?;
        self.take(1_510_000, &second, "a late copy of \"confirm course 41\"")?;
        let last = self.order(1_520_000, "racking -1")?;
        self.take(1_520_000, &last.damaged()?, "a damaged copy of the order")?;
        self.take(1_520_000, &last, "the order")?;
        self.take(1_530_000, &forged(self.rt)?, "a forged order")?;
        self.take(1_540_000, &turn, "\"reverse\" once more")?;
        self.lose_key(1_600_500)
    }
}

// A carriage: its clock, its receiver, what it heard and what it let out.
use crate::bed::Bed;
use crate::recording::Recording;
use crate::saving::write_file;
use crate::sent::Sent;
use anyhow::anyhow;
use byte_text::Readable;
use cipher::{Key, Rc5};
use link::PLACES;
use node::{Reading, Receiver, Released, Requesting};
use packet::{Data, MAX_PAYLOAD};
use refusal::Numbered;
use std::fmt;
use std::fmt::Write;

const PAIR: Key = Key {
    high: 0x6361727269616765,
    low: 0x2d6f6e652d706169,
};

// How far a carriage's clock is ahead of the base's, or behind it where this is below 0.
#[derive(Clone, Copy)]
pub struct Clock(pub i64);

impl Clock {
    // What the carriage's clock shows at a time of the base's.
    fn reading(self, time: u64) -> Reading {
        Reading(time.saturating_add_signed(self.0))
    }
}

// A released packet in words; the payload as text where it is text. The line of `explain` is another: it has the time, and
// no payload of a false release.
#[derive(Clone, Copy)]
struct Order<'a> {
    released: Released,
    payload: &'a [u8],
}

impl fmt::Display for Order<'_> {
    fn fmt<W: fmt::Write>(&self, f: &mut fmt::Formatter<W>) -> fmt::Result {
        let Order { released, payload } = *self;
        let Released {
            interval,
            number,
            length: _,
            verdict,
        } = released;
        write!(
            f,
            "interval {interval}, number {number}, {verdict}, {}",
            Readable(payload)
        )
    }
}

#[derive(Drop)]
pub struct Carriage {
    name: &'static str,
    clock: Clock,
    receiver: Receiver<Rc5>,
    recording: Recording,
    log: String,
}

impl Carriage {
    // A carriage asks to join, the base answers, and the join is finished.
    pub(crate) fn join(
        rt: &HostRuntime,
        bed: &mut Bed,
        name: &'static str,
        clock: Clock,
        time: u64,
    ) -> anyhow::Result<Carriage> {
        let mut recording = Recording::new(rt.alloc())?;
        let mut buffer = [0; Data::MOST];
        let at = clock.reading(time);
        let asking = Requesting::request(PAIR, time.to_be_bytes(), at, 1_000, &mut buffer);
        let (node, length) = asking.map_err(|_| anyhow!("the request is refused"))?;
        let asked = Sent::front(rt.alloc(), &buffer, length)?;
        recording.add(at, asked.packet())?;
        println!(rt; "{time} {name} asks to join: {length} bytes")?;
        let later = time.saturating_add(1_000);
        let said = bed.answer(rt, later, PAIR, &asked)?;
        println!(rt;
            "{later} base answers {name}: {} bytes",
            said.packet().len()
        )?;
        let at = clock.reading(later);
        recording.add(at, said.packet())?;
        let finished = node.finish::<Rc5>(at, said.packet());
        let receiver = finished.map_err(|_| anyhow!("the join is refused"))?;
        println!(rt; "{later} {name} has joined")?;
        Ok(Carriage {
            name,
            clock,
            receiver,
            recording,
            log: String::new(rt.alloc()),
        })
    }

    // Records a packet with the clock's reading when it is heard.
    fn hear(&mut self, time: u64, sent: &Sent) -> anyhow::Result<Reading> {
        let at = self.clock.reading(time);
        self.recording.add(at, sent.packet())?;
        Ok(at)
    }

    pub(crate) fn hear_order(
        &mut self,
        rt: &HostRuntime,
        time: u64,
        sent: &Sent,
        what: &str,
    ) -> anyhow::Result<()> {
        let name = self.name;
        let at = self.hear(time, sent)?;
        match self.receiver.take(at, sent.packet()) {
            Ok(held) => println!(rt; "{time} {name} takes {what}: {held} held")?,
            Err(refusal) => println!(rt; "{time} {name} takes {what}: {}", Numbered(refusal))?,
        }
        Ok(())
    }

    // Offers a key to the receiver, and lets out what it proves.
    pub(crate) fn hear_key(
        &mut self,
        rt: &HostRuntime,
        time: u64,
        sent: &Sent,
    ) -> anyhow::Result<()> {
        let name = self.name;
        let interval = sent.interval()?;
        let at = self.hear(time, sent)?;
        match self.receiver.key(at, sent.packet()) {
            Ok(steps) => println!(rt;
                "{time} {name} hears the key of interval {interval}: granted, steps {steps}"
            )?,
            Err(refusal) => {
                println!(rt;
                    "{time} {name} hears the key of interval {interval}: {}",
                    Numbered(refusal)
                )?;
                return Ok(());
            }
        }
        self.let_out(rt, time)
    }

    // Releases until none is left.
    fn let_out(&mut self, rt: &HostRuntime, time: u64) -> anyhow::Result<()> {
        let name = self.name;
        // At most one release for each place, and then none: so it ends without a measure of what the receiver holds.
        for _ in 0..=PLACES {
            let mut buffer = [0; MAX_PAYLOAD];
            let released = self.receiver.release(&mut buffer);
            let released = released.map_err(|refusal| anyhow!("a release: {}", Numbered(refusal)))?;
            let Some(released) = released else {
                println!(rt; "{time} {name} releases: none")?;
                break;
            };
            let payload = &buffer[..released.length.min(MAX_PAYLOAD)];
            let order = Order { released, payload };
            println!(rt; "{time} {name} releases: {order}")?;
            writeln!(self.log, "  {order}")?;
        }
        Ok(())
    }

    pub(crate) fn show_log(&self, rt: &HostRuntime) -> anyhow::Result<()> {
        let name = self.name;
        let log = self.log.as_str();
        println!(rt; "What {name} released:")?;
        print!(rt; "{log}")?;
        Ok(())
    }

    // Writes what was heard to a file, and the pair's key to one beside it, and says so.
    pub(crate) fn save(&self, rt: &HostRuntime, file: &str) -> anyhow::Result<()> {
        let name = self.name;
        let key_file = format!(in rt.alloc(); "{file}.key")?;
        write_file(rt, file, self.recording.bytes())?;
        write_file(rt, key_file.as_str(), &PAIR.to_bytes())?;
        println!(rt; "What {name} heard is in {file}.")?;
        println!(rt; "The key of its pair is in {key_file}.")?;
        Ok(())
    }

    pub(crate) fn same_log(&self, other: &Carriage) -> bool {
        self.log == other.log
    }
}

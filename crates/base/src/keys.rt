// How a base discloses its keys.
ghost use Rattle.std.specs.Prelude.{◌≡◌, ◌≤◌, length, Ok};
ghost use Rattle.packet.specs.Layouts.{disclosure_bytes};
ghost use Rattle.packet.specs.Writing.{filled};
ghost use Rattle.link.specs.Base.{Base as AnyBase, to_disclose};
ghost use Rattle.base.specs.Asked.{asked, disclose_questions, disclosure_of, plain_due};
ghost use Rattle.base.specs.Meaning.{Called, Means, Untouched, held};

use crate::state::Base;
use cipher::{Block, Key};
use packet::{Disclosure, Packet, write};
use refusal::Refusal;
use source::KeySource;

// Writes a key with its interval into the start of the buffer.
fn write_key(key: Key, interval: u16, out: &mut [u8]) -> Result<usize, Refusal>
    requires { 19 ≤ length out.old }
    ensures value { result ≡ Ok 19 }
    ensures after { out.new ≡ filled (disclosure_bytes (disclosure_of interval key)) out.old }
{
    let bytes = key.to_bytes();
    let disclosure = Disclosure {
        interval,
        key: &bytes,
    };
    write(&Packet::Key(disclosure), out)
}

impl<B: Block, M: KeySource, D: KeySource> Base<B, M, D> {
    // The questions of a disclosure, and the interval of its key. Below the delay no key is due, as at interval 0.
    fn key_interval(&self, reading: u64, room: usize) -> Result<u32, Refusal>
        ensures { result ≡ asked (disclose_questions (held M.KeySource D.KeySource self.now) (D.KeySource.meaning self.now.disclosing.source).count reading room) (plain_due (held M.KeySource D.KeySource self.now) (D.KeySource.meaning self.now.disclosing.source).count reading) }
    {
        if !self.in_order(reading) {
            return Err(Refusal::ReadingOutOfOrder);
        }
        let past = self
            .interval_at(reading)
            .saturating_sub(u64::from(self.schedule.delay));
        let due = past.min(u64::from(self.disclosing.source.count()));
        if due <= u64::from(self.disclosing.source.given()) {
            return Err(Refusal::NoKeyDue);
        }
        if room < Disclosure::LENGTH {
            return Err(Refusal::BufferTooShort);
        }
        Ok(due as u32)
    }

    // Writes the newest key that is due into the start of the buffer, and answers its length.
    pub fn disclose(&mut self, reading: u64, out: &mut [u8]) -> Result<usize, Refusal>
        ensures rules { (x : AnyBase) → Means M.KeySource D.KeySource self.old x → Called B.Block.make M.KeySource D.KeySource x (to_disclose reading (length out.old)) result out.old out.new self.new }
        ensures refused { Untouched result self.old self.new }
        ensures refused_buffer { Untouched result out.old out.new }
    {
        let interval = self.key_interval(reading, out.len())?;
        self.disclosing.draw_to(interval);
        self.latest = reading;
        write_key(self.disclosing.last, interval as u16, out)
    }
}

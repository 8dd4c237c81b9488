// How a base answers who asks to join.
ghost use Rattle.std.specs.Prelude.{◌≡◌, ◌+◌, ◌*◌, ◌≤◌, length, Ok};
ghost use Rattle.packet.specs.Layouts.{answer_bytes};
ghost use Rattle.packet.specs.Writing.{filled};
ghost use Rattle.link.specs.Base.{Base as AnyBase, to_answer};
ghost use Rattle.base.specs.Asked.{answer_questions, answer_under, answer_untagged, asked};
ghost use Rattle.base.specs.Meaning.{Called, Means, Untouched, held};

use crate::state::Base;
use cipher::{Block, Key};
use link::answer_tag;
use packet::{Answer, Packet, read_request, write};
use refusal::Refusal;
use source::KeySource;

impl<B: Block, M: KeySource, D: KeySource> Base<B, M, D> {
    // The questions of an answer once the request is read.
    fn may_answer(&self, reading: u64, room: usize) -> Result<(), Refusal>
        ensures { result ≡ asked (answer_questions (held M.KeySource D.KeySource self.now) reading room) tt }
    {
        if !self.in_order(reading) {
            return Err(Refusal::ReadingOutOfOrder);
        }
        if room < Answer::LENGTH {
            return Err(Refusal::BufferTooShort);
        }
        Ok(())
    }

    // Writes an answer with its tag into the start of the buffer.
    fn write_answer(
        &self,
        reading: u64,
        pair: Key,
        nonce: &[u8; 8],
        out: &mut [u8],
    ) -> Result<usize, Refusal>
        requires { 48 ≤ length out.old }
        ensures value { result ≡ Ok 48 }
        ensures after { out.new ≡ filled (answer_bytes (answer_under B.Block.make pair nonce.now (answer_untagged reading self.now.disclosing.last (D.KeySource.meaning self.now.disclosing.source).drawn (self.now.schedule.start + (D.KeySource.meaning self.now.disclosing.source).drawn * self.now.schedule.duration) self.now.schedule.duration self.now.schedule.delay))) out.old }
    {
        let interval = self.disclosing.source.given();
        let start = self.schedule.start + u64::from(interval) * u64::from(self.schedule.duration);
        let key = self.disclosing.last.to_bytes();
        let draft = Answer {
            time: reading,
            key: &key,
            interval: interval as u16,
            start,
            duration: self.schedule.duration,
            delay: self.schedule.delay,
            tag: &[0; 8],
        };
        let tag = answer_tag::<B>(pair, nonce, &draft);
        write(&Packet::Answer(Answer { tag: &tag, ..draft }), out)
    }

    // Writes the answer to a request into the start of the buffer, under the key of the pair, and answers its length.
    pub fn answer(
        &mut self,
        reading: u64,
        pair: Key,
        request: &[u8],
        out: &mut [u8],
    ) -> Result<usize, Refusal>
        ensures rules { (x : AnyBase) → Means M.KeySource D.KeySource self.old x → Called B.Block.make M.KeySource D.KeySource x (to_answer reading pair request.now (length out.old)) result out.old out.new self.new }
        ensures refused { Untouched result self.old self.new }
        ensures refused_buffer { Untouched result out.old out.new }
    {
        let request = read_request(request)?;
        self.may_answer(reading, out.len())?;
        self.latest = reading;
        self.write_answer(reading, pair, request.nonce, out)
    }
}

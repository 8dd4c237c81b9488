// The joining node: it asks a base to join, and becomes a receiver by the base's answer.
ghost use Rattle.std.specs.Prelude.{◌≡◌, ◌^◌, ◌<◌, true, length, IfOk, IfErr, Ok, Err, nat_le};
ghost use Rattle.std.specs.Result.{result_map_both};
ghost use Rattle.packet.specs.Kinds.{answer_said};
ghost use Rattle.packet.specs.Reading.{answer_of, told};
ghost use Rattle.link.specs.Join.{finish as finished, finish_questions, join_questions, joined, request as requests, schedule_fits};
ghost use Rattle.link.specs.Questions.{first_no, unless};
ghost use Rattle.node.specs.Answers.{asked};
ghost use Rattle.node.specs.Clocks.{clock_of};
ghost use Rattle.node.specs.Nodes.{asking, EndsWell, leaves, node_of, rhythm_fits, sent, to_send};
ghost use Rattle.node.specs.Receivers.{meaning};

use crate::clock::Clock;
use crate::receiver::Receiver;
use crate::table::Table;
use crate::time::{LAST, Reading, SenderTime};
use crate::timing::offset;
use cipher::{Block, Key};
use link::{READINGS, answer_tag, in_order};
use packet::{Answer, Packet, Request, read_answer, write};
use refusal::Refusal;
use std::marker::PhantomData;

// The most that the two clocks may drift apart.
const MAX_DRIFT: u32 = 1 << 30;

// A node that has sent a request. It is no receiver yet, and one answer uses it up.
#[derive(Drop)]
pub struct Requesting {
    pub(crate) pair: Key,
    pub(crate) nonce: [u8; 8],
    pub(crate) requested: Reading,
    pub(crate) drift: u32,
}

fn is_drift(drift: u32) -> bool
    ensures { result ≡ nat_le drift (2 ^ 30) }
{
    drift <= MAX_DRIFT
}

// The delay and the duration of an answer's schedule are within their limits. The base asks the same of its own in the order
// of its rule; a function for both would be no shorter.
fn is_rhythm(answer: &Answer) -> bool
    ensures { result ≡ rhythm_fits (answer_said answer.now) }
{
    (1..=16).contains(&answer.delay) && 1 <= answer.duration
}

// The schedule that an answer tells is one that a base can have.
fn is_schedule(answer: &Answer) -> bool
    ensures { result ≡ schedule_fits (answer_said answer.now) }
{
    is_rhythm(answer) && answer.interval <= LAST && in_order(answer.start, answer.time)
}

impl Requesting {
    // Writes a request to join, with a nonce that was never used before.
    pub fn request(
        pair: Key,
        nonce: [u8; 8],
        at: Reading,
        drift: u32,
        out: &mut [u8],
    ) -> Result<(Requesting, usize), Refusal>
        ensures value { told sent result ≡ told (to_send (asking pair nonce at drift)) (requests (asking pair nonce at drift) (length out.old)) }
        ensures after { out.new ≡ leaves (requests (asking pair nonce at drift) (length out.old)) out.old }
    {
        if !in_order(0, at.0) {
            return Err(Refusal::ReadingOutOfOrder);
        }
        if !is_drift(drift) {
            return Err(Refusal::OutOfLimits);
        }
        let length = write(&Packet::Request(Request { nonce: &nonce }), out)?;
        let node = Requesting {
            pair,
            nonce,
            requested: at,
            drift,
        };
        Ok((node, length))
    }

    // The clock by which a receiver that joins with an answer goes.
    fn clock_by(&self, answer: &Answer) -> Clock
        requires requested { self.now.requested.0 < 2 ^ 52 }
        requires schedule { schedule_fits (answer_said answer.now) ≡ true }
        ensures { clock_of result ≡ (joined (node_of self.now) 0 (answer_said answer.now)).clock }
    {
        Clock {
            number: answer.interval,
            start: answer.start,
            duration: answer.duration,
            delay: answer.delay,
            offset: offset(answer.time, self.requested.0, self.drift),
        }
    }

    // The questions of a finish, once the answer is read.
    fn may_join<B: Block>(&self, at: Reading, answer: &Answer) -> Result<(), Refusal>
        ensures { result ≡ asked (first_no (join_questions B.make (node_of self.now) at.0 (answer_said answer.now))) }
    {
        if !in_order(self.requested.0, at.0) {
            return Err(Refusal::ReadingOutOfOrder);
        }
        if *answer.tag != answer_tag::<B>(self.pair, &self.nonce, answer) {
            return Err(Refusal::WrongAnswerTag);
        }
        if !is_schedule(answer) {
            return Err(Refusal::BadSchedule);
        }
        let clock = self.clock_by(answer);
        let answered = SenderTime {
            micros: answer.time as i64,
        };
        if !clock.was_due(answered) {
            return Err(Refusal::CommitmentNotDue);
        }
        Ok(())
    }

    // The answer that bytes carry, if every question of a finish is answered yes.
    fn welcome<'a, B: Block>(&self, at: Reading, bytes: &'a [u8]) -> Result<Answer<'a>, Refusal>
        ensures { told answer_said result ≡ unless (first_no (finish_questions B.make (node_of self.now) at.0 bytes.now)) Err (Ok (answer_of bytes.now)) }
    {
        let answer = read_answer(bytes)?;
        self.may_join::<B>(at, &answer)?;
        Ok(answer)
    }

    // Whether a finish with these bytes would be granted; the node stays.
    pub fn check<B: Block>(&self, at: Reading, bytes: &[u8]) -> Result<(), Refusal>
        ensures { result ≡ asked (first_no (finish_questions B.make (node_of self.now) at.0 bytes.now)) }
    {
        self.welcome::<B>(at, bytes)?;
        Ok(())
    }

    // Makes a receiver of the node, or gives the node back. Where a base wrote the bytes, every history ends well.
    pub fn finish<B: Block>(
        self,
        at: Reading,
        bytes: &[u8],
    ) -> Result<Receiver<B>, (Requesting, Refusal)>
        ensures value { result_map_both meaning (λ x. x.1) result ≡ finished B.make (node_of self) at.0 bytes.now }
        ensures back { IfErr result (λ x. x.0 ≡ self) }
        ensures history { IfOk result (λ x. EndsWell B.make bytes.now (meaning x)) }
    {
        match self.welcome::<B>(at, bytes) {
            Ok(answer) => Ok(Receiver {
                clock: self.clock_by(&answer),
                latest: at,
                newest: Key::from_bytes(*answer.key),
                reached: answer.interval,
                table: Table::new(),
                cipher: PhantomData,
            }),
            Err(refusal) => Err((self, refusal)),
        }
    }
}

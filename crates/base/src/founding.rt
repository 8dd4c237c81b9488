// How a base is made.
ghost use Rattle.std.specs.Prelude.{◌≡◌, ◌&&◌, Ok, Err, OnOk};
ghost use Rattle.link.specs.Base.{a_pair, found, in_limits, setup_of, unused};
ghost use Rattle.base.specs.Meaning.{Means, supply};
ghost use Rattle.base.specs.Senders.{PebbledChain, Sends};

use crate::drawing::Drawing;
use crate::schedule::Schedule;
use crate::state::Base;
use cipher::{Block, Key};
use link::READINGS;
use refusal::Refusal;
use source::KeySource;
use std::marker::PhantomData;

// The limits of a base, and that both sources are unused and have one number of keys.
fn may_stand<M: KeySource, D: KeySource>(
    first: &M,
    second: &D,
    commitment: Key,
    schedule: Schedule,
) -> bool
    ensures { result ≡ (in_limits (setup_of (supply (M.KeySource.meaning first.now)) (supply (D.KeySource.meaning second.now)) commitment schedule.start schedule.duration schedule.delay) && a_pair (supply (M.KeySource.meaning first.now)) (supply (D.KeySource.meaning second.now))) }
{
    schedule.duration >= 1
        && (1..=16).contains(&schedule.delay)
        && schedule.start < READINGS
        && first.given() == 0
        && second.given() == 0
        && first.count() == second.count()
}

impl<B: Block, M: KeySource, D: KeySource> Base<B, M, D> {
    // A base that makes its orders with the keys of the first source, and discloses those of the second. A refusal hands
    // both sources back. Where both mean one chain, the base is a sender.
    pub fn new(
        first: M,
        second: D,
        commitment: Key,
        schedule: Schedule,
    ) -> Result<Base<B, M, D>, (M, D, Refusal)>
        ensures founds { elim result [ Ok b ↦ (found (supply (M.KeySource.meaning first)) (supply (D.KeySource.meaning second)) commitment schedule.start schedule.duration schedule.delay ≡ Ok (unused (setup_of (supply (M.KeySource.meaning first)) (supply (D.KeySource.meaning second)) commitment schedule.start schedule.duration schedule.delay))) × Means M.KeySource D.KeySource b (unused (setup_of (supply (M.KeySource.meaning first)) (supply (D.KeySource.meaning second)) commitment schedule.start schedule.duration schedule.delay)) | Err e ↦ (found (supply (M.KeySource.meaning first)) (supply (D.KeySource.meaning second)) commitment schedule.start schedule.duration schedule.delay ≡ Err e.2) × (e.0 ≡ first) × (e.1 ≡ second) ] }
        ensures sends { OnOk result (Sends B.Block.make (M.KeySource.meaning first) (D.KeySource.meaning second) (setup_of (supply (M.KeySource.meaning first)) (supply (D.KeySource.meaning second)) commitment schedule.start schedule.duration schedule.delay)) }
        ensures pebbled { PebbledChain B.Block.make M.KeySource D.KeySource first second commitment }
    {
        if !may_stand(&first, &second, commitment, schedule) {
            return Err((first, second, Refusal::OutOfLimits));
        }
        Ok(Base {
            making: Drawing {
                source: first,
                last: commitment,
            },
            disclosing: Drawing {
                source: second,
                last: commitment,
            },
            schedule,
            latest: schedule.start,
            made: 0,
            block: PhantomData,
        })
    }
}

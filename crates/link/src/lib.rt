// The rules of the link as definitions, the theorem over every history, and what base and node work out alike.

#![tactic(auto)]

ghost use Rattle.std.specs.Prelude.{◌≡◌};
ghost use Rattle.link.specs.Histories.{LinkStands};
ghost use Rattle.link.specs.Sender.{AnswersPass, KeysInTime};
ghost use Rattle.link.specs.Unharmed.{AnswersFinish, UnharmedReads};

mod readings;
mod tags;

pub use readings::{READINGS, in_order};
pub use tags::{answer_tag, data_tag};

// The number of packets that a receiver can hold.
pub const PLACES: usize = 32;

// That number, and what the rules come to: the theorem, and that there are histories for it.
pub fn places() -> usize
    ensures count { result ≡ 32 }
    ensures stands { LinkStands }
    ensures keys { KeysInTime }
    ensures answers { AnswersPass }
    ensures unharmed { UnharmedReads }
    ensures joins { AnswersFinish }
{
    PLACES
}

// Times: what a receiver's clock shows, and what the sender's clock can show at most.
ghost use Rattle.std.specs.Prelude.{◌≡◌, ◌^◌, pos, negsuc, ◌≤ℤ◌};
ghost use Rattle.link.specs.Reception.{an_interval};

// The last interval that a chain of keys can have.
pub(crate) const LAST: u16 = 4096;

// What the receiver's own clock shows.
#[derive(Clone, Copy, PartialEq, Eq, Debug)]
pub struct Reading(pub u64);

// A time on the sender's clock; the receiver's clock may be ahead of it by more than the sender's has run.
#[derive(Clone, Copy)]
pub(crate) struct SenderTime {
    pub(crate) micros: i64,
    ghost least: { negsuc (2 ^ 53) ≤ℤ micros },
    ghost most: { micros ≤ℤ pos (2 ^ 54) },
}

// An interval that packets and keys can be of.
pub(crate) fn is_interval(number: u16) -> bool
    ensures { result ≡ an_interval number }
{
    (1..=LAST).contains(&number)
}

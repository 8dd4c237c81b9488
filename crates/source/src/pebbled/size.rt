// How many keys the chain of a pebbled source has.
ghost use Rattle.std.specs.Prelude.{◌≡◌, ◌^◌, ◌≤◌, MatchResult};
ghost use Rattle.refusal.specs.declared.Refusal.TheVariants.{OutOfLimits};
ghost use Rattle.source.specs.declared.limits.TheConstants.{LEVELS};

use crate::limits::LEVELS;
use refusal::Refusal;

// 2^bits keys.
#[derive(Clone, Copy)]
pub(super) struct ChainSize {
    pub(super) bits: u32,
    ghost least: { 1 ≤ bits },
    ghost most: { bits ≤ LEVELS },
}

impl ChainSize {
    pub(super) fn keys(self) -> u32
        ensures { result ≡ 2 ^ self.bits }
    {
        1 << self.bits
    }
}

impl TryFrom<u32> for ChainSize {
    type Error = Refusal;

    ghost try_from_gives = { λ bits r. MatchResult r (λ size. size.bits ≡ bits) (λ e. (1 ≤ bits → bits ≤ LEVELS → ⊥) × (e ≡ OutOfLimits)) };

    fn try_from(bits: u32) -> Result<ChainSize, Refusal> {
        if !(1..=LEVELS as u32).contains(&bits) {
            return Err(Refusal::OutOfLimits);
        }
        Ok(ChainSize { bits })
    }
}

// How the levels of an unused source are made: the chain is walked down once, from its last key to K_2.
ghost use Rattle.std.specs.Prelude.{◌≡◌};
ghost use Rattle.chain.specs.Chain.{step as step_of};
ghost use Rattle.pebbles.specs.Levels.{levels_after};

use crate::limits::LEVELS;
use crate::pebbled::size::ChainSize;
use chain::down;
use cipher::{Block, Key};
use pebbles::Level;

#[tactic(auto, using(pebbles::proofs::Making::made_none, crate::proofs::EvenPlaces::first_place))]
pub(super) fn unused<B: Block>(last: Key, size: ChainSize) -> [Level<Key>; LEVELS]
    ensures { result ≡ levels_after (step_of B.make) last size.bits LEVELS 0 }
{
    let n = size.keys();
    let mut levels = [Level {
        key: last,
        place: n,
        target: n,
        away: true,
    }; LEVELS];
    let mut key = last;
    let mut place = n;
    // By index: a reversed `iter_mut` was tried, and a proof knows nothing of what it writes.
    for j in (0..size.bits as usize).rev() {
        let lower = 2 << j;
        key = down::<B>(key, place - lower);
        place = lower;
        levels[j] = Level {
            key,
            place,
            target: place,
            away: false,
        };
    }
    levels
}

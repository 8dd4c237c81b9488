// How a pebbled source is made, and how keys are drawn from it.
ghost use Rattle.std.specs.Prelude.{◌≡◌, ◌≤◌, Ok, Err};
ghost use Rattle.refusal.specs.declared.Refusal.TheVariants.{OutOfLimits};
ghost use Rattle.source.specs.Meanings.{stepped};
ghost use Rattle.source.specs.Runs.{Run, Stepping, Unused};

use crate::key_source::KeySource;
use crate::pebbled::Pebbled;
use crate::pebbled::making::unused;
use crate::pebbled::size::ChainSize;
use cipher::{Block, Key};
use refusal::Refusal;
use std::marker::PhantomData;

impl<B: Block> Pebbled<B> {
    // The source of the 2^k keys of the chain that ends in `last`.
    pub fn make(last: Key, k: u32) -> Result<Pebbled<B>, Refusal>
        ensures made { elim result [ Ok p ↦ Unused (stepped B.make) p B.make last k | Err e ↦ (1 ≤ k → k ≤ 12 → ⊥) × (e ≡ OutOfLimits) ] }
        ensures runs { elim result [ Ok p ↦ Run (stepped B.make) p B.make last k × Stepping k | Err _ ↦ Unit {0} ] }
    {
        let size = ChainSize::try_from(k)?;
        Ok(Pebbled {
            levels: unused::<B>(last, size),
            size,
            given: 0,
            block: PhantomData,
        })
    }
}

impl<B: Block> KeySource for Pebbled<B> {
    ghost meaning = { stepped B.Block.make };

    fn given(&self) -> u32 {
        self.given
    }

    fn count(&self) -> u32 {
        self.size.keys()
    }

    fn next(&mut self) -> Result<(Key, u32), Refusal> {
        if self.given == self.count() {
            return Err(Refusal::NoKeyLeft);
        }
        Ok(self.give())
    }
}

// A key source that keeps at most 12 keys of a chain and steps down from them to the others.
ghost use Rattle.std.specs.Prelude.{◌^◌, ◌≤◌};
ghost use Rattle.pebbles.specs.Draws.{Placed};
ghost use Rattle.source.specs.Sources.{no_key};
ghost use Rattle.source.specs.declared.limits.TheConstants.{LEVELS};

use crate::limits::LEVELS;
use crate::pebbled::size::ChainSize;
use cipher::{Block, Key};
use pebbles::Level;
use std::marker::PhantomData;

pub(crate) mod draws;
mod levels;
mod making;
mod size;

// Level j has index j - 1. The places of the levels are known from how many keys were given.
#[derive(Drop)]
pub struct Pebbled<B: Block> {
    // An array with room for the largest chain, since this source uses no heap.
    levels: [Level<Key>; LEVELS],
    size: ChainSize,
    given: u32,
    block: PhantomData<B>,
    ghost within: { given ≤ 2 ^ size.bits },
    ghost placed: { Placed no_key levels size.bits LEVELS given },
}

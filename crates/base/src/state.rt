// What a base keeps.
ghost use Rattle.std.specs.Prelude.{◌^◌, ◌<◌, ◌≤◌};

use crate::drawing::Drawing;
use crate::schedule::Schedule;
use cipher::Block;
use source::KeySource;
use std::marker::PhantomData;

// The first source has given the key of the interval in which `made` packets were made, and the second the last key
// disclosed. Which base of the rules it stands for is a relation and no field: sources that have given keys fit many.
#[derive(Drop)]
pub struct Base<B: Block, M: KeySource, D: KeySource> {
    pub(crate) making: Drawing<M>,
    pub(crate) disclosing: Drawing<D>,
    pub(crate) schedule: Schedule,
    pub(crate) latest: u64,
    pub(crate) made: u16,
    pub(crate) block: PhantomData<B>,
    ghost lasts: { 1 ≤ schedule.duration },
    ghost least: { 1 ≤ schedule.delay },
    ghost most: { schedule.delay ≤ 16 },
    ghost begun: { schedule.start ≤ latest },
    ghost readable: { latest < 2 ^ 52 },
}

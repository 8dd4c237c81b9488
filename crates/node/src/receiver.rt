// A receiver: what never changes in it, the newest key, and the packets that wait for theirs.
ghost use Rattle.std.specs.Prelude.{◌≡◌, ◌<◌, ◌≤◌, false, length, filter};
ghost use Rattle.packet.specs.Kinds.{Data};
ghost use Rattle.link.specs.Clock.{early_at};
ghost use Rattle.link.specs.Receiver.{same_packet};
ghost use Rattle.node.specs.Clocks.{clock_of};
ghost use Rattle.node.specs.Places.{held};

use crate::clock::Clock;
use crate::table::Table;
use crate::time::Reading;
use cipher::Key;
use std::marker::PhantomData;

// The held packets are all different, and the newest key was due at the latest reading, unless it is of interval 0.
#[derive(Drop)]
pub struct Receiver<B> {
    pub(crate) clock: Clock,
    pub(crate) latest: Reading,
    pub(crate) newest: Key,
    pub(crate) reached: u16,
    pub(crate) table: Table,
    pub(crate) cipher: PhantomData<B>,
    ghost apart: { (p : Data) → length (filter (same_packet p) (held table)) ≤ 1 },
    ghost due: { 0 < reached → early_at (clock_of clock) latest.0 reached ≡ false },
}

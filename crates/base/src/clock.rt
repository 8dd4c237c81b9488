// Readings of the base's clock, and its intervals.
ghost use Rattle.std.specs.Prelude.{◌≡◌, ◌-◌, ◌/◌, ◌≤◌};
ghost use Rattle.link.specs.Reception.{in_order};

use crate::state::Base;
use cipher::Block;
use link::in_order;
use source::KeySource;

impl<B: Block, M: KeySource, D: KeySource> Base<B, M, D> {
    // A reading is below 2^52, and not before the latest one granted.
    pub(crate) fn in_order(&self, reading: u64) -> bool
        ensures { result ≡ in_order self.now.latest reading }
    {
        in_order(self.latest, reading)
    }

    // The interval at a reading that is not before the start.
    pub(crate) fn interval_at(&self, reading: u64) -> u64
        requires { self.now.latest ≤ reading }
        ensures { result ≡ (reading - self.now.schedule.start) / self.now.schedule.duration }
    {
        (reading - self.schedule.start) / u64::from(self.schedule.duration)
    }
}

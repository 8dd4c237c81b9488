// The table of held packets.
ghost use Rattle.std.specs.Prelude.{◌≤◌};

use crate::slot::Slot;
use link::PLACES;

// The first `count` places are taken, in the order in which their packets came. A rule of the project asks for an array of
// plain records, each lent to be filled or freed.
#[derive(Drop)]
pub(crate) struct Table {
    pub(crate) slots: [Slot; PLACES],
    pub(crate) count: usize,
    ghost within: { count ≤ 32 },
}

// The schedule of a base.

// Interval 0 begins at `start`, each lasts `duration`, and a key is disclosed `delay` intervals after its own.
#[derive(Clone, Copy, PartialEq, Eq, Debug)]
pub struct Schedule {
    pub start: u64,
    pub duration: u32,
    pub delay: u8,
}

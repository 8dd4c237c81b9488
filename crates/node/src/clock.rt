// A receiver's clock: the schedule that an answer told, and what is added to a reading to get the sender's time.
ghost use Rattle.std.specs.Prelude.{◌^◌, ◌<◌, ◌≤◌, pos, negsuc, ◌≤ℤ◌};

// Interval `number` began at `start` on the sender's clock. The limits keep every sum below within 64 bits.
#[derive(Clone, Copy)]
pub(crate) struct Clock {
    pub(crate) number: u16,
    pub(crate) start: u64,
    pub(crate) duration: u32,
    pub(crate) delay: u8,
    pub(crate) offset: i64,
    ghost lasting: { 1 ≤ duration },
    ghost started: { start < 2 ^ 52 },
    ghost least: { negsuc (2 ^ 52) ≤ℤ offset },
    ghost most: { offset ≤ℤ pos (2 ^ 53) },
}

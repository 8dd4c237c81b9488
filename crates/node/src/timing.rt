// What a reading means on the sender's clock, and whether the key of an interval can be public by then.
ghost use Rattle.std.specs.Prelude.{◌≡◌, ◌^◌, ◌<◌, pos, negsuc, ◌≤ℤ◌};
ghost use Rattle.link.specs.Clock.{early_at, interval_at, offset_of, sender_time};
ghost use Rattle.node.specs.Clocks.{clock_of, was_due};

use crate::clock::Clock;
use crate::time::{Reading, SenderTime};

// What is added to a reading: the sender's time in its answer, less the reading at the request, and the drift allowed.
pub(crate) fn offset(answered: u64, requested: u64, drift: u32) -> i64
    requires answered { answered < 2 ^ 52 }
    requires requested { requested < 2 ^ 52 }
    ensures value { result ≡ offset_of answered requested drift }
    ensures least { negsuc (2 ^ 52) ≤ℤ result }
    ensures most { result ≤ℤ pos (2 ^ 53) }
{
    answered as i64 - requested as i64 + i64::from(drift)
}

impl Clock {
    // The latest time that the sender's clock can show at a reading.
    fn sender_time(&self, at: Reading) -> SenderTime
        requires { at.0 < 2 ^ 52 }
        ensures { result.micros ≡ sender_time (clock_of self.now) at.0 }
    {
        SenderTime {
            micros: at.0 as i64 + self.offset,
        }
    }

    // The latest interval that the sender can be in at a time.
    fn interval_at(&self, time: SenderTime) -> i64
        ensures { result ≡ interval_at (clock_of self.now).schedule time.micros }
    {
        let since = time.micros - self.start as i64;
        i64::from(self.number) + since.div_euclid(i64::from(self.duration))
    }

    // At this reading, the key of the interval cannot be public yet.
    pub(crate) fn is_early(&self, at: Reading, interval: u16) -> bool
        requires { at.0 < 2 ^ 52 }
        ensures { result ≡ early_at (clock_of self.now) at.0 interval }
    {
        let latest = self.interval_at(self.sender_time(at));
        latest < i64::from(interval) + i64::from(self.delay)
    }

    // The key of the schedule's own interval could be public at a time.
    pub(crate) fn was_due(&self, time: SenderTime) -> bool
        ensures { result ≡ was_due (clock_of self.now).schedule time.micros }
    {
        self.number == 0 || i64::from(self.number) + i64::from(self.delay) <= self.interval_at(time)
    }
}

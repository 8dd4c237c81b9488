// The time of a record, made of microseconds and printed in seconds.
ghost use Rattle.std.specs.Prelude.{◌≡◌, ◌/◌, ◌^◌, ◌<◌, ◌≤◌, ◌↔◌, IfSome, IsNone, Some};
ghost use Rattle.capture.specs.Format.{in_micros, time_text};

use crate::forms::Time;
use std::fmt;

pub(crate) const MICROS_PER_SECOND: u32 = 1_000_000;

impl Time {
    // None where the seconds need more than 32 bits.
    pub fn from_micros(micros: u64) -> Option<Time>
        ensures value { IfSome result (λ t. in_micros t ≡ micros) }
        ensures below { IfSome result (λ t. t.micros < 1000000) }
        ensures none { IsNone result ↔ (2 ^ 32 ≤ micros / 1000000) }
    {
        let per_second = u64::from(MICROS_PER_SECOND);
        Some(Time {
            seconds: u32::try_from(micros / per_second).ok()?,
            micros: (micros % per_second) as u32,
        })
    }
}

impl fmt::Display for Time {
    ghost output = { λ t. Some (time_text t) };

    #[tactic(auto, using(crate::proofs::TimeLaws::six_places))]
    fn fmt<W: fmt::Write>(&self, f: &mut fmt::Formatter<W>) -> fmt::Result {
        let Time { seconds, micros } = *self;
        write!(f, "{seconds}.{micros:06}")
    }
}

// Readings of a clock, the same for base and node.
ghost use Rattle.std.specs.Prelude.{◌≡◌};
ghost use Rattle.link.specs.Reception.{in_order};

// Readings stay below this.
pub const READINGS: u64 = 1 << 52;

// A reading is below 2^52, and not before the latest one.
pub fn in_order(latest: u64, reading: u64) -> bool
    ensures { result ≡ in_order latest reading }
{
    reading < READINGS && latest <= reading
}

// A field's bytes at their offset, taken from a packet and put into a buffer.
ghost use Rattle.std.specs.Prelude.{◌≡◌, ◌+◌, ◌≤◌, length};
ghost use Rattle.packet.specs.Reading.{part};
ghost use Rattle.packet.specs.Writing.{with_part};

// The N bytes from an offset on.
pub(crate) fn part_at<const N: usize>(bytes: &[u8], from: usize) -> &[u8; N]
    requires { from + N ≤ length bytes.now }
    ensures value { result.now ≡ part from N bytes.now }
    ensures len { length result.now ≡ N }
{
    bytes[from..].first_chunk().unwrap()
}

#[tactic(auto, unfolding(crate::specs::Writing::with_part))]
pub(crate) fn put(out: &mut [u8], at: usize, part: &[u8])
    requires { at + length part.now ≤ length out.old }
    ensures { out.new ≡ with_part at part.now out.old }
{
    out[at..at + part.len()].copy_from_slice(part);
}

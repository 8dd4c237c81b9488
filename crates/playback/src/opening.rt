// A capture is opened for its replay.
ghost use Rattle.std.specs.Prelude.{◌≡◌, IfOk, drop};
ghost use Rattle.packet.specs.Reading.{told};
ghost use Rattle.capture.specs.Ahead.{ahead, unread};
ghost use Rattle.playback.specs.Playing.{playable, rc5_playable};

use capture::{Header, RecordFormat, Records};
use refusal::Refusal;

// The most bytes that a capture to be replayed can have.
pub const MAX_CAPTURE: usize = 65_536;

// The records of a capture that can be replayed. All bytes behind its header are still unread.
pub fn open(capture: &[u8]) -> Result<Records<'_>, Refusal>
    ensures value { told (λ x. rc5_playable (ahead x)) result ≡ playable capture.now }
    ensures bytes { IfOk result (λ x. unread x ≡ drop 24 capture.now) }
{
    if capture.len() > MAX_CAPTURE {
        return Err(Refusal::NotACapture);
    }
    let header = Header::read(capture)?;
    if header.link != Header::RC5 {
        return Err(Refusal::NotACapture);
    }
    let format = RecordFormat {
        order: header.order,
        ..RecordFormat::WRITTEN
    };
    Ok(Records::new(format, &capture[Header::LENGTH..]))
}

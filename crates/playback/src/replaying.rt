// Replay: a capture is walked, and the orders that come out make a capture of their own.
ghost use Rattle.std.specs.Prelude.{◌≡◌, ◌+◌, ◌≤◌, length, take, IfOk, Some};
ghost use Rattle.packet.specs.Writing.{filled, Puts};
ghost use Rattle.capture.specs.declared.forms.ByteOrder.TheVariants.{Little};
ghost use Rattle.capture.specs.Format.{header_bytes, record_bytes, record_length, record_said};
ghost use Rattle.playback.specs.Counting.{Counted, counts_of, orders_bytes, Regular, StepFits, StepsFit};
ghost use Rattle.playback.specs.Playing.{header_out, replayed};
ghost use Rattle.playback.specs.Replays.{GivesBack, ReplaysStand};
ghost use Rattle.playback.specs.Walks.{payload_length, step_said, to_come};

use crate::counts::Counts;
use crate::opening::open;
use crate::step::Step;
use crate::walk::Walk;
use capture::{Header, Record, RecordFormat};
use cipher::{Block, Key, Rc5};
use packet::MAX_PAYLOAD;
use refusal::Refusal;

// Writes an order behind what is written so far, and answers how much is written then.
fn put_order(order: &Record, written: usize, out: &mut [u8]) -> usize
    requires regular { Regular (record_said order.now) }
    requires order_in_bounds { written + record_length (record_said order.now) ≤ length out.old }
    ensures value { result ≡ written + record_length (record_said order.now) }
    ensures after { Puts written (record_bytes Little (record_said order.now)) out.old out.new }
{
    let end = written + Record::LEAD + order.bytes.len();
    let length = order
        .write(RecordFormat::WRITTEN, &mut out[written..end])
        .unwrap();
    written + length
}

impl Counts {
    // A record is read; a true release is written behind what is written so far.
    fn after(self, step: Step, payload: &[u8; MAX_PAYLOAD], out: &mut [u8]) -> Counts
        requires step_fits { StepFits self (step_said step payload.now) (length out.old) }
        requires step_bound { payload_length (Some step) ≤ 64 }
        ensures { Counted self (step_said step.entry payload.now) result out.old out.new }
    {
        match step {
            Step::Heard(record, _) => Counts {
                read: self.read + Record::LEAD + record.bytes.len(),
                ..self
            },
            Step::Out(at, released) if released.verdict => {
                let length = released.length;
                let order = Record {
                    at,
                    bytes: &payload[..length],
                };
                Counts {
                    written: put_order(&order, self.written, out),
                    ..self
                }
            }
            Step::Out(_, _) => self,
        }
    }
}

impl<B: Block> Walk<'_, B> {
    // Walks to the end, and writes the orders behind the header.
    fn write_orders(mut self, out: &mut [u8]) -> Counts
        requires { StepsFit (to_come B.make self) (length out.old) }
        ensures counts { result ≡ counts_of (to_come B.make self.entry) }
        ensures after { Puts 24 (orders_bytes (to_come B.make self.entry)) out.old out.new }
    {
        let mut counts = Counts {
            written: Header::LENGTH,
            read: Header::LENGTH,
        };
        let mut payload = [0; MAX_PAYLOAD];
        while let Some(step) = self.next(&mut payload) {
            counts = counts.after(step, &payload, out);
        }
        counts
    }
}

// Writes the header of a capture with this link type.
fn put_header(link: u32, out: &mut [u8])
    requires { 24 ≤ length out.old }
    ensures { out.new ≡ filled (header_bytes (header_out link)) out.old }
{
    Header::of_records(RecordFormat::WRITTEN, link)
        .write(out)
        .unwrap();
}

// Does with a capture what a node of this pair did, and writes the orders that were proved, as a capture.
pub fn replay(pair: Key, capture: &[u8], out: &mut [u8]) -> Result<Counts, Refusal>
    ensures value { result ≡ (replayed pair capture.now out.old).0 }
    ensures after { out.new ≡ (replayed pair capture.now out.old).1 }
    ensures fits { IfOk result (λ c. c.written ≤ length capture.now) }
    ensures back { IfOk result (λ c. GivesBack pair capture.now (take c.written out.new)) }
    ensures history { ReplaysStand pair capture.now }
{
    let records = open(capture)?;
    if out.len() < capture.len() {
        return Err(Refusal::BufferTooShort);
    }
    put_header(Header::RC5, out);
    Ok(Walk::<Rc5>::new(pair, records).write_orders(out))
}

// The value of a case, computed by the proved libraries.
use crate::case::{Case, Make, Task};
use crate::fault::Trouble;
use byte_text::Hex;
use chain::{derive, down, tag};
use cipher::{Block, Key};
use packet::{Answer, Data, Disclosure, Packet, Request, read};
use refusal::Refusal;
use source::{KeySource, Pebbled, Table};
use std::alloc::Global;
use std::fmt;
use std::fmt::Write;

// A value is text, or the refusal of a library.
pub type Value = Result<String, Refusal>;

// Prints a value, a refusal by its number.
#[derive(Clone, Copy)]
pub struct Shown<'a>(pub &'a Value);

impl fmt::Display for Shown<'_> {
    fn fmt<W: fmt::Write>(&self, f: &mut fmt::Formatter<W>) -> fmt::Result {
        match self.0 {
            Ok(text) => f.write_str(text.as_str()),
            Err(refusal) => write!(f, "refused {}", refusal.number()),
        }
    }
}

// Bytes as a line may give them: `-` where there are none.
#[derive(Clone, Copy)]
struct Given<'a>(&'a [u8]);

impl fmt::Display for Given<'_> {
    fn fmt<W: fmt::Write>(&self, f: &mut fmt::Formatter<W>) -> fmt::Result {
        if self.0.is_empty() {
            return f.write_str("-");
        }
        write!(f, "{}", Hex(self.0))
    }
}

// A packet's kind and fields in words.
#[derive(Clone, Copy)]
struct Words<'a>(Packet<'a>);

impl fmt::Display for Words<'_> {
    fn fmt<W: fmt::Write>(&self, f: &mut fmt::Formatter<W>) -> fmt::Result {
        match self.0 {
            Packet::Request(Request { nonce }) => write!(f, "request, nonce {}", Hex(nonce)),
            Packet::Answer(
                Answer {
                    time,
                    key,
                    interval,
                    start,
                    duration,
                    delay,
                    tag,
                },
            ) => {
                let (key, tag) = (Hex(key), Hex(tag));
                write!(
                    f,
                    "answer, time {time}, key {key}, interval {interval}, start {start}, duration {duration}, delay {delay}, tag {tag}"
                )
            }
            Packet::Data(
                Data {
                    interval,
                    number,
                    payload,
                    tag,
                },
            ) => {
                let (payload, tag) = (Given(payload), Hex(tag));
                write!(
                    f,
                    "data, interval {interval}, number {number}, payload {payload}, tag {tag}"
                )
            }
            Packet::Key(Disclosure { interval, key }) => {
                write!(f, "key, interval {interval}, key {}", Hex(key))
            }
        }
    }
}

// Every key of an unused source with the steps that it took, and the sum of the steps.
fn drawn<S: KeySource + Drop>(heap: Global, mut source: S) -> Result<String, Trouble<Refusal>> {
    let mut text = String::new(heap);
    let mut sum = 0u32;
    for _ in 0..source.count() {
        let (key, steps) = source.next()?;
        write!(text, "{} {steps}, ", Hex(&key.to_bytes()))?;
        sum = sum.saturating_add(steps);
    }
    write!(text, "sum {sum}")?;
    Ok(text)
}

fn hex(heap: Global, bytes: &[u8]) -> Result<String, Trouble<Refusal>> {
    Ok(Hex(bytes).to_string(heap)?)
}

fn under<B: Block>(heap: Global, key: Key, task: Task) -> Result<String, Trouble<Refusal>> {
    match task {
        Task::Encrypt(block) => hex(heap, &B::keyed(key).encrypt(block)[..B::width()]),
        Task::Tag(message) => hex(heap, &tag::<B>(key, &message)?),
        Task::Derive(purpose) => hex(heap, &derive::<B>(key, purpose).to_bytes()),
        Task::Down(count) => hex(heap, &down::<B>(key, count).to_bytes()),
        Task::Pebbled(k) => drawn(heap, Pebbled::<B>::make(key, k)?),
    }
}

pub(crate) fn value_of(heap: Global, case: Case) -> Result<String, Trouble<Refusal>> {
    match case {
        Case::Cipher(Make::Rc5, key, task) => under::<cipher::Rc5>(heap, key, task),
        Case::Cipher(Make::Adding, key, task) => under::<cipher::Adding>(heap, key, task),
        Case::Packet(bytes) => Ok(Words(read(&bytes)?).to_string(heap)?),
        Case::Table(keys) => drawn(heap, Table::new(keys).map_err(|(refusal, _)| refusal)?),
    }
}

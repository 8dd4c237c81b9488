// Reading asks for the kind, then for the length, and takes any fields.
#![tactic(auto, using(crate::proofs::NumberLaws::numbers_read))]

ghost use Rattle.std.specs.Prelude.{◌≡◌, IfOk};
ghost use Rattle.packet.specs.Kinds.{request_said, answer_said, data_said, disclosure_said, said};
ghost use Rattle.packet.specs.Reading.{told, read_request, read_answer, read_data, read_key, read_packet};
ghost use Rattle.packet.specs.Writing.{Writes};

use crate::fields::part_at;
use crate::kinds::{ANSWER, Answer, DATA, Data, Disclosure, KEY, Packet, REQUEST, Request};
use refusal::Refusal;

// Each reader of one kind refuses another kind whatever its length. A rule of the project asks for slice patterns, which take
// no parameter, so each has its own.
pub fn read_request(bytes: &[u8]) -> Result<Request<'_>, Refusal>
    ensures { told request_said result ≡ read_request bytes.now }
{
    match bytes {
        [REQUEST, ..] if bytes.len() == Request::LENGTH => Ok(Request {
            nonce: part_at(bytes, 1),
        }),
        [REQUEST, ..] => Err(Refusal::WrongLength),
        _ => Err(Refusal::NotThisKind),
    }
}

pub fn read_answer(bytes: &[u8]) -> Result<Answer<'_>, Refusal>
    ensures { told answer_said result ≡ read_answer bytes.now }
{
    match bytes {
        [ANSWER, ..] if bytes.len() == Answer::LENGTH => Ok(Answer {
            time: u64::from_be_bytes(*part_at(bytes, 1)),
            key: part_at(bytes, 9),
            interval: u16::from_be_bytes(*part_at(bytes, 25)),
            start: u64::from_be_bytes(*part_at(bytes, 27)),
            duration: u32::from_be_bytes(*part_at(bytes, 35)),
            delay: bytes[39],
            tag: part_at(bytes, 40),
        }),
        [ANSWER, ..] => Err(Refusal::WrongLength),
        _ => Err(Refusal::NotThisKind),
    }
}

pub fn read_data(bytes: &[u8]) -> Result<Data<'_>, Refusal>
    ensures { told data_said result ≡ read_data bytes.now }
{
    match bytes {
        [DATA, ..] if matches!(bytes.len(), Data::LEAST..=Data::MOST) => Ok(Data {
            interval: u16::from_be_bytes(*part_at(bytes, 1)),
            number: bytes[3],
            payload: &bytes[4..bytes.len() - 8],
            tag: part_at(bytes, bytes.len() - 8),
        }),
        [DATA, ..] => Err(Refusal::WrongLength),
        _ => Err(Refusal::NotThisKind),
    }
}

pub fn read_key(bytes: &[u8]) -> Result<Disclosure<'_>, Refusal>
    ensures { told disclosure_said result ≡ read_key bytes.now }
{
    match bytes {
        [KEY, ..] if bytes.len() == Disclosure::LENGTH => Ok(Disclosure {
            interval: u16::from_be_bytes(*part_at(bytes, 1)),
            key: part_at(bytes, 3),
        }),
        [KEY, ..] => Err(Refusal::WrongLength),
        _ => Err(Refusal::NotThisKind),
    }
}

// A packet of any kind. Writing what was read gives the same bytes again.
pub fn read(bytes: &[u8]) -> Result<Packet<'_>, Refusal>
    ensures value { told said result ≡ read_packet bytes.now }
    ensures back { IfOk result (λ p. Writes (said p) bytes.now) }
{
    match bytes {
        [REQUEST, ..] => read_request(bytes).map(Packet::Request),
        [ANSWER, ..] => read_answer(bytes).map(Packet::Answer),
        [DATA, ..] => read_data(bytes).map(Packet::Data),
        [KEY, ..] => read_key(bytes).map(Packet::Key),
        _ => Err(Refusal::NotThisKind),
    }
}

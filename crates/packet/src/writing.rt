// Writing fills the start of a buffer, or leaves all of it as it was.
#![tactic(auto, using(crate::proofs::BufferLaws::filling), unfolding(crate::specs::Layouts::request_bytes, crate::specs::Layouts::answer_covered, crate::specs::Layouts::answer_bytes, crate::specs::Layouts::data_covered, crate::specs::Layouts::data_bytes, crate::specs::Layouts::disclosure_bytes))]

ghost use Rattle.std.specs.Prelude.{◌≡◌, ◌+◌, ◌^◌, ◌<◌, ◌≤◌, length, take, IfOk, if◌then◌else◌, Ok, Err};
ghost use Rattle.refusal.specs.declared.Refusal.TheVariants.{TooLong};
ghost use Rattle.packet.specs.Kinds.{request_said, answer_said, data_said, disclosure_said, said, a_request, an_answer, a_data, a_key, CoveredFits, Fits};
ghost use Rattle.packet.specs.Layouts.{request_bytes, answer_covered, answer_bytes, data_covered, data_bytes, disclosure_bytes, packet_length};
ghost use Rattle.packet.specs.Reading.{read_packet};
ghost use Rattle.packet.specs.Writing.{filled, short_enough, write_packet, write_covered};

use crate::fields::put;
use crate::kinds::{
    ANSWER, Answer, DATA, Data, Disclosure, KEY, MAX_PAYLOAD, Packet, REQUEST, Request,
};
use refusal::Refusal;

// Each `fits` says what the types of the fields bound: a record of the link's rules is a plain one, with no invariant.
fn put_request(packet: &Request, out: &mut [u8])
    requires { 9 ≤ length out.old }
    ensures after { out.new ≡ filled (request_bytes (request_said packet.now)) out.old }
    ensures fits { Fits (a_request (request_said packet.now)) }
{
    let nonce = packet.nonce;
    put(out, 0, &[REQUEST]);
    put(out, 1, nonce);
}

fn put_answer_covered(packet: &Answer, out: &mut [u8])
    requires { 40 ≤ length out.old }
    ensures after { out.new ≡ filled (answer_covered (answer_said packet.now)) out.old }
    ensures fits { CoveredFits (answer_said packet.now) }
{
    let key = packet.key;
    put(out, 0, &[ANSWER]);
    put(out, 1, &packet.time.to_be_bytes());
    put(out, 9, key);
    put(out, 25, &packet.interval.to_be_bytes());
    put(out, 27, &packet.start.to_be_bytes());
    put(out, 35, &packet.duration.to_be_bytes());
    put(out, 39, &[packet.delay]);
}

fn put_answer(packet: &Answer, out: &mut [u8])
    requires { 48 ≤ length out.old }
    ensures after { out.new ≡ filled (answer_bytes (answer_said packet.now)) out.old }
    ensures fits { Fits (an_answer (answer_said packet.now)) }
{
    let tag = packet.tag;
    put_answer_covered(packet, out);
    put(out, 40, tag);
}

fn put_data_covered(packet: &Data, out: &mut [u8])
    requires { 4 + length packet.now.payload.now ≤ length out.old }
    ensures after { out.new ≡ filled (data_covered (data_said packet.now)) out.old }
    ensures fits { (data_said packet.now).interval < 2 ^ 16 }
{
    put(out, 0, &[DATA]);
    put(out, 1, &packet.interval.to_be_bytes());
    put(out, 3, &[packet.number]);
    put(out, 4, packet.payload);
}

fn put_data(packet: &Data, out: &mut [u8])
    requires room { 12 + length packet.now.payload.now ≤ length out.old }
    requires short { length packet.now.payload.now ≤ 64 }
    ensures after { out.new ≡ filled (data_bytes (data_said packet.now)) out.old }
    ensures fits { Fits (a_data (data_said packet.now)) }
{
    let tag = packet.tag;
    put_data_covered(packet, out);
    put(out, 4 + packet.payload.len(), tag);
}

fn put_key(packet: &Disclosure, out: &mut [u8])
    requires { 19 ≤ length out.old }
    ensures after { out.new ≡ filled (disclosure_bytes (disclosure_said packet.now)) out.old }
    ensures fits { Fits (a_key (disclosure_said packet.now)) }
{
    let key = packet.key;
    put(out, 0, &[KEY]);
    put(out, 1, &packet.interval.to_be_bytes());
    put(out, 3, key);
}

// The length of the packet, if its payload is not too long.
fn length_of(packet: &Packet) -> Result<usize, Refusal>
    ensures { result ≡ (if short_enough (said packet.now) then Ok (packet_length (said packet.now)) else Err TooLong) }
{
    match packet {
        Packet::Request(_) => Ok(Request::LENGTH),
        Packet::Answer(_) => Ok(Answer::LENGTH),
        Packet::Data(data) if data.payload.len() <= MAX_PAYLOAD => Ok(
            Data::LEAST + data.payload.len(),
        ),
        Packet::Data(_) => Err(Refusal::TooLong),
        Packet::Key(_) => Ok(Disclosure::LENGTH),
    }
}

// Fills the start of the buffer and answers the length. What was written reads back.
#[tactic(auto, using(crate::proofs::WritingLaws::back))]
pub fn write(packet: &Packet, out: &mut [u8]) -> Result<usize, Refusal>
    ensures value { result ≡ (write_packet (said packet.now) out.old).0 }
    ensures after { out.new ≡ (write_packet (said packet.now) out.old).1 }
    ensures back { IfOk result (λ n. read_packet (take n out.new) ≡ Ok (said packet.now)) }
{
    let length = length_of(packet)?;
    if out.len() < length {
        return Err(Refusal::BufferTooShort);
    }
    match packet {
        Packet::Request(request) => put_request(request, out),
        Packet::Answer(answer) => put_answer(answer, out),
        Packet::Data(data) => put_data(data, out),
        Packet::Key(key) => put_key(key, out),
    }
    Ok(length)
}

impl Answer<'_> {
    // The bytes that the tag covers, behind the nonce of the request. The tag itself is not read.
    pub fn covered(&self) -> [u8; 40]
        ensures { result ≡ answer_covered (answer_said self.now) }
    {
        let mut bytes = [0; 40];
        put_answer_covered(self, &mut bytes);
        bytes
    }
}

impl Data<'_> {
    // The bytes that the tag covers, into the start of `out`, as every write does by a rule of the project. The tag itself is not
    // read.
    pub fn covered(&self, out: &mut [u8; 68]) -> Result<usize, Refusal>
        ensures value { result ≡ (write_covered (data_said self.now) out.old).0 }
        ensures after { out.new ≡ (write_covered (data_said self.now) out.old).1 }
    {
        if self.payload.len() > MAX_PAYLOAD {
            return Err(Refusal::TooLong);
        }
        put_data_covered(self, out);
        Ok(4 + self.payload.len())
    }
}

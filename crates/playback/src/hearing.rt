// What the node makes of each record, by how far it has come.
ghost use Rattle.std.specs.Prelude.{◌≡◌};
ghost use Rattle.packet.specs.Reading.{read_packet};
ghost use Rattle.capture.specs.Format.{record_said, time};
ghost use Rattle.node.specs.Nodes.{node_of};
ghost use Rattle.node.specs.Receivers.{meaning};
ghost use Rattle.playback.specs.Parts.{silent, asking, receiving, offers};
ghost use Rattle.playback.specs.Stages.{asked_by, called, Heard, joined_by, outcome_said, part_of};
ghost use Rattle.playback.specs.Steps.{read_hearing};

use crate::outcome::Outcome;
use crate::stage::Stage;
use capture::Record;
use cipher::{Block, Key};
use node::{Reading, Receiver, Requesting};
use packet::{Packet, Request, read};
use refusal::Refusal;

// Data are taken and keys offered; all else is passed over.
fn receive<B: Block>(receiver: &mut Receiver<B>, heard: &Record) -> Result<Outcome, Refusal>
    ensures outcome { outcome_said result ≡ read_hearing B.make (receiving (meaning receiver.old)) (time (record_said heard.now)) heard.now.bytes.now (read_packet heard.now.bytes.now) }
    ensures after { meaning receiver.new ≡ called B.make (meaning receiver.old) (offers (time (record_said heard.now)) heard.now.bytes.now (read_packet heard.now.bytes.now)) }
{
    let at = Reading(heard.time());
    match read(heard.bytes)? {
        Packet::Data(_) => Ok(Outcome::Held(receiver.take(at, heard.bytes)?)),
        Packet::Key(_) => Ok(Outcome::Adopted(receiver.key(at, heard.bytes)?)),
        Packet::Request(_) | Packet::Answer(_) => Ok(Outcome::Repeated),
    }
}

const DRIFT: u32 = 10_000;

// The first request makes the node that asks. Here and below the stage goes on with a refusal, so `?` cannot hand it on.
fn ask<B: Block>(pair: Key, heard: &Record) -> (Stage<B>, Result<Outcome, Refusal>)
    ensures part { part_of result.0 ≡ asked_by pair (time (record_said heard.now)) (read_packet heard.now.bytes.now) }
    ensures outcome { outcome_said result.1 ≡ read_hearing B.make silent (time (record_said heard.now)) heard.now.bytes.now (read_packet heard.now.bytes.now) }
{
    match read(heard.bytes) {
        Ok(Packet::Request(request)) => {
            let nonce = *request.nonce;
            let at = Reading(heard.time());
            let mut sent = [0; Request::LENGTH];
            let (node, _) = Requesting::request(pair, nonce, at, DRIFT, &mut sent).unwrap();
            (Stage::Asking(node), Ok(Outcome::Asked))
        }
        Ok(_) => (Stage::Silent, Ok(Outcome::TooSoon)),
        Err(refusal) => (Stage::Silent, Err(refusal)),
    }
}

// The first answer granted ends the join.
fn join<B: Block>(node: Requesting, heard: &Record) -> (Stage<B>, Result<Outcome, Refusal>)
    ensures part { part_of result.0 ≡ joined_by B.make (node_of node) (time (record_said heard.now)) heard.now.bytes.now (read_packet heard.now.bytes.now) }
    ensures outcome { outcome_said result.1 ≡ read_hearing B.make (asking (node_of node)) (time (record_said heard.now)) heard.now.bytes.now (read_packet heard.now.bytes.now) }
{
    match read(heard.bytes) {
        Ok(Packet::Answer(_)) => match node.finish::<B>(Reading(heard.time()), heard.bytes) {
            Ok(receiver) => (Stage::Receiving(receiver), Ok(Outcome::Joined)),
            Err((node, refusal)) => (Stage::Asking(node), Err(refusal)),
        },
        Ok(Packet::Request(_)) => (Stage::Asking(node), Ok(Outcome::Repeated)),
        Ok(_) => (Stage::Asking(node), Ok(Outcome::TooSoon)),
        Err(refusal) => (Stage::Asking(node), Err(refusal)),
    }
}

impl<B: Block> Stage<B> {
    // What the node makes of a record, and how far it has come then.
    pub(crate) fn hear(self, pair: Key, heard: &Record) -> (Stage<B>, Result<Outcome, Refusal>)
        ensures { Heard B.make pair (part_of self) (time (record_said heard.now)) heard.now.bytes.now (part_of result.0) (outcome_said result.1) }
    {
        match self {
            Stage::Silent => ask(pair, heard),
            Stage::Asking(node) => join(node, heard),
            Stage::Receiving(mut receiver) => {
                let outcome = receive(&mut receiver, heard);
                (Stage::Receiving(receiver), outcome)
            }
        }
    }
}

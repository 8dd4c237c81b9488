// A walk goes on by one step: what a granted key lets out first, then the next record.
ghost use Rattle.std.specs.Prelude.{◌≡◌, ℕ, ◌≤◌, List, [], None};
ghost use Rattle.cipher.specs.Blocks.{Make};
ghost use Rattle.packet.specs.Writing.{filled};
ghost use Rattle.capture.specs.Ahead.{ahead};
ghost use Rattle.playback.specs.Parts.{silent};
ghost use Rattle.playback.specs.Stages.{outcome_said};
ghost use Rattle.playback.specs.Steps.{walked};
ghost use Rattle.playback.specs.Walks.{goes_out, LetsOn, payload_length, StepsOn, step_wrote, to_come, told_step};

use crate::outcome::Outcome;
use crate::stage::Stage;
use crate::step::Step;
use crate::walk::Walk;
use capture::{Records, Time};
use cipher::{Block, Key};
use packet::{MAX_PAYLOAD, read};
use refusal::Refusal;
use std::mem::replace;

fn releasing(at: Time, outcome: Result<Outcome, Refusal>) -> Option<Time>
    ensures { result ≡ goes_out at (outcome_said outcome) }
{
    match outcome {
        Ok(Outcome::Adopted(_)) => Some(at),
        _ => None,
    }
}

impl<'a, B: Block> Walk<'a, B> {
    // A walk through records that a node of this pair heard.
    pub fn new(pair: Key, records: Records<'a>) -> Walk<'a, B>
        ensures { (cipher : Make) → to_come cipher result ≡ walked cipher pair silent (ahead records.entry) }
    {
        Walk {
            pair,
            records,
            stage: Stage::Silent,
            releasing: None,
        }
    }

    // What a granted key lets out; once nothing is left, the records go on.
    fn let_out(&mut self, payload: &mut [u8; MAX_PAYLOAD]) -> Option<Step<'a>>
        ensures steps { LetsOn (told_step result payload.new) (to_come B.make self.old) (to_come B.make self.new) self.new.releasing }
        ensures buffer { payload.new ≡ filled (step_wrote (told_step result payload.new)) payload.old }
        ensures within { payload_length result ≤ 64 }
    {
        let at = self.releasing?;
        let stage = replace(&mut self.stage, Stage::Silent);
        let (stage, released) = stage.release(payload);
        self.stage = stage;
        match released {
            Some(released) => Some(Step::Out(at, released)),
            None => {
                self.releasing = None;
                None
            }
        }
    }

    // The next record, and what the node makes of it.
    fn hear(&mut self) -> Option<Step<'a>>
        requires { self.old.releasing ≡ None }
        ensures steps { (buffer : List ℕ) → StepsOn (told_step result buffer) (to_come B.make self.old) (to_come B.make self.new) }
        ensures within { payload_length result ≤ 64 }
        ensures quiet { (buffer : List ℕ) → step_wrote (told_step result buffer) ≡ [] }
    {
        let record = self.records.next()?;
        // A record that is no packet leaves the stage as it is, and is not worth a move of it.
        if let Err(refusal) = read(record.bytes) {
            return Some(Step::Heard(record, Err(refusal)));
        }
        let stage = replace(&mut self.stage, Stage::Silent);
        let (stage, outcome) = stage.hear(self.pair, &record);
        self.stage = stage;
        self.releasing = releasing(record.at, outcome);
        Some(Step::Heard(record, outcome))
    }

    // The next step; none at the end of the records. A `match`, since `hear` asks that nothing is going out, which a closure
    // could not know.
    pub fn next(&mut self, payload: &mut [u8; MAX_PAYLOAD]) -> Option<Step<'a>>
        ensures steps { StepsOn (told_step result payload.new) (to_come B.make self.old) (to_come B.make self.new) }
        ensures buffer { payload.new ≡ filled (step_wrote (told_step result payload.new)) payload.old }
        ensures within { payload_length result ≤ 64 }
    {
        match self.let_out(payload) {
            Some(step) => Some(step),
            None => self.hear(),
        }
    }
}

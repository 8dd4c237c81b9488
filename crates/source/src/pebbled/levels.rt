// What a call does to the levels of a pebbled source.
ghost use Rattle.std.specs.Prelude.{◌≡◌, ◌+◌, ◌-◌, ◌*◌, ◌%◌, ◌^◌, ◌<◌, ◌≤◌, true, map, if◌then◌else◌, slice_index_or, All, Ok};
ghost use Rattle.chain.specs.Chain.{step as step_of};
ghost use Rattle.pebbles.specs.Levels.{Gives, call, lowered, lowering_steps, moves, zeros};
ghost use Rattle.source.specs.Chains.{no_level};
ghost use Rattle.source.specs.Meanings.{stepped};
ghost use Rattle.source.specs.Sources.{Draw};

use crate::limits::{LEVELS, MOST_KEYS};
use crate::pebbled::Pebbled;
use chain::step;
use cipher::{Block, Key};
use pebbles::Level;

// A level that is above its target goes down two places; with the steps that this takes.
fn lower_level<B: Block>(level: &mut Level<Key>) -> u32
    requires { moves level.old ≡ true → 2 ≤ level.old.place }
    ensures level { level.new ≡ lowered (step_of B.make) level.old }
    ensures steps { result ≡ (if moves level.old then 2 else 0) }
{
    if level.is_moving() {
        level.key = step::<B>(step::<B>(level.key));
        level.place -= 2;
        2
    } else {
        0
    }
}

fn lower_levels<B: Block>(levels: &mut [Level<Key>; LEVELS]) -> u32
    requires { All (λ l. moves l ≡ true → 2 ≤ l.place) levels.old }
    ensures levels { levels.new ≡ map (lowered (step_of B.make)) levels.old }
    ensures steps { result ≡ lowering_steps levels.old }
    ensures few { result ≤ 2 * LEVELS }
{
    let mut steps = 0;
    for level in levels.iter_mut() {
        steps += lower_level::<B>(level);
    }
    steps
}

// The index of the level that serves an even place. A place is a plain number, since strides are added to it.
#[tactic(auto, using(crate::proofs::EvenPlaces::zeros_of_even))]
fn index_of(place: u32) -> usize
    requires some { 0 < place }
    requires most { place ≤ MOST_KEYS }
    requires even { place % 2 ≡ 0 }
    ensures level { result ≡ zeros place - 1 }
    ensures inside { result < LEVELS }
{
    place.trailing_zeros() as usize - 1
}

// The places that a level serves lie twice this apart.
#[tactic(auto, using(crate::proofs::EvenPlaces::zeros_of_even))]
fn stride_of(place: u32) -> u32
    requires some { 0 < place }
    requires most { place ≤ MOST_KEYS }
    requires even { place % 2 ≡ 0 }
    ensures power { result ≡ 2 ^ zeros place }
    ensures most { result ≤ MOST_KEYS }
{
    1 << place.trailing_zeros()
}

// What an odd place gives, by one step more: the key below that of the level that serves the place above it.
fn below<B: Block>(levels: &[Level<Key>; LEVELS], place: u32, spent: u32) -> (Key, u32)
    requires most { place < MOST_KEYS }
    requires odd { place % 2 ≡ 1 }
    requires few { spent ≤ 2 * LEVELS }
    ensures key { result.0 ≡ step_of B.make (slice_index_or levels.now (zeros (place + 1) - 1) no_level).key }
    ensures steps { result.1 ≡ spent + 1 }
{
    let above = levels[index_of(place + 1)];
    (step::<B>(above.key), spent + 1)
}

// What becomes of a level that served a place: it gets the key of the level that is to serve the place where it goes on.
fn refilled(levels: &[Level<Key>; LEVELS], place: u32, stride: u32) -> Level<Key>
    requires most { place + 3 * stride ≤ MOST_KEYS }
    requires even { (place + 3 * stride) % 2 ≡ 0 }
    requires some { 0 < place }
    ensures { result ≡ record (slice_index_or levels.now (zeros (place + 3 * stride) - 1) no_level) { place = place + 3 * stride; target = place + 2 * stride } }
{
    let refill = place + 3 * stride;
    Level {
        place: refill,
        target: place + 2 * stride,
        ..levels[index_of(refill)]
    }
}

impl<B: Block> Pebbled<B> {
    // The next key, with the steps that it took: the call by the rule.
    #[tactic(auto, using(crate::specs::Sizes::few_at_most))]
    pub(super) fn give(&mut self) -> (Key, u32)
        requires { self.old.given < 2 ^ self.old.size.bits }
        ensures rule { Gives (call (step_of B.make) (2 ^ self.old.size.bits) (self.old.given + 1) self.old.levels) result.0 result.1 self.new.levels }
        ensures draw { Draw (stepped B.make) self.old (Ok result) self.new }
    {
        let place = self.given + 1;
        let steps = lower_levels::<B>(&mut self.levels);
        self.given = place;
        if place % 2 == 1 {
            return below::<B>(&self.levels, place, steps);
        }
        let served = index_of(place);
        let key = self.levels[served].key;
        let stride = stride_of(place);
        if place + 2 * stride <= self.size.keys() {
            self.levels[served] = refilled(&self.levels, place, stride);
        } else {
            self.levels[served].away = true;
        }
        (key, steps)
    }
}

// How a table is made, and how keys are drawn from it.
ghost use Rattle.std.specs.Prelude.{◌≡◌, ◌≤◌, ◌↔◌, IsTrue, length, Ok, Err};
ghost use Rattle.refusal.specs.declared.Refusal.TheVariants.{OutOfLimits};
ghost use Rattle.source.specs.Meanings.{stored};
ghost use Rattle.source.specs.Sizes.{Size};

use crate::key_source::KeySource;
use crate::limits::MOST_KEYS;
use crate::table::Table;
use cipher::Key;
use refusal::Refusal;

// Whether a table can have so many keys.
#[tactic(auto, using(crate::proofs::SizeTests::size_of_power, crate::proofs::SizeTests::power_of_size))]
fn is_size(count: usize) -> bool
    ensures yes { IsTrue result → Size count }
    ensures no { Size count → IsTrue result }
    ensures least { IsTrue result → 2 ≤ count }
    ensures most { IsTrue result → count ≤ MOST_KEYS }
{
    count.is_power_of_two() && (2..=MOST_KEYS).contains(&count)
}

impl Table {
    // The table of 2 to 4,096 keys, a power of two. Any other keys are handed back with the refusal.
    pub fn new(keys: Vec<Key>) -> Result<Table, (Refusal, Vec<Key>)>
        ensures { elim result [ Ok t ↦ Size (length keys.items) × (t.keys.items ≡ keys.items) × (t.given ≡ 0) | Err e ↦ (Size (length keys.items) → ⊥) × (e.0 ≡ OutOfLimits) × (e.1 ≡ keys) ] }
    {
        if !is_size(keys.len()) {
            return Err((Refusal::OutOfLimits, keys));
        }
        Ok(Table { keys, given: 0 })
    }
}

impl KeySource for Table {
    ghost meaning = { stored };

    fn given(&self) -> u32 {
        self.given as u32
    }

    fn count(&self) -> u32 {
        self.keys.len() as u32
    }

    fn next(&mut self) -> Result<(Key, u32), Refusal> {
        if self.given == self.keys.len() {
            return Err(Refusal::NoKeyLeft);
        }
        let key = self.keys[self.given];
        self.given += 1;
        Ok((key, 0))
    }
}

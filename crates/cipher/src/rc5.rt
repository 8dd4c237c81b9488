// RC5-32/12/16: blocks of 8 bytes, 12 rounds, keys of 16 bytes.
ghost use Rattle.std.specs.Prelude.{◌≡◌, ◌≤◌};
ghost use Rattle.cipher.specs.Keys.{key_bytes};
ghost use Rattle.cipher.specs.Makes.{rc5_make};
ghost use Rattle.cipher.specs.Rc5.{encrypted, mix, mixed, progression, round, rounds, unmixed, whitened};

use crate::block::Block;
use crate::key::Key;
use std::array;

const WIDTH: usize = 8;

// The first word of the table before it is mixed, and the step from word to word.
const FIRST: u32 = 0xb7e15163;

const STEP: u32 = 0x9e3779b9;

// A key set up: the words S0 to S25.
#[derive(Clone, Copy)]
pub struct Rc5 {
    table: [u32; 26],
}

// The state of the key set-up.
#[derive(Clone, Copy)]
pub struct Mixing {
    table: [u32; 26],
    key: [u32; 4],
    a: u32,
    b: u32,
}

// The table before the key is mixed in.
fn first_table() -> [u32; 26]
    ensures { result ≡ progression 26 0xb7e15163 }
{
    let mut table = [0; 26];
    let mut word = FIRST;
    for slot in table.iter_mut() {
        *slot = word;
        word = word.wrapping_add(STEP);
    }
    table
}

impl Mixing {
    fn start(key: Key) -> Mixing
        ensures { result ≡ unmixed (key_bytes key) }
    {
        let bytes = key.to_bytes();
        let (words, _) = bytes.as_chunks::<4>();
        Mixing {
            table: first_table(),
            key: array::from_fn(|i| u32::from_le_bytes(words[i])),
            a: 0,
            b: 0,
        }
    }

    // Round `r`, from 0.
    fn round(&mut self, r: usize)
        ensures { self.new ≡ mix r self.old }
    {
        let i = r % 26;
        let j = r % 4;
        let a = self.table[i]
            .wrapping_add(self.a)
            .wrapping_add(self.b)
            .rotate_left(3);
        let b = self.key[j]
            .wrapping_add(a)
            .wrapping_add(self.b)
            .rotate_left(a.wrapping_add(self.b));
        self.table[i] = a;
        self.key[j] = b;
        self.a = a;
        self.b = b;
    }

    // The rounds are counted, since each takes the words at its own number.
    fn mixed(self) -> Mixing
        ensures { result ≡ mixed 78 self }
    {
        let mut mixing = self;
        for r in 0..78 {
            mixing.round(r);
        }
        mixing
    }
}

// The two words of a block.
#[derive(Clone, Copy)]
pub struct Halves {
    a: u32,
    b: u32,
}

impl Halves {
    // The words S0 and S1 are added before the rounds.
    fn whitened(self, table: &[u32; 26]) -> Halves
        ensures { result ≡ whitened table.now self }
    {
        Halves {
            a: self.a.wrapping_add(table[0]),
            b: self.b.wrapping_add(table[1]),
        }
    }

    // One round with its two words. By themselves these are a table in which they have the places of round 0.
    fn round(self, words: [u32; 2]) -> Halves
        ensures { result ≡ round 0 words self }
    {
        let a = (self.a ^ self.b).rotate_left(self.b).wrapping_add(words[0]);
        let b = (self.b ^ a).rotate_left(a).wrapping_add(words[1]);
        Halves { a, b }
    }

    // Each pair of words behind the first has its round.
    fn rounds(self, table: &[u32; 26]) -> Halves
        ensures { result ≡ rounds 12 table.now self }
    {
        let (pairs, _) = table.as_chunks::<2>();
        let mut halves = self;
        for pair in &pairs[1..] {
            halves = halves.round(*pair);
        }
        halves
    }
}

impl Block for Rc5 {
    ghost make = { rc5_make };

    ghost under = { λ s. encrypted s.table };

    fn width() -> usize {
        WIDTH
    }

    fn keyed(key: Key) -> Rc5 {
        let mixing = Mixing::start(key).mixed();
        let table = mixing.table;
        Rc5 { table }
    }

    fn encrypt(&self, block: [u8; 16]) -> [u8; 16] {
        let [a, b, c, d, e, f, g, h, i, j, k, l, m, n, o, p] = block;
        let plain = Halves {
            a: u32::from_le_bytes([a, b, c, d]),
            b: u32::from_le_bytes([e, f, g, h]),
        };
        let done = plain.whitened(&self.table).rounds(&self.table);
        let [a, b, c, d] = done.a.to_le_bytes();
        let [e, f, g, h] = done.b.to_le_bytes();
        [a, b, c, d, e, f, g, h, i, j, k, l, m, n, o, p]
    }
}

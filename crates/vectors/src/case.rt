// A case: what a line asks for, and how it is read.
use crate::fault::{Fault, Trouble};
use byte_text::parse;
use cipher::Key;
use std::alloc::Global;
use std::str::FromStr;

#[derive(Clone, Copy)]
pub enum Make {
    Rc5,
    Adding,
}

impl FromStr for Make {
    type Err = Fault;

    fn from_str(word: &str) -> Result<Make, Fault> {
        match word {
            "rc5" => Ok(Make::Rc5),
            "adding" => Ok(Make::Adding),
            _ => Err(Fault::NoCipher),
        }
    }
}

#[derive(Drop)]
pub enum Task {
    Encrypt([u8; 16]),
    Tag(Vec<u8>),
    Derive(u8),
    Down(u32),
    Pebbled(u32),
}

#[derive(Drop)]
pub enum Case {
    Cipher(Make, Key, Task),
    Packet(Vec<u8>),
    Table(Vec<Key>),
}

// The bytes of a word that writes exactly N of them; the fault is that of another word.
fn bytes<const N: usize>(
    heap: Global,
    word: &str,
    fault: Fault,
) -> Result<[u8; N], Trouble<Fault>> {
    let read = parse(heap, word)?.ok_or(fault)?;
    Ok(*read.as_slice().as_array::<N>().ok_or(fault)?)
}

fn key(heap: Global, word: &str) -> Result<Key, Trouble<Fault>> {
    Ok(Key::from_bytes(bytes(heap, word, Fault::BadKey)?))
}

// A block as a cipher takes it, in the front of an array.
fn block(heap: Global, make: Make, word: &str) -> Result<[u8; 16], Trouble<Fault>> {
    match make {
        Make::Rc5 => {
            let mut block = [0; 16];
            block[..8].copy_from_slice(&bytes::<8>(heap, word, Fault::BadBlock)?);
            Ok(block)
        }
        Make::Adding => bytes(heap, word, Fault::BadBlock),
    }
}

fn message(heap: Global, word: &str) -> Result<Vec<u8>, Trouble<Fault>> {
    match word {
        "-" => Ok(Vec::new(heap)),
        _ => Ok(parse(heap, word)?.ok_or(Fault::BadBytes)?),
    }
}

fn purpose(heap: Global, word: &str) -> Result<u8, Trouble<Fault>> {
    let [purpose] = bytes::<1>(heap, word, Fault::BadPurpose)?;
    Ok(purpose)
}

fn count(word: &str) -> Result<u32, Fault> {
    word.parse::<u32>().map_err(|_| Fault::BadCount)
}

fn encrypt(heap: Global, make: Make, key_word: &str, word: &str) -> Result<Case, Trouble<Fault>> {
    let key = key(heap, key_word)?;
    let block = block(heap, make, word)?;
    Ok(Case::Cipher(make, key, Task::Encrypt(block)))
}

// A task under a cipher and a key; the closure reads it from the last word.
fn under<F: FnOnce(&str) -> Result<Task, Trouble<Fault>>>(
    heap: Global,
    operands: &[&str],
    task: F,
) -> Result<Case, Trouble<Fault>>
    requires { F.IsAlwaysCallable task }
{
    let [make, key_word, word] = operands else {
        return Err(Fault::Words.into());
    };
    let make = make.parse::<Make>()?;
    let key = key(heap, key_word)?;
    Ok(Case::Cipher(make, key, task(word)?))
}

// The keys that stand behind the first word of a line.
fn table(heap: Global, text: &str) -> Result<Case, Trouble<Fault>> {
    let words = text.split_whitespace().skip(1);
    let keys = words.map(|word| key(heap, word)).try_collect(heap)?;
    Ok(Case::Table(keys))
}

// Reads a case: `rc5 KEY BLOCK`, `packet BYTES`, `table KEY KEY ..`, or a task with its cipher, key and last word.
pub(crate) fn read(heap: Global, text: &str) -> Result<Case, Trouble<Fault>> {
    // Five words show that there are too many, except for a table, whose keys are read one by one.
    let words = text.split_whitespace().take(5).collect::<Vec<&str>>(heap)?;
    match words.as_slice() {
        ["rc5", key, block] => encrypt(heap, Make::Rc5, key, block),
        ["adding", key, block] => encrypt(heap, Make::Adding, key, block),
        ["packet", bytes] => Ok(Case::Packet(message(heap, bytes)?)),
        ["table", ..] => table(heap, text),
        ["tag", operands @ ..] => under(heap, operands, |word| {
            Ok(Task::Tag(message(heap, word)?))
        }),
        ["derive", operands @ ..] => under(heap, operands, |word| {
            Ok(Task::Derive(purpose(heap, word)?))
        }),
        ["down", operands @ ..] => under(heap, operands, |word| Ok(Task::Down(count(word)?))),
        ["pebbled", operands @ ..] => under(heap, operands, |word| Ok(Task::Pebbled(count(word)?))),
        ["rc5" | "adding" | "packet", ..] => Err(Fault::Words.into()),
        _ => Err(Fault::NoTask.into()),
    }
}

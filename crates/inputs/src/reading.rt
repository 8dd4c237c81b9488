// The file of the pair's key and the standard input, read no further than they may be long.
ghost use Rattle.std.specs.Prelude.{◌≡◌, ◌<◌, ◌≤◌, IfErr, IfOk, IfSome, length, take, vec_len};
ghost use Rattle.inputs.specs.declared.fault.Fault.TheVariants.{InputTooLong};
ghost use Rattle.inputs.specs.Keys.{KeyRead};

use crate::fault::Fault;
use cipher::Key;
use std::alloc::Global;
use std::fs::File;
use std::io;
use std::io::Read;

const KEY_FILE: &str = "pair.key";

const KEY_LENGTH: usize = 16;

// The first `most` bytes of an input, or all where it has no more. The cut changes nothing; it shows that there are no more.
fn read_at_most<R: Read + Drop>(heap: Global, input: R, most: usize) -> io::Result<Vec<u8>>
    ensures few { IfOk result (λ bytes. vec_len bytes ≤ most) }
    ensures front { IfOk result (λ bytes. IfSome (R.remaining input) (λ xs. bytes.items ≡ take most xs)) }
{
    let mut bytes = Vec::new(heap);
    input.take(most as u64).read_to_end(&mut bytes)?;
    bytes.truncate(most);
    Ok(bytes)
}

fn read_key_file(rt: &HostRuntime) -> io::Result<Vec<u8>>
    ensures { IfOk result (λ bytes. vec_len bytes ≤ 17) }
{
    let file = File::open(rt, KEY_FILE)?;
    read_at_most(rt.alloc(), file, KEY_LENGTH + 1)
}

// The bytes of the file that holds the pair's key, and one more than a key has where it is too long.
pub fn key_file(rt: &HostRuntime) -> Result<Vec<u8>, Fault>
    ensures { IfOk result (λ bytes. vec_len bytes ≤ 17) }
{
    read_key_file(rt).map_err(|e| Fault::of(e, Fault::KeyUnread(e)))
}

// The key that exactly 16 bytes are.
pub fn key_of(bytes: &[u8]) -> Result<Key, Fault>
    ensures { KeyRead bytes.now result }
{
    bytes
        .as_array::<KEY_LENGTH>()
        .map(|whole| Key::from_bytes(*whole))
        .ok_or(Fault::KeyLength(bytes.len()))
}

// All of an input that has at most `longest` bytes; a longer one is a fault, and none of it is answered.
fn read_within<R: Read + Drop>(heap: Global, input: R, longest: usize) -> Result<Vec<u8>, Fault>
    ensures few { IfOk result (λ bytes. vec_len bytes ≤ longest) }
    ensures whole { IfOk result (λ bytes. IfSome (R.remaining input) (λ xs. bytes.items ≡ xs)) }
    ensures long { IfErr result (λ fault. fault ≡ InputTooLong longest → IfSome (R.remaining input) (λ xs. longest < length xs)) }
{
    let read = read_at_most(heap, input, longest.saturating_add(1));
    let bytes = read.map_err(|e| Fault::of(e, Fault::InputUnread(e)))?;
    if bytes.len() > longest {
        return Err(Fault::InputTooLong(longest));
    }
    Ok(bytes)
}

// All of standard input, where it has at most `longest` bytes.
pub fn standard_input(rt: &HostRuntime, longest: usize) -> Result<Vec<u8>, Fault>
    ensures { IfOk result (λ bytes. vec_len bytes ≤ longest) }
{
    read_within(rt.alloc(), rt.stdin(), longest)
}

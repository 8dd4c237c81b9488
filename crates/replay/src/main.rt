// Replays a capture from standard input with the pair's key from pair.key, and writes the proved orders as a capture.

#![tactic(auto)]

use inputs::{Fault, key_file, key_of, standard_input, status, tell};
use playback::{MAX_CAPTURE, replay};
use std::io::Write;
use std::process::ExitCode;

fn main(rt: HostRuntime) -> ExitCode {
    status(tell(&rt, "replay", run(&rt)))
}

fn run(rt: &HostRuntime) -> Result<(), Fault> {
    let pair = key_of(&key_file(rt)?)?;
    let capture = standard_input(rt, MAX_CAPTURE)?;
    let mut out = vec![in rt.alloc(); 0u8; capture.len()]?;
    let counts = replay(pair, &capture, &mut out)?;
    rt.stdout()
        .write_all(&out[..counts.written])
        .map_err(Fault::Unwritten)
}

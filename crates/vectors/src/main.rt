// Reads cases from standard input, one a line, and prints each with its value, and whether that is the one expected.

#![tactic(auto)]

mod answer;
mod case;
mod fault;
mod value;

use answer::{Answer, Verdict, answer_to};
use std::fmt;
use std::io::{BufRead, BufReader, BufWriter, Write};

// How the lines so far came out.
#[derive(Clone, Copy, Default)]
struct Counts {
    right: u64,
    wrong: u64,
    shown: u64,
    unread: u64,
}

impl Counts {
    fn count(&mut self, answer: &Answer) {
        let counter = match answer {
            Answer::Passed(_) => return,
            Answer::Unread(_, _) => &mut self.unread,
            Answer::Read(_, _, Verdict::Right) => &mut self.right,
            Answer::Read(_, _, Verdict::Wrong) => &mut self.wrong,
            Answer::Read(_, _, Verdict::Shown) => &mut self.shown,
        };
        *counter = counter.saturating_add(1);
    }
}

impl fmt::Display for Counts {
    fn fmt<W: fmt::Write>(&self, f: &mut fmt::Formatter<W>) -> fmt::Result {
        let Counts {
            right,
            wrong,
            shown,
            unread,
        } = *self;
        write!(
            f,
            "{right} ok, {wrong} wrong, {shown} shown, {unread} unread"
        )
    }
}

fn main(rt: HostRuntime) -> anyhow::Result<()> {
    let heap = rt.alloc();
    let mut input = BufReader::new(heap, rt.stdin())?;
    let mut out = BufWriter::new(heap, rt.stdout())?;
    let mut counts = Counts::default();
    // One buffer for all lines: `split` allocates each line anew, and takes twice the time on short ones.
    let mut line = Vec::new(heap);
    for _ in 0..u64::MAX {
        line.clear();
        if input.read_until(b'\n', &mut line)? == 0 {
            break;
        }
        let answer = answer_to(heap, &line)?;
        counts.count(&answer);
        writeln!(out, "{answer}")?;
    }
    writeln!(out, "{counts}")?;
    out.flush()?;
    Ok(())
}

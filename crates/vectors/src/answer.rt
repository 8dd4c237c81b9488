// What is printed for a line.
use crate::case::read;
use crate::fault::{Fault, Trouble, apart};
use crate::value::{Shown, Value, value_of};
use std::alloc::{AllocError, Global};
use std::fmt;
use std::str::from_utf8;

#[derive(Clone, Copy)]
pub enum Verdict {
    Right,
    Wrong,
    Shown,
}

// No Result: a line that cannot be read has its answer in its place among the others.
#[derive(Drop)]
pub enum Answer<'a> {
    Passed(&'a str),
    Read(&'a str, Value, Verdict),
    Unread(Fault, Option<&'a str>),
}

impl fmt::Display for Answer<'_> {
    fn fmt<W: fmt::Write>(&self, f: &mut fmt::Formatter<W>) -> fmt::Result {
        match self {
            Answer::Passed(line) => write!(f, "{line}"),
            Answer::Unread(fault, None) => write!(f, "? {fault}"),
            Answer::Unread(fault, Some(line)) => write!(f, "? {fault}: {line}"),
            Answer::Read(case, value, verdict) => {
                write!(f, "{case} = {}", Shown(value))?;
                if let Err(refusal) = value {
                    write!(f, " ({refusal})")?;
                }
                match verdict {
                    Verdict::Right => f.write_str(" ok"),
                    Verdict::Wrong => f.write_str(" WRONG"),
                    Verdict::Shown => Ok(()),
                }
            }
        }
    }
}

fn judged(heap: Global, value: &Value, expected: Option<&str>) -> Result<Verdict, Trouble<Fault>> {
    let Some(text) = expected else {
        return Ok(Verdict::Shown);
    };
    if text.is_empty() {
        return Err(Fault::BadValue.into());
    }
    let found = Shown(value).to_string(heap)?;
    if found.as_str().eq_ignore_ascii_case(text) {
        Ok(Verdict::Right)
    } else {
        Ok(Verdict::Wrong)
    }
}

// A line in two: its case, and the value expected of it.
fn parts(line: &str) -> (&str, Option<&str>) {
    match line.split_once('=') {
        Some((case, expected)) => (case.trim(), Some(expected.trim())),
        None => (line.trim(), None),
    }
}

fn read_answer<'a>(heap: Global, line: &'a str) -> Result<Answer<'a>, Trouble<Fault>> {
    let (text, expected) = parts(line);
    let case = read(heap, text)?;
    let value = apart(value_of(heap, case))?;
    let verdict = judged(heap, &value, expected)?;
    Ok(Answer::Read(text, value, verdict))
}

// The answer to a line as it was read, which may not be text.
pub(crate) fn answer_to<'a>(heap: Global, bytes: &'a [u8]) -> Result<Answer<'a>, AllocError> {
    match from_utf8(bytes) {
        Ok(line) => answered(heap, line.trim_end()),
        Err(_) => Ok(Answer::Unread(Fault::NotText, None)),
    }
}

// Blank lines and remarks are passed on.
fn answered<'a>(heap: Global, line: &'a str) -> Result<Answer<'a>, AllocError> {
    let text = line.trim();
    if text.is_empty() || text.starts_with('#') {
        return Ok(Answer::Passed(line));
    }
    let read = apart(read_answer(heap, line))?;
    Ok(read.unwrap_or_else(|fault| Answer::Unread(fault, Some(line))))
}

// The line of each answer of the walk.
ghost use Rattle.std.specs.Prelude.{◌≡◌};
ghost use Rattle.lines.specs.Line.{text_of};
ghost use Rattle.replay.specs.Answers.{step_line, fed_line, asked_line, ended_line, start_line, yes_line};

use lines::{Line, object, refusal, section};
use streaming::{FlatWalker, Request, Step, StreamError};

fn step(s: Step) -> Line
    ensures { text_of result ≡ step_line s }
{
    match s {
        Step::Framing => Line::new(b'F', &[]),
        Step::Payload(part) => Line::new(b'P', &[u64::from(u8::from(part))]),
        Step::Section(r) => section(r),
        Step::Object(r) => object(r),
        Step::Finished => Line::new(b'Z', &[]),
    }
}

pub fn fed(a: Result<Step, StreamError>) -> Line
    ensures { text_of result ≡ fed_line a }
{
    match a {
        Ok(s) => step(s),
        Err(e) => refusal(e),
    }
}

pub fn asked(a: Result<Option<Request>, StreamError>) -> Line
    ensures { text_of result ≡ asked_line a }
{
    match a {
        Ok(Some(r)) => Line::new(b'D', &[r.offset, r.len]),
        Ok(None) => Line::new(b'N', &[]),
        Err(e) => refusal(e),
    }
}

pub fn ended(a: Result<(), StreamError>) -> Line
    ensures { text_of result ≡ ended_line a }
{
    match a {
        Ok(()) => Line::new(b'N', &[]),
        Err(e) => refusal(e),
    }
}

pub fn started(a: Result<FlatWalker, StreamError>) -> Line
    ensures { text_of result ≡ start_line a }
{
    match a {
        Ok(_) => Line::new(b'W', &[]),
        Err(e) => refusal(e),
    }
}

pub fn yes(b: bool) -> Line
    ensures { text_of result ≡ yes_line b }
{
    Line::new(if b { b'1' } else { b'0' }, &[])
}

// What the driver prints: a line for each record, and the lines of the ending.
ghost use Rattle.std.specs.Prelude.{◌≡◌};
ghost use Rattle.lines.specs.Line.{text_of};
ghost use Rattle.driving.specs.Said.{saying_text, step_text, answer_text, why_text, ending_number, end_line};

use lines::{Line, number, object, refusal, section};
use streaming::{Step, StreamError};
use tally::Tally;

// What is said to an accepted piece: a line for a record, else none.
pub fn answered(a: Result<Step, StreamError>) -> Option<Line>
    ensures { saying_text result ≡ answer_text a }
{
    match a {
        Ok(Step::Section(r)) => Some(section(r)),
        Ok(Step::Object(r)) => Some(object(r)),
        Ok(Step::Framing | Step::Payload(_) | Step::Finished) | Err(_) => None,
    }
}

// Why the walk ended, unless it finished. A match, since a function of another crate, handed to `map`, gets no proof yet.
pub fn why(e: Result<(), StreamError>) -> Option<Line>
    ensures { saying_text result ≡ why_text e }
{
    match e {
        Ok(()) => None,
        Err(x) => Some(refusal(x)),
    }
}

// Document 01's number of an ending: 0 for a walk that finished. A match, as in `why`.
fn ending(e: Result<(), StreamError>) -> u64
    ensures { result ≡ ending_number e }
{
    match e {
        Ok(()) => 0,
        Err(x) => number(x),
    }
}

// The last line: the ending's number and the counts.
pub fn end(e: Result<(), StreamError>, t: Tally) -> Line
    ensures { text_of result ≡ end_line e t }
{
    let n = ending(e);
    Line::new(
        b'E',
        &[n, t.bytes, t.framing, t.payload, t.objects, t.repeats],
    )
}

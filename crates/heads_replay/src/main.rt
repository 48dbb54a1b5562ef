// Answers heads of records, so that the answers can be compared with the Rust's (oracle/README.md has the form `heads`).
// An operation is a format (0 R14, 1 R2000), a length up to 16 and that many bytes; its answer `type handle`, or `-` for none.
#![tactic(auto)]

ghost use Rattle.std.specs.Prelude.{◌<◌, length, IfSome};

use records::{Opening, RecordFormat, prologue};
use std::io;
use std::io::Read;

// The most bytes of an input, and of an operation's head.
const INPUT_MOST: usize = 60000;

const HEAD_MOST: usize = 16;

// An operation: how the data begins, and the bytes that it begins with.
#[derive(Clone, Copy)]
struct Operation<'a> {
    format: RecordFormat,
    head: &'a [u8],
}

impl<'a> Operation<'a> {
    fn answer(self) -> Option<Opening> {
        prologue(self.head, self.format)
    }
}

// The operation that begins s, and what stands behind it; none where it is malformed.
fn first_of<'a>(s: &'a [u8]) -> Option<(Operation<'a>, &'a [u8])>
    ensures { IfSome result (λ r. length r.1.now < length s.now) }
{
    let [format, n, rest @ ..] = s else {
        return None;
    };
    let n = usize::from(*n);
    let format = match *format {
        0 => RecordFormat::R14,
        1 => RecordFormat::R2000,
        _ => return None,
    };
    if n > HEAD_MOST || n > rest.len() {
        return None;
    }
    let (head, behind) = rest.split_at(n);
    Some((Operation { format, head }, behind))
}

// Whether the input is operations and nothing else.
// `crc_replay`, `heads_replay` and `replay` each have this loop and one that answers: one for all would take a closure with clauses on what it leaves, and be no plainer.
fn is_well_formed(input: &[u8]) -> bool {
    let mut rest = input;
    while let Some((_, behind)) = first_of(rest) {
        rest = behind;
    }
    rest.is_empty()
}

fn print(rt: &impl Print, answer: Option<Opening>) -> io::Result<()> {
    match answer {
        None => println!(rt; "-"),
        Some(Opening { type_code, handle }) => println!(rt; "{type_code} {handle}"),
    }
}

// Answers the operations up to the first malformed one.
fn answer_all(rt: &impl Print, input: &[u8]) -> io::Result<()> {
    let mut rest = input;
    while let Some((operation, behind)) = first_of(rest) {
        print(rt, operation.answer())?;
        rest = behind;
    }
    Ok(())
}

fn main(rt: HostRuntime) -> io::Result<()> {
    // Two lines of the library's, in each program: a crate for them would be no plainer.
    let mut input = Vec::new(rt.alloc());
    rt.reader().take(65536).read_to_end(&mut input)?;
    if input.len() <= INPUT_MOST && is_well_formed(&input) {
        return answer_all(&rt, &input);
    }
    println!(rt; "I")
}

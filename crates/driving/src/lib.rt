// The driver of document 01: walks the source of an input in pieces, prints a line for each record and the lines of the ending.
#![tactic(auto)]

ghost use Rattle.std.specs.Prelude.{◌≡◌, ◌+◌, ◌≤◌, length};
ghost use Rattle.account.specs.Statement.{part};
ghost use Rattle.flat.specs.Flat.{begun_of, feed_of};
ghost use Rattle.form.specs.Cutting.{Cutting};
ghost use Rattle.tally.specs.History.{heard};
ghost use Rattle.tally.specs.Tally.{Continues};
ghost use Rattle.driving.specs.Ran.{RanWhole, Walkable};

use form::Cuts;
use lines::say;
use pieces::Piece;
use std::io;
use streaming::{FlatHeader, FlatWalker, Step, StreamError};
use tally::Tally;

mod pieces;
mod said;

// What one piece did.
#[derive(Clone, Copy)]
struct Taken {
    answer: Result<Step, StreamError>,
    state: FlatWalker,
    tally: Tally,
}

// What a walk came to, and whether its lines could be written. A line that could not be written stops no walk.
#[derive(Clone, Copy)]
struct Walked {
    ending: Result<(), StreamError>,
    tally: Tally,
    written: io::Result<()>,
}

// Feeds a piece of the source, and counts it.
fn take(source: &[u8], s: FlatWalker, t: Tally, piece: Piece) -> Taken
    requires { piece.offset + piece.len ≤ length source.now }
    ensures answer { result.answer ≡ (feed_of s piece.offset (part source.now piece.offset piece.len)).answer }
    ensures state { result.state ≡ (feed_of s piece.offset (part source.now piece.offset piece.len)).state }
    ensures continues { Continues t (heard s.failure (feed_of s piece.offset (part source.now piece.offset piece.len)).answer piece.len) result.tally }
{
    let at = piece.offset as usize;
    let end = at + piece.len as usize;
    let fed = flat::feed(s, piece.offset, &source[at..end]);
    Taken {
        answer: fed.answer,
        state: fed.state,
        tally: tally::count(t, s.failure, fed.answer, piece.len),
    }
}

// Walks the source piece by piece, and prints the records as they are committed. The bytes that the rules allow are what ends it.
fn walk(rt: &impl Print, source: &[u8], h: FlatHeader, cuts: &Cuts, begun: FlatWalker) -> Walked
    requires { Walkable h source.now cuts.now × (begun ≡ begun_of h) }
    ensures { RanWhole h source.now cuts.now result.ending result.tally }
{
    let mut state = begun;
    let mut tally = tally::blank();
    let mut turn = 0;
    let mut written = Ok(());
    while let Some(piece) = pieces::choose(flat::request(state), h.length, cuts, turn) {
        let taken = take(source, state, tally, piece);
        written = written.and(say(rt, said::answered(taken.answer)));
        state = taken.state;
        tally = taken.tally;
        turn = pieces::turn_after(cuts, turn);
    }
    Walked {
        ending: flat::end_of_input(state),
        tally,
        written,
    }
}

fn finish(rt: &impl Print, ending: Result<(), StreamError>, tally: Tally) -> io::Result<()> {
    let why = say(rt, said::why(ending));
    let end = lines::print(rt, said::end(ending, tally));
    why.and(end)
}

// Start's refusals come before any byte.
fn begin(rt: &impl Print, source: &[u8], h: FlatHeader, cuts: &Cuts) -> io::Result<()>
    requires { (length source.now ≡ h.length) × (length source.now ≤ 60000) × Cutting cuts.now }
{
    match flat::start(h) {
        Err(e) => finish(rt, Err(e), tally::blank()),
        Ok(begun) => {
            let walked = walk(rt, source, h, cuts, begun);
            let end = finish(rt, walked.ending, walked.tally);
            walked.written.and(end)
        }
    }
}

// Prints what document 01's driver prints for an input: `I` alone where it is not in the form. An error is that of a line that could not be written; the
// lines behind it were tried all the same.
pub fn drive(rt: &impl Print, input: &[u8]) -> io::Result<()> {
    match form::read(input) {
        Some(form) => begin(rt, &input[form.source..], form.header, &form.cuts),
        None => println!(rt; "I"),
    }
}

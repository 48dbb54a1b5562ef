// The walk by calls, `FlatWalker` of src/streaming/flat.rs: the state goes in by value and comes back in the answer. No call requires anything.
#![tactic(auto)]

ghost use Rattle.std.specs.Prelude.{◌≡◌};
ghost use Rattle.account.specs.Statement.{ended_by};
ghost use Rattle.flat.specs.Fit.{fit_of, consistent_of};
ghost use Rattle.flat.specs.Flat.{blank, start_of, request_of, end_of, feed_of};

use streaming::{Fed, FlatHeader, FlatWalker, Request, Stage, StreamError};

mod asking;
mod feeding;
mod tests;

// Whether a walk can reach the state; a failure that is held has no say.
#[tactic(auto, unfolding(crate::specs::Fit::fit_of))]
pub fn fit(s: FlatWalker) -> bool
    ensures { result ≡ fit_of s }
{
    tests::is_taken(s.header) && tests::fit_at(s)
}

// The Rust's own test of a saved state, with exact sums, and no for a header that Start refuses.
#[tactic(auto, unfolding(crate::specs::Fit::consistent_of))]
pub fn consistent(s: FlatWalker) -> bool
    ensures { result ≡ consistent_of s }
{
    s.failure.is_none() && tests::is_taken(s.header) && tests::consistent_at(s)
}

// The walk before anything is done.
fn fresh(h: FlatHeader) -> FlatWalker
    ensures { result ≡ blank h }
{
    FlatWalker {
        header: h,
        stage: Stage::Vars,
        done: 0,
        size: 0,
        crc: 0,
        field: [0; 4],
        head: [0; 16],
        object: 0,
        ms_len: 0,
        words: 0,
        map: chunk::at_chunk(0),
        failure: None,
    }
}

// Begins a walk from a verified header; refusals 1 and 2 begin none.
#[tactic(auto, unfolding(crate::specs::Flat::start_of, crate::specs::Flat::begun_of))]
pub fn start(h: FlatHeader) -> Result<FlatWalker, StreamError>
    ensures { result ≡ start_of h }
{
    header::start_answer(h)?;
    Ok(section::enter_section(fresh(h), Stage::Vars))
}

// The next exact byte demand, or nothing once the final chunk has passed.
#[tactic(auto, using(crate::proofs::Calls::choices), unfolding(crate::specs::Flat::request_of, crate::specs::Fit::fit_of))]
pub fn request(s: FlatWalker) -> Result<Option<Request>, StreamError>
    ensures { result ≡ request_of s }
{
    match s.failure {
        Some(f) => Err(StreamError::Fault(f)),
        None if tests::is_taken(s.header) => asking::ask_stage(s),
        None => Err(StreamError::BadState),
    }
}

// Takes a nonempty front of the demand, at its place. What is refused by its offset or length leaves the state as it was.
#[tactic(auto, using(crate::proofs::Calls::choices, crate::proofs::Calls::fed_stage), unfolding(crate::specs::Flat::feed_of, crate::specs::Flat::request_of, crate::specs::Fit::fit_of))]
pub fn feed(s: FlatWalker, offset: u64, piece: &[u8]) -> Fed
    ensures { result ≡ feed_of s offset piece.now }
{
    match s.failure {
        Some(f) => feeding::refused(StreamError::Fault(f), s),
        None if tests::is_taken(s.header) => feeding::feed_stage(s, offset, piece),
        None => feeding::refused(StreamError::BadState, s),
    }
}

// What is still asked for when the input ends.
#[tactic(auto, unfolding(crate::specs::Flat::end_of))]
pub fn end_of_input(s: FlatWalker) -> Result<(), StreamError>
    ensures { result ≡ end_of s }
{
    ended_by(request(s))
}

// What the end of input says, by what is still asked for.
pub fn ended_by(asked: Result<Option<Request>, StreamError>) -> Result<(), StreamError>
    ensures { result ≡ ended_by asked }
{
    match asked? {
        Some(r) => Err(StreamError::Truncated {
            offset: r.offset,
            needed: r.len,
        }),
        None => Ok(()),
    }
}

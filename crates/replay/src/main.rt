// Answers calls of the walk, one after another, so that every answer can be compared with the Rust's (oracle/README.md has the form `replay`).
#![tactic(auto)]

mod answer;
mod operations;
mod parse;
mod said;

use answer::Answered;
use std::io;
use std::io::Read;

// The most bytes of an input.
const INPUT_MOST: usize = 60000;

fn answers(rt: &impl Print, input: &[u8]) -> io::Result<()> {
    let mut hand = answer::empty_hand();
    let mut rest = input;
    while let Some(n) = operations::size(rest) {
        let Answered { line, hand: next } = answer::answer(hand, rest);
        lines::print(rt, line)?;
        hand = next;
        rest = &rest[n..];
    }
    Ok(())
}

fn main(rt: HostRuntime) -> io::Result<()> {
    // Two lines of the library's, in each program: a crate for them would be no plainer.
    let mut input = Vec::new(rt.alloc());
    rt.reader().take(65536).read_to_end(&mut input)?;
    if input.len() <= INPUT_MOST && operations::whole(&input) {
        return answers(&rt, &input);
    }
    println!(rt; "I")
}

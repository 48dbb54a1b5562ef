// Lines of output: a letter and numbers, decimal, each after one space, and a newline at the end.
#![tactic(auto)]

mod output;
mod records;
mod refusals;

ghost use Rattle.std.specs.Prelude.{◌+◌, ◌<◌, ◌≤◌, ◌≡◌, [], ◌∷◌, ◌++◌, length, take};
ghost use Rattle.io.specs.Counts.{IsPrefixLen};
ghost use Rattle.lines.specs.Line.{decimal_of, line_of, text_of};

pub use output::{print, say};
pub use records::{object, section};
pub use refusals::{number, refusal};

// What a line says: its letter, and the first `count` of the numbers. They lie in the line itself, so that to make one can't fail for want of memory. An `ArrayVec` would not be `Copy`.
#[derive(Clone, Copy)]
pub struct Line {
    pub letter: u8,
    pub count: usize,
    pub numbers: [u64; 7],
}

impl Line {
    pub fn new(letter: u8, numbers: &[u64]) -> Line
        requires { length numbers.now ≤ 7 }
        ensures { text_of result ≡ line_of letter numbers.now }
    {
        let mut all = [0; 7];
        all[..numbers.len()].copy_from_slice(numbers);
        Line {
            letter,
            count: numbers.len(),
            numbers: all,
        }
    }
}

// A space and a number, put at a place. Answers the place behind them. No `Display`: `put` promises every byte, and answers how many there are.
fn put_number(out: &mut [u8], at: usize, n: u64) -> usize
    requires { at + 21 ≤ length out.old }
    ensures text { take result out.new ≡ take at out.old ++ 32 ∷ decimal_of n }
    ensures place { (at ≤ result) × (result ≤ at + 21) }
{
    let mut text = [0u8; 20];
    let k = io::decimal(n, &mut text);
    let end = at + 1 + k;
    out[at] = b' ';
    out[at + 1..end].copy_from_slice(&text[..k]);
    end
}

// Puts the line's text at the start of out, and answers how many bytes it has.
#[tactic(auto, using(crate::proofs::Laws::spaced_next))]
pub fn put(line: Line, out: &mut [u8]) -> usize
    requires { 160 ≤ length out.old }
    ensures within { IsPrefixLen result out.new }
    ensures text { take result out.new ≡ text_of line }
{
    out[0] = line.letter;
    let mut at = 1;
    // A line may say that it has more: then all seven are put.
    for n in &line.numbers[..line.count.min(7)] {
        at = put_number(out, at, *n);
    }
    out[at] = b'\n';
    at + 1
}

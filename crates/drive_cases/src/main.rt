// The driver on a list of inputs, one after another, each behind its length: what it prints for each, and a line `-` behind it.
#![tactic(auto)]

ghost use Rattle.std.specs.Prelude.{◌≡◌, ◌≤◌, length, IfOk, IfSome};
ghost use Rattle.drive_cases.specs.Cases.{case_size};

use std::io;
use std::io::Read;

// The bytes of the input. They lie on the stack, and not in a `Vec` as in the other programs: to read them can't fail for want of memory.
fn buffer() -> [u8; 200000]
    ensures { 200000 ≡ length result }
{
    [0; 200000]
}

// Reads until s is full or the input has ended. Answers how many bytes of s are read.
fn read_full(from: &mut impl Read, s: &mut [u8]) -> io::Result<usize>
    ensures { IfOk result (λ n. n ≤ length s.new) }
{
    let mut n = 0;
    while n < s.len() {
        let more = from.read(&mut s[n..])?;
        if more == 0 {
            break;
        }
        n += more;
    }
    Ok(n)
}

// The bytes of the case that begins s, its length included. None where the list is cut short.
#[tactic(auto, unfolding(crate::specs::Cases::case_size))]
fn size(s: &[u8]) -> Option<usize>
    ensures size { result ≡ case_size s.now }
    ensures inside { IfSome result (λ n. (4 ≤ n) × (n ≤ length s.now)) }
{
    octets::counted_size(s, 0)
}

// A loop of its own: one for all programs that take operations off a list would take a closure, and be no plainer.
fn cases(rt: &impl Print, list: &[u8]) -> io::Result<()> {
    let mut rest = list;
    while let Some(n) = size(rest) {
        driving::drive(rt, &rest[4..n])?;
        println!(rt; "-")?;
        rest = &rest[n..];
    }
    Ok(())
}

fn main(rt: HostRuntime) -> io::Result<()> {
    let mut input = buffer();
    let n = read_full(&mut rt.reader(), &mut input)?;
    cases(&rt, &input[..n])
}

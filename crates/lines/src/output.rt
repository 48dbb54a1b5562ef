// Lines on standard output.
ghost use Rattle.std.specs.Prelude.{◌≡◌, None, Ok};

use crate::{Line, put};
use std::io;
use std::io::Write;

// Writes the line's text, byte for byte (`Display` would write a letter above 127 as two). No clause says so: the library's contracts name no byte of standard output.
pub fn print(rt: &impl Print, line: Line) -> io::Result<()> {
    let mut out = [0u8; 160];
    let n = put(line, &mut out);
    io::writer(rt).write_all(&out[..n])
}

// Writes the line, if there is one.
pub fn say(rt: &impl Print, line: Option<Line>) -> io::Result<()>
    ensures { line ≡ None → result ≡ Ok tt }
{
    match line {
        Some(line) => print(rt, line),
        None => Ok(()),
    }
}

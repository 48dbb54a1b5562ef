// Answers operations on the checksum, so that its answers can be compared with the Rust's (oracle/README.md has the form).
// `E` row place: an entry of the table. `C`, `P`, `L` seed length bytes: `crc8`, the plain path, the path with a lent table.
#![tactic(auto)]

ghost use Rattle.std.specs.Prelude.{◌<◌, length, IfSome};
ghost use Rattle.crc.specs.Rows.{Table};

use std::io;
use std::io::Read;

// An entry's place in the table.
#[derive(Clone, Copy)]
struct Place {
    row: u8,
    column: u8,
    ghost in_table: { row < 8 },
}

impl Place {
    // None where the table has no such row.
    fn new(row: u8, column: u8) -> Option<Place> {
        if row < 8 {
            Some(Place { row, column })
        } else {
            None
        }
    }
}

// A seed, and the bytes behind it.
#[derive(Clone, Copy)]
struct Message<'a> {
    seed: u16,
    bytes: &'a [u8],
}

#[derive(Clone, Copy)]
enum Operation<'a> {
    Entry(Place),
    Whole(Message<'a>),
    Plain(Message<'a>),
    Lent(Message<'a>),
}

impl Operation<'_> {
    fn answer(self, rows: &[[u16; 256]; 8]) -> u16
        requires { Table rows.now }
    {
        match self {
            Operation::Entry(at) => rows[usize::from(at.row)][usize::from(at.column)],
            Operation::Whole(m) => crc::crc8(m.seed, m.bytes),
            Operation::Plain(m) => crc::crc8_plain(m.seed, m.bytes),
            Operation::Lent(m) => crc::by_eight(rows, m.seed, m.bytes),
        }
    }
}

// The operation that begins s, and what stands behind it. None where it is malformed.
fn first(s: &[u8]) -> Option<(Operation<'_>, &[u8])>
    ensures { IfSome result (λ r. length r.1.now < length s.now) }
{
    let (&[letter, low, high], rest) = s.split_first_chunk::<3>()?;
    if letter == b'E' {
        return Some((Operation::Entry(Place::new(low, high)?), rest));
    }
    let (count, rest) = rest.split_first_chunk::<4>()?;
    let (bytes, rest) = rest.split_at_checked(u32::from_le_bytes(*count) as usize)?;
    let message = Message {
        seed: u16::from_le_bytes([low, high]),
        bytes,
    };
    match letter {
        b'C' => Some((Operation::Whole(message), rest)),
        b'P' => Some((Operation::Plain(message), rest)),
        b'L' => Some((Operation::Lent(message), rest)),
        _ => None,
    }
}

// Whether s is operations and nothing else.
// `crc_replay`, `heads_replay` and `replay` each have this loop and one that answers: one for all would take a closure with clauses on what it leaves, and be no plainer.
fn is_operations(s: &[u8]) -> bool {
    let mut rest = s;
    while let Some((_, behind)) = first(rest) {
        rest = behind;
    }
    rest.is_empty()
}

// A line for each operation. The lent path, letter `L`, asks for the table's rule.
fn print_answers(rt: &impl Print, rows: &[[u16; 256]; 8], s: &[u8]) -> io::Result<()>
    requires { Table rows.now }
{
    let mut rest = s;
    while let Some((operation, behind)) = first(rest) {
        println!(rt; "{}", operation.answer(rows))?;
        rest = behind;
    }
    Ok(())
}

fn main(rt: HostRuntime) -> io::Result<()> {
    // Two lines of the library's, in each program: a crate for them would be no plainer.
    let mut input = Vec::new(rt.alloc());
    rt.reader().take(65536).read_to_end(&mut input)?;
    if input.len() > 60000 || !is_operations(&input) {
        return println!(rt; "I");
    }
    print_answers(&rt, &crc::table(), &input)
}

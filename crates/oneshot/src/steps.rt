// The entries of a map once more, one at a time, and the record of each one's object.
ghost use Rattle.std.specs.Prelude.{◌≡◌, ◌<◌, ◌^◌};
ghost use Rattle.oneshot.specs.Cursor.{opened_of, in_hand, step_of};

use crate::objects::{blank, record_at};
use streaming::ObjectRecord;
use survey::entries::{Named, entry_at};
use survey::sums::be16_at;

// Where the filling stands in the map: the place of the next chunk, the entries that are left of the one in hand, and the object that the last entry led to.
// Whether it is R2000 stays a bool, as the definitions (`first_cursor`, `record_at`) have it.
#[derive(Clone, Copy)]
pub struct Cursor {
    pub r2000: bool,
    pub chunk: usize,
    pub at: usize,
    pub end: usize,
    pub last: Named,
}

// One step: a record, and where the next step stands.
#[derive(Clone, Copy)]
pub struct Visit {
    pub object: ObjectRecord,
    pub next: Cursor,
}

// The next chunk, if it lies in the source, else the cursor as it is, as its definition says. Handle and location restart at 0.
fn opened(src: &[u8], c: Cursor) -> Cursor
    ensures { result ≡ opened_of src.now c }
{
    let chunk = c.chunk;
    let left = src.len().saturating_sub(chunk);
    if left < 2 {
        return c;
    }
    let size = be16_at(src, chunk) as usize;
    if left < size + 2 {
        return c;
    }
    Cursor {
        chunk: chunk + size + 2,
        at: chunk + 2,
        end: chunk + size,
        last: Named {
            handle: 0,
            location: 0,
        },
        ..c
    }
}

// The chunk with the next entry.
fn in_hand(src: &[u8], c: Cursor) -> Cursor
    ensures { result ≡ in_hand src.now c }
{
    if c.at == c.end {
        return opened(src, c);
    }
    c
}

// One step of the filling. Where no entry leads on it stays where it is.
pub fn next_of(src: &[u8], c: Cursor) -> Visit
    ensures { result ≡ step_of src.now c }
{
    let c = in_hand(src, c);
    match entry_at(src, c.at, c.end, c.last) {
        Ok(entry) => Visit {
            object: record_at(src, c.r2000, entry.to),
            next: Cursor {
                at: c.at + entry.bytes,
                last: entry.to,
                ..c
            },
        },
        Err(_) => Visit {
            object: blank(),
            next: c,
        },
    }
}

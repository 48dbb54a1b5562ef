// The walk of the object map: its chunks, the entries inside them, and behind each entry its object.
ghost use Rattle.std.specs.Prelude.{◌≡◌, ◌<◌, ◌≤◌, ◌^◌, length};
ghost use Rattle.rules.specs.Header.{map_start, map_size};
ghost use Rattle.rules.specs.PlainList.{Listing, chunks_from};
ghost use Rattle.survey.specs.Counting.{counted, visit_goes, entries_on, GoesAhead};

use crate::Ending;
use crate::chunks::broken;
use crate::entries::{Named, entry_at};
use crate::source::Source;
use flat::ended_by;
use streaming::{Fault, StreamError};

// Where the walk stands in a chunk: its next byte, and the object that the last entry led to.
#[derive(Clone, Copy, PartialEq, Eq)]
pub struct Cursor {
    pub at: usize,
    pub last: Named,
}

// What the walk of the map comes to: the number of its objects, and its ending.
#[derive(Clone, Copy)]
pub struct Counted {
    pub count: usize,
    pub ending: Result<(), StreamError>,
}

impl<'a> Source<'a> {
    // The next entry of a chunk whose entries end there, and its object: where the walk goes on behind them.
    fn next_of(&self, end: usize, c: Cursor) -> Result<Cursor, Ending>
        requires { (c.at < end) × (end ≤ length self.now.bytes.now) }
        ensures goes { (rest : Listing) → counted (entries_on self.now.header self.now.bytes.now end c rest) ≡ visit_goes self.now.header self.now.bytes.now end result rest }
        ensures ahead { GoesAhead c end result }
    {
        match entry_at(self.bytes, c.at, end, c.last) {
            Err(n) => Err(broken(Fault::MapEntry((c.at + n - 1) as u64))),
            Ok(entry) => {
                self.object_at(entry.to)?;
                Ok(Cursor {
                    at: c.at + entry.bytes,
                    last: entry.to,
                })
            }
        }
    }

    // Chunk by chunk, and in each entry by entry, up to a fault, a stall or the final chunk. In each chunk handle and location restart at 0.
    // Nested loops, left by a label: document 01's named form.
    pub fn walk_map(&self) -> Counted
        ensures { result ≡ counted (chunks_from self.now.header self.now.bytes.now (map_size self.now.header) (map_start self.now.header)) }
    {
        let mut count = 0;
        let mut chunk = header::map_start(self.header) as usize;
        let ending = 'map: loop {
            let size = match self.chunk_at(chunk) {
                Ok(size) => size,
                Err(q) => break 'map q,
            };
            let end = chunk + size;
            let mut c = Cursor {
                at: chunk + 2,
                last: Named {
                    handle: 0,
                    location: 0,
                },
            };
            while c.at < end {
                c = match self.next_of(end, c) {
                    Ok(next) => next,
                    Err(q) => break 'map q,
                };
                count += 1;
            }
            chunk = end + 2;
        };
        Counted {
            count,
            ending: ended_by(ending),
        }
    }
}

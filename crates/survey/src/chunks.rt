// A chunk of the object map of a source in hand (§23.1).
ghost use Rattle.std.specs.Prelude.{◌≡◌, ◌+◌, ◌<◌, ◌^◌, IfOk};
ghost use Rattle.account.specs.Account.{broken};
ghost use Rattle.rules.specs.Map.{chunk_size};
ghost use Rattle.rules.specs.PlainList.{Listing, chunk_then};
ghost use Rattle.survey.specs.Goes.{chunk_goes, EntriesFit};

use crate::Ending;
use crate::source::Source;
use crate::sums::{be16_at, sum_at};
use streaming::{Fault, StreamError};

// What is asked ever after a fault.
pub fn broken(f: Fault) -> Ending
    ensures { result ≡ broken f }
{
    Err(StreamError::Fault(f))
}

impl<'a> Source<'a> {
    // The size of the chunk at a place, which with its checksum is looked at. A chunk with no entries ends the walk, and has to end the map.
    pub fn chunk_at(&self, chunk: usize) -> Result<usize, Ending>
        requires { chunk < 2 ^ 34 }
        ensures goes { (rest : Listing) → chunk_then self.now.header self.now.bytes.now chunk (chunk_size self.now.bytes.now chunk) rest ≡ chunk_goes self.now.header self.now.bytes.now chunk result rest }
        ensures fits { EntriesFit self.now.header self.now.bytes.now chunk result }
        ensures near { IfOk result (λ size. chunk + size + 2 < 2 ^ 33) }
    {
        let misplaced = broken(Fault::MapChunk(chunk as u64));
        let end = header::map_end(self.header) as usize;
        if end < chunk + 4 {
            return Err(misplaced);
        }
        let size = be16_at(self.bytes, chunk) as usize;
        // 2,034 stands as a number, as the rules have it and the stage.
        if !((2 <= size) & (size <= 2034) & (chunk + size + 2 <= end)) {
            return Err(misplaced);
        }
        let computed = sum_at(self.bytes, chunk, size);
        let stored = be16_at(self.bytes, chunk + size);
        if stored != computed {
            return Err(broken(Fault::MapCrc {
                chunk: chunk as u64,
                expected: computed,
                actual: stored,
            }));
        }
        if size != 2 {
            return Ok(size);
        }
        if chunk + 4 == end {
            return Err(Ok(None));
        }
        Err(misplaced)
    }
}

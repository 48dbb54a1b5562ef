// What is decided where a number of a chunk is whole: its size, or its checksum.
ghost use Rattle.std.specs.Prelude.{◌≡◌, take};
ghost use Rattle.octets.specs.Octets.{big_endian};
ghost use Rattle.chunk.specs.Chunk.{settle_chunk_size, settle_chunk, settle_chunk_crc};

use crate::{Chunk, SEED, at_chunk};
use streaming::{Fault, Fed, FlatWalker, MapCursor, Stage, Step, fell, go_on};

// The number in the first two bytes of a field, highest byte first.
pub fn number_in(field: [u8; 4]) -> u16
    ensures { result ≡ big_endian (take 2 field) }
{
    octets::be16(field[0], field[1])
}

impl Chunk {
    // The size is whole: the chunk has to fit the map.
    pub(crate) fn settle_size(self, field: [u8; 4], size: u32) -> Fed
        ensures { result ≡ settle_chunk_size self.walker field size }
    {
        let s = self.walker;
        let m = s.map;
        let end = header::map_end(s.header);
        if (2 <= size) & (size <= 2034) & (m.chunk + size as u64 + 2 <= end) {
            let crc = crc::crc8(SEED, &field[0..2]);
            return go_on(s, 2, size, crc, field);
        }
        fell(Fault::MapChunk(m.chunk), s)
    }

    // The checksum holds. Size 2 ends the walk, and has to end the map; any other size is of entries.
    fn settle(self, field: [u8; 4]) -> Fed
        ensures { result ≡ settle_chunk self.walker field }
    {
        let s = self.walker;
        let m = s.map;
        if s.size == 2 {
            let end = header::map_end(s.header);
            if m.chunk + 4 == end {
                return Fed {
                    answer: Ok(Step::Finished),
                    state: FlatWalker {
                        stage: Stage::Done,
                        done: 4,
                        size: 2,
                        field,
                        ..s
                    },
                };
            }
            return fell(Fault::MapChunk(m.chunk), s);
        }
        let first = MapCursor {
            len: s.size,
            at: m.chunk + 2,
            ..at_chunk(m.chunk)
        };
        Fed {
            answer: Ok(Step::Framing),
            state: FlatWalker {
                stage: Stage::Entry,
                done: s.size + 2,
                field,
                map: first,
                ..s
            },
        }
    }

    // The checksum is whole.
    pub(crate) fn settle_crc(self, field: [u8; 4], stored: u16) -> Fed
        ensures { result ≡ settle_chunk_crc self.walker field stored }
    {
        let s = self.walker;
        let m = s.map;
        if stored == s.crc {
            return self.settle(field);
        }
        fell(
            Fault::MapCrc {
                chunk: m.chunk,
                expected: s.crc,
                actual: stored,
            },
            s,
        )
    }
}

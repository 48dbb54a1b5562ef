// Stage Chunk: a chunk of the object map, its size, its entries and its checksum, before the entries are walked.
#![tactic(auto)]

ghost use Rattle.std.specs.Prelude.{◌≡◌, true, ◌+◌, ◌<◌, ◌≤◌, ◌^◌, length};
ghost use Rattle.streaming.specs.State.{at_chunk};
ghost use Rattle.chunk.specs.Chunk.{enter_chunk, request_chunk};
ghost use Rattle.chunk.specs.Chunk.{feed_chunk_size, feed_chunk_entries, feed_chunk_crc, feed_chunk};
ghost use Rattle.chunk.specs.Fit.{no_object, no_entry, chunk_done, fit_chunk, in_chunk, FitChunk, InChunk};

use streaming::{
    Fault, Fed, FlatHeader, FlatWalker, MapCursor, Request, Stage, Unit, failing, go_on,
};

mod settle;

// Every checksum of a drawing starts from this seed.
pub const SEED: u16 = 0xC0C1;

// The map's cursor at a chunk whose size is not known yet.
pub fn at_chunk(chunk: u64) -> MapCursor
    ensures { result ≡ at_chunk chunk }
{
    MapCursor {
        chunk,
        len: 0,
        at: 0,
        handle: 0,
        loc: 0,
        mc: 0,
        shift: 0,
        field: 0,
    }
}

// The walk at a chunk's first byte. A chunk that can't hold a size and a checksum is a fault, which is told by the next call.
pub fn enter_chunk(s: FlatWalker, chunk: u64) -> FlatWalker
    requires { chunk < 2 ^ 34 }
    ensures { result ≡ enter_chunk s chunk }
{
    let end = header::map_end(s.header);
    let t = FlatWalker {
        stage: Stage::Chunk,
        done: 0,
        size: 0,
        head: [0; 16],
        object: 0,
        ms_len: 0,
        words: 0,
        map: at_chunk(chunk),
        ..s
    };
    if chunk + 4 <= end {
        return t;
    }
    failing(t, Fault::MapChunk(chunk))
}

// Whether nothing of an object is held. The four fields are no struct of their own that `==` could compare.
pub fn no_object(s: FlatWalker) -> bool
    ensures { result ≡ no_object s }
{
    ((s.object == 0) & (s.ms_len == 0)) & ((s.words == 0) & (s.head == [0; 16]))
}

// Whether nothing of the map is held but a chunk's place.
pub fn no_entry(m: MapCursor) -> bool
    ensures { result ≡ no_entry m }
{
    m == at_chunk(m.chunk)
}

// Whether the chunk whose entries are walked lies in the map.
pub fn in_chunk(h: FlatHeader, m: MapCursor) -> bool
    ensures { (result ≡ in_chunk h m) × (result ≡ true → InChunk h m) }
{
    let start = header::map_start(h);
    let end = header::map_end(h);
    if end < m.chunk {
        return false;
    }
    let len = m.len as u64;
    ((3 <= len) & (len <= 2034)) & ((start <= m.chunk) & (m.chunk + len + 2 <= end))
}

// Whether the chunk is as far as a walk can be: its size, once it is known, fits a map that ends there.
fn chunk_done(end: u64, chunk: u64, done: u32, size: u32) -> bool
    requires { chunk < 2 ^ 33 }
    ensures { result ≡ chunk_done end chunk done size }
{
    if done < 2 {
        return size == 0;
    }
    ((2 <= size) & (size <= 2034))
        & ((chunk + size as u64 + 2 <= end) & ((done as u64) < size as u64 + 2))
}

// Whether a walk can reach the state in this stage.
pub fn fit_chunk(s: FlatWalker) -> bool
    ensures { (result ≡ fit_chunk s) × (result ≡ true → FitChunk s) }
{
    let h = s.header;
    let m = s.map;
    let start = header::map_start(h);
    let end = header::map_end(h);
    if end < m.chunk {
        return false;
    }
    let fresh = no_object(s) & no_entry(m);
    let done = chunk_done(end, m.chunk, s.done, s.size);
    fresh & ((start <= m.chunk) & (m.chunk + 4 <= end)) & done
}

// A walk in a chunk.
#[derive(Clone, Copy)]
pub struct Chunk {
    walker: FlatWalker,
    ghost fit: { FitChunk walker },
}

impl Unit for Chunk {
    ghost is_fit = { fit_chunk };

    ghost request_of = { request_chunk };

    ghost feed_of = { feed_chunk };

    ghost walker = { λ unit. unit.walker };

    // Inlined, so that the state is not copied for the answer.
    #[inline(always)]
    fn of(s: FlatWalker) -> Option<Self> {
        if fit_chunk(s) {
            return Some(Chunk { walker: s });
        }
        None
    }

    // What is left of the size, of the entries or of the checksum. `feed` makes the same tests, as both definitions do: an enum of the field in hand would be
    // one account more.
    fn request(self) -> Request {
        let s = self.walker;
        let d = s.done;
        let m = s.map;
        let offset = m.chunk + d as u64;
        if d < 2 {
            return Request {
                offset,
                len: (2 - d) as u64,
            };
        }
        if d < s.size {
            return Request {
                offset,
                len: (s.size - d) as u64,
            };
        }
        Request {
            offset,
            len: (s.size + 2 - d) as u64,
        }
    }

    // An empty piece may come too.
    fn feed(self, piece: &[u8]) -> Fed
        requires { length piece.now ≤ (request_chunk self.walker).len }
        ensures { result ≡ feed_chunk self.walker piece.now }
    {
        let s = self.walker;
        if s.done < 2 {
            return self.feed_size(piece);
        }
        if s.done < s.size {
            return self.feed_entries(piece);
        }
        self.feed_crc(piece)
    }
}

impl Chunk {
    // A piece of the size.
    fn feed_size(self, piece: &[u8]) -> Fed
        requires { self.walker.done + length piece.now ≤ 2 }
        ensures { result ≡ feed_chunk_size self.walker piece.now }
    {
        let s = self.walker;
        let mut field = s.field;
        octets::copy_in(&mut field, s.done as usize, piece);
        let done = s.done + piece.len() as u32;
        if done == 2 {
            return self.settle_size(field, settle::number_in(field) as u32);
        }
        go_on(s, done, s.size, s.crc, field)
    }

    // A piece of the entries, which are only summed until the checksum holds.
    #[tactic(auto, unfolding(crate::specs::Chunk::feed_chunk_entries))]
    fn feed_entries(self, piece: &[u8]) -> Fed
        requires { self.walker.done + length piece.now ≤ self.walker.size }
        ensures { result ≡ feed_chunk_entries self.walker piece.now }
    {
        let s = self.walker;
        let done = s.done + piece.len() as u32;
        let crc = crc::crc8(s.crc, piece);
        let field = s.field;
        go_on(s, done, s.size, crc, field)
    }

    // A piece of the checksum.
    fn feed_crc(self, piece: &[u8]) -> Fed
        requires begun { self.walker.size ≤ self.walker.done }
        requires fits { self.walker.done + length piece.now ≤ self.walker.size + 2 }
        ensures { result ≡ feed_chunk_crc self.walker piece.now }
    {
        let s = self.walker;
        let mut field = s.field;
        octets::copy_in(&mut field, (s.done - s.size) as usize, piece);
        let done = s.done + piece.len() as u32;
        if done == s.size + 2 {
            return self.settle_crc(field, settle::number_in(field));
        }
        go_on(s, done, s.size, s.crc, field)
    }
}

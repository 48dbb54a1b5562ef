// Stage Object: an object of the drawing is entered, asked for and fed: its size words, its data and its checksum.
#![tactic(auto)]

ghost use Rattle.std.specs.Prelude.{◌≡◌, ◌+◌, ◌-◌, ◌%◌, ◌<◌, ◌≤◌, ◌^◌, length, take};
ghost use Rattle.std.proofs.lemmas.List.Edits.{sets};
ghost use Rattle.rules.specs.Object.{may_start};
ghost use Rattle.object.specs.Object.{enter_object, object_end, request_object, feed_word, feed_object_data, feed_object_crc, feed_object};
ghost use Rattle.object.specs.Fit.{fit_object, FitObject};

use header::{header_end, map_end, map_start};
use streaming::{
    Fault, Fed, FlatHeader, FlatWalker, Part, Request, Stage, Step, Unit, fell, go_on, in_unit,
    stepped, with_object,
};

pub mod fit;
pub mod verdict;
pub mod words;

// The farthest location.
pub const FARTHEST: u64 = i64::MAX as u64;

// A walk in an object.
#[derive(Clone, Copy)]
pub struct Object {
    walker: FlatWalker,
    ghost fit: { FitObject walker },
    // Size words, data and checksum.
    ghost span: { walker.ms_len + walker.size + 2 < 2 ^ 31 },
    // The map ends below 2^33, and the chunk lies in it.
    ghost chunk_end: { walker.map.chunk + walker.map.len < 2 ^ 33 },
}

impl Unit for Object {
    ghost is_fit = { fit_object };

    ghost request_of = { request_object };

    ghost feed_of = { feed_object };

    ghost walker = { λ unit. unit.walker };

    // Inlined, so that the state is not copied for the answer.
    #[inline(always)]
    fn of(s: FlatWalker) -> Option<Self> {
        if fit::fit_object(s) {
            return Some(Object { walker: s });
        }
        None
    }

    fn request(self) -> Request {
        let done = self.walker.done as u64;
        Request {
            offset: self.walker.object + done,
            len: self.demand_end() - done,
        }
    }

    // An empty piece may come too.
    fn feed(self, piece: &[u8]) -> Fed
        requires { length piece.now ≤ (request_object self.walker).len }
        ensures { result ≡ feed_object self.walker piece.now }
    {
        if self.walker.ms_len == 0 {
            return self.feed_word(piece);
        }
        if self.walker.done < self.walker.ms_len as u32 + self.walker.size {
            return self.feed_data(piece);
        }
        self.feed_crc(piece)
    }
}

impl Object {
    // Where the demand ends: a word of the size, the data, the checksum.
    fn demand_end(self) -> u64
        ensures { result ≡ object_end self.walker.done self.walker.size self.walker.ms_len }
    {
        let done = self.walker.done as u64;
        let data_end = self.walker.ms_len as u64 + self.walker.size as u64;
        if self.walker.ms_len == 0 {
            return done - done % 2 + 2;
        }
        if done < data_end {
            return data_end;
        }
        data_end + 2
    }

    // A piece of a size word.
    fn feed_word(self, piece: &[u8]) -> Fed
        requires { (self.walker.ms_len ≡ 0) × (self.walker.done % 2 + length piece.now ≤ 2) }
        ensures { result ≡ feed_word self.walker piece.now }
    {
        let s = self.walker;
        let crc = crc::crc8(s.crc, piece);
        let mut field = s.field;
        octets::copy_in(&mut field, (s.done % 2) as usize, piece);
        let done = s.done + piece.len() as u32;
        if done % 2 == 0 {
            return self.settle_word(done, crc, field, words::word_in(field));
        }
        go_on(s, done, s.size, crc, field)
    }

    // A piece of the data.
    fn feed_data(self, piece: &[u8]) -> Fed
        requires { (self.walker.ms_len ≤ self.walker.done) × (self.walker.done + length piece.now ≤ self.walker.ms_len + self.walker.size) }
        ensures { result ≡ feed_object_data self.walker piece.now }
    {
        let s = self.walker;
        let crc = crc::crc8(s.crc, piece);
        let at = s.done - s.ms_len as u32;
        let head = kept(s.head, at as usize, piece);
        let done = s.done + piece.len() as u32;
        let t = in_unit(s, s.stage, done, s.size, crc, s.field);
        stepped(
            Step::Payload(Part::Object),
            with_object(t, head, s.object, s.ms_len, s.words),
        )
    }

    // A piece of the checksum.
    fn feed_crc(self, piece: &[u8]) -> Fed
        requires { (self.walker.ms_len + self.walker.size ≤ self.walker.done) × (self.walker.done + length piece.now ≤ self.walker.ms_len + self.walker.size + 2) }
        ensures { result ≡ feed_object_crc self.walker piece.now }
    {
        let s = self.walker;
        let data_end = s.ms_len as u32 + s.size;
        let mut field = s.field;
        octets::copy_in(&mut field, (s.done - data_end) as usize, piece);
        let done = s.done + piece.len() as u32;
        if done == data_end + 2 {
            return self.settle_object_crc(field, words::word_in(field));
        }
        go_on(s, done, s.size, s.crc, field)
    }
}

// Whether an object may start at a location: behind the header, two bytes inside the source, and not in the map.
#[tactic(auto, unfolding(rules::specs::Object::may_start))]
pub fn may_start(h: FlatHeader, location: u64) -> bool
    ensures { result ≡ may_start h location }
{
    let from = map_start(h);
    let end = map_end(h);
    (header_end(h) <= location)
        & (2 <= h.length && location <= h.length - 2)
        & !((from <= location) & (location < end))
}

// An object is entered at once: a location where none may start is answered by the call that brings it.
pub fn enter_object(s: FlatWalker, location: u64) -> Fed
    ensures { result ≡ enter_object s location }
{
    let h = s.header;
    if may_start(h, location) {
        let t = in_unit(s, Stage::Object, 0, 0, chunk::SEED, s.field);
        return stepped(Step::Framing, with_object(t, s.head, location, 0, 0));
    }
    fell(
        Fault::ObjectRange {
            handle: s.map.handle,
            offset: location,
        },
        s,
    )
}

// The first 16 bytes of the data, with those that a piece at a place in it has.
fn kept(head: [u8; 16], at: usize, piece: &[u8]) -> [u8; 16]
    ensures { result ≡ sets head at (take (16 - at) piece.now) }
{
    let mut h = head;
    if at < 16 {
        let room = 16 - at;
        octets::copy_in(&mut h, at, &piece[..room.min(piece.len())]);
    }
    h
}

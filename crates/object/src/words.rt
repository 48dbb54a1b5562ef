// An object's size: one or two words of 15 bits, the low one first.
ghost use Rattle.std.specs.Prelude.{◌≡◌, ◌*◌, ◌%◌, ◌<◌, ◌≤◌, ◌^◌, take};
ghost use Rattle.std.specs.Int.Bits.{bit_or};
ghost use Rattle.octets.specs.Octets.{little_endian};
ghost use Rattle.rules.specs.Object.{may_end};
ghost use Rattle.object.specs.Object.{settle_object_size, settle_word};

use crate::Object;
use header::{map_end, map_start};
use streaming::{Fault, Fed, FlatHeader, fell, go_on, with_object};

// Whether an object may end there: inside the source, with no byte of the map in its span.
#[tactic(auto, unfolding(rules::specs::Object::may_end))]
pub fn may_end(h: FlatHeader, location: u64, end: u64) -> bool
    ensures { result ≡ may_end h location end }
{
    let from = map_start(h);
    let map_end = map_end(h);
    (end <= h.length) & !((location < map_end) & (from < end))
}

// The number in the first two bytes of a field.
pub fn word_in(field: [u8; 4]) -> u16
    ensures { result ≡ little_endian (take 2 field) }
{
    octets::le16(field[0], field[1])
}

// The size with a word's 15 bits.
fn with_word(size: u32, words: u8, word: u16) -> u32
    requires { words ≤ 1 }
    ensures { result ≡ bit_or size (word % 0x8000 * 2 ^ (15 * words)) }
{
    size | ((word & 0x7fff) as u32) << (15 * words)
}

impl Object {
    // The size is known, and with it the object's end.
    fn settle_object_size(self, done: u32, size: u32, crc: u16, field: [u8; 4]) -> Fed
        requires { done ≤ 4 }
        ensures { result ≡ settle_object_size self.walker done size crc field }
    {
        let s = self.walker;
        if size == 0 {
            return fell(Fault::ObjectSize(s.map.handle), s);
        }
        if may_end(s.header, s.object, s.object + done as u64 + size as u64 + 2) {
            let t = with_object(s, s.head, s.object, done as u8, s.words + 1);
            return go_on(t, done, size, crc, field);
        }
        fell(
            Fault::ObjectRange {
                handle: s.map.handle,
                offset: s.object,
            },
            s,
        )
    }

    // A word is whole: 15 bits of the size, and whether a second word follows.
    pub fn settle_word(self, done: u32, crc: u16, field: [u8; 4], word: u16) -> Fed
        requires { (self.walker.words ≤ 1) × (done ≤ 4) }
        ensures { result ≡ settle_word self.walker done crc field word }
    {
        let s = self.walker;
        let size = with_word(s.size, s.words, word);
        if word < 0x8000 {
            return self.settle_object_size(done, size, crc, field);
        }
        if s.words == 0 {
            let t = with_object(s, s.head, s.object, 0, 1);
            return go_on(t, done, size, crc, field);
        }
        fell(Fault::ObjectSize(s.map.handle), s)
    }
}

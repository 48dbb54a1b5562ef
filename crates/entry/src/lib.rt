// Stage Entry: an entry of the object map is asked for byte by byte, and what a byte of it does.
#![tactic(auto)]

ghost use Rattle.std.specs.Prelude.{true, ◌≡◌, ◌+◌, ◌/◌, ◌%◌, ◌^◌, ◌<◌, ltb, eqb, get_or};
ghost use Rattle.entry.specs.Entry.{request_entry, bits_of, at_last, moved_by, moved_to};
ghost use Rattle.entry.specs.Entry.{refused_entry, settle_location, settle_handle, more_groups, settle_group, feed_entry};
ghost use Rattle.entry.specs.Fit.{at_byte, entry_consistent, fit_entry, FitEntry};

use object::FARTHEST;
use streaming::{Fault, Fed, FlatWalker, MapCursor, Request, Step, Unit, fell, stepped};

// A walk in an entry of the map.
#[derive(Clone, Copy)]
pub struct Entry {
    walker: FlatWalker,
    ghost fit: { FitEntry walker },
    // The map ends below 2^33, and the chunk lies in it.
    ghost chunk_end: { walker.map.chunk + walker.map.len < 2 ^ 33 },
}

impl Unit for Entry {
    ghost is_fit = { fit_entry };

    ghost request_of = { request_entry };

    ghost feed_of = { λ s piece. feed_entry s (get_or piece 0 0) };

    ghost walker = { λ unit. unit.walker };

    // Inlined, so that the state is not copied for the answer.
    #[inline(always)]
    fn of(s: FlatWalker) -> Option<Self> {
        if fit_entry(s) {
            return Some(Entry { walker: s });
        }
        None
    }

    // An entry is asked for one byte at a time.
    #[tactic(auto, unfolding(crate::specs::Entry::request_entry))]
    fn request(self) -> Request {
        Request {
            offset: self.walker.map.at,
            len: 1,
        }
    }

    // A tenth byte is refused before anything else.
    #[tactic(auto, using(crate::proofs::Tenth::tenth_refused))]
    fn feed(self, piece: &[u8]) -> Fed {
        let m = self.walker.map;
        if 56 < m.shift {
            return self.refused();
        }
        let byte = piece[0];
        let bits = bits_of(byte, m.field);
        self.settle_group(byte, m.mc | bits << m.shift)
    }
}

impl Entry {
    // Whether the byte is the chunk's last.
    fn at_last(self) -> bool
        ensures { result ≡ at_last self.walker.map }
    {
        let m = self.walker.map;
        m.at + 1 == m.chunk + m.len as u64
    }

    // The entry is refused at the place of its next byte.
    fn refused(self) -> Fed
        ensures { result ≡ refused_entry self.walker }
    {
        let s = self.walker;
        fell(Fault::MapEntry(s.map.at), s)
    }

    // The location is whole: its object is entered at once.
    fn settle_location(self, byte: u8, value: u64) -> Fed
        ensures { result ≡ settle_location self.walker (moved_by (eqb (byte / 0x40 % 2) 1) self.walker.map.loc value) }
    {
        let s = self.walker;
        let m = s.map;
        let Some(location) = moved_by(is_back(byte), m.loc, value) else {
            return self.refused();
        };
        let map = MapCursor {
            at: m.at + 1,
            loc: location,
            mc: 0,
            shift: 0,
            field: 0,
            ..m
        };
        object::enter_object(FlatWalker { map: map, ..s }, location)
    }

    // The handle delta is whole.
    fn settle_handle(self, value: u64) -> Fed
        ensures { result ≡ settle_handle self.walker value }
    {
        let s = self.walker;
        let m = s.map;
        let Some(handle) = m.handle.checked_add(value) else {
            return self.refused();
        };
        if self.at_last() {
            return self.refused();
        }
        let map = MapCursor {
            at: m.at + 1,
            handle: handle,
            mc: 0,
            shift: 0,
            field: 1,
            ..m
        };
        stepped(Step::Framing, FlatWalker { map: map, ..s })
    }

    // More bytes of the delta follow.
    fn more_groups(self, value: u64) -> Fed
        ensures { result ≡ more_groups self.walker value }
    {
        if self.at_last() {
            return self.refused();
        }
        let s = self.walker;
        let m = s.map;
        let map = MapCursor {
            at: m.at + 1,
            mc: value,
            shift: m.shift + 7,
            ..m
        };
        stepped(Step::Framing, FlatWalker { map: map, ..s })
    }

    // The delta with this byte's bits.
    fn settle_group(self, byte: u8, value: u64) -> Fed
        ensures { result ≡ settle_group self.walker byte value }
    {
        if !is_last(byte) {
            return self.more_groups(value);
        }
        if self.walker.map.field == 0 {
            return self.settle_handle(value);
        }
        self.settle_location(byte, value)
    }
}

// Whether the byte is the last of its delta.
fn is_last(byte: u8) -> bool
    ensures { result ≡ ltb byte 0x80 }
{
    byte & 0x80 == 0
}

// Whether the last byte of a location moves it back.
#[tactic(auto, using(crate::proofs::Masks::sign_bit))]
fn is_back(byte: u8) -> bool
    ensures { result ≡ eqb (byte / 0x40 % 2) 1 }
{
    byte & 0x40 != 0
}

// The bits of a byte that count.
fn bits_of(byte: u8, field: u8) -> u64
    ensures { result ≡ bits_of byte field }
{
    if is_last(byte) & (field == 1) {
        return (byte & 0x3f) as u64;
    }
    (byte & 0x7f) as u64
}

// A location moved back or ahead. `survey` has another: on a forged location of 2^63 or more a negative zero stays here, as in the Rust.
fn moved_by(back: bool, location: u64, value: u64) -> Option<u64>
    ensures { result ≡ moved_to (moved_by back location value) }
{
    if back {
        return location.checked_sub(value);
    }
    let to = location.checked_add(value)?;
    if FARTHEST < to {
        return None;
    }
    Some(to)
}

// Whether the next byte lies in the chunk, the chunk in the map, and at most so many bits of a delta are held.
#[tactic(auto, using(header::proofs::Bounds::map_end_below))]
fn at_byte(most: u8, s: FlatWalker) -> bool
    ensures { result ≡ at_byte most s }
{
    let h = s.header;
    let m = s.map;
    if !chunk::in_chunk(h, m) {
        return false;
    }
    ((m.chunk + 2 <= m.at) & (m.at < m.chunk + m.len as u64))
        & ((m.field <= 1) & (m.shift <= most) & (m.shift % 7 == 0) & (m.loc <= FARTHEST))
}

// The Rust's own test, which refuses 63 bits.
#[tactic(auto, unfolding(crate::specs::Fit::entry_consistent))]
pub fn entry_consistent(s: FlatWalker) -> bool
    ensures { result ≡ entry_consistent s }
{
    at_byte(56, s)
}

// Whether a walk can reach the state, in this stage.
pub fn fit_entry(s: FlatWalker) -> bool
    ensures { (result ≡ fit_entry s) × (result ≡ true → FitEntry s) }
{
    at_byte(63, s)
}

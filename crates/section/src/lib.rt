// Stages Vars and Classes: what is asked for in a section, what a piece of it does, and which states a walk can reach.
#![tactic(auto)]

ghost use Rattle.std.specs.Prelude.{◌≡◌, true, ◌≤◌, length};
ghost use Rattle.section.specs.Section.{section_end, request_section, enter_section, feed_section};
ghost use Rattle.section.specs.Fit.{section_done, fit_section, FitSection};

use chunk::{no_entry, no_object};
use hand::{part_number, section};
use header::locator;
use streaming::{Fault, Fed, FlatWalker, Request, Stage, Unit, failing, in_unit};

mod hand;
mod pieces;
pub mod sentinels;
mod settle;

// The sentinels, the size and the checksum.
const FRAME: u64 = 38;

// Where the demand ends: the sentinel, the size, the data, the checksum, the sentinel. `feed` makes the same tests, as both definitions do, in their order:
// an enum of the field in hand would be one account more.
fn section_end(done: u32, size: u32) -> u64
    ensures { result ≡ section_end done size }
{
    let d = done as u64;
    let n = size as u64;
    if d < 16 {
        return 16;
    }
    if d < 20 {
        return 20;
    }
    if d < 20 + n {
        return 20 + n;
    }
    if d < 22 + n {
        return 22 + n;
    }
    FRAME + n
}

// A section that can't hold its frame is a fault, which is told by the next call.
pub fn enter_section(s: FlatWalker, g: Stage) -> FlatWalker
    ensures { result ≡ enter_section s g }
{
    let number = part_number(g);
    let l = locator(s.header, number);
    let field = s.field;
    let t = in_unit(s, g, 0, 0, s.crc, field);
    if FRAME <= l.size as u64 {
        return t;
    }
    failing(t, Fault::SectionSize(number))
}

// How far the section is: its size, once it is known, is the locator's.
fn section_done(total: u32, done: u32, size: u32) -> bool
    ensures { result ≡ section_done total done size }
{
    if done < 20 {
        return size == 0;
    }
    FRAME + size as u64 == total as u64
}

// Whether a walk can reach the state, in these stages.
pub fn fit_section(s: FlatWalker) -> bool
    ensures { (result ≡ fit_section s) × (result ≡ true → FitSection s) }
{
    let m = s.map;
    let l = section(s);
    let fresh = no_object(s) & (no_entry(m) & (m.chunk == 0));
    let done = section_done(l.size, s.done, s.size);
    fresh & ((FRAME <= l.size as u64) & (s.done < l.size)) & done
}

// A walk in a section.
#[derive(Clone, Copy)]
pub struct Section {
    walker: FlatWalker,
    ghost fit: { FitSection walker },
}

impl Unit for Section {
    ghost is_fit = { fit_section };

    ghost request_of = { request_section };

    ghost feed_of = { feed_section };

    ghost walker = { λ unit. unit.walker };

    // Inlined, so that the state is not copied for the answer.
    #[inline(always)]
    fn of(s: FlatWalker) -> Option<Self> {
        if fit_section(s) {
            return Some(Section { walker: s });
        }
        None
    }

    fn request(self) -> Request {
        let s = self.walker;
        let l = section(s);
        let d = s.done as u64;
        let end = section_end(s.done, s.size);
        Request {
            offset: l.offset as u64 + d,
            len: end - d,
        }
    }

    // An empty piece may come too.
    fn feed(self, piece: &[u8]) -> Fed
        requires { length piece.now ≤ (request_section self.walker).len }
        ensures { result ≡ feed_section self.walker piece.now }
    {
        let s = self.walker;
        let d = s.done as u64;
        let n = s.size as u64;
        if d < 16 {
            return self.feed_start(piece);
        }
        if d < 20 {
            return self.feed_size(piece);
        }
        if d < 20 + n {
            return self.feed_data(piece);
        }
        if d < 22 + n {
            return self.feed_crc(piece);
        }
        self.feed_end(piece)
    }
}

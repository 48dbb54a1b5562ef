// What the bytes behind `H` and `W` say: a header, and a state. Each place is counted from the operation's letter.
ghost use Rattle.std.specs.Prelude.{◌≡◌, ◌≤◌, length};
ghost use Rattle.replay.specs.Parse.{locators_in, header_in, stage_in, cursor_in, state_in};

use form::locator_at;
use octets::{array_at, number_at};
use std::array;
use streaming::{FlatHeader, FlatWalker, Locator, MapCursor, Stage};

#[tactic(auto, unfolding(crate::specs::Parse::locators_in))]
fn locators(s: &[u8]) -> [Locator; 6]
    requires { 70 ≤ length s.now }
    ensures { result ≡ locators_in s.now }
{
    array::from_fn(|i| locator_at(s, 8 + 9 * i))
}

#[tactic(auto, unfolding(crate::specs::Parse::header_in))]
pub fn header(s: &[u8]) -> FlatHeader
    requires { 70 ≤ length s.now }
    ensures { result ≡ header_in s.now }
{
    FlatHeader {
        magic: array_at(s, 1),
        count: s[7],
        locators: locators(s),
        length: number_at(s, 62, 8),
    }
}

// 1 to 6, the replay form's own numbers, so no `TryFrom` of the stage's.
#[tactic(auto, unfolding(crate::specs::Parse::stage_in))]
fn stage(n: u8) -> Stage
    ensures { result ≡ stage_in n }
{
    match n {
        1 => Stage::Vars,
        2 => Stage::Classes,
        3 => Stage::Chunk,
        4 => Stage::Entry,
        5 => Stage::Object,
        _ => Stage::Done,
    }
}

#[tactic(auto, unfolding(crate::specs::Parse::cursor_in))]
fn cursor(s: &[u8]) -> MapCursor
    requires { 157 ≤ length s.now }
    ensures { result ≡ cursor_in s.now }
{
    MapCursor {
        chunk: number_at(s, 111, 8),
        len: number_at(s, 119, 4) as u32,
        at: number_at(s, 123, 8),
        handle: number_at(s, 131, 8),
        loc: number_at(s, 139, 8),
        mc: number_at(s, 147, 8),
        shift: s[155],
        field: s[156],
    }
}

#[tactic(auto, unfolding(crate::specs::Parse::state_in))]
pub fn state(s: &[u8]) -> FlatWalker
    requires { 157 ≤ length s.now }
    ensures { result ≡ state_in s.now }
{
    FlatWalker {
        header: header(s),
        stage: stage(s[70]),
        done: number_at(s, 71, 4) as u32,
        size: number_at(s, 75, 4) as u32,
        crc: number_at(s, 79, 2) as u16,
        field: array_at(s, 81),
        head: array_at(s, 85),
        object: number_at(s, 101, 8),
        ms_len: s[109],
        words: s[110],
        map: cursor(s),
        failure: None,
    }
}

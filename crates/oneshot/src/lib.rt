// The one-shot walk: the whole source in hand, one call, and the object records in a list that the caller lends.
#![tactic(auto)]

ghost use Rattle.std.specs.Prelude.{◌≡◌, ◌≤◌, length};
ghost use Rattle.survey.specs.Survey.{survey_of};
ghost use Rattle.oneshot.specs.Cursor.{first_cursor};
ghost use Rattle.oneshot.specs.OneShot.{with_room, list_after};

use header::{is_r2000, map_start};
use steps::{Cursor, next_of};
use streaming::{FlatHeader, ObjectRecord, StreamError};
use survey::entries::Named;
use survey::{Walked, survey};

mod objects;
mod steps;

// More object records than places are answered with their number, and none is written.
fn with_room(places: usize, w: Walked) -> Walked
    ensures answer { result ≡ with_room places w }
    ensures fits { result.count ≤ places }
{
    if w.count <= places {
        return w;
    }
    Walked {
        count: 0,
        ending: Err(StreamError::NoRoom(w.count as u64)),
        ..w
    }
}

// All that a walk answers, for a list of so many places.
fn answer_of(h: FlatHeader, src: &[u8], places: usize) -> Walked
    ensures answer { result ≡ with_room places (survey_of h src.now) }
    ensures fits { result.count ≤ places }
{
    with_room(places, survey(h, src))
}

// The map's first chunk is still to be opened.
fn first_of(h: FlatHeader) -> Cursor
    ensures { result ≡ first_cursor h }
{
    Cursor {
        r2000: is_r2000(h),
        chunk: map_start(h) as usize,
        at: 0,
        end: 0,
        last: Named {
            handle: 0,
            location: 0,
        },
    }
}

// The walk over the whole source. The list is written only behind its end, where it is known that every record has a place.
pub fn walk(h: FlatHeader, src: &[u8], list: &mut [ObjectRecord]) -> Walked
    ensures { (result ≡ with_room (length list.old) (survey_of h src.now))
        × (list.new ≡ list_after h src.now list.old) }
{
    let w = answer_of(h, src, list.len());
    let mut c = first_of(h);
    let front = &mut list[..w.count];
    for place in front.iter_mut() {
        let v = next_of(src, c);
        *place = v.object;
        c = v.next;
    }
    w
}

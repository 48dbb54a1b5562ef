// The one-shot walk into a list of the function's own, which is handed back by value.
#![tactic(auto)]

ghost use Rattle.std.specs.Prelude.{◌≡◌, ◌+◌, min, length, drop, take_while};
ghost use Rattle.survey.specs.Survey.{survey_of};
ghost use Rattle.oneshot.specs.OneShot.{with_room};
ghost use Rattle.listing.specs.Listing.{most_places, list_after_lent, is_mark, marked};

use oneshot::walk;
use streaming::{FlatHeader, ObjectRecord};
use survey::Walked;

// The places of the list.
pub const PLACES: usize = 4096;

// What every place holds before a walk.
const MARK: ObjectRecord = ObjectRecord {
    handle: 1,
    offset: 2,
    size: 0,
    type_code: 3,
};

// What the walk answered, and the list behind it: an array, so that `fill` can't fail for want of memory.
#[derive(Clone, Copy)]
pub struct Listed {
    pub walked: Walked,
    pub list: [ObjectRecord; PLACES],
}

// The walk with so many places, or with all that the list has. Every place is marked before it, and those that are not lent keep the mark.
pub fn fill(h: FlatHeader, src: &[u8], places: usize) -> Listed
    ensures { (result.walked ≡ with_room (min places most_places) (survey_of h src.now))
        × (result.list ≡ list_after_lent h src.now (min places most_places)) }
{
    let mut list = [MARK; PLACES];
    let n = places.min(PLACES);
    let walked = walk(h, src, &mut list[..n]);
    Listed { walked, list }
}

fn is_mark(r: ObjectRecord) -> bool
    ensures { result ≡ is_mark r }
{
    r == MARK
}

// How many places hold the mark, up to the first that does not.
fn run_of_marks(list: &[ObjectRecord]) -> usize
    ensures { result ≡ length (take_while is_mark list.now) }
{
    list.iter().take_while(|r| is_mark(**r)).count()
}

// The same from a place on. `get` is at the place at once, where `skip` would go over those before it one by one.
fn marked_from(list: &[ObjectRecord], at: usize) -> usize
    ensures { result ≡ length (take_while is_mark (drop at list.now)) }
{
    match list.get(at..) {
        Some(rest) => run_of_marks(rest),
        None => 0,
    }
}

// The first place from a place on that does not hold the mark; behind the list's end there is none that does.
pub fn first_other(list: [ObjectRecord; PLACES], at: usize) -> usize
    ensures { result ≡ at + marked (drop at list) }
{
    at + marked_from(&list, at)
}

// What the speed command times: one walk over a source in hand, by calls, in pieces of a given length, or in one call.
#![tactic(auto)]

ghost use Rattle.std.specs.Prelude.{◌≡◌, ◌<◌, ◌^◌, ◌≤◌, min, length};
ghost use Rattle.account.specs.Statement.{part};
ghost use Rattle.flat.specs.Flat.{begun_of, feed_of};
ghost use Rattle.survey.specs.Survey.{survey_of};
ghost use Rattle.walk_speed.specs.Sums.{size_in, size_of, turn_of, sum_of, locator_at, header_of, last_size, last_of};

use streaming::{
    Fed, FlatHeader, FlatWalker, Locator, NO_LOCATOR, ObjectRecord, Request, Step, StreamError,
};

// The size of the object that a step commits: a summand, so 0 for what commits none, as in its definition (`size_of` and `last_size` too).
fn size_in(step: Step) -> u64
    ensures { (result ≡ size_in step) × (result < 2 ^ 32) }
{
    match step {
        Step::Object(record) => u64::from(record.size),
        Step::Framing | Step::Payload(_) | Step::Section(_) | Step::Finished => 0,
    }
}

fn size_of(answer: Result<Step, StreamError>) -> u64
    ensures { (result ≡ size_of answer) × (result < 2 ^ 32) }
{
    match answer {
        Ok(step) => size_in(step),
        Err(_) => 0,
    }
}

// A demand is fed, at most `cut` bytes of it.
fn fed_from(s: FlatWalker, demand: Request, source: &[u8], cut: u64) -> Fed
    ensures { result ≡ feed_of s demand.offset (part source.now demand.offset (min demand.len cut)) }
{
    let offset = demand.offset;
    let from = offset.min(source.len() as u64) as usize;
    let n = demand.len.min(cut).min((source.len() - from) as u64) as usize;
    flat::feed(s, offset, &source[from..from + n])
}

#[tactic(auto, unfolding(crate::specs::Sums::turn_of))]
fn turn(s: FlatWalker, source: &[u8], cut: u64) -> Fed
    ensures { result ≡ turn_of s source.now cut }
{
    match flat::request(s) {
        Ok(Some(demand)) => fed_from(s, demand, source, cut),
        Ok(None) | Err(_) => flat::feed(s, 0, &[]),
    }
}

// The walk's first so many turns, in pieces of at most `cut` bytes: the sum of the sizes of the objects that it commits.
fn sum(begun: FlatWalker, source: &[u8], cut: u64, turns: u32) -> u64
    ensures { result ≡ sum_of turns begun source.now cut }
{
    let mut s = begun;
    let mut total = 0;
    for _ in 0..turns {
        let fed = turn(s, source, cut);
        total += size_of(fed.answer);
        s = fed.state;
    }
    total
}

fn locator(number: u8, offset: u32, size: u32) -> Locator
    ensures { result ≡ locator_at number offset size }
{
    Locator {
        number,
        offset,
        size,
    }
}

// An R2000 drawing with three locators.
fn header(
    bytes: u64,
    vars: u32,
    vars_size: u32,
    classes: u32,
    classes_size: u32,
    map: u32,
    map_size: u32,
) -> FlatHeader
    ensures { result ≡ header_of bytes vars vars_size classes classes_size map map_size }
{
    let locators = [
        locator(0, vars, vars_size),
        locator(1, classes, classes_size),
        locator(2, map, map_size),
        NO_LOCATOR,
        NO_LOCATOR,
        NO_LOCATOR,
    ];
    FlatHeader {
        magic: *b"AC1015",
        count: 3,
        locators,
        length: bytes,
    }
}

// It is walked by calls. The interface for callers in C and Rust has these parameters, here and in the two exports below.
#[unsafe(no_mangle)]
pub extern "C" fn walk_once(
    source: &[u8],
    vars: u32,
    vars_size: u32,
    classes: u32,
    classes_size: u32,
    map: u32,
    map_size: u32,
    cut: u64,
    turns: u32,
) -> u64
    ensures { result ≡ sum_of turns (begun_of (header_of (length source.now) vars vars_size classes classes_size map map_size)) source.now cut }
{
    let h = header(
        source.len() as u64,
        vars,
        vars_size,
        classes,
        classes_size,
        map,
        map_size,
    );
    match flat::start(h) {
        Ok(begun) => sum(begun, source, cut, turns),
        Err(_) => 0,
    }
}

// It is walked in one call that counts its objects.
#[unsafe(no_mangle)]
pub extern "C" fn survey_once(
    source: &[u8],
    vars: u32,
    vars_size: u32,
    classes: u32,
    classes_size: u32,
    map: u32,
    map_size: u32,
) -> u64
    ensures { result ≡ (survey_of (header_of (length source.now) vars vars_size classes classes_size map map_size) source.now).count }
{
    let h = header(
        source.len() as u64,
        vars,
        vars_size,
        classes,
        classes_size,
        map,
        map_size,
    );
    survey::survey(h, source).count as u64
}

// The size of the last of so many records, or 0. A list and a count, as in its definition. The list comes by value: lent, it would lie on the stack once more.
#[tactic(auto, unfolding(crate::specs::Sums::last_size))]
fn last_size(list: [ObjectRecord; 4096], count: usize) -> u64
    ensures { result ≡ last_size list count }
{
    let Some(last) = count.checked_sub(1) else {
        return 0;
    };
    match list.get(last) {
        Some(record) => u64::from(record.size),
        None => 0,
    }
}

// It is walked in one call that fills a list: the size of its last object.
#[unsafe(no_mangle)]
pub extern "C" fn fill_once(
    source: &[u8],
    vars: u32,
    vars_size: u32,
    classes: u32,
    classes_size: u32,
    map: u32,
    map_size: u32,
) -> u64
    ensures { result ≡ last_of (header_of (length source.now) vars vars_size classes classes_size map map_size) source.now }
{
    let h = header(
        source.len() as u64,
        vars,
        vars_size,
        classes,
        classes_size,
        map,
        map_size,
    );
    let listed = listing::fill(h, source, 4096);
    last_size(listed.list, listed.walked.count)
}

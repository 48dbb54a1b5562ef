// The one-shot walk on an input in the driver's form, with lists of several lengths. What the list holds behind its records is looked at too.
#![tactic(auto)]

ghost use Rattle.std.specs.Prelude.{◌≤◌};

use lines::{Line, print, say, section};
use listing::{Listed, PLACES};
use std::io;
use std::io::Read;
use streaming::{FlatHeader, ObjectRecord, StreamError};

// A line that could not be written stops nothing: the lines behind it are tried all the same, and the first error is answered in the end.
fn tell_objects(rt: &impl Print, objects: &[ObjectRecord]) -> io::Result<()> {
    let mut written = Ok(());
    for r in objects {
        written = written.and(print(rt, lines::object(*r)));
    }
    written
}

// Why the walk ended, unless it is whole, and how.
fn tell_ending(rt: &impl Print, ending: Result<(), StreamError>, count: usize) -> io::Result<()> {
    match ending {
        Ok(()) => print(rt, Line::new(b'E', &[0, count as u64])),
        Err(e) => {
            let why = print(rt, lines::refusal(e));
            let end = print(rt, Line::new(b'E', &[lines::number(e), count as u64]));
            why.and(end)
        }
    }
}

// Whether every place behind the records is as it was lent, or the first that is not.
fn tell_rest(rt: &impl Print, list: [ObjectRecord; PLACES], count: usize) -> io::Result<()> {
    let other = listing::first_other(list, count);
    if other < PLACES {
        return print(rt, Line::new(b'W', &[other as u64]));
    }
    print(rt, Line::new(b'U', &[]))
}

// One walk, with so many places, if a list has them.
fn tell(rt: &impl Print, h: FlatHeader, src: &[u8], places: usize) -> io::Result<()> {
    if PLACES < places {
        return Ok(());
    }
    let begun = print(rt, Line::new(b'L', &[places as u64]));
    let Listed { walked, list } = listing::fill(h, src, places);
    let vars = say(rt, walked.vars.map(|r| section(r)));
    let classes = say(rt, walked.classes.map(|r| section(r)));
    let objects = tell_objects(rt, &list[..walked.count]);
    let end = tell_ending(rt, walked.ending, walked.count);
    let rest = tell_rest(rt, list, walked.count);
    begun.and(vars).and(classes).and(objects).and(end).and(rest)
}

// No place, one too few, exactly enough and one too many.
fn tell_all(rt: &impl Print, h: FlatHeader, src: &[u8]) -> io::Result<()> {
    let objects = survey::survey(h, src).count;
    let mut written = tell(rt, h, src, 0);
    if 1 < objects {
        written = written.and(tell(rt, h, src, objects - 1));
    }
    if 0 < objects {
        written = written.and(tell(rt, h, src, objects));
    }
    if objects < PLACES {
        written = written.and(tell(rt, h, src, objects + 1));
    }
    written
}

// `I` alone where an input is not in the form. Its cuts are not used: there is but one call.
fn answer(rt: &impl Print, input: &[u8]) -> io::Result<()> {
    match form::read(input) {
        Some(form) => tell_all(rt, form.header, &input[form.source..]),
        None => println!(rt; "I"),
    }
}

fn main(rt: HostRuntime) -> io::Result<()> {
    // Two lines of the library's, in each program: a crate for them would be no plainer.
    let mut input = Vec::new(rt.alloc());
    rt.reader().take(65536).read_to_end(&mut input)?;
    answer(&rt, &input)
}

// The whole source in hand: what the walk over it comes to, with nothing asked for and nothing lent.
#![tactic(auto)]

ghost use Rattle.std.proofs.Math.Option.{none};
ghost use Rattle.std.specs.Prelude.{◌≡◌, length};
ghost use Rattle.streaming.specs.Record.{section};
ghost use Rattle.streaming.specs.declared.Part.TheVariants as part;
ghost use Rattle.rules.specs.Header.{map_start, map_size, start_refusal};
ghost use Rattle.rules.specs.PlainList.{first, part_then, chunks_from, plain_list};
ghost use Rattle.survey.specs.Survey.{refused_walk, length_refusal, unless, listed, survey_of};

use header::{locator, start_answer};
use sections::section_at;
use source::Source;
use streaming::{FlatHeader, Part, Request, SectionRecord, StreamError};

mod chunks;
pub mod entries;
mod objects;
mod sections;
mod source;
pub mod sums;
mod walk;

// What is asked ever after, where a walk ends: nothing more at its last chunk, or the demand that it stalls at, or its fault again.
pub type Ending = Result<Option<Request>, StreamError>;

// What the walk over a whole source comes to: its sections, as far as it came, the number of its objects, and its ending.
#[derive(Clone, Copy)]
pub struct Walked {
    pub vars: Option<SectionRecord>,
    pub classes: Option<SectionRecord>,
    pub count: usize,
    pub ending: Result<(), StreamError>,
}

// Nothing is walked.
fn refused(e: StreamError) -> Walked
    ensures { result ≡ refused_walk e }
{
    Walked {
        vars: None,
        classes: None,
        count: 0,
        ending: Err(e),
    }
}

// Behind the header variables: the classes, then the map.
fn behind_vars(source: &Source, vars: SectionRecord) -> Walked
    ensures { result ≡ listed (first (section vars) (part_then source.now.header source.now.bytes.now part.Classes (chunks_from source.now.header source.now.bytes.now (map_size source.now.header) (map_start source.now.header)))) }
{
    let l = locator(source.header, 1);
    match section_at(
        source.bytes,
        Part::Classes,
        l.offset as usize,
        l.size as usize,
    ) {
        Err(f) => Walked {
            vars: Some(vars),
            classes: None,
            count: 0,
            ending: Err(StreamError::Fault(f)),
        },
        Ok(classes) => {
            let map = source.walk_map();
            Walked {
                vars: Some(vars),
                classes: Some(classes),
                count: map.count,
                ending: map.ending,
            }
        }
    }
}

// The header variables come first.
fn walk_all(source: &Source) -> Walked
    ensures { result ≡ listed (plain_list source.now.header source.now.bytes.now) }
{
    let l = locator(source.header, 0);
    match section_at(
        source.bytes,
        Part::HeaderVars,
        l.offset as usize,
        l.size as usize,
    ) {
        Err(f) => refused(StreamError::Fault(f)),
        Ok(vars) => behind_vars(source, vars),
    }
}

// The lent source has to be as long as the header says.
fn whole(h: FlatHeader, src: &[u8]) -> Walked
    requires { start_refusal h ≡ none }
    ensures { result ≡ unless (length_refusal h (length src.now)) (listed (plain_list h src.now)) }
{
    let n = src.len() as u64;
    if h.length < n {
        return refused(StreamError::InvalidFeed {
            maximum: h.length,
            actual: n,
        });
    }
    if n < h.length {
        return refused(StreamError::Truncated {
            offset: n,
            needed: h.length - n,
        });
    }
    walk_all(&Source {
        header: h,
        bytes: src,
    })
}

// The walk over a whole source: the start refusals first, then the source's length, then the rules' own list and ending.
pub fn survey(h: FlatHeader, src: &[u8]) -> Walked
    ensures { result ≡ survey_of h src.now }
{
    match start_answer(h) {
        Err(e) => refused(e),
        Ok(()) => whole(h, src),
    }
}

// What is asked for, by the stage: a demand of a fit state, else 19.
ghost use Rattle.std.specs.Prelude.{◌≡◌};
ghost use Rattle.flat.specs.Fit.{fit_at};
ghost use Rattle.flat.specs.Flat.{request_at, asked_if};

use chunk::Chunk;
use entry::Entry;
use object::Object;
use section::Section;
use streaming::{FlatWalker, Request, Stage, StreamError, Unit};

// A demand, where the unit can be in the state.
#[tactic(auto, using(crate::proofs::Calls::choices))]
fn ask<U: Unit>(s: FlatWalker) -> Result<Option<Request>, StreamError>
    ensures { result ≡ asked_if (U.is_fit s) (Ok (Some (U.request_of s))) }
{
    let unit = U::of(s).ok_or(StreamError::BadState)?;
    Ok(Some(unit.request()))
}

// By the stage: each arm calls the one function, and a closure would be no plainer.
#[tactic(auto, using(crate::proofs::Calls::choices))]
pub fn ask_stage(s: FlatWalker) -> Result<Option<Request>, StreamError>
    ensures { result ≡ asked_if (fit_at s.stage s) (request_at s.stage s) }
{
    match s.stage {
        Stage::Vars | Stage::Classes => ask::<Section>(s),
        Stage::Chunk => ask::<Chunk>(s),
        Stage::Entry => ask::<Entry>(s),
        Stage::Object => ask::<Object>(s),
        Stage::Done => Ok(None),
    }
}

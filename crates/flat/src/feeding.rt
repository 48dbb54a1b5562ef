// What a piece does, by the stage: 19 where the state is not fit, then the demand's own refusals, then the stage takes it.
ghost use Rattle.std.specs.Prelude.{◌≡◌, ◌<◌, ◌≤◌, length, OnOk};
ghost use Rattle.streaming.specs.State.{refused_by};
ghost use Rattle.flat.specs.Offer.{offer_of, fed_if, fed_at};

use chunk::Chunk;
use entry::Entry;
use object::Object;
use section::Section;
use streaming::{Fed, FlatWalker, Request, Stage, StreamError, Unit};

// A refused call leaves the state as it was.
pub fn refused(e: StreamError, s: FlatWalker) -> Fed
    ensures { result ≡ refused_by e s }
{
    Fed {
        answer: Err(e),
        state: s,
    }
}

// Whether a piece is taken, by its place and its length; one that is taken is no longer than the demand.
#[tactic(auto, using(crate::proofs::Calls::choices, streaming::proofs::Cases::cases), unfolding(crate::specs::Offer::offer_of))]
fn offer_of(r: Request, offset: u64, size: u64) -> Result<(), StreamError>
    ensures told { result ≡ offer_of r offset size }
    ensures fits { OnOk result ((0 < size) × (size ≤ r.len)) }
{
    if offset != r.offset {
        return Err(StreamError::WrongOffset {
            expected: r.offset,
            actual: offset,
        });
    }
    if (0 < size) & (size <= r.len) {
        return Ok(());
    }
    Err(StreamError::InvalidFeed {
        maximum: r.len,
        actual: size,
    })
}

// The piece goes to the unit, where it can be in the state and asks for the piece.
#[tactic(auto, using(crate::proofs::Calls::choices, crate::proofs::Calls::offered_by_offer))]
fn take<U: Unit>(s: FlatWalker, offset: u64, piece: &[u8]) -> Fed
    ensures { result ≡ fed_if (U.is_fit s) (U.request_of s) s offset piece.now (U.feed_of s piece.now) }
{
    let Some(unit) = U::of(s) else {
        return refused(StreamError::BadState, s);
    };
    match offer_of(unit.request(), offset, piece.len() as u64) {
        Ok(()) => unit.feed(piece),
        Err(e) => refused(e, s),
    }
}

pub fn feed_stage(s: FlatWalker, offset: u64, piece: &[u8]) -> Fed
    ensures { result ≡ fed_at s.stage s offset piece.now }
{
    match s.stage {
        Stage::Vars | Stage::Classes => take::<Section>(s, offset, piece),
        Stage::Chunk => take::<Chunk>(s, offset, piece),
        Stage::Entry => take::<Entry>(s, offset, piece),
        Stage::Object => take::<Object>(s, offset, piece),
        Stage::Done => refused(StreamError::Finished, s),
    }
}

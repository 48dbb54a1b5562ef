// Which piece the driver brings next: the least of cut, demand and what the source has.
ghost use Rattle.std.specs.Prelude.{◌≡◌, ◌<◌, length};
ghost use Rattle.driving.specs.Pieces.{cut_to, turn_after, next_by};

use form::Cuts;
use streaming::{Request, StreamError};

// A piece of the source, by its place and its length: no demand, though it has the fields of one.
#[derive(Clone, Copy)]
pub struct Piece {
    pub offset: u64,
    pub len: u64,
}

#[tactic(auto, unfolding(crate::specs::Pieces::cut_to))]
fn cut_to(cuts: &Cuts, turn: usize, demand: u64) -> u64
    requires { 0 < length cuts.now → turn < length cuts.now }
    ensures { result ≡ cut_to cuts.now turn demand }
{
    match cuts.get(turn) {
        Some(size) => u64::from(size).min(demand),
        None => demand,
    }
}

// Behind the last cut comes the first. The turn stays an index beside the cuts, as in the definitions (`cut_to`, `turn_after`, `next_by`).
#[tactic(auto, unfolding(crate::specs::Pieces::turn_after))]
pub fn turn_after(cuts: &Cuts, turn: usize) -> usize
    ensures { result ≡ turn_after cuts.now turn }
{
    if turn < cuts.len().saturating_sub(1) {
        turn + 1
    } else {
        0
    }
}

// By what is asked for, over a source of so many bytes: none where no byte is asked for, or the source has none at the place.
pub fn choose(
    asked: Result<Option<Request>, StreamError>,
    bytes: u64,
    cuts: &Cuts,
    turn: usize,
) -> Option<Piece>
    requires { 0 < length cuts.now → turn < length cuts.now }
    ensures { result ≡ next_by asked bytes cuts.now turn }
{
    let Ok(Some(r)) = asked else {
        return None;
    };
    if bytes <= r.offset {
        return None;
    }
    Some(Piece {
        offset: r.offset,
        len: cut_to(cuts, turn, r.len).min(bytes - r.offset),
    })
}

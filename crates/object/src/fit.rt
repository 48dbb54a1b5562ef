// Whether a state in stage Object is one that a walk can reach. Any state may be asked about: tests come before sums.
ghost use Rattle.std.specs.Prelude.{◌≡◌, true, ◌<◌, ◌≤◌, ◌^◌};
ghost use Rattle.chunk.specs.Fit.{InChunk};
ghost use Rattle.object.specs.Fit.{behind_entry, object_done, object_consistent, size_in_words, fit_object, FitObject};

use crate::words::may_end;
use crate::{FARTHEST, may_start};
use streaming::FlatWalker;

// Whether an entry of the chunk is whole, and led here.
#[tactic(auto, unfolding(crate::specs::Fit::behind_entry), using(header::proofs::Bounds::map_end_below))]
fn behind_entry(s: FlatWalker) -> bool
    requires { InChunk s.header s.map }
    ensures { result ≡ behind_entry s }
{
    let h = s.header;
    let m = s.map;
    let first = m.chunk + 2;
    let end = m.chunk + m.len as u64;
    ((first < m.at) & (m.at <= end))
        & ((m.field == 0) & (m.shift == 0) & (m.mc == 0))
        & ((s.object == m.loc) & (s.object <= FARTHEST) & may_start(h, s.object))
}

// How far the object is: in its size words, or behind them with a size that fits the source.
fn object_done(s: FlatWalker) -> bool
    ensures { result ≡ object_done s }
{
    let h = s.header;
    let done = s.done as u64;
    let two = 2 * (s.words as u64);
    if s.ms_len == 0 {
        return (s.words <= 1) & ((two <= done) & (done < two + 2));
    }
    let len = s.ms_len as u64;
    let size = s.size as u64;
    let Some(end) = s.object.checked_add(len + size + 2) else {
        return false;
    };
    ((1 <= s.words) & (s.words <= 2) & (len == two) & (0 < size))
        & (may_end(h, s.object, end) & (len <= done) & (done < len + size + 2))
}

// The Rust's own test of a saved state.
pub fn object_consistent(s: FlatWalker) -> bool
    ensures { result ≡ object_consistent s }
{
    if !chunk::in_chunk(s.header, s.map) {
        return false;
    }
    behind_entry(s) && object_done(s)
}

// Whether the size is one that so many words can hold.
fn size_in_words(s: FlatWalker) -> bool
    requires { s.words ≤ 2 }
    ensures { result ≡ size_in_words s }
{
    s.size < 1 << (15 * s.words)
}

// Whether a walk can reach the state, in this stage.
pub fn fit_object(s: FlatWalker) -> bool
    ensures { (result ≡ fit_object s) × (result ≡ true → FitObject s) }
{
    object_consistent(s) && size_in_words(s)
}

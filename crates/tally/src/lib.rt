// What a walk took, counted call by call from the answer and the piece's length: bytes, framing, payload, objects and repeats.
#![tactic(auto)]

ghost use Rattle.std.specs.Prelude.{◌≡◌, [], ◌∷◌, ◌++◌};
ghost use Rattle.streaming.specs.Record.{committed_by};
ghost use Rattle.tally.specs.History.{heard, as_framing, as_payload, step_takes, fault_takes, refusal_takes, handles_of, repeats};
ghost use Rattle.tally.specs.Tally.{tally_of, known, behind, counted, Continues};

use streaming::{Fault, Step, StreamError};

// The counts of a walk so far, and the handle of the last object. Each count stops at the top of its type and never wraps.
#[derive(Clone, Copy, Default)]
pub struct Tally {
    pub bytes: u64,
    pub framing: u64,
    pub payload: u64,
    pub objects: u64,
    pub repeats: u64,
    pub last: Option<u64>,
}

// Before any call.
#[tactic(auto, unfolding(crate::specs::Tally::tally_of, crate::specs::Tally::last_of, crate::specs::History::total, crate::specs::History::handles_in, crate::specs::History::repeats))]
pub fn blank() -> Tally
    ensures { result ≡ tally_of [] }
{
    Tally::default()
}

// One more call: `held` is the failure of the state before it, `len` the length of the piece that it brought. Behind any history, the tally is that
// history's, the call included.
#[tactic(auto, using(crate::proofs::Kept::continued), unfolding(crate::specs::History::handles_of))]
pub fn count(t: Tally, held: Option<Fault>, answer: Result<Step, StreamError>, len: u64) -> Tally
    ensures value { result ≡ counted t (heard held answer len) }
    ensures continues { Continues t (heard held answer len) result }
{
    match answer {
        Ok(step) => stepped(t, step, len),
        Err(e) => refused(t, held, e, len),
    }
}

#[tactic(auto, unfolding(crate::specs::History::handles_of))]
fn stepped(t: Tally, step: Step, len: u64) -> Tally
    ensures { result ≡ behind t (step_takes step) len (handles_of (committed_by step)) }
{
    match step {
        Step::Framing | Step::Section(_) | Step::Finished => framed(t, len),
        Step::Payload(_) => paid(t, len),
        Step::Object(r) => committed(t, r.handle, len),
    }
}

// A refusal takes nothing, but for a fault that comes with this piece: one that was held is only said again.
#[tactic(auto, using(crate::proofs::Laws::no_object))]
fn refused(t: Tally, held: Option<Fault>, e: StreamError, len: u64) -> Tally
    ensures { result ≡ behind t (refusal_takes held e) len [] }
{
    match e {
        StreamError::Fault(_) => at_fault(t, held, len),
        _ => t,
    }
}

#[tactic(auto, using(crate::proofs::Laws::no_object))]
fn at_fault(t: Tally, held: Option<Fault>, len: u64) -> Tally
    ensures { result ≡ behind t (fault_takes held) len [] }
{
    match held {
        None => framed(t, len),
        Some(_) => t,
    }
}

#[tactic(auto, using(crate::proofs::Laws::no_object))]
fn framed(t: Tally, len: u64) -> Tally
    ensures { result ≡ behind t as_framing len [] }
{
    Tally {
        bytes: t.bytes.saturating_add(len),
        framing: t.framing.saturating_add(len),
        ..t
    }
}

#[tactic(auto, using(crate::proofs::Laws::no_object))]
fn paid(t: Tally, len: u64) -> Tally
    ensures { result ≡ behind t as_payload len [] }
{
    Tally {
        bytes: t.bytes.saturating_add(len),
        payload: t.payload.saturating_add(len),
        ..t
    }
}

// An object is committed by the last piece of its checksum.
#[tactic(auto, using(crate::proofs::Laws::last_moves))]
fn committed(t: Tally, handle: u64, len: u64) -> Tally
    ensures { result ≡ behind t as_framing len (handle ∷ []) }
{
    Tally {
        objects: t.objects.saturating_add(1),
        repeats: t.repeats.saturating_add(repeated(t.last, handle)),
        last: Some(handle),
        ..framed(t, len)
    }
}

// 1 for an object whose handle is that of the object just before.
#[tactic(auto, using(crate::proofs::Laws::repeats_told))]
fn repeated(last: Option<u64>, handle: u64) -> u64
    ensures { result ≡ repeats (known last ++ (handle ∷ [])) }
{
    u64::from(last == Some(handle))
}

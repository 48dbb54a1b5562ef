// An object is whole: its checksum, then its prologue, decide. Behind it the next entry follows, or the next chunk.
ghost use Rattle.std.proofs.Math.Option.{Option};
ghost use Rattle.std.specs.Prelude.{◌≡◌, ◌+◌, ◌<◌, ◌≤◌, ◌^◌, min};
ghost use Rattle.records.specs.Answer.{of_r2000, head_of};
ghost use Rattle.rules.specs.Header.{is_r2000};
ghost use Rattle.rules.specs.Prologue.{Prologue};
ghost use Rattle.rules.specs.Object.{named};
ghost use Rattle.object.specs.Object.{leave_object, kept_prologue, verdict_of, settle_verdict, settle_object_crc};

use crate::Object;
use records::{Opening, RecordFormat};
use streaming::{
    Fault, Fed, FlatHeader, FlatWalker, ObjectRecord, Stage, Step, fell, in_unit, stepped,
};

// How the data begins, by the header's release.
pub fn format_of(h: FlatHeader) -> RecordFormat
    ensures { of_r2000 result ≡ is_r2000 h }
{
    RecordFormat::from(header::is_r2000(h))
}

// How many bytes of the data are kept.
pub fn kept_of(size: u32) -> usize
    ensures { result ≡ min size 16 }
{
    (size as usize).min(16)
}

// The prologue of the bytes that were kept.
fn opening(s: FlatWalker) -> Option<Opening>
    ensures { result ≡ head_of (kept_prologue s) }
{
    let head = s.head;
    let n = kept_of(s.size);
    let format = format_of(s.header);
    records::prologue(&head[..n], format)
}

// It has to name the handle that the map gives.
pub fn judge_head(
    head: Option<Opening>,
    handle: u64,
    offset: u64,
    size: u32,
) -> Result<ObjectRecord, Fault>
    ensures { (o : Option Prologue) → head ≡ head_of o → verdict_of result ≡ named handle offset size o }
{
    let Some(o) = head else {
        return Err(Fault::ObjectHeader(handle));
    };
    if o.handle != handle {
        return Err(Fault::ObjectHandle {
            map: handle,
            record: o.handle,
        });
    }
    Ok(ObjectRecord {
        handle,
        offset,
        size,
        type_code: o.type_code,
    })
}

fn judge(s: FlatWalker) -> Result<ObjectRecord, Fault>
    ensures { verdict_of result ≡ named s.map.handle s.object s.size (kept_prologue s) }
{
    judge_head(opening(s), s.map.handle, s.object, s.size)
}

// Behind an object the next entry, or the next chunk, 2 bytes of checksum later.
fn leave_object(s: FlatWalker) -> FlatWalker
    requires { (s.map.at ≤ s.map.chunk + s.map.len) × (s.map.chunk + s.map.len < 2 ^ 33) }
    ensures { result ≡ leave_object s }
{
    let m = s.map;
    if m.at == m.chunk + m.len as u64 {
        return chunk::enter_chunk(s, m.at + 2);
    }
    in_unit(s, Stage::Entry, s.done, s.size, s.crc, s.field)
}

impl Object {
    fn settle_verdict(self, field: [u8; 4], v: Result<ObjectRecord, Fault>) -> Fed
        ensures { result ≡ settle_verdict self.walker field (verdict_of v) }
    {
        let s = self.walker;
        match v {
            Ok(r) => {
                let done = s.ms_len as u32 + s.size + 2;
                let t = in_unit(s, s.stage, done, s.size, s.crc, field);
                stepped(Step::Object(r), leave_object(t))
            }
            Err(f) => fell(f, s),
        }
    }

    // The checksum is whole: then the prologue decides.
    pub fn settle_object_crc(self, field: [u8; 4], stored: u16) -> Fed
        ensures { result ≡ settle_object_crc self.walker field stored }
    {
        let s = self.walker;
        if stored == s.crc {
            return self.settle_verdict(field, judge(s));
        }
        fell(
            Fault::ObjectCrc {
                handle: s.map.handle,
                expected: s.crc,
                actual: stored,
            },
            s,
        )
    }
}

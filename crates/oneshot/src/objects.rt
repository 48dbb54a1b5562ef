// The record of an object whose every check was made before: its size words and its prologue are read again, and no checksum.
ghost use Rattle.std.specs.Prelude.{◌≡◌, ◌+◌, ◌<◌, ◌^◌, get_or, take};
ghost use Rattle.octets.specs.Octets.{little_endian};
ghost use Rattle.account.specs.Statement.{part};
ghost use Rattle.rules.specs.Prologue.{prologue_of};
ghost use Rattle.records.specs.Answer.{head_of};
ghost use Rattle.oneshot.specs.Cursor.{blank, record_of_head, record_at};

use records::{Opening, RecordFormat, prologue};
use streaming::ObjectRecord;
use survey::entries::Named;

// The record where there is no object. It is no None, since the definitions that `walk` is proved by (record_at, step_of) answer a record at every step.
pub fn blank() -> ObjectRecord
    ensures { result ≡ blank }
{
    ObjectRecord {
        handle: 0,
        offset: 0,
        size: 0,
        type_code: 0,
    }
}

// The byte at a place; behind the source's end it is 0, as in the definition (`get_or`).
fn byte_at(src: &[u8], at: usize) -> u8
    ensures { result ≡ get_or src.now at 0 }
{
    src.get(at).copied().unwrap_or(0)
}

// A word of the size, low byte first.
fn word_at(src: &[u8], at: usize) -> u16
    requires { at + 1 < 2 ^ 64 }
    ensures { result ≡ little_endian (part src.now at 2) }
{
    octets::le16(byte_at(src, at), byte_at(src, at + 1))
}

// The prologue of so many bytes of data at a place, as far as the source has them.
fn head_at(src: &[u8], r2000: bool, at: usize, size: u32) -> Option<Opening>
    ensures { result ≡ head_of (prologue_of r2000 (take 16 (part src.now at size))) }
{
    let data = src.get(at..)?;
    let end = data.len().min(size as usize);
    prologue(&data[..end], RecordFormat::from(r2000))
}

// The record of an object whose data begins so.
fn record_of_head(to: Named, size: u32, head: Option<Opening>) -> ObjectRecord
    ensures { result ≡ record_of_head to.handle to.location size head }
{
    match head {
        None => blank(),
        Some(o) => ObjectRecord {
            handle: to.handle,
            offset: to.location,
            size,
            type_code: o.type_code,
        },
    }
}

// The record of an object that the map names, of the bytes from its location on.
pub fn record_at(src: &[u8], r2000: bool, to: Named) -> ObjectRecord
    ensures { result ≡ record_at r2000 src.now to.handle to.location }
{
    let Some(object) = src.get(to.location as usize..) else {
        return blank();
    };
    let first = word_at(object, 0);
    if first < 0x8000 {
        let size = u32::from(first);
        return record_of_head(to, size, head_at(object, r2000, 2, size));
    }
    let second = word_at(object, 2);
    if second < 0x8000 {
        let size = u32::from(first % 0x8000) + 0x8000 * u32::from(second);
        return record_of_head(to, size, head_at(object, r2000, 4, size));
    }
    blank()
}

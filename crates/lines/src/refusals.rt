// The line of a refusal: `X`, its number and its values, in document 01's order.
ghost use Rattle.std.specs.Prelude.{◌≡◌, ◌≤◌, length};
ghost use Rattle.streaming.specs.Numbers.{fault_number, fault_fields, number_of, fields_of};
ghost use Rattle.lines.specs.Line.{refusal_line, text_of};

use crate::Line;
use arrayvec::ArrayVec;
use streaming::{Fault, StreamError};

// Document 01's numbers, a table: no order of the enum gives them.
fn fault_number(f: Fault) -> u64
    ensures { result ≡ fault_number f }
{
    match f {
        Fault::SectionSize(_) => 7,
        Fault::SectionSentinel(_) => 8,
        Fault::SectionCrc { .. } => 9,
        Fault::MapChunk(_) => 10,
        Fault::MapCrc { .. } => 11,
        Fault::MapEntry(_) => 12,
        Fault::ObjectRange { .. } => 13,
        Fault::ObjectSize(_) => 14,
        Fault::ObjectCrc { .. } => 15,
        Fault::ObjectHeader(_) => 16,
        Fault::ObjectHandle { .. } => 17,
    }
}

// Document 01's number of a refusal, without its values.
pub fn number(e: StreamError) -> u64
    ensures { result ≡ number_of e }
{
    match e {
        StreamError::LocatorCount(_) => 1,
        StreamError::LocatorRange(_) => 2,
        StreamError::Finished => 3,
        StreamError::WrongOffset { .. } => 4,
        StreamError::InvalidFeed { .. } => 5,
        StreamError::Truncated { .. } => 6,
        StreamError::Fault(f) => fault_number(f),
        StreamError::NoRoom(_) => 18,
        StreamError::BadState => 19,
    }
}

// A refusal has at most three values.
fn values(of: &[u64]) -> ArrayVec<u64, 3>
    requires { length of.now ≤ 3 }
    ensures { result.items ≡ of.now }
{
    ArrayVec::try_from(of).unwrap()
}

fn fault_fields(f: Fault) -> ArrayVec<u64, 3>
    ensures { result.items ≡ fault_fields f }
{
    match f {
        Fault::SectionSize(part) | Fault::SectionSentinel(part) => values(&[u64::from(part)]),
        Fault::SectionCrc {
            part,
            expected,
            actual,
        } => values(&[u64::from(part), u64::from(expected), u64::from(actual)]),
        Fault::MapChunk(n) | Fault::MapEntry(n) | Fault::ObjectSize(n) | Fault::ObjectHeader(n) =>
            values(&[n]),
        Fault::MapCrc {
            chunk,
            expected,
            actual,
        } => values(&[chunk, u64::from(expected), u64::from(actual)]),
        Fault::ObjectRange { handle, offset } => values(&[handle, offset]),
        Fault::ObjectCrc {
            handle,
            expected,
            actual,
        } => values(&[handle, u64::from(expected), u64::from(actual)]),
        Fault::ObjectHandle { map, record } => values(&[map, record]),
    }
}

fn fields(e: StreamError) -> ArrayVec<u64, 3>
    ensures { result.items ≡ fields_of e }
{
    match e {
        StreamError::LocatorCount(n) | StreamError::LocatorRange(n) => values(&[u64::from(n)]),
        StreamError::Finished | StreamError::BadState => ArrayVec::new(),
        StreamError::WrongOffset { expected, actual } => values(&[expected, actual]),
        StreamError::InvalidFeed { maximum, actual } => values(&[maximum, actual]),
        StreamError::Truncated { offset, needed } => values(&[offset, needed]),
        StreamError::Fault(f) => fault_fields(f),
        StreamError::NoRoom(needed) => values(&[needed]),
    }
}

pub fn refusal(e: StreamError) -> Line
    ensures { text_of result ≡ refusal_line e }
{
    let mut numbers: ArrayVec<u64, 4> = ArrayVec::new();
    numbers.push(number(e));
    numbers.try_extend_from_slice(fields(e).as_slice()).unwrap();
    Line::new(b'X', numbers.as_slice())
}

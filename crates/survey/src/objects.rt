// An object of a source in hand (§20.1): its place, its size, its checksum and its prologue, in this order.
ghost use Rattle.std.specs.Prelude.{◌≡◌, ◌+◌, ◌<◌, ◌≤◌, ◌^◌, length};
ghost use Rattle.rules.specs.Object.{sized, verdict};
ghost use Rattle.rules.specs.PlainList.{Listing, sized_then, object_then};
ghost use Rattle.object.specs.Object.{verdict_of};
ghost use Rattle.survey.specs.Goes.{object_goes};

use crate::Ending;
use crate::chunks::broken;
use crate::entries::Named;
use crate::source::Source;
use crate::sums::{le16_at, sum_at};
use object::verdict::{format_of, judge_head, kept_of};
use object::words::may_end;
use streaming::{Fault, ObjectRecord, Request};

impl<'a> Source<'a> {
    // A whole object: the checksum first, then the prologue of the data's first 16 bytes.
    fn judge_at(&self, to: Named, field: usize, size: u32) -> Result<ObjectRecord, Fault>
        requires { to.location + field + size + 2 ≤ length self.now.bytes.now }
        ensures { verdict_of result ≡ verdict self.now.header self.now.bytes.now to.handle to.location field size }
    {
        let at = to.location as usize;
        let n = size as usize;
        let computed = sum_at(self.bytes, at, field + n);
        let stored = le16_at(self.bytes, at + field + n);
        if stored != computed {
            return Err(Fault::ObjectCrc {
                handle: to.handle,
                expected: computed,
                actual: stored,
            });
        }
        let from = at + field;
        let end = from + kept_of(size);
        let format = format_of(self.header);
        let head = records::prologue(&self.bytes[from..end], format);
        judge_head(head, to.handle, to.location, size)
    }

    // The size is known, of so many bytes itself, and with it the object's end.
    fn sized_at(&self, to: Named, field: usize, size: u32) -> Result<ObjectRecord, Ending>
        requires { to.location + field ≤ length self.now.bytes.now }
        ensures { (rest : Listing) → sized_then self.now.header self.now.bytes.now to.handle to.location (sized field size) rest ≡ object_goes result rest }
    {
        if size == 0 {
            return Err(broken(Fault::ObjectSize(to.handle)));
        }
        if !may_end(
            self.header,
            to.location,
            to.location + field as u64 + size as u64 + 2,
        ) {
            return Err(broken(Fault::ObjectRange {
                handle: to.handle,
                offset: to.location,
            }));
        }
        self.judge_at(to, field, size).map_err(broken)
    }

    // The object at a location that the map gives for a handle. A second size word may lie beyond the source's end: the walk stalls there.
    pub fn object_at(&self, to: Named) -> Result<ObjectRecord, Ending>
        ensures { (rest : Listing) → object_then self.now.header self.now.bytes.now to.handle to.location rest ≡ object_goes result rest }
    {
        if !object::may_start(self.header, to.location) {
            return Err(broken(Fault::ObjectRange {
                handle: to.handle,
                offset: to.location,
            }));
        }
        let at = to.location as usize;
        let first = le16_at(self.bytes, at);
        if first < 0x8000 {
            return self.sized_at(to, 2, first as u32);
        }
        let length = self.header.length;
        let left = length - to.location;
        if left < 4 {
            return Err(Ok(Some(Request {
                offset: length,
                len: 4 - left,
            })));
        }
        let second = le16_at(self.bytes, at + 2);
        if 0x8000 <= second {
            return Err(broken(Fault::ObjectSize(to.handle)));
        }
        let size = (first % 0x8000) as u32 + 0x8000 * second as u32;
        self.sized_at(to, 4, size)
    }
}

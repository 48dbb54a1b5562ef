// The lines of what a walk commits: `S` for a section, `O` for an object.
ghost use Rattle.std.specs.Prelude.{◌≡◌};
ghost use Rattle.lines.specs.Line.{section_line, object_line, text_of};

use crate::Line;
use streaming::{ObjectRecord, SectionRecord};

pub fn section(r: SectionRecord) -> Line
    ensures { text_of result ≡ section_line r }
{
    let part = u64::from(u8::from(r.part));
    Line::new(b'S', &[part, r.data_offset, u64::from(r.size)])
}

pub fn object(r: ObjectRecord) -> Line
    ensures { text_of result ≡ object_line r }
{
    Line::new(
        b'O',
        &[
            r.handle,
            r.offset,
            u64::from(r.size),
            u64::from(r.type_code),
        ],
    )
}

// A section of a source in hand: the header variables (§9) or the classes (§10.1).
ghost use Rattle.std.specs.Prelude.{◌≡◌, ◌+◌, ◌<◌, ◌≤◌, length};
ghost use Rattle.octets.specs.Octets.{same};
ghost use Rattle.streaming.specs.Numbers.{part_number};
ghost use Rattle.account.specs.Statement.{part as span};
ghost use Rattle.section.specs.Section.{sentinel_at};
ghost use Rattle.rules.specs.PlainList.{Listing, section_then};
ghost use Rattle.survey.specs.Goes.{section_goes};

use crate::sums::{le16_at, sum_at};
use section::sentinels::{Side, spells};
use streaming::{Fault, Part, SectionRecord};

// Whether the sentinel of a part, the one at its start or at its end, stands at a place.
fn sentinel_at(src: &[u8], part: u8, side: Side, at: usize) -> bool
    requires { (part < 2) × (at + 16 ≤ length src.now) }
    ensures { result ≡ same (span src.now at 16) (sentinel_at part side) }
{
    let to = at + 16;
    spells(part as usize, side, 0, &src[at..to])
}

// A part by its number, as the sentinels' table is picked; the frame's 38 bytes stand as a number, after which answers are named.
// A section of so many bytes in all: its record, or the first of its fields that is at fault.
pub fn section_at(
    src: &[u8],
    part: Part,
    start: usize,
    total: usize,
) -> Result<SectionRecord, Fault>
    requires { (part_number part < 2) × (start + total ≤ length src.now) }
    ensures { (rest : Listing) → section_then src.now part start total rest ≡ section_goes result rest }
{
    let number = u8::from(part);
    if total < 38 {
        return Err(Fault::SectionSize(number));
    }
    if !sentinel_at(src, number, Side::Start, start) {
        return Err(Fault::SectionSentinel(number));
    }
    let size = octets::number_at(src, start + 16, 4) as usize;
    if 38 + size != total {
        return Err(Fault::SectionSize(number));
    }
    let computed = sum_at(src, start + 16, 4 + size);
    let stored = le16_at(src, start + 20 + size);
    if stored != computed {
        return Err(Fault::SectionCrc {
            part: number,
            expected: computed,
            actual: stored,
        });
    }
    if !sentinel_at(src, number, Side::End, start + 22 + size) {
        return Err(Fault::SectionSentinel(number));
    }
    Ok(SectionRecord {
        part,
        data_offset: (start + 20) as u64,
        size: size as u32,
    })
}

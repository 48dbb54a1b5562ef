// What the last byte of a field of a section does: the field is whole, and is held against the rest.
ghost use Rattle.std.specs.Prelude.{◌≡◌, ◌≤◌};
ghost use Rattle.section.specs.Section.{enter_next, settle_section_size, settle_section_crc, settle_section};

use crate::hand::{part_number, part_of, section};
use crate::{FRAME, Section, enter_section};
use chunk::enter_chunk;
use header::map_start;
use streaming::{Fault, Fed, FlatWalker, SectionRecord, Stage, Step, fell, go_on, stepped};

// Behind the header variables the classes, behind the classes the map.
fn enter_next(g: Stage, s: FlatWalker) -> FlatWalker
    ensures { result ≡ enter_next g s }
{
    match g {
        Stage::Vars => enter_section(s, Stage::Classes),
        Stage::Classes => enter_chunk(s, map_start(s.header)),
        Stage::Chunk | Stage::Entry | Stage::Object | Stage::Done => s,
    }
}

impl Section {
    // The size is whole: with the frame it has to be the locator's.
    pub(crate) fn settle_size(self, crc: u16, field: [u8; 4], size: u32) -> Fed
        ensures { result ≡ settle_section_size self.walker crc field size }
    {
        let s = self.walker;
        let g = s.stage;
        let l = section(s);
        if FRAME + size as u64 == l.size as u64 {
            return go_on(s, 20, size, crc, field);
        }
        fell(Fault::SectionSize(part_number(g)), s)
    }

    // The checksum is whole.
    pub(crate) fn settle_crc(self, field: [u8; 4], stored: u16) -> Fed
        requires { 20 ≤ self.walker.done }
        ensures { result ≡ settle_section_crc self.walker field stored }
    {
        let s = self.walker;
        let g = s.stage;
        if stored == s.crc {
            return go_on(s, 22 + s.size, s.size, s.crc, field);
        }
        fell(
            Fault::SectionCrc {
                part: part_number(g),
                expected: s.crc,
                actual: stored,
            },
            s,
        )
    }

    // The last byte commits.
    #[tactic(auto, unfolding(crate::specs::Section::settle_section, rules::specs::Section::section_record))]
    pub(crate) fn settle(self) -> Fed
        ensures { result ≡ settle_section self.walker }
    {
        let s = self.walker;
        let g = s.stage;
        let l = section(s);
        let record = SectionRecord {
            part: part_of(g),
            data_offset: l.offset as u64 + 20,
            size: s.size,
        };
        stepped(Step::Section(record), enter_next(g, s))
    }
}

// What a piece of a field of a section does.
ghost use Rattle.std.specs.Prelude.{◌≡◌, ◌+◌, ◌≤◌, length};
ghost use Rattle.rules.specs.Section.{frame};
ghost use Rattle.section.specs.Section.{feed_section_start, feed_section_size, feed_section_data, feed_section_crc, feed_section_end};

use crate::hand::{part_number, part_of};
use crate::sentinels::{Side, spells};
use crate::{FRAME, Section};
use chunk::SEED;
use crc::crc8;
use octets::{copy_in, le16, le32};
use streaming::{Fault, Fed, Step, fell, go_on, in_unit, stepped};

impl Section {
    // A piece of the start sentinel, which is compared piece by piece.
    pub(crate) fn feed_start(self, piece: &[u8]) -> Fed
        requires { self.walker.done + length piece.now ≤ 16 }
        ensures { result ≡ feed_section_start self.walker piece.now }
    {
        let s = self.walker;
        let g = s.stage;
        let number = part_number(g);
        if spells(number as usize, Side::Start, s.done as usize, piece) {
            let field = s.field;
            return go_on(s, s.done + piece.len() as u32, s.size, SEED, field);
        }
        fell(Fault::SectionSentinel(number), s)
    }

    // A piece of the size. The checksum is over size and data.
    pub(crate) fn feed_size(self, piece: &[u8]) -> Fed
        requires begun { 16 ≤ self.walker.done }
        requires fits { self.walker.done + length piece.now ≤ 20 }
        ensures { result ≡ feed_section_size self.walker piece.now }
    {
        let s = self.walker;
        let crc = crc8(s.crc, piece);
        let mut field = s.field;
        copy_in(&mut field, (s.done - 16) as usize, piece);
        let done = s.done + piece.len() as u32;
        if done == 20 {
            let size = le32(field[0], field[1], field[2], field[3]);
            return self.settle_size(crc, field, size);
        }
        go_on(s, done, s.size, crc, field)
    }

    // A piece of the data, which is payload.
    pub(crate) fn feed_data(self, piece: &[u8]) -> Fed
        requires begun { 20 ≤ self.walker.done }
        requires fits { self.walker.done + length piece.now ≤ 20 + self.walker.size }
        ensures { result ≡ feed_section_data self.walker piece.now }
    {
        let s = self.walker;
        let g = s.stage;
        let field = s.field;
        let done = s.done + piece.len() as u32;
        let crc = crc8(s.crc, piece);
        stepped(
            Step::Payload(part_of(g)),
            in_unit(s, g, done, s.size, crc, field),
        )
    }

    // A piece of the checksum.
    pub(crate) fn feed_crc(self, piece: &[u8]) -> Fed
        requires begun { 20 + self.walker.size ≤ self.walker.done }
        requires fits { self.walker.done + length piece.now ≤ 22 + self.walker.size }
        ensures { result ≡ feed_section_crc self.walker piece.now }
    {
        let s = self.walker;
        let mut field = s.field;
        copy_in(&mut field, (s.done - (20 + s.size)) as usize, piece);
        let done = s.done + piece.len() as u32;
        if done == 22 + s.size {
            return self.settle_crc(field, le16(field[0], field[1]));
        }
        go_on(s, done, s.size, s.crc, field)
    }

    // A piece of the end sentinel, whose last byte commits the section.
    pub(crate) fn feed_end(self, piece: &[u8]) -> Fed
        requires begun { 22 + self.walker.size ≤ self.walker.done }
        requires fits { self.walker.done + length piece.now ≤ frame + self.walker.size }
        ensures { result ≡ feed_section_end self.walker piece.now }
    {
        let s = self.walker;
        let g = s.stage;
        let number = part_number(g);
        let at = s.done as u64 - (22 + s.size as u64);
        if !spells(number as usize, Side::End, at as usize, piece) {
            return fell(Fault::SectionSentinel(number), s);
        }
        let done = s.done + piece.len() as u32;
        if done as u64 == FRAME + s.size as u64 {
            return self.settle();
        }
        let field = s.field;
        go_on(s, done, s.size, s.crc, field)
    }
}

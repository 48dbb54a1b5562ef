// The section in hand: its part and its locator.
ghost use Rattle.std.specs.Prelude.{◌≡◌, ◌<◌};
ghost use Rattle.streaming.specs.Numbers.{part_number};
ghost use Rattle.section.specs.Section.{part_of, section_of};

use header::locator;
use streaming::{FlatWalker, Locator, Part, Stage};

// The part of a stage; only the first two stages are sections. Its definition answers a part for the others too, so no Option stands here.
pub fn part_of(g: Stage) -> Part
    ensures { result ≡ part_of g }
{
    match g {
        Stage::Vars => Part::HeaderVars,
        Stage::Classes | Stage::Chunk | Stage::Entry | Stage::Object | Stage::Done => Part::Classes,
    }
}

// Its number.
pub fn part_number(g: Stage) -> u8
    ensures { (result ≡ part_number (part_of g)) × (result < 2) }
{
    u8::from(part_of(g))
}

// The locator of the section in hand.
pub fn section(s: FlatWalker) -> Locator
    ensures { result ≡ section_of s }
{
    let g = s.stage;
    locator(s.header, part_number(g))
}

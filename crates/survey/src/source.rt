// A source in hand that is whole.
ghost use Rattle.rules.specs.Source.{Of};

use streaming::FlatHeader;

// The bytes of a drawing, as many as its header says, and that header, which Start takes.
#[derive(Clone, Copy)]
pub struct Source<'a> {
    pub header: FlatHeader,
    pub bytes: &'a [u8],
    ghost whole: { Of header bytes.now },
}

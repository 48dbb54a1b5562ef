// The tests of a state, by its stage.
ghost use Rattle.std.specs.Prelude.{◌≡◌};
ghost use Rattle.rules.specs.Header.{start_refusal};
ghost use Rattle.flat.specs.Fit.{is_taken, fit_at, consistent_at};

use streaming::{FlatHeader, FlatWalker, Stage};

// Whether Start takes the header. Inlined, so that the header is read where it stands.
#[inline(always)]
pub fn is_taken(h: FlatHeader) -> bool
    ensures { result ≡ is_taken (start_refusal h) }
{
    header::start_answer(h).is_ok()
}

pub fn fit_at(s: FlatWalker) -> bool
    ensures { result ≡ fit_at s.stage s }
{
    match s.stage {
        Stage::Vars | Stage::Classes => section::fit_section(s),
        Stage::Chunk => chunk::fit_chunk(s),
        Stage::Entry => entry::fit_entry(s),
        Stage::Object => object::fit::fit_object(s),
        Stage::Done => true,
    }
}

// It differs from `fit_at` in two stages, and each is its definition, arm by arm: one for both would be no plainer.
pub fn consistent_at(s: FlatWalker) -> bool
    ensures { result ≡ consistent_at s.stage s }
{
    match s.stage {
        Stage::Vars | Stage::Classes => section::fit_section(s),
        Stage::Chunk => chunk::fit_chunk(s),
        Stage::Entry => entry::entry_consistent(s),
        Stage::Object => object::fit::object_consistent(s),
        Stage::Done => true,
    }
}

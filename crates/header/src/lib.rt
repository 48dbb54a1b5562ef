// What is read from the verified file header: its locators, where it ends, its release, and whether Start takes it.
#![tactic(auto)]

ghost use Rattle.std.specs.Prelude.{◌≡◌, ◌<◌, ◌^◌};
ghost use Rattle.rules.specs.Header.{locator_of, map_start, map_end, header_end, is_r2000, is_outside, start_refusal};
ghost use Rattle.header.specs.Start.{start_answer};

use streaming::{FlatHeader, Locator, NO_LOCATOR, StreamError};

// The first of the counted locators with this number; a missing one is all zero, as the rules say (`locator_of`). The number stays one: a header's locators
// may have any.
pub fn locator(h: FlatHeader, number: u8) -> Locator
    ensures { result ≡ locator_of h number }
{
    h.locators
        .iter()
        .take(h.count as usize)
        .find(|l| l.number == number)
        .copied()
        .unwrap_or(NO_LOCATOR)
}

pub fn map_start(h: FlatHeader) -> u64
    ensures { (result ≡ map_start h) × (result < 2 ^ 32) }
{
    let map = locator(h, 2);
    map.offset as u64
}

#[tactic(auto, unfolding(rules::specs::Header::map_end))]
pub fn map_end(h: FlatHeader) -> u64
    ensures { (result ≡ map_end h) × (result < 2 ^ 33) }
{
    let map = locator(h, 2);
    map.offset as u64 + map.size as u64
}

pub fn header_end(h: FlatHeader) -> u64
    ensures { result ≡ header_end h }
{
    43 + 9 * (h.count as u64)
}

// Whether the magic is that of R2000.
pub fn is_r2000(h: FlatHeader) -> bool
    ensures { result ≡ is_r2000 h }
{
    h.magic == *b"AC1015"
}

// Whether a locator's bytes end behind the source.
#[tactic(auto, unfolding(rules::specs::Header::is_outside))]
#[inline(always)]
fn is_outside(h: FlatHeader, number: u8) -> bool
    ensures { result ≡ is_outside h number }
{
    let l = locator(h, number);
    h.length < l.offset as u64 + l.size as u64
}

// Whether Start takes the header: refusals 1 and 2. Inlined, since each call of a walk asks it again.
#[inline(always)]
pub fn start_answer(h: FlatHeader) -> Result<(), StreamError>
    ensures { result ≡ start_answer (start_refusal h) }
{
    if 6 < h.count {
        return Err(StreamError::LocatorCount(h.count));
    }
    for number in 0..3 {
        if is_outside(h, number) {
            return Err(StreamError::LocatorRange(number));
        }
    }
    Ok(())
}

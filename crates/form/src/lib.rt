// The driver's input form, checked and read section by section: locators, magic, cuts, source, each behind its count (document 01, "Driver").
#![tactic(auto)]

ghost use Rattle.std.specs.Prelude.{◌≡◌, ◌+◌, ◌*◌, ◌<◌, ◌≤◌, true, false, length, slice_get, IfSome, MatchOption};
ghost use Rattle.form.specs.Cutting.{Cutting};
ghost use Rattle.form.specs.Form.{number_at, count_at, stands, Found, none_zero, first_cuts, is_form, locator_at, locator_in, locators_in, form_of, Given};

use octets::array_at;
use std::array;
use std::marker::Model;
use streaming::{FlatHeader, Locator, NO_LOCATOR};

// The sizes at which demands are cut, in turn: at most 64, and none of them is 0. Behind them the array holds 0, so that the list of them gives the whole value back, which `Copy` asks for.
#[derive(Clone, Copy)]
pub struct Cuts {
    count: usize,
    sizes: [u16; 64],
}

impl Model for Cuts {
    ghost use Rattle.std.specs.Prelude.{ℕ, List, length, take};
    ghost use Rattle.form.specs.Cutting.{in_room, Laid};

    ghost Value = { List ℕ };

    ghost view = { λ c. take c.count c.sizes };

    ghost invariant = { λ c. Laid c.count c.sizes };

    ghost inverse = { λ l. record { count = length l; sizes = in_room l } };

    ghost inverse_ok = { λ c h i. record { count = h.counted i; sizes = h.blank i } };
}

impl Cuts {
    // How many there are.
    pub fn len(&self) -> usize
        ensures count { result ≡ length self.now }
        ensures cutting { Cutting self.now }
    {
        self.count
    }

    // The cut of an index, if there is one.
    pub fn get(&self, i: usize) -> Option<u16>
        ensures cut { result ≡ slice_get self.now i }
        ensures some { IfSome result (λ size. 0 < size) }
    {
        self.sizes[..self.len()].get(i).copied()
    }

    // The cuts of a section, unless one of them is 0. By index, as `none_zero` and `first_cuts` speak of indices.
    fn read(s: &[u8], section: Section) -> Option<Cuts>
        requires { (section.items + 2 * section.count ≤ length s.now) × (section.count ≤ 64) }
        ensures { MatchOption result (none_zero s.now section.items section.count ≡ false) (λ c. (none_zero s.now section.items section.count ≡ true) × (c ≡ first_cuts s.now section.items section.count)) }
    {
        let mut sizes = [0; 64];
        for i in 0..section.count {
            let size = u16::from_le_bytes(array_at(s, section.items + 2 * i));
            if size == 0 {
                return None;
            }
            sizes[i] = size;
        }
        Some(Cuts {
            count: section.count,
            sizes,
        })
    }
}

// What an input in the form says: the header, the cuts, and the place at which the source's bytes begin.
#[derive(Clone, Copy)]
pub struct Form {
    pub header: FlatHeader,
    pub cuts: Cuts,
    pub source: usize,
}

// How a section may be: so many bytes for each item, and how many items.
#[derive(Clone, Copy)]
struct Shape {
    size: usize,
    least: usize,
    most: usize,
}

// A section that stands: how many items it has, where they begin, and where it ends. They stay places in the input, since the definitions speak of places.
#[derive(Clone, Copy)]
struct Section {
    count: usize,
    items: usize,
    end: usize,
}

const MOST_BYTES: usize = 60000;

const MOST_LOCATORS: usize = 6;

const LOCATORS: Shape = Shape {
    size: 9,
    least: 0,
    most: MOST_LOCATORS,
};

const MAGIC: Shape = Shape {
    size: 1,
    least: 6,
    most: 6,
};

const CUTS: Shape = Shape {
    size: 2,
    least: 0,
    most: 64,
};

const SOURCE: Shape = Shape {
    size: 1,
    least: 0,
    most: MOST_BYTES,
};

#[tactic(auto, using(crate::proofs::Numbers::four_is))]
fn u32_at(s: &[u8], at: usize) -> u32
    requires { at + 4 ≤ length s.now }
    ensures { result ≡ number_at s.now at 4 }
{
    u32::from_le_bytes(array_at(s, at))
}

// The section of a shape that stands at a place, if one does.
fn section_at(s: &[u8], at: usize, shape: Shape) -> Option<Section>
    requires { (at ≤ length s.now) × (length s.now ≤ 60000) × (shape.size ≤ 9) }
    ensures { MatchOption result (stands s.now at shape.size shape.least shape.most ≡ false) (λ x. Found s.now at shape x) }
{
    if s.len() < at + 4 {
        return None;
    }
    let count = u32_at(s, at) as usize;
    if count < shape.least || shape.most < count {
        return None;
    }
    let items = at + 4;
    let end = items + shape.size * count;
    if s.len() < end {
        return None;
    }
    Some(Section { count, items, end })
}

// The locator whose nine bytes begin at a place.
pub fn locator_at(s: &[u8], at: usize) -> Locator
    requires { at + 9 ≤ length s.now }
    ensures { result ≡ locator_at s.now at }
{
    Locator {
        number: s[at],
        offset: u32_at(s, at + 1),
        size: u32_at(s, at + 5),
    }
}

// The locator of an index; those behind the counted ones are blank.
#[tactic(auto, unfolding(crate::specs::Form::locator_in))]
fn locator(s: &[u8], count: usize, i: usize) -> Locator
    requires { (count ≡ count_at s.now 0) × (4 + 9 * count ≤ length s.now) × (i < 6) }
    ensures { result ≡ locator_in s.now i }
{
    if i < count {
        locator_at(s, 4 + 9 * i)
    } else {
        NO_LOCATOR
    }
}

// All six.
fn six_locators(s: &[u8], count: usize) -> [Locator; 6]
    requires { (count ≡ count_at s.now 0) × (4 + 9 * count ≤ length s.now) }
    ensures { result ≡ locators_in s.now }
{
    array::from_fn(|i| locator(s, count, i))
}

// What an input says, if it is in the form.
pub fn read(s: &[u8]) -> Option<Form>
    ensures form { result ≡ form_of s.now }
    ensures given { IfSome result (λ f. Given s.now f) }
{
    if MOST_BYTES < s.len() {
        return None;
    }
    let locators = section_at(s, 0, LOCATORS)?;
    let magic = section_at(s, locators.end, MAGIC)?;
    let cuts = section_at(s, magic.end, CUTS)?;
    let sizes = Cuts::read(s, cuts)?;
    let source = section_at(s, cuts.end, SOURCE)?;
    if source.end != s.len() {
        return None;
    }
    let header = FlatHeader {
        magic: array_at(s, magic.items),
        count: locators.count as u8,
        locators: six_locators(s, locators.count),
        length: source.count as u64,
    };
    Some(Form {
        header,
        cuts: sizes,
        source: source.items,
    })
}

// Whether an input is in the form.
#[tactic(auto, using(crate::proofs::Reading::is_said))]
pub fn is_form(s: &[u8]) -> bool
    ensures { result ≡ is_form s.now }
{
    read(s).is_some()
}

// The four sentinels: by part, the one at the start and the one at the end (§9, §10.1).
// A part is a number here: the table of tables is document 01's named form, picked by part and end.
ghost use Rattle.std.specs.Prelude.{◌≡◌, ◌+◌, ◌<◌, ◌≤◌, length};
ghost use Rattle.account.specs.Statement.{part as span};
ghost use Rattle.octets.specs.Octets.{same};
ghost use Rattle.section.specs.Section.{sentinel_at};

const SENTINELS: [[[u8; 16]; 2]; 2] = [
    [
        [
            0xCF, 0x7B, 0x1F, 0x23, 0xFD, 0xDE, 0x38, 0xA9, 0x5F, 0x7C, 0x68, 0xB8, 0x4E, 0x6D,
            0x33, 0x5F,
        ],
        [
            0x30, 0x84, 0xE0, 0xDC, 0x02, 0x21, 0xC7, 0x56, 0xA0, 0x83, 0x97, 0x47, 0xB1, 0x92,
            0xCC, 0xA0,
        ],
    ],
    [
        [
            0x8D, 0xA1, 0xC4, 0xB8, 0xC4, 0xA9, 0xF8, 0xC5, 0xC0, 0xDC, 0xF4, 0x5F, 0xE7, 0xCF,
            0xB6, 0x8A,
        ],
        [
            0x72, 0x5E, 0x3B, 0x47, 0x3B, 0x56, 0x07, 0x3A, 0x3F, 0x23, 0x0B, 0xA0, 0x18, 0x30,
            0x49, 0x75,
        ],
    ],
];

// Where in a section a sentinel stands.
#[derive(Clone, Copy)]
pub enum Side {
    Start,
    End,
}

// The sentinel of a part at one of its sides.
#[tactic(auto, unfolding(rules::specs::Section::sentinels))]
fn sentinel(part: usize, side: Side) -> [u8; 16]
    requires { part < 2 }
    ensures { result ≡ sentinel_at part side }
{
    SENTINELS[part][side as usize]
}

// Whether a piece is the part of a sentinel from a place on.
pub fn spells(part: usize, side: Side, at: usize, piece: &[u8]) -> bool
    requires part { part < 2 }
    requires inside { at + length piece.now ≤ 16 }
    ensures { result ≡ same piece.now (span (sentinel_at part side) at (length piece.now)) }
{
    let s = sentinel(part, side);
    let e = at + piece.len();
    octets::same(piece, &s[at..e])
}

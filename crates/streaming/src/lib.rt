// The types of the walk, with the Rust's names where a thing is the Rust's (src/streaming/mod.rs and flat.rs).
#![tactic(auto)]

ghost use Rattle.std.specs.Prelude.{◌≡◌};
ghost use Rattle.streaming.specs.Numbers.{part_number};
ghost use Rattle.streaming.specs.State.{in_unit, with_object, goes_on};
ghost use Rattle.streaming.specs.State.{failing, stepped, fell};

pub use unit::Unit;

mod unit;

// A section locator.
#[derive(Clone, Copy)]
pub struct Locator {
    pub number: u8,
    pub offset: u32,
    pub size: u32,
}

// What stands for a locator that is missing.
pub const NO_LOCATOR: Locator = Locator {
    number: 0,
    offset: 0,
    size: 0,
};

// The verified file header that a walk starts from. Only the counted locators have a say; a count above 6 is what Start refuses by 1, so it stands beside.
#[derive(Clone, Copy)]
pub struct FlatHeader {
    pub magic: [u8; 6],
    pub count: u8,
    pub locators: [Locator; 6],
    pub length: u64,
}

// The next exact byte demand.
#[derive(Clone, Copy)]
pub struct Request {
    pub offset: u64,
    pub len: u64,
}

// Owner of payload bytes.
#[derive(Clone, Copy)]
pub enum Part {
    HeaderVars,
    Classes,
    Object,
}

// Document 01's number of a part.
impl From<Part> for u8 {
    ghost from_gives = { λ part n. n ≡ part_number part };

    fn from(part: Part) -> u8 {
        match part {
            Part::HeaderVars => 0,
            Part::Classes => 1,
            Part::Object => 2,
        }
    }
}

// A committed section: its data passed size, checksum and sentinels.
#[derive(Clone, Copy)]
pub struct SectionRecord {
    pub part: Part,
    pub data_offset: u64,
    pub size: u32,
}

// A committed object: checksum, prologue and map handle all agree.
#[derive(Clone, Copy, PartialEq, Eq)]
pub struct ObjectRecord {
    pub handle: u64,
    pub offset: u64,
    pub size: u32,
    pub type_code: u16,
}

// What the bytes of one accepted piece were.
#[derive(Clone, Copy)]
pub enum Step {
    Framing,
    Payload(Part),
    Section(SectionRecord),
    Object(ObjectRecord),
    Finished,
}

// A fault of the drawing. It is terminal: every later call answers it again.
// A part stays a number, as in the Rust: the state holds a fault, and the calls of `flat` take a saved state with any number.
#[derive(Clone, Copy)]
pub enum Fault {
    SectionSize(u8),
    SectionSentinel(u8),
    SectionCrc {
        part: u8,
        expected: u16,
        actual: u16,
    },
    MapChunk(u64),
    MapCrc {
        chunk: u64,
        expected: u16,
        actual: u16,
    },
    MapEntry(u64),
    ObjectRange {
        handle: u64,
        offset: u64,
    },
    ObjectSize(u64),
    ObjectCrc {
        handle: u64,
        expected: u16,
        actual: u16,
    },
    ObjectHeader(u64),
    ObjectHandle {
        map: u64,
        record: u64,
    },
}

// Everything that a call may be refused with. Only a fault changes the state.
#[derive(Clone, Copy)]
pub enum StreamError {
    LocatorCount(u8),
    LocatorRange(u8),
    Finished,
    WrongOffset { expected: u64, actual: u64 },
    InvalidFeed { maximum: u64, actual: u64 },
    Truncated { offset: u64, needed: u64 },
    Fault(Fault),
    NoRoom(u64),
    BadState,
}

// Where the walk stands.
#[derive(Clone, Copy)]
pub enum Stage {
    Vars,
    Classes,
    Chunk,
    Entry,
    Object,
    Done,
}

// The object map's position, kept while objects are visited. `field` stays a number: `fit` and `consistent` are asked about any saved state.
#[derive(Clone, Copy, PartialEq, Eq)]
pub struct MapCursor {
    pub chunk: u64,
    pub len: u32,
    pub at: u64,
    pub handle: u64,
    pub loc: u64,
    pub mc: u64,
    pub shift: u8,
    pub field: u8,
}

// The state of a walk. It goes into a call by value and comes back in the call's answer.
// `field` and `head` stay arrays, filled as far as `done` says, and an `ms_len` of 0 says that the size is not known: they are a saved state's, and `fit`
// and `consistent` take any.
#[derive(Clone, Copy)]
pub struct FlatWalker {
    pub header: FlatHeader,
    pub stage: Stage,
    pub done: u32,
    pub size: u32,
    pub crc: u16,
    pub field: [u8; 4],
    pub head: [u8; 16],
    pub object: u64,
    pub ms_len: u8,
    pub words: u8,
    pub map: MapCursor,
    // The fault that is held, if any.
    pub failure: Option<Fault>,
}

// What `feed` gives back: the answer, and the state to go on with. A refused offset or length gives the state back as it was.
#[derive(Clone, Copy)]
pub struct Fed {
    pub answer: Result<Step, StreamError>,
    pub state: FlatWalker,
}

// The unit in hand: its stage, how much of it is done, its size, its checksum so far and the bytes of a partial number.
// They stay loose here and in `go_on`: docs/DECISIONS.md names both, and they have the arguments of their definitions.
pub fn in_unit(
    s: FlatWalker,
    stage: Stage,
    done: u32,
    size: u32,
    crc: u16,
    field: [u8; 4],
) -> FlatWalker
    ensures { result ≡ in_unit s stage done size crc field }
{
    FlatWalker {
        stage,
        done,
        size: size,
        crc,
        field,
        ..s
    }
}

// The object in hand: the first bytes of its data, its location, the bytes of its size field and its size words.
pub fn with_object(s: FlatWalker, head: [u8; 16], object: u64, ms_len: u8, words: u8) -> FlatWalker
    ensures { result ≡ with_object s head object ms_len words }
{
    FlatWalker {
        head,
        object,
        ms_len,
        words,
        ..s
    }
}

// A fault is held.
pub fn failing(s: FlatWalker, f: Fault) -> FlatWalker
    ensures { result ≡ failing s f }
{
    FlatWalker {
        failure: Some(f),
        ..s
    }
}

// A step is answered.
pub fn stepped(step: Step, s: FlatWalker) -> Fed
    ensures { result ≡ stepped step s }
{
    Fed {
        answer: Ok(step),
        state: s,
    }
}

// The unit in hand goes on, and nothing of it is payload.
pub fn go_on(s: FlatWalker, done: u32, size: u32, crc: u16, field: [u8; 4]) -> Fed
    ensures { result ≡ goes_on s done size crc field }
{
    let stage = s.stage;
    stepped(Step::Framing, in_unit(s, stage, done, size, crc, field))
}

// A fault is answered and held.
pub fn fell(f: Fault, s: FlatWalker) -> Fed
    ensures { result ≡ fell f s }
{
    Fed {
        answer: Err(StreamError::Fault(f)),
        state: failing(s, f),
    }
}

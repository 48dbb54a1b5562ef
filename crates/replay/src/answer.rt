// Operations: what each answers, and the walk that is in hand after it.
ghost use Rattle.std.specs.Prelude.{◌≡◌, ◌+◌, ◌≤◌, [], length, IsSome, Some, None};
ghost use Rattle.lines.specs.Line.{line_of, text_of};
ghost use Rattle.flat.specs.Flat.{start_of};
ghost use Rattle.replay.specs.Form.{size_of};
ghost use Rattle.replay.specs.Parse.{number_at, header_in, state_in};
ghost use Rattle.replay.specs.Answers.{start_line, fed_line, fed_by, ask_line, answer_line, hand_of, hand_after};

use crate::{parse, said};
use lines::Line;
use octets::number_at;
use streaming::{Fed, FlatWalker};

#[derive(Clone, Copy)]
pub struct Answered {
    pub line: Line,
    // The walk that is in hand, if there is one.
    pub hand: Option<FlatWalker>,
}

// What is in hand before any operation: no walk. A function of its own, since `answers`, which begins with it, has no contract that could say so.
pub fn empty_hand() -> Option<FlatWalker>
    ensures { result ≡ None }
{
    Option::None
}

#[tactic(auto, unfolding(crate::specs::Answers::fed_by))]
fn feed(walk: FlatWalker, s: &[u8]) -> Fed
    requires { 13 + number_at s.now 9 4 ≤ length s.now }
    ensures { result ≡ fed_by walk s.now }
{
    let offset = number_at(s, 1, 8);
    let n = number_at(s, 9, 4) as usize;
    flat::feed(walk, offset, &s[13..13 + n])
}

// `F`: the walk goes on.
#[inline(never)]
fn go_on(walk: FlatWalker, s: &[u8]) -> Answered
    requires { 13 + number_at s.now 9 4 ≤ length s.now }
    ensures line { text_of result.line ≡ fed_line (fed_by walk s.now).answer }
    ensures hand { result.hand ≡ Some (fed_by walk s.now).state }
{
    let fed = feed(walk, s);
    Answered {
        line: said::fed(fed.answer),
        hand: Some(fed.state),
    }
}

// `H`: the walk that begins, if Start takes the header.
#[inline(never)]
fn begin(s: &[u8]) -> Answered
    requires { 70 ≤ length s.now }
    ensures line { text_of result.line ≡ start_line (start_of (header_in s.now)) }
    ensures hand { result.hand ≡ hand_of (start_of (header_in s.now)) }
{
    let started = flat::start(parse::header(s));
    Answered {
        line: said::started(started),
        hand: started.ok(),
    }
}

// `W`: the state is taken as it comes.
#[inline(never)]
fn take_in(s: &[u8]) -> Answered
    requires { 157 ≤ length s.now }
    ensures line { text_of result.line ≡ line_of 87 [] }
    ensures hand { result.hand ≡ Some (state_in s.now) }
{
    Answered {
        line: Line::new(b'W', &[]),
        hand: Some(parse::state(s)),
    }
}

// What leaves the walk as it is.
#[inline(never)]
#[tactic(auto, unfolding(crate::specs::Answers::ask_line))]
fn ask(walk: FlatWalker, letter: u8) -> Line
    ensures { text_of result ≡ ask_line walk letter }
{
    match letter {
        b'R' => said::asked(flat::request(walk)),
        b'N' => said::ended(flat::end_of_input(walk)),
        b'C' => said::yes(flat::consistent(walk)),
        _ => said::yes(flat::fit(walk)),
    }
}

// The operation that begins s. What each does stands in a function of its own, so that no operation pays for the states and lines of the others.
#[tactic(auto, using(crate::proofs::Behind::behind), unfolding(crate::specs::Answers::answer_line, crate::specs::Answers::hand_after))]
pub fn answer(hand: Option<FlatWalker>, s: &[u8]) -> Answered
    requires { IsSome (size_of s.now) }
    ensures line_value { text_of result.line ≡ answer_line hand s.now }
    ensures hand_value { result.hand ≡ hand_after hand s.now }
{
    match (s[0], hand) {
        (b'H', _) => begin(s),
        (b'W', _) => take_in(s),
        (_, None) => Answered {
            line: Line::new(b'-', &[]),
            hand,
        },
        (b'F', Some(walk)) => go_on(walk, s),
        (letter, Some(walk)) => Answered {
            line: ask(walk, letter),
            hand,
        },
    }
}

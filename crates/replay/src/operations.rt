// The operations of an input: how long each is, and whether the input is operations and nothing else.
ghost use Rattle.std.specs.Prelude.{◌≡◌, ◌≤◌, ◌<◌, length, IfSome};
ghost use Rattle.replay.specs.Form.{state_size, size_of, is_whole};

#[tactic(auto, unfolding(crate::specs::Form::state_size))]
fn state_size(s: &[u8]) -> Option<usize>
    ensures size { result ≡ state_size s.now }
    ensures inside { IfSome result (λ n. (0 < n) × (n ≤ length s.now)) }
{
    let stage = *s.get(70)?;
    (s.len() >= 157 && (1..=6).contains(&stage)).then_some(157)
}

// The bytes of the operation that begins s; none where it is malformed. An operation stays bytes: the contracts speak of them, and an enum would be one
// layer more.
#[tactic(auto, unfolding(crate::specs::Form::size_of, crate::specs::Form::is_bare, crate::specs::Form::feed_size))]
pub fn size(s: &[u8]) -> Option<usize>
    ensures size { result ≡ size_of s.now }
    ensures inside { IfSome result (λ n. (0 < n) × (n ≤ length s.now)) }
{
    match *s.first()? {
        b'R' | b'N' | b'C' | b'T' => Some(1),
        b'H' => (s.len() >= 70).then_some(70),
        b'W' => state_size(s),
        b'F' => octets::counted_size(s, 9),
        _ => None,
    }
}

// Whether the input is operations and nothing else.
// `crc_replay`, `heads_replay` and `replay` each have this loop and one that answers: one for all would take a closure with clauses on what it leaves, and be no plainer.
#[tactic(auto, using(crate::proofs::Whole::left))]
pub fn whole(s: &[u8]) -> bool
    ensures { result ≡ is_whole (length s.now) s.now }
{
    let mut rest = s;
    while let Some(n) = size(rest) {
        rest = &rest[n..];
    }
    rest.is_empty()
}

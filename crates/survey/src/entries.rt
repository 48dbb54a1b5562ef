// An entry of the object map, read from the bytes of its chunk: a handle delta, then a location delta (§23.1).
ghost use Rattle.std.specs.Prelude.{◌≡◌, ◌+◌, ◌*◌, ◌-◌, ◌^◌, ◌≤◌, ◌<◌, ◌%◌, length, take, reverse, IfSome, fold, position, nat_lt};
ghost use Rattle.account.specs.Statement.{part};
ghost use Rattle.rules.specs.Entry.{delta_in, handle_delta, magnitude, is_back, signed, moved, with_location, entry_in};
ghost use Rattle.survey.specs.Entries.{entry_read, groups_read, moved_to};

use object::FARTHEST;

// An object as the map names it.
#[derive(Clone, Copy, PartialEq, Eq)]
pub struct Named {
    pub handle: u64,
    pub location: u64,
}

// Where an entry of so many bytes leads.
#[derive(Clone, Copy, PartialEq, Eq)]
pub struct Leads {
    pub bytes: usize,
    pub to: Named,
}

// The place of the first byte whose high bit is clear, if that is not the tenth or a later one.
fn last_group(bytes: &[u8]) -> Option<usize>
    ensures { result ≡ position (λ b. nat_lt b 0x80) (take 9 bytes.now) }
{
    bytes.iter().take(9).position(|b| *b < 0x80)
}

// How many bytes the delta has that some bytes begin with, if it is whole.
fn groups_in(bytes: &[u8]) -> Option<usize>
    ensures read { result ≡ groups_read (delta_in bytes.now) }
    ensures inside { IfSome result (λ n. (1 ≤ n) × (n ≤ 9) × (n ≤ length bytes.now)) }
{
    let last = last_group(bytes)?;
    Some(last + 1)
}

// The number of some groups with a last one behind them, from the last on. In 64 bits nothing of it is lost: nine groups have 63.
fn groups_then(bytes: &[u8], last: u64) -> u64
    ensures { result ≡ fold (λ value b. (value * 0x80 % 2 ^ 64 + b % 0x80) % 2 ^ 64) last (reverse bytes.now) }
{
    bytes.iter().rev().fold(last, |value, b| {
        value.wrapping_mul(0x80).wrapping_add(u64::from(*b % 0x80))
    })
}

// What a handle moves by.
fn handle_delta(groups: &[u8]) -> u64
    requires { length groups.now ≤ 9 }
    ensures { (result ≡ handle_delta groups.now) × (result < 2 ^ 63) }
{
    groups_then(groups, 0)
}

// How far a location moves: in its last byte 6 bits count.
fn location_delta(groups: &[u8]) -> u64
    requires { (1 ≤ length groups.now) × (length groups.now ≤ 9) }
    ensures { result ≡ magnitude groups.now }
{
    let last = groups.len() - 1;
    groups_then(&groups[..last], u64::from(groups[last] % 0x40))
}

// Whether a location moves back: in its last byte 0x40 is the sign.
fn is_back(groups: &[u8]) -> bool
    requires { 1 ≤ length groups.now }
    ensures { result ≡ is_back groups.now }
{
    let last = groups.len() - 1;
    groups[last] / 0x40 % 2 == 1
}

// A location moved ahead or back. `entry` has another: there, as in the Rust, a negative zero stays at a forged location of 2^63 or more; by the rules it leads nowhere.
fn moved_by(back: bool, location: u64, value: u64) -> Option<u64>
    ensures { result ≡ moved_to (moved location (signed back value)) }
{
    if back & (0 < value) {
        return location.checked_sub(value);
    }
    let to = location.checked_add(value)?;
    (to <= FARTHEST).then_some(to)
}

// The location delta that some bytes begin with, behind n bytes of handle delta. A refusal says at which byte.
fn location_in(bytes: &[u8], n: usize, handle: u64, location: u64) -> Result<Leads, usize>
    requires { n ≤ 9 }
    ensures { result ≡ entry_read (with_location n handle location bytes.now (delta_in bytes.now)) }
{
    let m = groups_in(bytes).ok_or(n + bytes.len().min(10))?;
    let value = location_delta(&bytes[..m]);
    let back = is_back(&bytes[..m]);
    let location = moved_by(back, location, value).ok_or(n + m)?;
    Ok(Leads {
        bytes: n + m,
        to: Named { handle, location },
    })
}

// The entry that some bytes begin with, by the object that the last one led to.
fn entry_in(bytes: &[u8], last: Named) -> Result<Leads, usize>
    ensures { result ≡ entry_read (entry_in last.handle last.location bytes.now) }
{
    let n = groups_in(bytes).ok_or(bytes.len().min(10))?;
    let value = handle_delta(&bytes[..n]);
    if bytes.len() <= n {
        return Err(n);
    }
    let handle = last.handle.checked_add(value).ok_or(n)?;
    location_in(&bytes[n..], n, handle, last.location)
}

// The entry of a chunk at a place, by the object that the last one led to: where it leads, or the number of its byte that is refused. The chunk's entries end at `end`, or where the source does.
pub fn entry_at(src: &[u8], at: usize, end: usize, last: Named) -> Result<Leads, usize>
    ensures { result ≡ entry_read (entry_in last.handle last.location (part src.now at (end - at))) }
{
    let stop = end.min(src.len());
    if stop <= at {
        return Err(0);
    }
    entry_in(&src[at..stop], last)
}

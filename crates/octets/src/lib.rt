// Bytes: the numbers that they make, lowest byte first or highest byte first; an array of them out of a slice; how long a thing is that counts its bytes; whether two slices are the same; and copies into a slice. The library's methods, said in the definitions' words, on which the contracts above stand.
#![tactic(auto)]

ghost use Rattle.std.specs.Prelude.{◌≡◌, [], ◌∷◌, ◌+◌, ◌≤◌, ◌<◌, ◌^◌, min, length, take, drop, IfSome};
ghost use Rattle.std.proofs.lemmas.List.Edits.{sets};
ghost use Rattle.octets.specs.Octets.{little_endian, big_endian, counted_size, same};

#[tactic(auto, unfolding(crate::specs::Octets::little_endian))]
pub fn le16(a: u8, b: u8) -> u16
    ensures { result ≡ little_endian (a ∷ b ∷ []) }
{
    u16::from_le_bytes([a, b])
}

#[tactic(auto, unfolding(crate::specs::Octets::big_endian))]
pub fn be16(a: u8, b: u8) -> u16
    ensures { result ≡ big_endian (a ∷ b ∷ []) }
{
    u16::from_be_bytes([a, b])
}

#[tactic(auto, unfolding(crate::specs::Octets::little_endian))]
pub fn le32(a: u8, b: u8, c: u8, d: u8) -> u32
    ensures { result ≡ little_endian (a ∷ b ∷ c ∷ d ∷ []) }
{
    u32::from_le_bytes([a, b, c, d])
}

// The number of n bytes at a place, lowest byte first.
pub fn number_at(s: &[u8], at: usize, n: usize) -> u64
    requires { (at + n ≤ length s.now) × (n ≤ 8) }
    ensures { (result ≡ little_endian (take n (drop at s.now))) × (result < 256 ^ n) }
{
    let mut bytes = [0; 8];
    bytes[..n].copy_from_slice(&s[at..at + n]);
    u64::from_le_bytes(bytes)
}

// The N bytes at a place.
pub fn array_at<const N: usize>(s: &[u8], at: usize) -> [u8; N]
    requires { at + N ≤ length s.now }
    ensures { result ≡ take N (drop at s.now) }
{
    let mut bytes = [0; N];
    bytes.copy_from_slice(&s[at..at + N]);
    bytes
}

// The bytes of what begins s: the last four bytes of its front, from a place on, count the bytes behind it. None where it is cut short.
pub fn counted_size(s: &[u8], at: usize) -> Option<usize>
    ensures size { result ≡ counted_size s.now at }
    ensures inside { IfSome result (λ n. (at + 4 ≤ n) × (n ≤ length s.now)) }
{
    let behind = s.len().checked_sub(4)?.checked_sub(at)?;
    let n = u32::from_le_bytes(array_at(s, at)) as usize;
    (n <= behind).then_some(at + 4 + n)
}

// Whether two slices have the same bytes.
pub fn same(a: &[u8], b: &[u8]) -> bool
    ensures { result ≡ same a.now b.now }
{
    a == b
}

// The bytes of src in place of those of dst from a place on.
pub fn copy_in(dst: &mut [u8], at: usize, src: &[u8])
    requires { at + length src.now ≤ length dst.old }
    ensures { dst.new ≡ sets dst.old at src.now }
{
    dst[at..at + src.len()].copy_from_slice(src);
}

// What may not change: the must-fail edit `greater_of_two` speaks of it. The library's `min` says the same.
pub fn least(a: u64, b: u64) -> u64
    ensures { result ≡ min a b }
{
    a.min(b)
}

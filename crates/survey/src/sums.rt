// Numbers and checksums of a source in hand, by their place. Two byte orders, as they have two definitions.
ghost use Rattle.std.specs.Prelude.{◌≡◌, ◌+◌, ◌≤◌, length};
ghost use Rattle.octets.specs.Octets.{little_endian, big_endian};
ghost use Rattle.account.specs.Statement.{part};
ghost use Rattle.rules.specs.Bytes.{checksum};

// The number of two bytes, low byte first.
pub fn le16_at(src: &[u8], at: usize) -> u16
    requires { at + 2 ≤ length src.now }
    ensures { result ≡ little_endian (part src.now at 2) }
{
    octets::le16(src[at], src[at + 1])
}

// The number of two bytes, high byte first.
pub fn be16_at(src: &[u8], at: usize) -> u16
    requires { at + 2 ≤ length src.now }
    ensures { result ≡ big_endian (part src.now at 2) }
{
    octets::be16(src[at], src[at + 1])
}

// The checksum of n bytes.
pub fn sum_at(src: &[u8], at: usize, n: usize) -> u16
    requires { at + n ≤ length src.now }
    ensures { result ≡ checksum (part src.now at n) }
{
    let end = at + n;
    crc::crc8(chunk::SEED, &src[at..end])
}

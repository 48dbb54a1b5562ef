// The checksum for callers in C and Rust: the static library over crate `crc`. The names are those that its callers link.
#![tactic(auto)]

ghost use Rattle.std.specs.Prelude.{◌≡◌};
ghost use Rattle.crc.specs.Crc.{crc_of};

#[unsafe(no_mangle)]
pub extern "C" fn crc8(seed: u16, data: &[u8]) -> u16
    ensures { result ≡ crc_of seed «data».now }
{
    crc::crc8(seed, data)
}

#[unsafe(no_mangle)]
pub extern "C" fn crc8_plain(seed: u16, data: &[u8]) -> u16
    ensures { result ≡ crc_of seed «data».now }
{
    crc::crc8_plain(seed, data)
}

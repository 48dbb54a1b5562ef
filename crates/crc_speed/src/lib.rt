// What the speed command times: the checksum over one piece many times, each from the result of the last, with one lent table.
#![tactic(auto)]

ghost use Rattle.std.specs.Prelude.{◌≡◌};
ghost use Rattle.crc_speed.specs.Times.{crc_times};

#[unsafe(no_mangle)]
pub extern "C" fn crc8_lent(seed: u16, data: &[u8], times: u64) -> u16
    ensures { result ≡ crc_times times seed «data».now }
{
    let rows = crc::table();
    let mut crc = seed;
    for _ in 0..times {
        crc = crc::by_eight(&rows, crc, data);
    }
    crc
}

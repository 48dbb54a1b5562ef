// The drawing's 16-bit checksum: `crc8` of src/crc.rs, by eight bytes at a time, and the plain path that it must equal.
#![tactic(auto)]

ghost use Rattle.std.specs.Prelude.{◌≡◌};
ghost use Rattle.crc.specs.Crc.{crc_byte, crc_of};
ghost use Rattle.crc.specs.Rows.{Table, FirstRow};

mod rows;

// One byte: its entry is found by the state's low byte and the byte, and mixed with the high byte.
fn one(row: &[u16; 256], crc: u16, b: u8) -> u16
    requires { FirstRow row.now }
    ensures { result ≡ crc_byte crc b }
{
    let [low, high] = crc.to_le_bytes();
    u16::from(high) ^ row[usize::from(low ^ b)]
}

// Eight bytes: the state goes into the first two, and each byte is looked up in the row of the bytes behind it.
fn group(rows: &[[u16; 256]; 8], crc: u16, word: &[u8; 8]) -> u16
    requires { Table rows.now }
    ensures { result ≡ crc_of crc word.now }
{
    let [low, high] = crc.to_le_bytes();
    let [a, b, c, d, e, f, g, h] = *word;
    rows[7][usize::from(a ^ low)]
        ^ rows[6][usize::from(b ^ high)]
        ^ rows[5][usize::from(c)]
        ^ rows[4][usize::from(d)]
        ^ rows[3][usize::from(e)]
        ^ rows[2][usize::from(f)]
        ^ rows[1][usize::from(g)]
        ^ rows[0][usize::from(h)]
}

fn by_byte(row: &[u16; 256], seed: u16, data: &[u8]) -> u16
    requires { FirstRow row.now }
    ensures { result ≡ crc_of seed «data».now }
{
    let mut crc = seed;
    for b in data {
        crc = one(row, crc, *b);
    }
    crc
}

// The checksum with a table that is lent.
pub fn by_eight(rows: &[[u16; 256]; 8], seed: u16, data: &[u8]) -> u16
    requires { Table rows.now }
    ensures { result ≡ crc_of seed «data».now }
{
    let (words, rest) = data.as_chunks::<8>();
    let mut crc = seed;
    for word in words {
        crc = group(rows, crc, word);
    }
    by_byte(&rows[0], crc, rest)
}

// The table stands once in the program.
fn lent() -> &'static [[u16; 256]; 8]
    ensures { Table result.now }
{
    &rows::ROWS
}

// A copy of the table, and `by_eight` with one that is lent: they stay, since docs/DECISIONS.md names them.
pub fn table() -> [[u16; 256]; 8]
    ensures { Table result }
{
    *lent()
}

// A byte at a time.
pub fn crc8_plain(seed: u16, data: &[u8]) -> u16
    ensures { result ≡ crc_of seed «data».now }
{
    by_byte(&lent()[0], seed, data)
}

pub fn crc8(seed: u16, data: &[u8]) -> u16
    ensures { result ≡ crc_of seed «data».now }
{
    by_eight(lent(), seed, data)
}

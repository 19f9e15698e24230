// The 1-Wire CRC of bytes, of a run of bits, and of a ROM code.
#![tactic(auto)]

mod table;

ghost use Rattle.std.specs.Prelude.{◌≡◌};
ghost use Rattle.basic_laws.specs.Bits.{bits_of};
ghost use Rattle.crc.specs.Crc.{crc_bit, crc_bits, crc_of};
ghost use Rattle.crc.specs.Table.{registers};

// The polynomial X^8 + X^5 + X^4 + 1, in a register that moves toward its lowest bit.
const TAPS: u8 = 0x8C;

// The register after one bit.
pub fn crc_bit(register: u8, bit: bool) -> u8
    ensures answer { result ≡ crc_bit register bit }
{
    let half = register / 2;
    let low = register % 2;
    if low == 1 {
        if bit { half } else { half ^ TAPS }
    } else {
        if bit { half ^ TAPS } else { half }
    }
}

// The table as a value, laid out once for a call and lent to its loop: a constant that a loop reads
// is laid out anew at each turn.
fn registers() -> [u8; 256]
    ensures answer { result ≡ registers 0 256 }
{
    table::TABLE
}

// The register after the eight bits of a byte, least significant first.
fn crc_byte(table: &[u8; 256], register: u8, byte: u8) -> u8
    requires { table.now ≡ registers 0 256 }
    ensures answer { result ≡ crc_bits register (bits_of 8 byte) }
{
    table[(register ^ byte) as usize]
}

// The register after the lowest bits of a number, as many as `count` says; past its highest bit a
// number has zeros. Only the bits that fill no byte go one by one.
pub fn crc_bits(register: u8, number: u64, count: u8) -> u8
    ensures answer { result ≡ crc_bits register (bits_of count number) }
{
    let table = registers();
    let mut r = register;
    let mut left = number;
    for _ in 0..count / 8 {
        r = crc_byte(&table, r, (left % 256) as u8);
        left = left / 256;
    }
    crc_bit_by_bit(r, left, count % 8)
}

// The same, one bit after another.
fn crc_bit_by_bit(register: u8, number: u64, count: u8) -> u8
    ensures answer { result ≡ crc_bits register (bits_of count number) }
{
    let mut r = register;
    let mut left = number;
    for _ in 0..count {
        r = crc_bit(r, left % 2 == 1);
        left = left / 2;
    }
    r
}

// The CRC of all bytes of a slice; 0 for an empty one.
pub fn crc_of(bytes: &[u8]) -> u8
    ensures answer { result ≡ crc_of bytes.now }
{
    let table = registers();
    let mut r: u8 = 0;
    for &byte in bytes {
        r = crc_byte(&table, r, byte);
    }
    r
}

// The CRC that belongs into the top byte of a ROM code: that of its 56 lower bits.
pub fn crc_of_code(code: u64) -> u8
    ensures answer { result ≡ crc_bits 0 (bits_of 56 code) }
{
    crc_bits(0, code, 56)
}

// ROM codes: their parts, their bits as sent, and whether a code is sound.
#![tactic(auto)]

ghost use Rattle.std.specs.Prelude.{◌≡◌};
ghost use Rattle.basic_laws.specs.Bits.{bit_at};
ghost use Rattle.rom.specs.Code.{family_of, serial_of, crc_byte_of, code_refusal};

// The family, in the low byte.
pub fn family_of(code: u64) -> u8
    ensures answer { result ≡ family_of code }
{
    (code % 256) as u8
}

// The 48 bits of serial number.
pub fn serial_of(code: u64) -> u64
    ensures answer { result ≡ serial_of code }
{
    code / 256 % 0x1_0000_0000_0000
}

// The CRC, in the high byte.
pub fn crc_byte_of(code: u64) -> u8
    ensures answer { result ≡ crc_byte_of code }
{
    (code / 0x100_0000_0000_0000 % 256) as u8
}

// Bit `place` in the order of sending; from 64 on there is none, and the answer is false.
pub fn bit_of(code: u64, place: u8) -> bool
    ensures answer { result ≡ bit_at code place }
{
    if 64 <= place {
        return false;
    }
    (code >> place) % 2 == 1
}

// Why a code is refused: 5 for its CRC, then 7 for its family, or 0 for a sound code.
pub fn refusal_of(code: u64) -> u8
    ensures answer { result ≡ code_refusal code }
{
    let given = crc_byte_of(code);
    let right = crc::crc_of_code(code);
    if given != right {
        return refusals::WRONG_CRC;
    }
    let row = family::properties_of(family_of(code));
    if row.known {
        refusals::ACCEPTED
    } else {
        refusals::WRONG_KIND
    }
}

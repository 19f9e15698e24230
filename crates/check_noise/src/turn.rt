// Bits of a scratchpad turned, by their place in the order of sending: bit 0 of byte 0 first.
use scratchpad::NineBytes;

// X^8 + X^5 + X^4 + 1, the highest term sent first.
pub const POLYNOMIAL: u16 = 0x119;

// Turns, from a place on, the bits that are 1 in `noise`, of up to nine bits; what would be past the
// last place is left out. Places from 72 on begin again at 0.
pub fn turn(pad: NineBytes, place: u8, noise: u16) -> NineBytes {
    let byte = (place % 72 / 8) as usize;
    let both = (noise % 512) << (place % 8) as u16;
    let mut next = pad;
    next[byte] = pad[byte] ^ (both % 256) as u8;
    if byte < 8 {
        next[byte + 1] = pad[byte + 1] ^ (both / 256) as u8;
    }
    next
}

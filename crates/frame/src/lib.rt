// Frames: what the wire showed after one reset.
#![tactic(auto)]

pub mod frame_lines;
pub mod recording;

ghost use Rattle.std.specs.Prelude.{◌≡◌, ◌<◌, ◌==◌};
ghost use Rattle.std.specs.List.{list_all};
ghost use Rattle.frame.specs.Frames.{blank_frame, slot_bit, slots_of, pushed, slots_pushed, clear_from, count_allowed};
ghost use Rattle.frame.specs.Frames.{lineable, bytes_for, with_bit};

// The most slots that a frame has.
pub const MOST_SLOTS: u16 = 512;

// One reset with the slots after it. Slot i is bit i % 8 of bits[i / 8].
#[derive(Clone, Copy)]
pub struct Frame {
    // whether any device showed its presence
    pub presence: bool,
    // how many slots follow the reset
    pub count: u16,
    // the line's bits
    pub bits: [u8; 64],
}

// A frame with no slot yet.
pub fn blank(presence: bool) -> Frame
    ensures answer { result ≡ blank_frame presence }
{
    Frame {
        presence,
        count: 0,
        bits: [0; 64],
    }
}

// The bit of slot i; false at or past the count.
pub fn slot_bit(f: Frame, i: u16) -> bool
    ensures answer { result ≡ slot_bit f i }
{
    let count = f.count;
    let bits = f.bits;
    if count <= i {
        return false;
    }
    if MOST_SLOTS <= i {
        return false;
    }
    let byte = bits[(i / 8) as usize];
    (byte >> (i % 8)) % 2 == 1
}

// A byte with bit i replaced.
fn with_bit(byte: u8, i: u16, bit: bool) -> u8
    requires { i < 8 }
    ensures { result ≡ with_bit byte i bit }
{
    let weight: u8 = 1 << i;
    let old = (byte >> i) % 2;
    let cleared = byte - old * weight;
    if bit { cleared + weight } else { cleared }
}

// The frame with one slot more; at the most slots it stays as it is.
pub fn push(f: Frame, bit: bool) -> Frame
    ensures answer { result ≡ pushed f bit }
    ensures history { slots_of result ≡ slots_pushed f bit }
{
    let count = f.count;
    let mut bits = f.bits;
    if MOST_SLOTS <= count {
        return f;
    }
    let at = (count / 8) as usize;
    bits[at] = with_bit(bits[at], count % 8, bit);
    Frame {
        presence: f.presence,
        count: count + 1,
        bits,
    }
}

fn all_zero(bytes: &[u8]) -> bool
    ensures { result ≡ list_all (λ b. b == 0) bytes.now }
{
    bytes.iter().all(|&byte| byte == 0)
}

// Whether no bit is set at or past a place.
pub fn clear_from(bytes: &[u8], place: u16) -> bool
    ensures answer { result ≡ clear_from place bytes.now }
{
    let at = (place / 8) as usize;
    if bytes.len() <= at {
        return true;
    }
    bytes[at] >> (place % 8) == 0 && all_zero(&bytes[at + 1..])
}

// Whether a frame may have so many slots.
pub fn count_allowed(presence: bool, count: u16) -> bool
    ensures answer { result ≡ count_allowed presence count }
{
    if MOST_SLOTS < count {
        return false;
    }
    if presence {
        return true;
    }
    count == 0
}

// Whether a line can carry the frame.
pub fn can_carry(f: Frame) -> bool
    ensures answer { result ≡ lineable f }
{
    let count = f.count;
    let bits = f.bits;
    let allowed = count_allowed(f.presence, count);
    if !allowed {
        return false;
    }
    clear_from(&bits, count)
}

// How many bytes the slots take.
pub fn bytes_for(count: u16) -> usize
    ensures answer { result ≡ bytes_for count }
{
    (count as usize + 7) / 8
}

// What a frame shows: a pass of a search, a scratchpad that was read, or something else.
#![tactic(auto)]

pub mod printing;
pub mod streaming;

ghost use Rattle.std.specs.Prelude.{◌≡◌, ◌+◌, ◌*◌, ◌<◌, false, length, get_or};
ghost use Rattle.basic_laws.specs.Bits.{bytes_bits};
ghost use Rattle.naming.specs.Naming.{name_number, named, frame_number, line_named, name_of_read, plain, refused_name};
ghost use Rattle.naming.specs.Naming.{sends, coded, triple_allowed, pass_read, pass_slots, named_pass, searches};
ghost use Rattle.naming.specs.Naming.{is_nobody, is_pad, code_matched, pad_in, named_pad, believed};

use frame::frame_lines::LineRead;
use frame::{Frame, frame_lines};
use scratchpad::{Judged, NineBytes};
use temperature::{Reading, Sixteenths};

// Slots of a search pass: a command and three for each bit of the code.
const PASS_SLOTS: u16 = 200;

// Slots of a search that nobody answers.
const NOBODY_SLOTS: u16 = 10;

// Slots of a scratchpad read at a code: two commands, the code and nine bytes.
const PAD_SLOTS: u16 = 152;

#[derive(Clone, Copy)]
pub enum Name {
    Empty,
    Search,
    Alarm,
    Nobody,
    Pad,
    Other,
}

// The number of a name, from 1 for EMPTY to 6 for OTHER.
pub fn number_of(name: Name) -> u8
    ensures answer { result ≡ name_number name }
{
    match name {
        Name::Empty => 1,
        Name::Search => 2,
        Name::Alarm => 3,
        Name::Nobody => 4,
        Name::Pad => 5,
        Name::Other => 6,
    }
}

// A refusal, or 0 and what the frame shows.
#[derive(Clone, Copy)]
pub struct Named {
    pub refusal: u8,
    // Other on a refusal
    pub name: Name,
    // the code of a search pass or of a read, else 0
    pub code: u64,
    // scratchpad bytes 1 and 0 of a read, else 0
    pub raw: u16,
    // the reading of a read, without the bits that its resolution leaves undefined; else zero sixteenths
    pub reading: Reading,
}

// What the triples of a search pass say.
#[derive(Clone, Copy)]
pub struct PassRead {
    // whether every triple is one that devices can give
    pub allowed: bool,
    // the bits taken, or 0
    pub code: u64,
}

fn plain_name(name: Name) -> Named
    ensures { result ≡ plain name }
{
    Named {
        refusal: refusals::ACCEPTED,
        name,
        code: 0,
        raw: 0,
        reading: Reading::InSixteenths(Sixteenths(0)),
    }
}

// The answer for a line or a frame that is refused.
pub fn refuse(number: u8) -> Named
    ensures answer { result ≡ refused_name number }
{
    Named {
        refusal: number,
        name: Name::Other,
        code: 0,
        raw: 0,
        reading: Reading::InSixteenths(Sixteenths(0)),
    }
}

// The bit of a slot, by its place among the bytes.
fn bit_at(bits: &[u8], slot: usize) -> bool
    requires { slot < 8 * length bits.now }
    ensures { result ≡ get_or (bytes_bits bits.now) slot false }
{
    let byte = bits[slot / 8];
    (byte >> (slot % 8)) % 2 == 1
}

// Whether devices can give the two bits and leave the master the third.
fn triple_allowed(bit: bool, complement: bool, taken: bool) -> bool
    ensures { result ≡ triple_allowed bit complement taken }
{
    if bit {
        if complement { false } else { taken }
    } else {
        if complement { !taken } else { true }
    }
}

// The triples of a pass, last first, since the last bit of a code is its highest.
fn read_pass(bits: &[u8]) -> PassRead
    requires { length bits.now ≡ 64 }
    ensures { result ≡ pass_read (pass_slots bits.now) }
{
    let mut code: u64 = 0;
    for place in (0..64).rev() {
        let at = 8 + 3 * place;
        let bit = bit_at(bits, at);
        let complement = bit_at(bits, at + 1);
        let taken = bit_at(bits, at + 2);
        if !triple_allowed(bit, complement, taken) {
            return PassRead {
                allowed: false,
                code: 0,
            };
        }
        code = 2 * code + u64::from(taken);
    }
    PassRead {
        allowed: true,
        code,
    }
}

// The code in bytes 1 to 8.
fn code_in(bits: &[u8]) -> u64
    requires { length bits.now ≡ 64 }
    ensures { result ≡ code_matched bits.now }
{
    let mut code = [0; 8];
    code.copy_from_slice(&bits[1..9]);
    u64::from_le_bytes(code)
}

// The scratchpad in bytes 10 to 18.
fn pad_in(bits: &[u8]) -> NineBytes
    requires { length bits.now ≡ 64 }
    ensures { result ≡ pad_in bits.now }
{
    let mut pad = [0; 9];
    pad.copy_from_slice(&bits[10..19]);
    pad
}

// A name with a code, which must be sound.
fn name_coded(name: Name, code: u64) -> Named
    ensures { result ≡ coded name code }
{
    let refusal = rom::refusal_of(code);
    if refusal != refusals::ACCEPTED {
        return refuse(refusal);
    }
    Named {
        refusal: refusals::ACCEPTED,
        name,
        code,
        raw: 0,
        reading: Reading::InSixteenths(Sixteenths(0)),
    }
}

// A search pass. All triples are looked at before the code.
fn name_pass(name: Name, pass: PassRead) -> Named
    ensures { result ≡ named_pass name pass }
{
    if pass.allowed {
        return name_coded(name, pass.code);
    }
    refuse(refusals::BAD_TRIPLE)
}

// A scratchpad that was read at a code, by its judgement.
fn name_judged(code: u64, pad: NineBytes, judged: Judged) -> Named
    ensures { result ≡ believed code pad judged }
{
    let refusal = judged.refusal;
    if refusal != refusals::ACCEPTED {
        return refuse(refusal);
    }
    let reading = judged.reading;
    Named {
        refusal: refusals::ACCEPTED,
        name: Name::Pad,
        code,
        raw: u16::from_le_bytes([pad[family::READING_LOW], pad[family::READING_HIGH]]),
        reading,
    }
}

// The code's CRC is looked at first; its family only with the scratchpad, so that 6 comes before 7.
fn name_pad(code: u64, pad: NineBytes) -> Named
    ensures { result ≡ named_pad code pad }
{
    if rom::refusal_of(code) == refusals::WRONG_CRC {
        return refuse(refusals::WRONG_CRC);
    }
    let family = rom::family_of(code);
    name_judged(code, pad, scratchpad::judge(family, pad))
}

// Whether a command asks for a search.
fn is_search(command: u8) -> bool
    ensures { result ≡ searches command }
{
    command == commands::SEARCH_ROM || command == commands::ALARM_SEARCH
}

// Whether a search went unanswered.
fn is_nobody(f: Frame) -> bool
    ensures { result ≡ is_nobody f }
{
    if f.count != NOBODY_SLOTS {
        return false;
    }
    let bits = f.bits;
    if is_search(bits[0]) {
        return frame::slot_bit(f, 8) && frame::slot_bit(f, 9);
    }
    false
}

// Whether a scratchpad was read at a code.
fn is_pad(f: Frame) -> bool
    ensures { result ≡ is_pad f }
{
    if f.count != PAD_SLOTS {
        return false;
    }
    let bits = f.bits;
    bits[0] == commands::MATCH_ROM && bits[9] == commands::READ_SCRATCHPAD
}

// Whether a frame is a pass by this command.
fn is_pass(f: Frame, command: u8) -> bool
    ensures { result ≡ sends f 200 command }
{
    if f.count != PASS_SLOTS {
        return false;
    }
    let bits = f.bits;
    bits[0] == command
}

// The name of a frame; any frame has one or is refused, also one that no line can carry.
pub fn name_frame(f: Frame) -> Named
    ensures answer { (result ≡ named f) × (name_number result.name ≡ frame_number f) }
{
    if !f.presence {
        return plain_name(Name::Empty);
    }
    let bytes = f.bits;
    let bits: &[u8] = &bytes;
    if is_pass(f, commands::SEARCH_ROM) {
        return name_pass(Name::Search, read_pass(bits));
    }
    if is_pass(f, commands::ALARM_SEARCH) {
        return name_pass(Name::Alarm, read_pass(bits));
    }
    if is_nobody(f) {
        return plain_name(Name::Nobody);
    }
    if is_pad(f) {
        return name_pad(code_in(bits), pad_in(bits));
    }
    plain_name(Name::Other)
}

// The name of what was read.
fn name_read(read: LineRead) -> Named
    ensures { result ≡ name_of_read read }
{
    let refusal = read.refusal;
    if refusal != refusals::ACCEPTED {
        return refuse(refusal);
    }
    let frame = read.frame;
    name_frame(frame)
}

// The name of a line, by its characters before the feed or the end and whether there is a feed.
pub fn name_line(line: &[u8], fed: bool) -> Named
    ensures answer { result ≡ line_named record { chars = line.now; fed = fed } }
{
    name_read(frame_lines::read_line(line, fed, 0))
}

// The calls on a bench that a host keeps in lent bytes, as a table. Each is the call on the records:
// the table is unpacked, the call is made, and the bench that it leaves is packed again. Bytes that
// are no table are refused before all else, and stay as they are.
ghost use Rattle.std.specs.Prelude.{◌≤◌, ◌≡◌, length};
ghost use Rattle.basic_laws.specs.Each.{Each};
ghost use Rattle.basic_laws.specs.Laid.{laid};
ghost use Rattle.bench.specs.Bench.{live};
ghost use Rattle.bench.specs.Calls.{added_to, conversion_finished, copy_finished, power_cycled, looked};
ghost use Rattle.bench.specs.Slot.{slotted, reset_done};
ghost use Rattle.packed_bench.specs.Table.{table_bytes, table_of};
ghost use Rattle.packed_bench.specs.Types.{InTypes};
ghost use Rattle.packed_bench.specs.Answers.{no_reset, reset_seen, no_slot, slot_seen};
ghost use Rattle.packed_bench.specs.Through.{answered_on, left_by, After, unseen};

use crate::{entries, table};
use bench::{Bench, Changed, Looked};
use device::Joining;
use temperature::Sixteenths;

#[derive(Clone, Copy)]
pub struct ResetSeen {
    pub refusal: u8,
    pub presence: bool,
}

#[derive(Clone, Copy)]
pub struct SlotSeen {
    pub refusal: u8,
    pub line: bool,
}

// The bench after a call, where the one before it was: a call leaves a bench that a table can hold, so that
// it need not be judged.
fn store(bench: Bench, t: &mut [u8])
    requires { table_bytes ≤ length t.old }
    ensures written { t.new ≡ laid t.old 0 (table_of 32 (live bench)) }
    ensures typed { Each InTypes (live bench) }
{
    let devices = bench::records_of(bench);
    entries::write(devices, bench::count_of(bench), t);
}

// The same, and the call's refusal.
fn keep(done: Changed, t: &mut [u8]) -> u8
    requires { table_bytes ≤ length t.old }
    ensures answer { result ≡ done.refusal }
    ensures written { t.new ≡ laid t.old 0 (table_of 32 (live done.bench)) }
    ensures typed { Each InTypes (live done.bench) }
{
    let bench = done.bench;
    store(bench, t);
    done.refusal
}

// A reset, and whether any device showed its presence.
pub fn reset(t: &mut [u8]) -> ResetSeen
    ensures answer { result ≡ answered_on no_reset (λ b. reset_seen (reset_done b)) t.old }
    ensures written { t.new ≡ left_by (λ b. (reset_done b).bench) t.old }
    ensures after { After (λ b. (reset_done b).bench) t.old t.new }
{
    let there = table::unpack(t);
    let refusal = there.refusal;
    if refusal != refusals::ACCEPTED {
        return ResetSeen {
            refusal,
            presence: false,
        };
    }
    let done = bench::reset(there.bench);
    let bench = done.bench;
    store(bench, t);
    ResetSeen {
        refusal: done.refusal,
        presence: done.presence,
    }
}

// One slot in which the master offers this bit; 1 to read.
pub fn slot(t: &mut [u8], bit: bool) -> SlotSeen
    ensures answer { result ≡ answered_on no_slot (λ b. slot_seen (slotted b bit)) t.old }
    ensures written { t.new ≡ left_by (λ b. (slotted b bit).bench) t.old }
    ensures after { After (λ b. (slotted b bit).bench) t.old t.new }
{
    let there = table::unpack(t);
    let refusal = there.refusal;
    if refusal != refusals::ACCEPTED {
        return SlotSeen {
            refusal,
            line: false,
        };
    }
    let done = bench::slot(there.bench, bit);
    let bench = done.bench;
    store(bench, t);
    SlotSeen {
        refusal: done.refusal,
        line: done.line,
    }
}

// A new device joins the wire, quiet until the next reset.
pub fn add(t: &mut [u8], new: Joining) -> u8
    ensures answer { result ≡ answered_on (λ n. n) (λ b. (added_to b new).refusal) t.old }
    ensures written { t.new ≡ left_by (λ b. (added_to b new).bench) t.old }
    ensures after { After (λ b. (added_to b new).bench) t.old t.new }
{
    let there = table::unpack(t);
    let refusal = there.refusal;
    if refusal != refusals::ACCEPTED {
        return refusal;
    }
    keep(bench::add(there.bench, new), t)
}

// A conversion of the device with this code ends with a count of sixteenths.
pub fn finish_conversion(t: &mut [u8], code: u64, count: Sixteenths) -> u8
    ensures answer { result ≡ answered_on (λ n. n) (λ b. (conversion_finished b code count).refusal) t.old }
    ensures written { t.new ≡ left_by (λ b. (conversion_finished b code count).bench) t.old }
    ensures after { After (λ b. (conversion_finished b code count).bench) t.old t.new }
{
    let there = table::unpack(t);
    let refusal = there.refusal;
    if refusal != refusals::ACCEPTED {
        return refusal;
    }
    keep(bench::finish_conversion(there.bench, code, count), t)
}

// A copy of the device with this code ends.
pub fn finish_copy(t: &mut [u8], code: u64) -> u8
    ensures answer { result ≡ answered_on (λ n. n) (λ b. (copy_finished b code).refusal) t.old }
    ensures written { t.new ≡ left_by (λ b. (copy_finished b code).bench) t.old }
    ensures after { After (λ b. (copy_finished b code).bench) t.old t.new }
{
    let there = table::unpack(t);
    let refusal = there.refusal;
    if refusal != refusals::ACCEPTED {
        return refusal;
    }
    keep(bench::finish_copy(there.bench, code), t)
}

// The power of the device with this code goes away and comes back.
pub fn power_cycle(t: &mut [u8], code: u64) -> u8
    ensures answer { result ≡ answered_on (λ n. n) (λ b. (power_cycled b code).refusal) t.old }
    ensures written { t.new ≡ left_by (λ b. (power_cycled b code).bench) t.old }
    ensures after { After (λ b. (power_cycled b code).bench) t.old t.new }
{
    let there = table::unpack(t);
    let refusal = there.refusal;
    if refusal != refusals::ACCEPTED {
        return refusal;
    }
    keep(bench::power_cycle(there.bench, code), t)
}

// The record of the device with this code. Looking changes nothing.
pub fn look(t: &[u8], code: u64) -> Looked
    ensures answer { result ≡ answered_on unseen (λ b. looked b code) t.now }
{
    let there = table::unpack(t);
    let seen = bench::look(there.bench, code);
    let refusal = there.refusal;
    if refusal != refusals::ACCEPTED {
        // the bench of a refusal is empty, so that what was seen is a vacant place
        return Looked { refusal, ..seen };
    }
    seen
}

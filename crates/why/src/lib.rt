// Why a device is on the list of an alarm search, or is not. Asking changes nothing.
#![tactic(auto)]

pub mod rules;

ghost use Rattle.std.specs.Prelude.{◌≡◌};
ghost use Rattle.why.specs.Why.{band_of, reason_number, silent, limits_differ, told_by, why_of};
ghost use Rattle.why.specs.Book.{WhyPromise};

use crate::rules::{Reason, Why};
use bench::Bench;
use device::Page;
use scratchpad::EightBytes;
use temperature::{Reading, Sixteenths, WholeDegrees};

// A refusal, or a reason without numbers.
fn silent(refusal: u8, reason: Reason) -> Why
    ensures { result ≡ silent refusal reason }
{
    Why {
        refusal,
        reason,
        reading: Reading::InSixteenths(Sixteenths(0)),
        high: WholeDegrees(0),
        low: WholeDegrees(0),
        differs: false,
    }
}

// Where a temperature stands to its limits.
fn band(t: WholeDegrees, high: WholeDegrees, low: WholeDegrees) -> Reason
    ensures { result ≡ band_of t high low }
{
    let degree = t.0;
    let upper = high.0;
    let lower = low.0;
    if degree >= upper {
        if degree <= lower {
            return Reason::Both;
        }
        return Reason::High;
    }
    if degree <= lower {
        return Reason::Low;
    }
    Reason::InBand
}

// Whether a limit of today is another than the page's.
fn limits_differ(page: Page, pad: EightBytes) -> bool
    ensures { result ≡ limits_differ page pad }
{
    if pad[family::HIGH_LIMIT] != page.high {
        return true;
    }
    pad[family::LOW_LIMIT] != page.low
}

// What a page says, with the scratchpad as it stands.
fn say(page: Page, pad: EightBytes) -> Why
    ensures { result ≡ told_by page pad }
{
    if !page.taken {
        return silent(refusals::ACCEPTED, Reason::NoConversion);
    }
    let reading = page.reading;
    let high = temperature::limit_of(page.high);
    let low = temperature::limit_of(page.low);
    Why {
        refusal: refusals::ACCEPTED,
        reason: band(temperature::whole_of(reading), high, low),
        reading,
        high,
        low,
        differs: limits_differ(page, pad),
    }
}

// The answer for a code: 5, then 7, for a code that is not sound; else by the page of the device with it.
pub fn why(bench: Bench, code: u64) -> Why
    ensures answer { result ≡ why_of bench code }
    ensures history { WhyPromise bench code result }
{
    let refusal = rom::refusal_of(code);
    if refusal != refusals::ACCEPTED {
        return silent(refusal, Reason::NotOnBench);
    }
    let looked = bench::look(bench, code);
    if looked.refusal != refusals::ACCEPTED {
        return silent(refusals::ACCEPTED, Reason::NotOnBench);
    }
    let device = looked.device;
    let page = device.page;
    let pad = device.scratchpad;
    say(page, pad)
}

// The number of a reason, 0 to 5.
pub fn number_of(reason: Reason) -> u8
    ensures answer { result ≡ reason_number reason }
{
    match reason {
        Reason::NotOnBench => 0,
        Reason::NoConversion => 1,
        Reason::InBand => 2,
        Reason::High => 3,
        Reason::Low => 4,
        Reason::Both => 5,
    }
}

// A store of settings for up to 32 codes, each with a version, in which no caller undoes another: a
// change names the version that it was based on, and is refused if another came between. A call is one
// step; whoever shares a store between threads makes them in turn.
#![tactic(auto)]

pub mod writing;

ghost use Rattle.std.specs.Prelude.{◌≡◌, ◌<◌};
ghost use Rattle.settings.specs.Store.{blank, empty_store, kept_at, entry_at, with_entry};
ghost use Rattle.settings.specs.Calls.{kept_form, missing, located_at, located, added_first, added_again};
ghost use Rattle.settings.specs.Calls.{settings_added, settings_removed, settings_read, altered, settings_altered};
ghost use Rattle.settings.specs.Calls.{change_refused, changed_entry, settings_changed};

use device::Settings;

// A code that was once added, whether it is there, its settings and how many changes they have had.
#[derive(Clone, Copy)]
pub struct Entry {
    code: u64,
    present: bool,
    settings: Settings,
    version: u16,
}

// The codes in the order in which they were first added. A removed one keeps its place.
#[derive(Clone, Copy)]
pub struct Store {
    entries: [Entry; 32],
    count: u8,
}

// Where a code is kept in a store.
#[derive(Clone, Copy)]
pub enum Kept {
    At(usize),
    Nowhere,
}

// The entry of a code that is there, and its place; or the refusal, and a blank one.
#[derive(Clone, Copy)]
pub struct Located {
    refusal: u8,
    place: usize,
    entry: Entry,
}

// The answer of adding and removing: 0, or the refusal and the store as it came.
#[derive(Clone, Copy)]
pub struct StoreAfter {
    pub refusal: u8,
    pub store: Store,
}

// The settings of a code and their version, or the refusal and zeros.
#[derive(Clone, Copy)]
pub struct Current {
    pub refusal: u8,
    pub settings: Settings,
    pub version: u16,
}

// What a change makes of one of the three settings.
#[derive(Clone, Copy)]
pub enum Alter {
    Leave,
    To(u8),
}

#[derive(Clone, Copy)]
pub struct Alterations {
    pub high: Alter,
    pub low: Alter,
    pub configuration: Alter,
}

// The answer of a change: 0 and the version that it made, or the refusal, 0 and the store as it came.
#[derive(Clone, Copy)]
pub struct ChangeDone {
    pub refusal: u8,
    pub version: u16,
    pub store: Store,
}

// The version that no change follows.
const LAST_VERSION: u16 = 65535;

fn blank_entry() -> Entry
    ensures { result ≡ blank }
{
    Entry {
        code: 0,
        present: false,
        settings: Settings {
            high: 0,
            low: 0,
            configuration: 0,
        },
        version: 0,
    }
}

// The empty store.
pub fn new() -> Store
    ensures answer { result ≡ empty_store }
{
    let blank = blank_entry();
    Store {
        entries: [blank; 32],
        count: 0,
    }
}

// Where the first entry with this code stands.
fn find(store: Store, code: u64) -> Kept
    ensures { result ≡ kept_at store code }
{
    let taken = (store.count as usize).min(32);
    match store.entries[..taken].iter().position(|e| e.code == code) {
        Some(i) => Kept::At(i),
        None => Kept::Nowhere,
    }
}

fn entry_at(store: Store, place: usize) -> Entry
    requires { place < 32 }
    ensures { result ≡ entry_at store place }
{
    let entries = store.entries;
    entries[place]
}

fn put(store: Store, place: usize, entry: Entry) -> Store
    requires { place < 32 }
    ensures { result ≡ with_entry store place entry }
{
    let mut entries = store.entries;
    entries[place] = entry;
    Store { entries, ..store }
}

// The configuration has two bits that a device takes.
fn keep(given: Settings) -> Settings
    ensures { result ≡ kept_form given }
{
    Settings {
        configuration: given.configuration & 0x60,
        ..given
    }
}

fn miss(refusal: u8) -> Located
    ensures { result ≡ missing refusal }
{
    Located {
        refusal,
        place: 0,
        entry: blank_entry(),
    }
}

// A code that was removed counts as unknown.
fn locate_at(store: Store, place: usize) -> Located
    requires { place < 32 }
    ensures { result ≡ located_at store place }
{
    let entry = entry_at(store, place);
    if entry.present {
        return Located {
            refusal: refusals::ACCEPTED,
            place,
            entry,
        };
    }
    miss(refusals::NOT_FOUND)
}

// The tests that all calls but adding begin with: the code itself, then whether it is there.
fn locate(store: Store, code: u64) -> Located
    ensures answer { result ≡ located store code }
    ensures within { result.place < 32 }
{
    let refusal = rom::refusal_of(code);
    if refusal != refusals::ACCEPTED {
        return miss(refusal);
    }
    let kept = find(store, code);
    match kept {
        Kept::At(i) => locate_at(store, i),
        Kept::Nowhere => miss(refusals::NOT_FOUND),
    }
}

// A code that was never added takes a place behind the others.
fn add_first(store: Store, code: u64, first: Settings) -> StoreAfter
    ensures { result ≡ added_first store code first }
{
    let count = store.count;
    let place = count as usize;
    if 32 <= place {
        return StoreAfter {
            refusal: refusals::BENCH_FULL,
            store,
        };
    }
    let settings = keep(first);
    let mut entries = store.entries;
    entries[place] = Entry {
        code,
        present: true,
        settings,
        version: 0,
    };
    StoreAfter {
        refusal: refusals::ACCEPTED,
        store: Store {
            entries,
            count: count + 1,
        },
    }
}

// A code that was removed comes back as it was.
fn add_again(store: Store, place: usize) -> StoreAfter
    requires { place < 32 }
    ensures { result ≡ added_again store place }
{
    let entry = entry_at(store, place);
    if entry.present {
        return StoreAfter {
            refusal: refusals::DUPLICATE,
            store,
        };
    }
    StoreAfter {
        refusal: refusals::ACCEPTED,
        store: put(
            store,
            place,
            Entry {
                present: true,
                ..entry
            },
        ),
    }
}

// Adds a code. The settings count where it is added for the first time.
pub fn add(store: Store, code: u64, first: Settings) -> StoreAfter
    ensures answer { result ≡ settings_added store code first }
{
    let refusal = rom::refusal_of(code);
    if refusal != refusals::ACCEPTED {
        return StoreAfter { refusal, store };
    }
    let kept = find(store, code);
    match kept {
        Kept::At(i) => add_again(store, i),
        Kept::Nowhere => add_first(store, code, first),
    }
}

// Removes a code, which keeps its place, its settings and its version.
pub fn remove(store: Store, code: u64) -> StoreAfter
    ensures answer { result ≡ settings_removed store code }
{
    let found = locate(store, code);
    if found.refusal != refusals::ACCEPTED {
        return StoreAfter {
            refusal: found.refusal,
            store,
        };
    }
    let entry = found.entry;
    StoreAfter {
        refusal: refusals::ACCEPTED,
        store: put(
            store,
            found.place,
            Entry {
                present: false,
                ..entry
            },
        ),
    }
}

// The settings of a code, and the version that a change has to name.
pub fn read(store: Store, code: u64) -> Current
    ensures answer { result ≡ settings_read store code }
{
    let found = locate(store, code);
    let entry = found.entry;
    let settings = entry.settings;
    Current {
        refusal: found.refusal,
        settings,
        version: entry.version,
    }
}

fn alter_byte(byte: u8, asked: Alter) -> u8
    ensures { result ≡ altered byte asked }
{
    match asked {
        Alter::Leave => byte,
        Alter::To(given) => given,
    }
}

fn alter_settings(s: Settings, asked: Alterations) -> Settings
    ensures { result ≡ settings_altered s asked }
{
    let high = asked.high;
    let low = asked.low;
    let configuration = asked.configuration;
    keep(Settings {
        high: alter_byte(s.high, high),
        low: alter_byte(s.low, low),
        configuration: alter_byte(s.configuration, configuration),
    })
}

fn refuse_change(refusal: u8, store: Store) -> ChangeDone
    ensures { result ≡ change_refused refusal store }
{
    ChangeDone {
        refusal,
        version: 0,
        store,
    }
}

// The change of an entry whose version is the one named.
fn change_entry(store: Store, place: usize, entry: Entry, asked: Alterations) -> ChangeDone
    requires { place < 32 }
    ensures { result ≡ changed_entry store place entry asked }
{
    let version = entry.version;
    if version == LAST_VERSION {
        return refuse_change(refusals::VERSIONS_SPENT, store);
    }
    let old = entry.settings;
    let settings = alter_settings(old, asked);
    ChangeDone {
        refusal: refusals::ACCEPTED,
        version: version + 1,
        store: put(
            store,
            place,
            Entry {
                settings,
                version: version + 1,
                ..entry
            },
        ),
    }
}

// Changes the settings of a code, if `version` is the current one. A change that alters none counts too.
pub fn change(store: Store, code: u64, version: u16, asked: Alterations) -> ChangeDone
    ensures answer { result ≡ settings_changed store code version asked }
{
    let found = locate(store, code);
    if found.refusal != refusals::ACCEPTED {
        return refuse_change(found.refusal, store);
    }
    let entry = found.entry;
    if version != entry.version {
        return refuse_change(refusals::STALE_VERSION, store);
    }
    change_entry(store, found.place, entry, asked)
}

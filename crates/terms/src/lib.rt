// 01's settings, signals, frames and answers as values, and the routines that judge and number them.
// Promises: each judge is exact in both directions; an answer's number and place are those of 01's table.
#![tactic(auto)]

ghost use Rattle.std.specs.Prelude.{◌≡◌, ◌≢◌, Some, ◌+◌, ◌-◌, ◌^◌, ◌<◌, ◌≤◌, ◌↔◌, get_or, set, unwrap_or, IsSome};
ghost use Rattle.laws.specs.Says.{Says};
ghost use Rattle.laws.specs.Lowest.{Between};
ghost use Rattle.laws.specs.Stored.{stored};
ghost use Rattle.terms.specs.Ranges.{LowestOutOfRange, setting_word, SignalInRange, Valid, Repetition, FrameInRange};
ghost use Rattle.terms.specs.Lists.{signal_size, entry_start, count, CountInRange, signal_at};
ghost use Rattle.terms.specs.Results.{result_size, result_start, result_at, words_of};
ghost use Rattle.terms.specs.Answers.{refusal_number, refusal_place, number_of, place_of, packed_of};

use std::fmt;

// The settings words 2 to 6 in order: cycle length, slot length, number of slots, packing time, payload.
#[derive(Clone, Copy, Debug, PartialEq, Eq)]
pub struct Settings {
    pub cycle: u32,
    pub slot: u32,
    pub slots: u32,
    pub packing: u32,
    pub payload: u32,
}

// A signal's five words; `bound` is its freshness bound.
#[derive(Clone, Copy, Debug, PartialEq, Eq)]
pub struct Signal {
    pub unit: u32,
    pub period: u32,
    pub offset: u32,
    pub size: u32,
    pub bound: u32,
}

// Where and when a signal is sent.
#[derive(Clone, Copy, Debug, PartialEq, Eq)]
pub struct Frame {
    pub slot: u32,
    pub repetition: u32,
    pub base: u32,
}

// The words of a signal in a list, and the most signals of one.
pub const SIGNAL_WORDS: usize = 5;

pub const MOST_SIGNALS: usize = 600;

// The cells of the longest table, of 128 slots.
pub const MOST_CELLS: usize = 64 * 128;

// A signal's result: its frame, and its age there.
#[derive(Clone, Copy, Debug, PartialEq, Eq)]
pub struct SignalResult {
    pub frame: Frame,
    pub age: u32,
}

// The words of a result.
pub const RESULT_WORDS: usize = 4;

// 01's numbers 1 to 11, in order; what a case holds is its place.
#[derive(Clone, Copy, Debug, PartialEq, Eq)]
pub enum Refusal {
    Length,
    Check(u32),
    Kind(u32),
    Count,
    Zero(u32),
    Setting(u32),
    Field(u32),
    Bound(u32),
    Slots(u32),
    Room(u32),
    Taken(u32),
}

// Done, number 0, with its place; or a refusal.
pub type Answer = Result<u32, Refusal>;

impl Refusal {
    pub fn number(self) -> u32
        ensures { result ≡ refusal_number self }
    {
        match self {
            Refusal::Length => 1,
            Refusal::Check(_) => 2,
            Refusal::Kind(_) => 3,
            Refusal::Count => 4,
            Refusal::Zero(_) => 5,
            Refusal::Setting(_) => 6,
            Refusal::Field(_) => 7,
            Refusal::Bound(_) => 8,
            Refusal::Slots(_) => 9,
            Refusal::Room(_) => 10,
            Refusal::Taken(_) => 11,
        }
    }

    pub fn place(self) -> u32
        ensures { result ≡ refusal_place self }
    {
        match self {
            Refusal::Length | Refusal::Count => 0,
            Refusal::Check(p)
            | Refusal::Kind(p)
            | Refusal::Zero(p)
            | Refusal::Setting(p)
            | Refusal::Field(p)
            | Refusal::Bound(p)
            | Refusal::Slots(p)
            | Refusal::Room(p)
            | Refusal::Taken(p) => p,
        }
    }
}

impl fmt::Display for Refusal {
    fn fmt<W: fmt::Write>(&self, f: &mut fmt::Formatter<W>) -> fmt::Result {
        write!(f, "{} {}", self.number(), self.place())
    }
}

pub fn number(a: Answer) -> u32
    ensures { result ≡ number_of a }
{
    match a {
        Ok(_) => 0,
        Err(refusal) => refusal.number(),
    }
}

pub fn place(a: Answer) -> u32
    ensures { result ≡ place_of a }
{
    match a {
        Ok(place) => place,
        Err(refusal) => refusal.place(),
    }
}

// The 64-bit number that a C caller gets.
pub fn packed(a: Answer) -> u64
    ensures { result ≡ packed_of a }
{
    (u64::from(number(a)) << 32) + u64::from(place(a))
}

fn between(low: u32, high: u32, x: u32) -> bool
    ensures { Says (Between low high x) result }
{
    (low..=high).contains(&x)
}

// The lowest setting word that is out of range.
pub fn setting_out_of_range(s: Settings) -> Option<u32>
    ensures given { LowestOutOfRange s (unwrap_or result 0) }
    ensures some { result ≢ Some 0 }
{
    if !between(10, 16000, s.cycle) {
        return Some(2);
    }
    if !between(1, 16000, s.slot) {
        return Some(3);
    }
    if !between(2, 128, s.slots) {
        return Some(4);
    }
    if s.cycle < s.slots * s.slot {
        return Some(4);
    }
    if 16000 < s.packing {
        return Some(5);
    }
    if !between(1, 127, s.payload) {
        return Some(6);
    }
    None
}

// Whether a signal is in range under the settings' payload.
pub fn signal_in_range(s: Settings, x: Signal) -> bool
    ensures { Says (SignalInRange s x) result }
{
    between(1, 255, x.unit)
        && between(1, 100_000_000, x.period)
        && x.offset < x.period
        && 0 < x.size
        && u64::from(x.size) <= 16 * u64::from(s.payload)
        && between(1, x.period, x.bound)
}

// Whether the settings are in range, and the signal under them.
pub fn valid(s: Settings, x: Signal) -> bool
    ensures { Says (Valid s x) result }
{
    setting_out_of_range(s).is_none() && signal_in_range(s, x)
}

// Whether a number is one of the seven repetitions: they are the divisors of 64.
pub fn is_repetition(r: u32) -> bool
    ensures { Says (Repetition r) result }
{
    r != 0 && 64 % r == 0
}

pub fn frame_in_range(s: Settings, f: Frame) -> bool
    ensures { Says (FrameInRange s.slots f) result }
{
    between(1, s.slots, f.slot) && is_repetition(f.repetition) && f.base < f.repetition
}

// The setting that word w holds.
pub fn setting_word(s: Settings, w: u32) -> Option<u32>
    ensures given { unwrap_or result 0 ≡ setting_word s w }
    ensures some { IsSome result ↔ (2 ≤ w) × (w ≤ 6) }
{
    match w {
        2 => Some(s.cycle),
        3 => Some(s.slot),
        4 => Some(s.slots),
        5 => Some(s.packing),
        6 => Some(s.payload),
        _ => None,
    }
}

// The signals of a list.
pub fn count(list: &[u32]) -> usize
    ensures { result ≡ count list.now }
{
    list.len() / SIGNAL_WORDS
}

// Whether a list is of whole signals, and of at most 600.
pub fn count_in_range(list: &[u32]) -> bool
    ensures { Says (CountInRange list.now) result }
{
    list.len() % SIGNAL_WORDS == 0 && count(list) <= MOST_SIGNALS
}

// Where entry i of so many words starts, numbered from 1; there is no entry 0, and what asks for it gets the first.
fn entry_start(size: usize, i: u32) -> usize
    requires { size ≤ 5 }
    ensures { result ≡ entry_start size i }
{
    size * i.saturating_sub(1) as usize
}

// Word d of entry i of so many words, or 0 past the end, as the definitions of a signal and a result have it.
fn entry_word(words: &[u32], size: usize, i: u32, d: usize) -> u32
    requires { (size ≤ 5) × (d < size) }
    ensures { result ≡ get_or words.now (entry_start size i + d) 0 }
{
    words.get(entry_start(size, i) + d).copied().unwrap_or(0)
}

// Signal i of a list, numbered from 1.
pub fn signal_at(list: &[u32], i: u32) -> Signal
    ensures { result ≡ signal_at list.now i }
{
    Signal {
        unit: entry_word(list, SIGNAL_WORDS, i, 0),
        period: entry_word(list, SIGNAL_WORDS, i, 1),
        offset: entry_word(list, SIGNAL_WORDS, i, 2),
        size: entry_word(list, SIGNAL_WORDS, i, 3),
        bound: entry_word(list, SIGNAL_WORDS, i, 4),
    }
}

// The result of signal i among results, numbered from 1.
pub fn result_at(results: &[u32], i: u32) -> SignalResult
    ensures { result ≡ result_at (λ d. get_or results.now d 0) i }
{
    SignalResult {
        frame: Frame {
            slot: entry_word(results, RESULT_WORDS, i, 0),
            base: entry_word(results, RESULT_WORDS, i, 1),
            repetition: entry_word(results, RESULT_WORDS, i, 2),
        },
        age: entry_word(results, RESULT_WORDS, i, 3),
    }
}

// Makes x word d of the result of signal i; nothing past the end.
fn put_result_word(results: &mut [u32], i: u32, d: usize, x: u32)
    requires { d < result_size }
    ensures { results.new ≡ set results.old (result_start i + d) x }
{
    let at = entry_start(RESULT_WORDS, i) + d;
    if at < results.len() {
        results[at] = x;
    }
}

// The result of signal i among results.
pub fn put_result(results: &mut [u32], i: u32, r: SignalResult)
    ensures { results.new ≡ stored results.old (result_start i) (words_of r) }
{
    let frame = r.frame;
    put_result_word(results, i, 0, frame.slot);
    put_result_word(results, i, 1, frame.base);
    put_result_word(results, i, 2, frame.repetition);
    put_result_word(results, i, 3, r.age);
}

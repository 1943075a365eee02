// The library for a C program, the configuration editor: each call under its own name, as include/noctelvia.h declares it.
// Promises: what the rooms below promise, of the words as they are handed over; an answer is one number, and where the
// rooms give none a C program gets 0, as the header says.
#![tactic(auto)]

ghost use Rattle.std.specs.Prelude.{◌≡◌};
ghost use Rattle.laws.specs.Given.{Given};
ghost use Rattle.terms.specs.Requests.{request, plan_room};
ghost use Rattle.age.specs.AgeGiven.{AgeGiven};
ghost use Rattle.rule.specs.Rule.{RepetitionGiven};
ghost use Rattle.book.specs.Part.{HasSignal, part_start};
ghost use Rattle.editor.specs.OfWords.{settings_given, signal_given, frame_given};
ghost use Rattle.editor.specs.Answered.{ReadAnswered, SettingAnswered, WriteAnswered, PlanAnswered, BookAnswered};

use terms::{Frame, Settings, Signal};

fn settings(cycle: u32, ticks: u32, slots: u32, packing: u32, payload: u32) -> Settings
    ensures { result ≡ settings_given cycle ticks slots packing payload }
{
    Settings {
        cycle,
        slot: ticks,
        slots,
        packing,
        payload,
    }
}

fn signal(unit: u32, period: u32, offset: u32, size: u32, bound: u32) -> Signal
    ensures { result ≡ signal_given unit period offset size bound }
{
    Signal {
        unit,
        period,
        offset,
        size,
        bound,
    }
}

// The age of one signal in one frame, or 0 where a setting, the signal or the frame is out of range.
#[unsafe(no_mangle)]
pub extern "C" fn noctelvia_age(
    cycle: u32,
    ticks: u32,
    slots: u32,
    packing: u32,
    payload: u32,
    unit: u32,
    period: u32,
    offset: u32,
    size: u32,
    bound: u32,
    slot: u32,
    repetition: u32,
    base: u32,
) -> u32
    ensures { AgeGiven (settings_given cycle ticks slots packing payload)
        (signal_given unit period offset size bound) (frame_given slot repetition base) result }
{
    let s = settings(cycle, ticks, slots, packing, payload);
    let x = signal(unit, period, offset, size, bound);
    let f = Frame {
        slot,
        repetition,
        base,
    };
    age::age(s, x, f).unwrap_or(0)
}

// The repetition of one signal, or 0 where a setting or the signal is out of range or none keeps the bound.
#[unsafe(no_mangle)]
pub extern "C" fn noctelvia_repetition(
    cycle: u32,
    ticks: u32,
    slots: u32,
    packing: u32,
    payload: u32,
    unit: u32,
    period: u32,
    offset: u32,
    size: u32,
    bound: u32,
) -> u32
    ensures { RepetitionGiven (settings_given cycle ticks slots packing payload)
        (signal_given unit period offset size bound) result }
{
    let s = settings(cycle, ticks, slots, packing, payload);
    let x = signal(unit, period, offset, size, bound);
    rule::repetition(s, x).unwrap_or(0)
}

// Reading a book into a lent list: number times 4,294,967,296 plus place.
#[unsafe(no_mangle)]
pub extern "C" fn noctelvia_read(book: &[u8], list: &mut [u32]) -> u64
    ensures { ReadAnswered book.now list.old result list.new }
{
    terms::packed(book::read(book, list).map(|reading| reading.signals))
}

// Setting word 2 to 6 of a sound book; 0 for any other book or word.
#[unsafe(no_mangle)]
pub extern "C" fn noctelvia_setting(book: &[u8], word: u32) -> u32
    ensures { SettingAnswered book.now word result }
{
    book::settings_of(book)
        .and_then(|s| terms::setting_word(s, word))
        .unwrap_or(0)
}

// Writing the book of settings and a list into lent room.
#[unsafe(no_mangle)]
pub extern "C" fn noctelvia_write(
    cycle: u32,
    ticks: u32,
    slots: u32,
    packing: u32,
    payload: u32,
    list: &[u32],
    room: &mut [u8],
) -> u64
    ensures { WriteAnswered (settings_given cycle ticks slots packing payload) list.now
        room.old result room.new }
{
    let s = settings(cycle, ticks, slots, packing, payload);
    terms::packed(book::write(s, list, room))
}

// The byte at which the twenty bytes of a signal start in a sound book that has it, or 0.
#[unsafe(no_mangle)]
pub extern "C" fn noctelvia_part(book: &[u8], signal: u32) -> u64
    ensures { Given (HasSignal book.now signal) (λ at. at ≡ part_start signal) result }
{
    book::part_at(book, signal).unwrap_or(0) as u64
}

// Planning over lent words, 64 cells a slot and a result a signal.
#[unsafe(no_mangle)]
pub extern "C" fn noctelvia_plan_list(
    cycle: u32,
    ticks: u32,
    slots: u32,
    packing: u32,
    payload: u32,
    list: &[u32],
    cells: &mut [u32],
    results: &mut [u32],
) -> u64
    ensures { PlanAnswered (request (settings_given cycle ticks slots packing payload) list.now)
        (plan_room cells.old results.old) result
        (plan_room cells.new results.new) }
{
    let s = settings(cycle, ticks, slots, packing, payload);
    terms::packed(planner::plan(s, list, cells, results))
}

// Planning a book: the little-endian words of a result a signal into the lent bytes.
#[unsafe(no_mangle)]
pub extern "C" fn noctelvia_plan(book: &[u8], results: &mut [u8]) -> u64
    ensures { BookAnswered book.now results.old result results.new }
{
    terms::packed(editor::plan(book, results))
}

// Runs the cases of "Examples with numbers" through the routines and writes what they give, a line each.
// The file `stdout` holds 01's numbers; the starred ones are also proved, of the definitions, in proofs/Starred.antt.
#![tactic(auto)]

use std::io;
use terms::{Frame, Settings, Signal};

// Unless said otherwise: cycle 2,500, slot 16, 93 slots, packing 0, payload 8.
fn settings(slots: u32, packing: u32) -> Settings {
    Settings {
        cycle: 2500,
        slot: 16,
        slots,
        packing,
        payload: 8,
    }
}

// "T/O/D" is period, offset, bound.
fn signal(period: u32, offset: u32, bound: u32) -> Signal {
    Signal {
        unit: 1,
        period,
        offset,
        size: 16,
        bound,
    }
}

// The case's number and the signal's repetition; where it is refused the file `stdout` has 0.
fn gets(rt: &impl Print, case: u32, s: Settings, x: Signal) -> io::Result<()> {
    let repetition = rule::repetition(s, x).unwrap_or(0);
    println!(rt; "case {case}: repetition {repetition}")
}

// The case's number and the signal's age in a slot, at base 0.
fn shows(
    rt: &impl Print,
    case: u32,
    s: Settings,
    x: Signal,
    slot: u32,
    repetition: u32,
) -> io::Result<()> {
    let f = Frame {
        slot,
        repetition,
        base: 0,
    };
    let age = age::age(s, x, f).unwrap_or(0);
    println!(rt; "case {case}: age in slot {slot} is {age}")
}

// Case 11: four units, each with ten signals 5000/2000/5000 and ten 10000/2000/10000.
fn four_units() -> [u32; 400] {
    let mut list = [0u32; 400];
    for (i, words) in list.chunks_exact_mut(terms::SIGNAL_WORDS).enumerate() {
        let unit = i as u32 / 20 + 1;
        let period = if i % 20 < 10 { 5000 } else { 10000 };
        words.copy_from_slice(&[unit, period, 2000, 16, period]);
    }
    list
}

// The case's number, the plan's answer, and the slot and base of its first three signals.
fn fills(rt: &impl Print, case: u32, s: Settings, list: &[u32]) -> io::Result<()> {
    let mut cells = [0u32; terms::MOST_CELLS];
    let mut results = [0u32; terms::RESULT_WORDS * terms::MOST_SIGNALS];
    let answer = planner::plan(s, list, &mut cells, &mut results);
    let (number, place) = (terms::number(answer), terms::place(answer));
    let [a, b, c] = [1, 2, 3].map(|i| terms::result_at(&results, i).frame);
    println!(rt;
        "case {case}: number {number}, place {place}, slots and bases {} {}, {} {}, {} {}",
        a.slot, a.base, b.slot, b.base, c.slot, c.base
    )
}

fn main(rt: HostRuntime) -> io::Result<()> {
    gets(&rt, 1, settings(93, 0), signal(2500, 0, 2500))?;
    shows(&rt, 1, settings(93, 0), signal(2500, 0, 2500), 93, 1)?;
    gets(&rt, 2, settings(93, 0), signal(2500, 16, 2500))?;
    shows(&rt, 2, settings(93, 0), signal(2500, 16, 2500), 1, 1)?;
    gets(&rt, 3, settings(93, 0), signal(2500, 15, 2500))?;
    shows(&rt, 3, settings(93, 0), signal(2500, 15, 2500), 1, 1)?;
    gets(&rt, 4, settings(93, 1), signal(2500, 0, 2500))?;
    shows(&rt, 4, settings(93, 1), signal(2500, 0, 2500), 1, 1)?;
    gets(&rt, 5, settings(93, 100), signal(10000, 2000, 9488))?;
    gets(&rt, 6, settings(93, 100), signal(10000, 2000, 9487))?;
    gets(&rt, 7, settings(93, 100), signal(50000, 2000, 50000))?;
    shows(
        &rt,
        7,
        settings(93, 100),
        signal(50000, 2000, 50000),
        93,
        16,
    )?;
    gets(&rt, 8, settings(93, 100), signal(50000, 2000, 15000))?;
    gets(&rt, 9, settings(29, 0), signal(2500, 472, 2500))?;
    gets(&rt, 9, settings(30, 0), signal(2500, 472, 2500))?;
    shows(&rt, 9, settings(30, 0), signal(2500, 472, 2500), 30, 1)?;
    let three = [
        1, 10000, 2000, 16, 10000, 1, 5000, 2000, 16, 5000, 1, 10000, 2000, 16, 10000,
    ];
    fills(&rt, 10, settings(93, 100), &three)?;
    let four = four_units();
    fills(&rt, 11, settings(93, 0), &four)?;
    fills(&rt, 11, settings(32, 0), &four)?;
    fills(&rt, 11, settings(31, 0), &four)?;
    fills(&rt, 12, settings(93, 0), &[])
}

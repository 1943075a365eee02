// The legend below the table: each unit that has a signal, with its colour, its signals and its slots.
use crate::sheet::{column, row};
use crate::text::Signals;
use crate::units::{Share, Units};
use std::io;

// `slot 2`, or `slots 2 to 4`.
fn slots_of(rt: &impl Print, share: &Share) -> io::Result<()> {
    let (first, last) = (share.first, share.last);
    if first == last {
        return print!(rt; ", slot {first}");
    }
    print!(rt; ", slots {first} to {last}")
}

// A swatch and a line of text, at the unit's rank: along a row, then the next row.
fn entry(rt: &impl Print, unit: u32, share: &Share, slots: u32) -> io::Result<()> {
    let x = 64 + 276 * u64::from(column(share.rank, slots));
    let y = 630 + 20 * u64::from(row(share.rank, slots));
    print!(rt; "<g transform=\"translate({x} {y})\"><rect width=\"14\" height=\"12\"")?;
    print!(rt; " {}/><text x=\"22\" y=\"10\">unit {unit}: ", share.fill())?;
    print!(rt; "{}", Signals(share.signals))?;
    slots_of(rt, share)?;
    println!(rt; "</text></g>")
}

// The line above the units.
fn lead(rt: &impl Print, units: &Units) -> io::Result<()> {
    print!(rt; "<text x=\"64\" y=\"616\">")?;
    if units.iter().all(Option::is_none) {
        return println!(rt; "No unit has a signal.</text>");
    }
    println!(rt; "Point at a frame for its signal, base, repetition, age and bound.</text>")
}

pub fn legend(rt: &impl Print, units: &Units, slots: u32) -> io::Result<()> {
    println!(rt; "<g font-size=\"12\">")?;
    lead(rt, units)?;
    for (unit, share) in (0..).zip(units) {
        if let Some(share) = share {
            entry(rt, unit, share, slots)?;
        }
    }
    println!(rt; "</g>")
}

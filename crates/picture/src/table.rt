// The table: a light grid with the numbers of slots and cycles, and upon it the frames.
// A frame is drawn from the planner's cells, and its title says what a reader would ask of it.
use crate::sheet::{across, down};
use crate::units::Units;
use plans::Plan;
use std::io;
use terms::SignalResult;

// Whether a slot's number is written: 1, each fifth, and the last where the one before it leaves room.
fn slot_is_named(slot: u32, slots: u32) -> bool {
    if slot == slots {
        return slot % 5 != 1;
    }
    slot == 1 || slot % 5 == 0
}

// The grid line left of a slot, and the slot's number.
fn mark_slot(rt: &impl Print, slot: u32, slots: u32) -> io::Result<()> {
    let x = across(slot);
    println!(rt; "<path fill=\"#dddddd\" d=\"M{x} 80h-1v513h1z\"/>")?;
    if slot_is_named(slot, slots) {
        println!(rt; "<text y=\"74\" x=\"{x}\" dx=\"5.5\">{slot}</text>")?;
    }
    Ok(())
}

fn mark_slots(rt: &impl Print, slots: u32) -> io::Result<()> {
    for slot in 1..=slots {
        mark_slot(rt, slot, slots)?;
    }
    Ok(())
}

// The cycle's number: at each eighth, and at the last.
fn name_cycle(rt: &impl Print, cycle: u32) -> io::Result<()> {
    if cycle % 8 == 0 || cycle == 63 {
        let y = down(cycle);
        println!(rt; "<text x=\"58\" y=\"{y}\" dy=\"7\">{cycle}</text>")?;
    }
    Ok(())
}

// The grid line above a cycle, darker at each eighth, and the cycle's number.
fn mark_cycle(rt: &impl Print, cycle: u32, slots: u32) -> io::Result<()> {
    name_cycle(rt, cycle)?;
    if cycle % 8 == 0 {
        print!(rt; "<path fill=\"#aaaaaa\"")?;
    } else {
        print!(rt; "<path fill=\"#dddddd\"")?;
    }
    let (y, width) = (down(cycle), 12 * u64::from(slots));
    println!(rt; " d=\"M64 {y}v-1h{width}v1z\"/>")
}

fn mark_cycles(rt: &impl Print, slots: u32) -> io::Result<()> {
    for cycle in 0..64 {
        mark_cycle(rt, cycle, slots)?;
    }
    Ok(())
}

// Each axis has its name in the group whose alignment it shares.
pub fn grid(rt: &impl Print, slots: u32) -> io::Result<()> {
    println!(rt; "<g font-size=\"10\" text-anchor=\"middle\">")?;
    println!(rt;
        "<text x=\"20\" y=\"336\" font-size=\"12\" transform=\"rotate(-90 20 336)\">cycle</text>"
    )?;
    mark_slots(rt, slots)?;
    println!(rt; "</g>\n<g font-size=\"10\" text-anchor=\"end\">")?;
    println!(rt; "<text x=\"58\" y=\"74\" font-size=\"12\">slot</text>")?;
    mark_cycles(rt, slots)?;
    let width = 12 * u64::from(slots);
    print!(rt; "</g>\n<rect x=\"64.5\" y=\"80.5\" height=\"512\" width=\"{width}\"")?;
    println!(rt; " fill=\"none\" stroke=\"#aaaaaa\"/>")
}

fn draw_cell(rt: &impl Print, slot: u32, cycle: u32) -> io::Result<()> {
    let (x, y) = (across(slot), down(cycle));
    print!(rt; "M{x} {y}h11v7h-11z")
}

// Each cycle of the slot that holds the signal.
fn draw_cells(rt: &impl Print, plan: &Plan, slot: u32, signal: u32) -> io::Result<()> {
    for cycle in 0..64 {
        if plan.cell(slot, cycle) == Some(signal) {
            draw_cell(rt, slot, cycle)?;
        }
    }
    Ok(())
}

// What a browser shows under the pointer.
fn tell(rt: &impl Print, plan: &Plan, signal: u32) -> io::Result<()> {
    let x = plan.signal(signal);
    let SignalResult { frame, age } = plan.result(signal);
    print!(rt;
        "<title>signal {signal}, unit {}, slot {}, base {}",
        x.unit, frame.slot, frame.base
    )?;
    print!(rt;
        ", repetition {}, age {age}, bound {}</title>",
        frame.repetition, x.bound
    )
}

// The frame of a signal, in the colour of its unit.
fn frame(rt: &impl Print, plan: &Plan, units: &Units, signal: u32) -> io::Result<()> {
    print!(rt; "<g")?;
    if let Some(Some(share)) = units.get(plan.signal(signal).unit as usize) {
        print!(rt; " {}", share.fill())?;
    }
    print!(rt; ">")?;
    tell(rt, plan, signal)?;
    print!(rt; "<path d=\"")?;
    draw_cells(rt, plan, plan.result(signal).frame.slot, signal)?;
    println!(rt; "\"/></g>")
}

// All frames. The one under the pointer turns black, so that its cycles are seen together.
pub fn frames(rt: &impl Print, plan: &Plan, units: &Units) -> io::Result<()> {
    println!(rt; "<style>#frames g:hover{{fill:#000000}}</style>\n<g id=\"frames\">")?;
    for signal in 1..=plan.signals {
        frame(rt, plan, units, signal)?;
    }
    println!(rt; "</g>")
}

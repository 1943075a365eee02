// Where things stand on the sheet, in pixels, and what stands above the table: the head of the file and the title.
// The table begins at 64 across and 80 down. A cell is 12 by 8 pixels: a grid line of one pixel at its left and upper
// edge, and 11 by 7 of colour.
ghost use Rattle.std.specs.Prelude.{◌<◌};

use crate::text::Signals;
use plans::Plan;
use std::io;

// Where the colour of a slot begins, counted from 1: behind its grid line.
pub fn across(slot: u32) -> u64 {
    53 + 12 * u64::from(slot)
}

// Where the colour of a cycle begins, counted from 0: below its grid line.
pub fn down(cycle: u32) -> u64 {
    81 + 8 * u64::from(cycle)
}

// Slots that the sheet is wide enough for: at least 46, so that the title and the legend have room.
fn room(slots: u32) -> u32
    ensures { 45 < result }
{
    slots.max(46)
}

// Columns of the legend, of 276 pixels (23 slots) each.
fn columns(slots: u32) -> u32
    ensures { 1 < result }
{
    room(slots) / 23
}

// The column and the row of the legend, from 0, where the unit of a rank stands.
pub fn column(rank: u32, slots: u32) -> u32 {
    rank % columns(slots)
}

pub fn row(rank: u32, slots: u32) -> u32 {
    rank / columns(slots)
}

pub fn width(slots: u32) -> u64 {
    88 + 12 * u64::from(room(slots))
}

// Each row of the legend takes 20 pixels; the first is there also where no unit has a signal.
pub fn height(slots: u32, last_rank: u32) -> u64 {
    660 + 20 * u64::from(row(last_rank, slots))
}

// The head of the file: a white sheet.
pub fn open(rt: &impl Print, width: u64, height: u64) -> io::Result<()> {
    print!(rt; "<svg xmlns=\"http://www.w3.org/2000/svg\" width=\"{width}\" height=\"{height}\"")?;
    print!(rt; " viewBox=\"0 0 {width} {height}\"")?;
    println!(rt; " font-family=\"sans-serif\" fill=\"#222222\">")?;
    println!(rt; "<rect width=\"100%\" height=\"100%\" fill=\"#ffffff\"/>")
}

fn title(rt: &impl Print, plan: &Plan) -> io::Result<()> {
    print!(rt;
        "{}, {} of {} slots used",
        Signals(plan.signals),
        plan.used,
        plan.settings.slots
    )
}

// The title, also for the browser's tab, and the settings.
pub fn head(rt: &impl Print, plan: &Plan) -> io::Result<()> {
    print!(rt; "<title>")?;
    title(rt, plan)?;
    print!(rt; "</title>\n<text x=\"64\" y=\"30\" font-size=\"20\" font-weight=\"bold\">")?;
    title(rt, plan)?;
    let s = plan.settings;
    print!(rt; "</text>\n<text x=\"64\" y=\"50\" font-size=\"11\">")?;
    print!(rt; "cycle length {}, slot length {}", s.cycle, s.slot)?;
    println!(rt;
        ", packing time {} macroticks; payload {} words</text>",
        s.packing, s.payload
    )
}

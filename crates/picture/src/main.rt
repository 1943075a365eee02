// The picture of a plan: a book on standard input, the planned table as SVG on standard output, or the refusal.
// Thin: reading, planning and what they promise are in the libraries; here the cells they give are drawn.
#![tactic(auto)]

mod legend;
mod sheet;
mod table;
mod text;
mod units;

use plans::Plan;
use std::env::FillError;
use std::io;
use std::rt::Env;
use terms::Refusal;

fn help(rt: &impl Print) -> io::Result<()> {
    println!(rt; "picture: draws the plan of the static segment of one FlexRay channel.")?;
    println!(rt;
        "In, on standard input: a book of blocks of 512 bytes, the settings block and then the signal blocks."
    )?;
    println!(rt;
        "Out, on standard output: an SVG, slots across and cycles down, each frame in the colour of its unit. A frame's"
    )?;
    println!(rt;
        "title has its signal, unit, slot, base, repetition, age and bound; a browser shows it under the pointer."
    )?;
    println!(rt;
        "A refusal is a small SVG that says REFUSED, number, place; the line also goes to standard error."
    )
}

// `REFUSED`, number, place: as a picture, and on standard error.
fn refuse(rt: &(impl Print + Eprint), refusal: Refusal) -> io::Result<()> {
    sheet::open(rt, 480, 80)?;
    print!(rt; "<text x=\"24\" y=\"48\" font-size=\"24\" font-weight=\"bold\">")?;
    print!(rt; "REFUSED {refusal}</text>\n</svg>\n")?;
    eprintln!(rt; "REFUSED {refusal}")
}

fn draw(rt: &impl Print, plan: &Plan) -> io::Result<()> {
    let slots = plan.settings.slots;
    let mut units = [None; 256];
    units::units_of(plan, &mut units);
    let last_rank = units::last_rank(&units);
    sheet::open(rt, sheet::width(slots), sheet::height(slots, last_rank))?;
    sheet::head(rt, plan)?;
    table::grid(rt, slots)?;
    table::frames(rt, plan, &units)?;
    legend::legend(rt, &units, slots)?;
    println!(rt; "</svg>")
}

fn main(rt: HostRuntime) -> io::Result<()> {
    let mut plan = plans::BLANK;
    // An argument, whatever its bytes.
    if !matches!(rt.arg(1, &mut []), Err(FillError::NotPresent)) {
        return help(&rt);
    }
    match plans::of_input(rt.reader(), rt.alloc(), &mut plan)? {
        Ok(()) => draw(&rt, &plan),
        Err(refusal) => refuse(&rt, refusal),
    }
}

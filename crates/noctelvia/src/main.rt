// The planning program: a book on standard input, the plan or the refusal as lines on standard output.
// Thin: reading, planning and what they promise are in the libraries. A refusal's reason goes to standard error.
#![tactic(auto)]

mod words;

use plans::Plan;
use std::env::FillError;
use std::io;
use std::rt::Env;
use terms::{Refusal, SignalResult};
use words::{Reason, help};

// `REFUSED`, number, place; and why, in words.
fn refuse(rt: &(impl Print + Eprint), refusal: Refusal) -> io::Result<()> {
    println!(rt; "REFUSED {refusal}")?;
    eprintln!(rt; "{}", Reason(refusal))
}

// One signal: number, unit; and of its result slot, base, repetition, age.
fn line(rt: &impl Print, plan: &Plan, signal: u32) -> io::Result<()> {
    let unit = plan.signal(signal).unit;
    let SignalResult { frame, age } = plan.result(signal);
    println!(rt;
        "{signal} {unit} {} {} {} {age}",
        frame.slot, frame.base, frame.repetition
    )
}

// `PLAN`, signals, slots used, slots in the segment; then each signal in list order.
fn show(rt: &impl Print, plan: &Plan) -> io::Result<()> {
    println!(rt;
        "PLAN {} {} {}",
        plan.signals, plan.used, plan.settings.slots
    )?;
    for signal in 1..=plan.signals {
        line(rt, plan, signal)?;
    }
    Ok(())
}

fn main(rt: HostRuntime) -> io::Result<()> {
    let mut plan = plans::BLANK;
    // An argument, whatever its bytes.
    if !matches!(rt.arg(1, &mut []), Err(FillError::NotPresent)) {
        return help(&rt);
    }
    match plans::of_input(rt.reader(), rt.alloc(), &mut plan)? {
        Ok(()) => show(&rt, &plan),
        Err(refusal) => refuse(&rt, refusal),
    }
}

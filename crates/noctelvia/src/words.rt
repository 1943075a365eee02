// What the program says in words: why a book is refused and what would mend it, and what goes in and comes out.
use std::{fmt, io};
use terms::Refusal;

pub fn help(rt: &impl Print) -> io::Result<()> {
    println!(rt; "noctelvia: plans the static segment of one FlexRay channel.")?;
    println!(rt;
        "In, on standard input: a book of blocks of 512 bytes, the settings block and then the signal blocks."
    )?;
    println!(rt;
        "Out, on standard output: PLAN, signals, slots used, slots in the segment; then for each signal in list"
    )?;
    println!(rt;
        "order its number, unit, slot, base, repetition and age. Or one line: REFUSED, number, place."
    )?;
    println!(rt; "A refusal's reason in words goes to standard error.")
}

// Why a book is refused: one sentence of what is wrong, where, and what would mend it.
#[derive(Clone, Copy)]
pub struct Reason(pub Refusal);

impl fmt::Display for Reason {
    fn fmt<W: fmt::Write>(&self, f: &mut fmt::Formatter<W>) -> fmt::Result {
        match self.0 {
            Refusal::Length => write!(
                f,
                "The book is empty, not a multiple of 512 bytes, or over 26 blocks: send it whole, and nothing behind it."
            ),
            Refusal::Check(k) => write!(
                f,
                "The check word of block {k} (from 0) is wrong: the block was damaged or not sealed; write the book again."
            ),
            Refusal::Kind(k) => write!(
                f,
                "Block {k} (from 0) has a wrong number or kind: blocks are missing, doubled or out of order."
            ),
            Refusal::Count => write!(
                f,
                "The signal count is over 600 or does not fit the blocks: \
                 correct word 7 of block 0 or word 2 of a signal block."
            ),
            Refusal::Zero(k) => write!(
                f,
                "A word of block {k} (from 0) that must be zero is not: clear what is unused."
            ),
            Refusal::Setting(w) => write!(
                f,
                "Setting word {w} is out of range, or (word 4) the slots are too long for the cycle: correct that setting."
            ),
            Refusal::Field(i) => write!(
                f,
                "Signal {i} has a field out of range: correct its unit, period, offset, size or bound."
            ),
            Refusal::Bound(i) => write!(
                f,
                "No repetition keeps the bound of signal {i} in every slot and at every base: \
                 raise its bound, or move its offset."
            ),
            Refusal::Slots(n) => write!(
                f,
                "The plan needs {n} slots, more than the segment has: add slots, raise bounds or strike signals."
            ),
            Refusal::Room(n) => write!(f, "The room is too short: {n} are needed."),
            Refusal::Taken(i) => write!(f, "The frame of signal {i} meets a taken cycle."),
        }
    }
}

// The whole plan of a book, as the programs show it: what was read, the cells of the table and each signal's result.
// Promises: reading, then planning into room enough, so each book gets a plan or the first refusal of the two; a
// refusal leaves the lent plan as it was.
#![tactic(auto)]

ghost use Rattle.std.specs.Prelude.{◌≡◌, ◌≢◌, get_or, unwrap_or, Some, IfOk, IfErr, OnErr};
ghost use Rattle.terms.specs.Lists.{signal_at};
ghost use Rattle.terms.specs.Results.{result_at};
ghost use Rattle.filling.specs.Shown.{cell_of};
ghost use Rattle.plans.specs.OfBook.{PlanOfBook, RefusalOfBook, PlanOfSome};

use std::alloc::Global;
use std::io;
use std::io::Read;
use terms::{
    MOST_CELLS, MOST_SIGNALS, RESULT_WORDS, Refusal, SIGNAL_WORDS, Settings, Signal, SignalResult,
};

// A list and its plan, in arrays of the longest, so that a plan never fails for memory. Words of the list past the
// signals' are 0; cells and results past those of the plan are as they were lent.
#[derive(Clone, Copy)]
pub struct Plan {
    pub settings: Settings,
    pub signals: u32,
    pub used: u32,
    pub list: [u32; SIGNAL_WORDS * MOST_SIGNALS],
    pub cells: [u32; MOST_CELLS],
    pub results: [u32; RESULT_WORDS * MOST_SIGNALS],
}

// A plan to lend: nothing is planned, and every word is 0.
pub const BLANK: Plan = Plan {
    settings: Settings {
        cycle: 0,
        slot: 0,
        slots: 0,
        packing: 0,
        payload: 0,
    },
    signals: 0,
    used: 0,
    list: [0; SIGNAL_WORDS * MOST_SIGNALS],
    cells: [0; MOST_CELLS],
    results: [0; RESULT_WORDS * MOST_SIGNALS],
};

// The plan of a book, put into the lent one and not handed over, which would cost the stack of another. The list stands
// apart until it is planned, for the sake of a refusal.
pub fn of_book(book: &[u8], plan: &mut Plan) -> Result<(), Refusal>
    ensures done { IfOk result (λ _. PlanOfBook book.now plan.old plan.new) }
    ensures refused { IfErr result (RefusalOfBook book.now) }
    ensures kept { OnErr result (plan.new ≡ plan.old) }
{
    let mut list = [0; SIGNAL_WORDS * MOST_SIGNALS];
    let reading = book::read(book, &mut list)?;
    let (settings, signals) = (reading.settings, reading.signals);
    let asked = &list[..SIGNAL_WORDS * signals as usize];
    let used = planner::plan(settings, asked, &mut plan.cells, &mut plan.results)?;
    plan.settings = settings;
    plan.signals = signals;
    plan.used = used;
    plan.list = list;
    Ok(())
}

impl Plan {
    // Signal i, numbered from 1.
    pub fn signal(&self, i: u32) -> Signal
        ensures { result ≡ signal_at self.now.list i }
    {
        terms::signal_at(&self.list, i)
    }

    pub fn result(&self, i: u32) -> SignalResult
        ensures { result ≡ result_at (λ d. get_or self.now.results d 0) i }
    {
        terms::result_at(&self.results, i)
    }

    // The signal whose number stands in a cell of the table.
    pub fn cell(&self, slot: u32, cycle: u32) -> Option<u32>
        ensures given { unwrap_or result 0 ≡ cell_of self.now.cells slot cycle }
        ensures some { result ≢ Some 0 }
    {
        let at = 64 * slot.saturating_sub(1) as usize + cycle as usize;
        match self.cells.get(at) {
            None | Some(0) => None,
            Some(signal) => Some(*signal),
        }
    }
}

// The plan of the book that is put in, into the lent one. One byte more than the longest book is read, so that a longer
// one is seen to be too long.
pub fn of_input(
    input: impl Read + Drop,
    alloc: Global,
    plan: &mut Plan,
) -> io::Result<Result<(), Refusal>>
    ensures given { IfOk result (λ r. PlanOfSome plan.old r plan.new) }
    ensures failed { OnErr result (plan.new ≡ plan.old) }
{
    let mut book = Vec::new(alloc);
    input.take(13313).read_to_end(&mut book)?;
    Ok(of_book(&book, plan))
}

// The plan of a book for the configuration editor, whose results are bytes; and, in specs/, what each of its calls gets.
// Promises: reading, then planning; the results as little-endian words; a refusal changes no lent byte.
#![tactic(auto)]

ghost use Rattle.terms.specs.Lists.{CountInRange};
ghost use Rattle.terms.specs.Requests.{request};
ghost use Rattle.editor.specs.Answered.{BookPlanned};
ghost use Rattle.editor.specs.Private.{BytesPlanned, PlannedPut};

use terms::{Answer, MOST_CELLS, MOST_SIGNALS, RESULT_WORDS, Refusal, SIGNAL_WORDS, Settings};

// Planning a book: the little-endian words of a result a signal into the lent bytes.
pub fn plan(book: &[u8], results: &mut [u8]) -> Answer
    ensures { BookPlanned book.now results.old result results.new }
{
    let mut list = [0; SIGNAL_WORDS * MOST_SIGNALS];
    let reading = book::read(book, &mut list)?;
    let words = SIGNAL_WORDS * reading.signals as usize;
    plan_bytes(reading.settings, &list[..words], results)
}

// The plan of a list whose results are bytes. Only the bytes can be too few, and they are looked at before the search: 6, then
// 10; the rest is planning's own answer, into words of its own.
fn plan_bytes(s: Settings, list: &[u32], results: &mut [u8]) -> Answer
    requires { CountInRange list.now }
    ensures { BytesPlanned (request s list.now) results.old result results.new }
{
    if let Some(word) = terms::setting_out_of_range(s) {
        return Err(Refusal::Setting(word));
    }
    let words = RESULT_WORDS * terms::count(list);
    if results.len() < 4 * words {
        return Err(Refusal::Room((4 * words) as u32));
    }
    let mut cells = [0; MOST_CELLS];
    let mut shown = [0; RESULT_WORDS * MOST_SIGNALS];
    let planned = planner::plan(s, list, &mut cells, &mut shown);
    put_planned(planned, &shown[..words], results)
}

// Planning's answer, whose words are put as bytes where it is done; a refusal leaves the bytes.
fn put_planned(planned: Answer, words: &[u32], results: &mut [u8]) -> Answer
    ensures { PlannedPut planned words.now results.old result results.new }
{
    let slots = planned?;
    book::put_words(words, results);
    Ok(slots)
}

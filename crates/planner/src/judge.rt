// What planning asks before it fills: 6, 4, 10, 7 and 8, in this order.
ghost use Rattle.std.specs.Prelude.{[], ◌∷◌, IfOk};
ghost use Rattle.terms.specs.Lists.{CountInRange};
ghost use Rattle.terms.specs.Requests.{request};
ghost use Rattle.planner.specs.Rows.{lent_rows, field_row, bound_row};
ghost use Rattle.planner.specs.Judged.{Passes, Judgeable, Found, judged_rows};

use terms::{MOST_SIGNALS, Refusal, Settings};

// 6, 4 and 10: what is asked of the settings, the list and the room.
fn judge_lent(s: Settings, list: &[u32], cells: usize, results: usize) -> Result<(), Refusal>
    ensures { Passes (lent_rows (request s list.now) cells results) result }
{
    if let Some(word) = terms::setting_out_of_range(s) {
        return Err(Refusal::Setting(word));
    }
    if !terms::count_in_range(list) {
        return Err(Refusal::Count);
    }
    let table = 64 * s.slots as usize;
    if cells < table {
        return Err(Refusal::Room(table as u32));
    }
    let shown = terms::RESULT_WORDS * terms::count(list);
    if results < shown {
        return Err(Refusal::Room(shown as u32));
    }
    Ok(())
}

// 7: the lowest signal that is out of range.
fn judge_fields(s: Settings, list: &[u32]) -> Result<(), Refusal>
    requires { CountInRange list.now }
    ensures { Passes (field_row s list.now ∷ []) result }
{
    for i in 1..=terms::count(list) as u32 {
        if !terms::signal_in_range(s, terms::signal_at(list, i)) {
            return Err(Refusal::Field(i));
        }
    }
    Ok(())
}

// 8: the repetition of each signal, up to the lowest that gets none; in an array, since the libraries take no memory.
fn repetitions(s: Settings, list: &[u32]) -> Result<[u32; MOST_SIGNALS], Refusal>
    requires { Judgeable s list.now }
    ensures bound { Passes (bound_row s list.now ∷ []) result }
    ensures found { IfOk result (Found s list.now) }
{
    let mut repetitions = [0; MOST_SIGNALS];
    for i in 1..=terms::count(list) as u32 {
        let x = terms::signal_at(list, i);
        let Some(repetition) = rule::repetition(s, x) else {
            return Err(Refusal::Bound(i));
        };
        repetitions[i as usize - 1] = repetition;
    }
    Ok(repetitions)
}

// The first refusal, or the repetitions found.
pub(crate) fn judge(
    s: Settings,
    list: &[u32],
    cells: usize,
    results: usize,
) -> Result<[u32; MOST_SIGNALS], Refusal>
    ensures judged { Passes (judged_rows (request s list.now) cells results) result }
    ensures found { IfOk result (Found s list.now) }
{
    judge_lent(s, list, cells, results)?;
    judge_fields(s, list)?;
    repetitions(s, list)
}

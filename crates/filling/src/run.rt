// Each frame in its turn goes into the slots of its group, and is shown.
ghost use Rattle.filling.specs.Private.{Runnable, Ran};

use crate::current::Current;
use crate::groups::{GROUPS, Signals, group_of};
use crate::{Unfilled, gather, show};
use terms::Settings;

// All frames in the order of filling, each into its group.
pub(crate) fn run(
    s: Settings,
    signals: Signals,
    groups: &mut [Current; GROUPS],
    cells: &mut [u32],
    results: &mut [u32],
) -> Result<(), Unfilled>
    requires { Runnable s signals groups.old cells.old results.old }
    ensures { Ran s signals.entry cells.old results.old result cells.new results.new }
{
    let m = terms::count(signals.list);
    let frames = gather::frames_in_order(&signals.repetitions[..m]);
    for f in &frames[..m] {
        let g = group_of(signals.list, f.signal);
        let frame = groups[g].place(*f).ok_or(Unfilled::Taken(f.signal))?;
        show::show(s, signals.list, f.signal, frame, cells, results);
    }
    Ok(())
}

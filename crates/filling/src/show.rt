// Showing: cleared cells, and each frame in its cells and in its signal's result.
ghost use Rattle.std.specs.Prelude.{[], ◌*◌, ◌≤◌, length};
ghost use Rattle.filling.specs.Shown.{CellsShow};
ghost use Rattle.filling.specs.Private.{placed_at, Paintable, Painted, FrameShown};

use terms::{Frame, Settings, SignalResult};

// All cells of the slots 0.
pub(crate) fn clear(cells: &mut [u32], slots: u32)
    requires { 64 * slots ≤ length cells.old }
    ensures { CellsShow slots [] cells.old cells.new }
{
    cells[..64 * slots as usize].fill(0);
}

// The signal in every cell of its frame: from the base on, each repetition.
fn paint(cells: &mut [u32], signal: u32, f: Frame)
    requires { Paintable cells.old f }
    ensures { Painted (placed_at signal f) cells.old cells.new }
{
    for c in (f.base as usize..64).step_by(f.repetition as usize) {
        cells[64 * (f.slot as usize - 1) + c] = signal;
    }
}

// A frame in its cells, and in its signal's result with its age there.
pub(crate) fn show(
    s: Settings,
    list: &[u32],
    signal: u32,
    f: Frame,
    cells: &mut [u32],
    results: &mut [u32],
)
    requires { Paintable cells.old f }
    ensures { FrameShown s list.now (placed_at signal f) cells.old results.old
        cells.new results.new }
{
    let age = age::age(s, terms::signal_at(list, signal), f).unwrap_or(0);
    terms::put_result(results, signal, SignalResult { frame: f, age });
    paint(cells, signal, f);
}

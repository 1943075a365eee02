// The repetition of one signal, by trying every slot and base of each of the seven, the largest first.
// Promises: the largest that keeps the bound; none exactly out of range and where none keeps it.
#![tactic(auto)]

ghost use Rattle.std.specs.Prelude.{unwrap_or, IfSome, ◌<◌};
ghost use Rattle.laws.specs.Says.{Says};
ghost use Rattle.terms.specs.Ranges.{Repetition};
ghost use Rattle.rule.specs.Places.{KeptAt};
ghost use Rattle.rule.specs.Rule.{Keeps, segment, RepetitionGiven};

use age::Frames;
use terms::{Settings, Signal};

// Whether the age is at most the bound at every slot of one base cycle. The slots are counted from 0, since an
// inclusive range makes the search slower by a fifth.
fn keeps_at_base(frames: Frames, base: u32) -> bool
    requires { base < frames.repetition }
    ensures { Says (KeptAt frames.settings frames.signal frames.repetition base) result }
{
    let bound = frames.signal.bound;
    (0..frames.settings.slots).all(|k| { frames.age(k + 1, base).is_some_and(|age| age <= bound) })
}

// Whether the bound is kept in all the frames: at every slot and every base.
fn keeps(frames: Frames) -> bool
    ensures { Says (Keeps frames.settings frames.signal (segment frames.settings) frames.repetition) result }
{
    (0..frames.repetition).all(|base| keeps_at_base(frames, base))
}

// The repetition that signal x gets: the first of the seven, the largest first, that keeps its bound.
pub fn repetition(s: Settings, x: Signal) -> Option<u32>
    ensures given { RepetitionGiven s x (unwrap_or result 0) }
    ensures some { IfSome result Repetition }
{
    // Once for all seven.
    if !terms::valid(s, x) {
        return None;
    }
    [64, 32, 16, 8, 4, 2, 1]
        .iter()
        .copied()
        .find(|&r| Frames::of(s, x, r).is_some_and(keeps))
}

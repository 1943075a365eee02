// The age of one signal in one frame, and in the frames of one repetition.
// Promises: the definition's age, over all releases for ever; none exactly where something is out of range.
#![tactic(auto)]

ghost use Rattle.std.specs.Prelude.{◌≡◌, ◌*◌, ◌%◌, ◌<◌, ◌↔◌, IfSome, IsSome, unwrap_or};
ghost use Rattle.laws.specs.Divisor.{IsGcd};
ghost use Rattle.laws.specs.Says.{Says};
ghost use Rattle.terms.specs.Ranges.{Valid, Repetition};
ghost use Rattle.age.specs.AgeGiven.{frame_in, InRange, AgeGiven, LongestGiven};

use terms::{Frame, Settings, Signal};

// The largest number below `limit` that leaves what `n` leaves by `g`.
pub fn longest_wait(limit: u32, n: u32, g: u32) -> Option<u32>
    ensures given { LongestGiven limit n g (unwrap_or result 0) }
    ensures some { IsSome result ↔ (0 < g) × (n % g < limit) }
{
    if g == 0 || limit <= n % g {
        return None;
    }
    let top = limit - 1;
    Some(top - (top - n % g) % g)
}

// The frames of a signal with one repetition: one divisor for the ages in all of them.
#[derive(Clone, Copy)]
pub struct Frames {
    pub settings: Settings,
    pub signal: Signal,
    pub repetition: u32,
    divisor: u32,
    ghost valid: { Valid settings signal },
    ghost seven: { ∥ Repetition repetition ∥₁ },
    ghost greatest: { ∥ IsGcd signal.period (repetition * settings.cycle) divisor ∥₁ },
}

impl Frames {
    pub fn of(s: Settings, x: Signal, repetition: u32) -> Option<Self>
        ensures of { IfSome result (λ p. (p.settings ≡ s) × (p.signal ≡ x) × (p.repetition ≡ repetition)) }
        ensures some { IsSome result ↔ Valid s x × Repetition repetition }
    {
        if !terms::valid(s, x) || !terms::is_repetition(repetition) {
            return None;
        }
        Some(Frames {
            settings: s,
            signal: x,
            repetition,
            divisor: laws::gcd(x.period, repetition * s.cycle),
        })
    }

    // The formula: the longest wait by the greatest common divisor of the period and the frame's span, and the slot
    // length. There is such a wait, since the divisor is at most the span. The period is a multiple of it, so the
    // period less the offset leaves what −offset leaves.
    #[tactic(auto, using(crate::proofs::FramesLaws::bounded, crate::proofs::FramesLaws::wait_there))]
    pub fn age(self, slot: u32, base: u32) -> Option<u32>
        ensures given { AgeGiven self.settings self.signal (frame_in slot self.repetition base) (unwrap_or result 0) }
        ensures some { IsSome result ↔ InRange self.settings self.signal (frame_in slot self.repetition base) }
    {
        let s = self.settings;
        let x = self.signal;
        let f = Frame {
            slot,
            repetition: self.repetition,
            base,
        };
        if !terms::frame_in_range(s, f) {
            return None;
        }
        let span = self.repetition * s.cycle;
        let first = base * s.cycle + (slot - 1) * s.slot;
        let wait = longest_wait(
            s.packing + span,
            first + (x.period - x.offset),
            self.divisor,
        )?;
        Some(wait + s.slot)
    }
}

// Asked before any divisor is sought; a function of its own, since tests in `age` itself make an age slower by a fifth.
fn in_range(s: Settings, x: Signal, f: Frame) -> bool
    ensures { Says (InRange s x f) result }
{
    terms::valid(s, x) && terms::frame_in_range(s, f)
}

// The age of signal x in frame f.
pub fn age(s: Settings, x: Signal, f: Frame) -> Option<u32>
    ensures given { AgeGiven s x f (unwrap_or result 0) }
    ensures some { IsSome result ↔ InRange s x f }
{
    if !in_range(s, x, f) {
        return None;
    }
    Frames::of(s, x, f.repetition)?.age(f.slot, f.base)
}

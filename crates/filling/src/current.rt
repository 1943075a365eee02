// The slot of a group that is being filled: how the group begins, the slot that a frame goes to, and the step that places
// it there.
ghost use Rattle.std.specs.Prelude.{◌-◌, ◌^◌, ◌<◌};
ghost use Rattle.terms.specs.Ranges.{Repetition};
ghost use Rattle.filling.specs.Runs.{start};
ghost use Rattle.filling.specs.Private.{Holds, Holding, GoneTo, StepOf};

use crate::UnitFrame;
use cycles::Slot;
use terms::Frame;

// The slots begun, and the last of them, which is being filled.
#[derive(Clone, Copy)]
pub struct Current {
    pub slot: Slot,
    pub begun: u32,
}

impl Current {
    // A group behind so many slots: nothing is free, so that its first frame begins a new slot.
    pub(crate) fn start(unit: u32, begun: u32) -> Current
        ensures { Holding unit (start begun) result }
    {
        Current {
            slot: Slot { unit, free: 0 },
            begun,
        }
    }

    // A group with nothing free begins as this unit's, behind so many slots. It is written where it stands, which costs
    // less than to make it and copy it.
    pub(crate) fn begin(&mut self, unit: u32, begun: u32)
        requires { Holds (start begun).cycles self.old.slot.free }
        ensures { Holding unit (start begun) self.new }
    {
        self.slot.unit = unit;
        self.begun = begun;
    }

    // The slot that a frame goes to: the current one while that has a free cycle, else the next.
    #[tactic(auto, using(crate::proofs::StepLaws::goes_kept))]
    fn goes_to(self) -> Current
        requires { self.begun < 2 ^ 32 - 1 }
        ensures { GoneTo self result }
    {
        if self.slot.first_free().is_some() {
            return self;
        }
        Current {
            slot: Slot::fresh(self.slot.unit),
            begun: self.begun + 1,
        }
    }

    // One frame into the slot that it goes to, with the first free cycle as its base; none where it is in trouble.
    pub(crate) fn place(&mut self, f: UnitFrame) -> Option<Frame>
        requires { (self.old.begun < 2 ^ 32 - 1) × Repetition f.repetition }
        ensures { StepOf self.old f result self.new }
    {
        *self = self.goes_to();
        let base = self.slot.first_free()?;
        if f.repetition <= base || !self.slot.all_free(f.repetition, base) {
            return None;
        }
        self.slot.clear(f.repetition, base);
        Some(Frame {
            slot: self.begun,
            repetition: f.repetition,
            base,
        })
    }
}

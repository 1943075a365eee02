// The cycles of a slot: the seven patterns, the cycles that a frame names, the tally of a unit's load, the slot being filled.
// Promises: every word is given by its 64 bits, for all inputs; what is no repetition or no base names no cycle and adds no load.
#![tactic(auto)]

ghost use Rattle.std.specs.Prelude.{◌≡◌, ◌<◌, IfSome, unwrap_or};
ghost use Rattle.laws.specs.Says.{Says};
ghost use Rattle.cycles.specs.Bits.{Mask};
ghost use Rattle.cycles.specs.Frames.{Multiple, Names};
ghost use Rattle.cycles.specs.Loads.{Tallied, slots_for};
ghost use Rattle.cycles.specs.Slots.{Fresh, FirstFree, AllFree, FrameTaken};

// The patterns of the repetitions 1, 2, 4, 8, 16, 32 and 64.
const PATTERNS: [u64; 7] = [
    0xffff_ffff_ffff_ffff,
    0x5555_5555_5555_5555,
    0x1111_1111_1111_1111,
    0x0101_0101_0101_0101,
    0x0001_0001_0001_0001,
    0x0000_0001_0000_0001,
    0x0000_0000_0000_0001,
];

// The most slot-cycles that a tally holds.
const MOST_LOAD: u32 = 38400;

// A unit's load in slot-cycles: a frame of repetition R adds 64/R.
#[derive(Clone, Copy, Debug, PartialEq, Eq)]
pub struct Tally {
    pub load: u32,
}

// The slot being filled: its unit, and its free cycles as set bits.
#[derive(Clone, Copy, Debug, PartialEq, Eq)]
pub struct Slot {
    pub unit: u32,
    pub free: u64,
}

// The multiples of a repetition among the 64 cycles.
pub fn pattern(repetition: u32) -> u64
    ensures { Mask result (Multiple repetition) }
{
    if terms::is_repetition(repetition) {
        PATTERNS[repetition.trailing_zeros() as usize]
    } else {
        0
    }
}

// The cycles of a frame.
pub fn cycles_of(repetition: u32, base: u32) -> u64
    ensures { Mask result (Names repetition base) }
{
    if terms::is_repetition(repetition) && base < repetition {
        pattern(repetition) << base
    } else {
        0
    }
}

impl Tally {
    // The tally with a frame more; it stays where the number is no repetition or would take it past the most.
    pub fn add(self, repetition: u32) -> Tally
        ensures { Tallied self.load repetition result.load }
    {
        if !terms::is_repetition(repetition) {
            return self;
        }
        let more = 64 / repetition;
        if MOST_LOAD - more < self.load {
            return self;
        }
        Tally {
            load: self.load + more,
        }
    }

    // The slots that the load needs.
    pub fn slots(self) -> u32
        ensures { result ≡ slots_for self.load }
    {
        self.load.div_ceil(64)
    }
}

impl Slot {
    pub fn fresh(unit: u32) -> Slot
        ensures { Fresh unit result }
    {
        Slot {
            unit,
            free: 0xffff_ffff_ffff_ffff,
        }
    }

    // The first free cycle, where one is free.
    pub fn first_free(self) -> Option<u32>
        ensures first { FirstFree self (unwrap_or result 64) }
        ensures some { IfSome result (λ c. c < 64) }
    {
        if self.free == 0 {
            None
        } else {
            Some(self.free.trailing_zeros())
        }
    }

    // Whether all cycles of a frame are free.
    pub fn all_free(self, repetition: u32, base: u32) -> bool
        ensures { Says (AllFree self repetition base) result }
    {
        let cycles = cycles_of(repetition, base);
        self.free & cycles == cycles
    }

    // The slot with the cycles of a frame taken.
    pub fn take(self, repetition: u32, base: u32) -> Slot
        ensures { FrameTaken self repetition base result }
    {
        let cycles = cycles_of(repetition, base);
        Slot {
            unit: self.unit,
            free: self.free & !cycles,
        }
    }

    // The step that places a frame, `take` of the slot lent to it: the frame's cycles are cleared, and the unit stays.
    pub fn clear(&mut self, repetition: u32, base: u32)
        ensures { FrameTaken self.old repetition base self.new }
    {
        *self = self.take(repetition, base);
    }
}

// The units that have a signal: how many each has, its slots, and its colour.
use crate::text::Fill;
use plans::Plan;

// Sixteen colours that are told apart beside each other and upon white. A unit takes that of its rank among the units
// with a signal, so that units side by side differ, whatever their numbers are.
const COLOURS: [u32; 16] = [
    0x4e79a7, 0xf28e2b, 0x2f6b35, 0xff9da7, 0x1f4e9c, 0xd4a017, 0xa2242f, 0x76b7b2, 0x6a3d9a,
    0x8bc34a, 0x9c755f, 0x17a2b8, 0xe15759, 0x7f7f7f, 0x59a14f, 0xe377c2,
];

// A unit's rank, from 0; its signals, and the first and last slot that hold them.
#[derive(Clone, Copy, Debug)]
pub struct Share {
    pub rank: u32,
    pub signals: u32,
    pub first: u32,
    pub last: u32,
}

impl Share {
    pub fn fill(&self) -> Fill {
        Fill(COLOURS[(self.rank % 16) as usize])
    }

    fn gains(&mut self, slot: u32) {
        self.signals = self.signals.saturating_add(1);
        self.first = self.first.min(slot);
        self.last = self.last.max(slot);
    }
}

// Each unit's share by its number, in room of its own, so that a picture never fails for memory.
pub type Units = [Option<Share>; 256];

// The units of a plan into units that have none yet.
pub fn units_of(plan: &Plan, units: &mut Units) {
    for signal in 1..=plan.signals {
        let slot = plan.result(signal).frame.slot;
        if let Some(share) = units.get_mut(plan.signal(signal).unit as usize) {
            let new = Share {
                rank: 0,
                signals: 0,
                first: slot,
                last: slot,
            };
            share.get_or_insert(new).gains(slot);
        }
    }
    for (rank, share) in (0..256).zip(units.iter_mut().flatten()) {
        share.rank = rank;
    }
}

// The highest rank, or 0 where no unit has a signal.
pub fn last_rank(units: &Units) -> u32 {
    units.iter().flatten().last().map_or(0, |share| share.rank)
}

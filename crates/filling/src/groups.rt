// The signals of a list with their repetitions and groups: the load of each group, and how it begins.
ghost use Rattle.std.specs.Prelude.{◌≡◌, MatchOption};
ghost use Rattle.terms.specs.Lists.{group_of};
ghost use Rattle.filling.specs.Outcomes.{Grouped};

use crate::current::Current;
use cycles::Tally;

// How many groups there may be.
pub(crate) const GROUPS: usize = 256;

// Each group as it begins, behind the slots of those before it; and the slots of all.
#[derive(Clone, Copy)]
pub struct Starts {
    pub groups: [Current; GROUPS],
    pub needed: u32,
}

// The signals of a list and their repetitions among the words: each has a group and one of the seven.
#[derive(Clone, Copy)]
pub(crate) struct Signals<'a> {
    pub(crate) list: &'a [u32],
    pub(crate) repetitions: &'a [u32],
    ghost grouped: { ∥ Grouped list.now repetitions.now ∥₁ },
}

impl<'a> Signals<'a> {
    ghost use Rattle.filling.specs.Private.{LoadsOf, StartsOf};

    // The signals of this list, if each has a group and, among the words, one of the seven repetitions.
    pub(crate) fn of(list: &'a [u32], repetitions: &'a [u32]) -> Option<Self>
        ensures { MatchOption result (Grouped list.now repetitions.now → ⊥)
            (λ x. (x.list.now ≡ list.now) × (x.repetitions.now ≡ repetitions.now)) }
    {
        let m = terms::count(list);
        if !terms::count_in_range(list) || repetitions.len() < m {
            return None;
        }
        for (i, repetition) in repetitions[..m].iter().enumerate() {
            let g = group_of(list, 1 + i as u32);
            if GROUPS <= g || !terms::is_repetition(*repetition) {
                return None;
            }
        }
        Some(Self { list, repetitions })
    }

    // The load of each group: one tally for each, and one pass over the signals.
    fn loads(self) -> [Tally; GROUPS]
        ensures { LoadsOf self.entry result }
    {
        let m = terms::count(self.list);
        let mut loads = [Tally { load: 0 }; GROUPS];
        for (i, repetition) in self.repetitions[..m].iter().enumerate() {
            let g = group_of(self.list, 1 + i as u32);
            loads[g] = loads[g].add(*repetition);
        }
        loads
    }

    // How each group begins: one pass over the groups.
    pub(crate) fn starts(self) -> Starts
        ensures { StartsOf self.entry result }
    {
        let mut groups = [Current::start(0, 0); GROUPS];
        let mut needed = 0;
        for (g, tally) in self.loads().iter().enumerate() {
            groups[g].begin(g as u32, needed);
            needed += tally.slots();
        }
        Starts { groups, needed }
    }
}

// The group of a signal: its unit.
pub(crate) fn group_of(list: &[u32], i: u32) -> usize
    ensures { result ≡ group_of list.now i }
{
    terms::signal_at(list, i).unit as usize
}

// The walk over the orders of the groups: a tree, depth first. The groups placed so far keep their starts while those after them change.
ghost use Rattle.std.specs.Prelude.{◌≡◌, true, false, ◌≤◌, ◌<◌, get_or};
ghost use Rattle.theory.specs.Groups as theory;
ghost use Rattle.theory.specs.inner.Tried.{Lead};
ghost use Rattle.meeting.specs.inner.Small.{problem_in, Small};
ghost use Rattle.groups.specs.inner.Walk.{Ready, GroupPlaced, top_with, Held, tried_group, tried_from};
ghost use Rattle.groups.specs.Reply.{best_reply};

use crate::Grouped;
use crate::table::{fill_table, group_starts};
use board::lowest_spot;
use meeting::Compact;

// What the walk does not change: a request made small, who meets whom in it, where its groups begin, and how many they are.
#[derive(Drop)]
struct Cut<'a> {
    compact: &'a Compact,
    table: &'a [[bool; 200]; 200],
    first: [usize; 9],
    m: usize,
}

// The groups that stand: which, in what order, and how many; by listing position the starts and the ends of their demands; and the
// largest end.
#[derive(Clone, Copy)]
struct Level {
    used: [bool; 8],
    // Kept as it is: eight places and how many are taken, since a level is copied as the walk goes down and there is no heap.
    order: [u16; 8],
    placed: usize,
    // Kept as it is: `lowest_spot` is public and takes the starts and the ends as two arrays, by its clause.
    starts: [u16; 200],
    ends: [u16; 200],
    top: u16,
}

impl Cut<'_> {
    // Places group g beside those that stand, each of its demands so that it ends below the mark. It answers whether all could be; if not,
    // the level means nothing afterwards.
    // Kept as it is: an `Option` that holds the level would take and hand back its 800 bytes and more for each group, and one that holds
    // nothing says no more than a `bool`.
    fn place_group(&self, level: &mut Level, g: usize, mark: u16) -> bool
        requires ready { Ready self.now level.old }
        requires free { (g < self.now.m) × (level.old.placed < self.now.m) × (get_or level.old.used g false ≡ false) }
        requires low { level.old.top < mark }
        ensures stands { result ≡ true → GroupPlaced self.now level.old g mark level.new }
        ensures left { result ≡ false → mark ≤ top_with self.now level.old g }
    {
        let compact = self.compact;
        for i in self.first[g]..self.first[g + 1] {
            let width = compact.widths[i];
            let Some(start) = lowest_spot(
                &self.table[i],
                &level.starts,
                &level.ends,
                compact.count,
                width,
                u16::from(compact.guard),
                mark - 1,
            ) else {
                return false;
            };
            let end = start + width;
            level.starts[i] = start;
            level.ends[i] = end;
            level.top = level.top.max(end);
        }
        level.used[g] = true;
        level.order[level.placed] = g as u16;
        level.placed += 1;
        true
    }

    // The orders in which group g, which does not stand yet, goes next are tried. Where its demands do not all end below the best so far
    // nothing behind it is tried, since no later demand lowers an end. What is lent is not changed but the best: the level below is its
    // own.
    #[cycle(try_groups)]
    fn try_group(&self, level: &Level, g: usize, best: &mut Grouped)
        requires ready { Ready self.now level.now }
        requires free { (g < self.now.m) × (level.now.placed < self.now.m) × (get_or level.now.used g false ≡ false) }
        requires low { level.now.top < best.old.end }
        ensures { (lead : Lead) → Held best.old lead →
            Held best.new (tried_group self.now level.now g lead) }
    {
        let mut below = *level;
        if !self.place_group(&mut below, g, best.end) {
            return;
        }
        if below.placed < self.m {
            self.try_groups(&below, best);
        } else {
            *best = Grouped {
                end: below.top,
                order: below.order,
            };
        }
    }

    // The groups that do not stand yet are tried next, one after the other. Once the best end so far has come down to the largest that
    // stands, none of them can lower it.
    #[cycle(try_groups)]
    fn try_groups(&self, level: &Level, best: &mut Grouped)
        requires ready { Ready self.now level.now }
        requires some_left { level.now.placed < self.now.m }
        ensures { (lead : Lead) → Held best.old lead →
            Held best.new (tried_from self.now level.now 0 lead) }
    {
        for g in 0..self.m {
            if best.end <= level.top {
                return;
            }
            if !level.used[g] {
                self.try_group(level, g, best);
            }
        }
    }
}

// The best order of the groups of a request that passed its tests, if first fit places all demands along any. At first the end to get
// below is the first above the band.
pub(crate) fn best_order(compact: Compact, m: usize) -> Option<Grouped>
    requires small { Small compact }
    requires le_m { (1 ≤ m) × (m ≤ 8) × (m ≤ compact.count) }
    ensures { result ≡ best_reply (problem_in compact) (theory.grouped (problem_in compact) compact.slots compact.count m) }
{
    let mut table = [[false; 200]; 200];
    fill_table(&mut table, compact.words, compact.count);
    let cut = Cut {
        compact: &compact,
        table: &table,
        first: group_starts(compact.count, m),
        m,
    };
    let none_stands = Level {
        used: [false; 8],
        order: [0; 8],
        placed: 0,
        starts: [0; 200],
        ends: [0; 200],
        top: 0,
    };
    // Kept as it is: an end above the slots for no order yet, since it is the mark that the first order has to get below; with an `Option`
    // the mark would stand beside it, and the best end in two places.
    let mut best = Grouped {
        end: compact.slots + 1,
        order: [0; 8],
    };
    cut.try_groups(&none_stands, &mut best);
    if best.end <= compact.slots {
        Some(best)
    } else {
        None
    }
}

// The walk over the orders of the demands: a tree, depth first.
ghost use Rattle.std.specs.Prelude.{◌≡◌, [], ℕ, ◌+◌, ◌*◌, ◌-◌, ◌≤◌, ◌<◌, get_or, length};
ghost use Rattle.theory.specs.Orders as orders;
ghost use Rattle.theory.specs.Problem as problem;
ghost use Rattle.theory.specs.Walk as walk;
ghost use Rattle.theory.specs.Search as theory;
ghost use Rattle.search.specs.inner.Arrays.{rows_of};
ghost use Rattle.search.specs.inner.Scan.{look_past, FirstClear};
ghost use Rattle.search.specs.inner.Kept.{Brought};
ghost use Rattle.search.specs.inner.Level.{posed, rows_at, ReadyAt, MendableAt, MendedAt, tried_at, gone_at};
ghost use Rattle.search.specs.inner.Tally.{tally_of, Counting};

use crate::setting::Setting;
use crate::tally::{Course, Tally};

// A level of the tree: an order of the demands, of which the first `placed` are put down; where each starts, or starts at the lowest if it
// is still to come; the place past each that is put down, guard included, and 0 of the others; and the largest end.
// Kept as it is: an array for each of these, since `low` and `order` are written as they stand into the buffers that `search` is lent, by
// its clauses `starts` and `order`.
#[derive(Clone, Copy)]
struct Level {
    order: [u16; 20],
    low: [u16; 20],
    past: [u16; 20],
    placed: usize,
    top: u16,
}

// n! by falling number, for as many demands as a search takes.
pub(crate) fn factorial(n: u64) -> u64
    requires { n ≤ 20 }
    ensures { result ≡ orders.factorial n }
{
    if n == 0 { 1 } else { n * factorial(n - 1) }
}

// The entry at place `at` is brought forward to place `placed`, and those between go one back.
fn bring(order: &mut [u16; 20], placed: usize, at: usize)
    requires { (placed ≤ at) × (at < 20) × (at < length order.old) }
    ensures { Brought order.old placed at order.new }
{
    let first = order[at];
    // Kept as it is: place by place; with `rotate_right` the archive for C asks its host for `memmove`, which it needs for nothing else.
    for p in (placed..at).rev() {
        order[p + 1] = order[p];
    }
    order[placed] = first;
}

impl Level {
    // One look from a start: how far the demands that are met, and start below the end, reach past it.
    fn look(&self, near: &[bool; 20], count: usize, from: u16, end: u16) -> u16
        requires { count ≤ 20 }
        ensures { result ≡ look_past near.now self.now.low self.now.past end from count }
    {
        let mut next = from;
        // Kept as it is: by index and without a branch the compiler looks at several demands at once; a plainer loop, at one after the
        // other, took a quarter to a third longer.
        for k in 0..count {
            let met = near[k] & (self.low[k] < end);
            next = next.max(met.then_some(self.past[k]).unwrap_or(0));
        }
        next
    }

    // The first clear start, from a start on: each look goes on past all that is in the way.
    fn scan(&self, near: &[bool; 20], count: usize, from: u16, span: u16) -> u16
        requires count_bound { count ≤ 20 }
        requires by_index { (k : ℕ) → k < count → get_or self.now.past k 0 ≤ 392 }
        requires from_bound { (from ≤ 392) × (span ≤ 392) }
        ensures { FirstClear near.now self.now.low self.now.past count span from result }
    {
        let mut s = from;
        loop {
            let next = self.look(near, count, s, s + span);
            if next == s {
                return s;
            }
            s = next;
        }
    }

    // The demand at place `placed` of the order has just been put down: where the one at place `at` now starts at the lowest. It stays
    // where it is unless the two clash, and then nothing is free for it below the other's end and guard.
    fn mended(&self, setting: &Setting, at: usize) -> u16
        requires mendable { MendableAt setting.now self.now at }
        requires placed_lt_at { (self.now.placed < at) × (at < setting.now.count) }
        ensures { result ≡
            problem.lowest (posed setting.now)
            (rows_of self.now.low self.now.order (self.now.placed + 1)) (get_or self.now.order at 0) }
    {
        let i = self.order[self.placed] as usize;
        let j = self.order[at] as usize;
        let start = self.low[j];
        let span = setting.widths[j] + setting.guard;
        if !setting.table[i][j] {
            return start;
        }
        if self.past[i] <= start {
            return start;
        }
        if start + span <= self.low[i] {
            return start;
        }
        self.scan(&setting.table[j], setting.count, self.past[i], span)
    }

    // After the demand at place `placed` of the order was put down, the lowest starts of those after it are mended.
    fn mend(&mut self, setting: &Setting)
        requires { MendableAt setting.now self.old (self.old.placed + 1) }
        ensures rest { self.new ≡ record self.old { low = self.new.low } }
        ensures mended { MendedAt setting.now self.old self.new.low }
    {
        for at in self.placed + 1..setting.count {
            let j = self.order[at] as usize;
            let start = self.mended(setting, at);
            self.low[j] = start;
        }
    }

    // The demand at place `at` of the order is put down at its lowest start, and the walk goes on below it, on a level of its own. `end` is
    // the largest end, this demand's included.
    #[cycle(place_sibling)]
    fn place(&self, setting: &Setting, at: usize, end: u16, tally: &mut Tally)
        requires ready { ReadyAt setting.now self.now }
        requires placed_le_at { (self.now.placed ≤ at) × (at < setting.now.count) × (self.now.placed + 1 < setting.now.count) }
        requires end_bound { (end ≤ 384) × (end ≡
            problem.top (posed setting.now)
            (problem.place (posed setting.now) (rows_at self.now) (get_or self.now.order at 0))) }
        requires counting { Counting tally.old (orders.factorial (setting.now.count - (self.now.placed + 1))) }
        ensures { tally_of setting.now.count tally.new ≡ gone_at setting.now self.now at (tally_of setting.now.count tally.old) }
    {
        let mut down = *self;
        bring(&mut down.order, self.placed, at);
        let i = down.order[self.placed] as usize;
        down.past[i] = down.low[i] + setting.widths[i] + setting.guard;
        down.mend(setting);
        down.placed = self.placed + 1;
        down.top = end;
        down.sibling(setting, self.placed + 1, tally);
    }

    // The demands from place `at` of the order on are tried in turn: this tries the one at `at`, and calls itself for the next. `place` and
    // `sibling` call each other, since below each demand put down stand the demands not yet put down. What falls: one level down the
    // demands still to place, and along a level the places still to try.
    #[cycle(place_sibling)]
    fn sibling(&self, setting: &Setting, at: usize, tally: &mut Tally)
        requires ready { ReadyAt setting.now self.now }
        requires placed_le_at { (self.now.placed ≤ at) × (at ≤ setting.now.count) × (self.now.placed < setting.now.count) }
        requires counting { Counting tally.old
            ((setting.now.count - at) * orders.factorial (setting.now.count - (self.now.placed + 1))) }
        ensures { tally_of setting.now.count tally.new ≡
            tried_at setting.now self.now at (tally_of setting.now.count tally.old) }
    {
        if at == setting.count {
            return;
        }
        if setting.limit <= tally.steps {
            tally.course = Course::OutOfSteps;
            return;
        }
        tally.steps += 1;
        let i = self.order[at] as usize;
        let end = self.top.max(self.low[i] + setting.widths[i]);
        let left = setting.count - (self.placed + 1);
        if left == 0 {
            tally.complete(end, setting.bound, &self.low, &self.order);
            return;
        }
        if tally.mark <= end {
            tally.ruled += factorial(left as u64);
            self.sibling(setting, at + 1, tally);
            return;
        }
        self.place(setting, at, end, tally);
        if let Course::Going = tally.course {
            self.sibling(setting, at + 1, tally);
        }
    }
}

// The listing positions in listing order.
const LISTING: [u16; 20] = [
    0, 1, 2, 3, 4, 5, 6, 7, 8, 9, 10, 11, 12, 13, 14, 15, 16, 17, 18, 19,
];

// The walk over all orders of the demands, from its start: below a mark above the last slot.
pub(crate) fn walk_orders(setting: Setting, slots: u16) -> Tally
    requires { (1 ≤ setting.count) × (slots ≤ 384) }
    ensures { tally_of setting.count result ≡
        walk.walk (posed setting) setting.limit setting.bound setting.count [] []
        (orders.listing setting.count) (theory.fresh (slots + 1)) }
{
    let level = Level {
        order: LISTING,
        low: [0u16; 20],
        past: [0u16; 20],
        placed: 0,
        top: 0,
    };
    let mut tally = Tally {
        steps: 0,
        reached: 0,
        ruled: 0,
        mark: slots + 1,
        course: Course::Going,
        best: None,
    };
    level.sibling(&setting, 0, &mut tally);
    tally
}

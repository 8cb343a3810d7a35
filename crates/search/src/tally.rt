// What a walk counts and has met.
ghost use Rattle.std.specs.Prelude.{◌≡◌, ℕ, ◌+◌, ◌^◌, ◌<◌};
ghost use Rattle.search.specs.inner.Arrays.{entries, rows_of};
ghost use Rattle.search.specs.inner.Tally.{tally_of, reached_at};

// The walk goes on, has met the bound, or a step was due with none left.
#[derive(Clone, Copy)]
pub(crate) enum Course {
    Going,
    AtBound,
    OutOfSteps,
}

// A plan: each demand's start, and the order that gave it.
// Kept as it is: two arrays, since each is written into a lent buffer of its own, by the clauses `starts` and `order` of `search`.
#[derive(Clone, Copy)]
pub(crate) struct Plan {
    pub starts: [u16; 20],
    pub order: [u16; 20],
}

// The steps taken, the orders reached, the orders ruled out, the mark to get below, whether the walk goes on, and the best plan met.
#[derive(Drop)]
pub(crate) struct Tally {
    pub steps: u32,
    pub reached: u64,
    pub ruled: u64,
    pub mark: u16,
    pub course: Course,
    pub best: Option<Plan>,
}

impl Tally {
    // A complete order that ends at `end` is reached. Only one that ends below the mark becomes the best: of equal ends the first stays.
    pub(crate) fn complete(&mut self, end: u16, bound: u16, low: &[u16; 20], order: &[u16; 20])
        requires { self.old.reached + 1 < 2 ^ 64 }
        ensures { (K : ℕ) →
            tally_of K self.new ≡
            reached_at end bound (rows_of low.now order.now K) (entries order.now 0 K) (tally_of K self.old) }
    {
        self.reached += 1;
        if self.mark <= end {
            return;
        }
        self.mark = end;
        self.best = Some(Plan {
            starts: *low,
            order: *order,
        });
        if end == bound {
            self.course = Course::AtBound;
        }
    }
}

// Starts in memory: the check of a plan.
ghost use Rattle.std.specs.Prelude.{◌≡◌, not, [], ◌≤◌, ◌<◌, length};
ghost use Rattle.theory.specs.Problem.{apart, fits, plan_end};
ghost use Rattle.theory.specs.Orders.{listing};
ghost use Rattle.request.specs.View.{view};
ghost use Rattle.meeting.specs.inner.Small.{problem_in, Small};
ghost use Rattle.meeting.specs.Plan.{start_at};
ghost use Rattle.plan.specs.inner.Rows.{rows_before, too_close, ends_from, clashes_from, places_from, EndsWithin};
ghost use Rattle.plan.specs.CheckStarts.{starts_reply};

use grid::end_within;
use meeting::{Compact, compacted, share_bit};
use refusal::Refusal;
use request::{Request, check_request};

// Whether the plan that starts give a request is accepted, with its end, or its first fault: the request's own, then 16 where
// there are fewer starts than demands, 17 over all listing positions, 18. Starts behind the last demand's are not read.
pub fn check_starts(request: Request, starts: &[u16]) -> Result<u16, Refusal>
    ensures { result ≡ starts_reply (view request) starts.now }
{
    check_request(request)?;
    if starts.len() < request.demand_count {
        return Err(Refusal::NoRow(starts.len()));
    }
    let compact = compacted(request);
    let plan = Plan {
        compact: &compact,
        starts,
    };
    plan.check()?;
    Ok(plan.end())
}

// A request made small, and a start for each of its demands, by listing position; starts behind these are of no demand.
#[derive(Drop)]
struct Plan<'a> {
    compact: &'a Compact,
    starts: &'a [u16],
    ghost small: { Small compact.now },
    ghost enough: { compact.now.count ≤ length starts.now },
}

impl<'a> Plan<'a> {
    // 17, then 18.
    fn check(&self) -> Result<(), Refusal>
        ensures { result ≡ places_from (problem_in self.now.compact.now) self.now.compact.now.slots self.now.starts.now self.now.compact.now.count }
    {
        self.check_ends()?;
        self.check_clashes()
    }

    // 17 at the first demand, as listed, that ends above the slot count.
    fn check_ends(&self) -> Result<(), Refusal>
        ensures { result ≡ ends_from (problem_in self.now.compact.now) self.now.compact.now.slots self.now.starts.now 0 self.now.compact.now.count }
    {
        let compact = self.compact;
        for k in 0..compact.count {
            if !end_within(compact.slots, u64::from(self.starts[k]), compact.widths[k]) {
                return Err(Refusal::EndAbove(k));
            }
        }
        Ok(())
    }

    // 18 at the first demand, by listing position, that clashes with one before it.
    fn check_clashes(&self) -> Result<(), Refusal>
        ensures { result ≡ clashes_from (problem_in self.now.compact.now) self.now.starts.now 0 self.now.compact.now.count }
    {
        for k in 0..self.compact.count {
            if self.clashes_before(k) {
                return Err(Refusal::Clash(k));
            }
        }
        Ok(())
    }

    // Whether a demand clashes, at its start, with one listed before it, which is to stand too close and to share a link: the nearest is
    // looked at first.
    fn clashes_before(&self, k: usize) -> bool
        requires { k < self.now.compact.now.count }
        ensures { result ≡ not (fits (problem_in self.now.compact.now) (rows_before self.now.starts.now k) k (start_at self.now.starts.now k)) }
    {
        for j in (0..k).rev() {
            if self.clash(j, k) {
                return true;
            }
        }
        false
    }

    // Whether two demands clash: they stand too close, and share a link.
    fn clash(&self, j: usize, k: usize) -> bool
        requires j_in { j < self.now.compact.now.count }
        requires k_in { k < self.now.compact.now.count }
        ensures { result ≡ not (apart (problem_in self.now.compact.now) j (start_at self.now.starts.now j) k (start_at self.now.starts.now k)) }
    {
        let Compact {
            guard,
            widths,
            words,
            ..
        } = self.compact;
        too_close(self.starts[j], widths[j], self.starts[k], widths[k], *guard)
            && share_bit(words[j], words[k])
    }

    // The plan's end: the highest of its ends, or 0 without demands.
    fn end(&self) -> u16
        requires { EndsWithin (problem_in self.now.compact.now) self.now.compact.now.slots self.now.starts.now self.now.compact.now.count }
        ensures { result ≡ plan_end (problem_in self.now.compact.now) [] (listing self.now.compact.now.count) (start_at self.now.starts.now) }
    {
        let mut end: u16 = 0;
        for k in 0..self.compact.count {
            end = end.max(self.starts[k] + self.compact.widths[k]);
        }
        end
    }
}

// Whether neither of two blocks ends, the guard included, before the other starts: summed in 32 bits.
#[tactic(auto, unfolding(crate::specs::inner::Rows::too_close))]
fn too_close(first: u16, width: u16, second: u16, breadth: u16, guard: u8) -> bool
    ensures { result ≡ too_close guard first width second breadth }
{
    u32::from(second) < u32::from(first) + u32::from(width) + u32::from(guard)
        && u32::from(first) < u32::from(second) + u32::from(breadth) + u32::from(guard)
}

// The search of a request: its tests, its two cases that end at once, and the walk.
ghost use Rattle.std.specs.Prelude.{◌≡◌, ◌≤◌, is_some};
ghost use Rattle.request.specs.View.{view};
ghost use Rattle.meeting.specs.inner.Small.{Small};
ghost use Rattle.search.specs.Reply.{outcome_by, buffers_of, rooms_of, search_reply, buffers_after};
ghost use Rattle.search.specs.inner.Found.{FoundFor, searched_in};
ghost use Rattle.search.specs.inner.Tally.{course_of};
ghost use Rattle.search.specs.inner.Told.{is_spent};

use crate::setting::Setting;
use crate::table::meeting_table;
use crate::tally::{Course, Plan, Tally};
use crate::walk::{factorial, walk_orders};
use crate::{Answer, Outcome};
use lent::{check_rooms, write_front};
use meeting::{Compact, bound, compacted};
use placing::first_fit;
use refusal::Refusal;
use request::Request;

// What a search found: its answer and, where there is one, its plan.
#[derive(Drop)]
struct Found {
    answer: Answer,
    plan: Option<Plan>,
}

// The search for the lowest end of any plan: up to 20 demands, at most `limit` steps. With a plan `starts` gets its start of each
// demand by listing position, `order` the order that gave it, and `blockers` by listing position who kept each demand from starting
// lower, 65535 for nobody; without one, and on a refusal, all three stay as they were. The bound tests the request first; then 11, and 10
// for each buffer. First fit runs once more along the order found, for the blockers; its starts are those of the plan, and are not looked at.
pub fn search(
    request: Request,
    limit: u32,
    starts: &mut [u16],
    order: &mut [u16],
    blockers: &mut [u16],
) -> Result<Answer, Refusal>
    ensures answer { result ≡ search_reply (view request) limit (rooms_of (buffers_of starts.old order.old blockers.old)) }
    ensures starts { starts.new ≡ (buffers_after (view request) limit (buffers_of starts.old order.old blockers.old)).starts }
    ensures order { order.new ≡ (buffers_after (view request) limit (buffers_of starts.old order.old blockers.old)).order }
    ensures blockers { blockers.new ≡ (buffers_after (view request) limit (buffers_of starts.old order.old blockers.old)).blockers }
{
    let need = bound(request)?;
    let count = request.demand_count;
    if 20 < count {
        return Err(Refusal::TooManyToSearch(count));
    }
    let rooms = [starts.len(), order.len(), blockers.len()];
    check_rooms(count, &rooms)?;
    let found = find(compacted(request), need, limit);
    let Some(plan) = found.plan else {
        return Ok(found.answer);
    };
    write_front(&plan.starts[..count], starts);
    write_front(&plan.order[..count], order);
    let mut again = [0u16; 20];
    let _ = first_fit(request, &plan.order[..count], &mut again, blockers);
    Ok(found.answer)
}

// What the search of a request that passed its tests finds, with its bound.
fn find(compact: Compact, need: u32, limit: u32) -> Found
    requires small { Small compact }
    requires count_bound { compact.count ≤ 20 }
    ensures { FoundFor compact.count (searched_in compact need limit) result }
{
    let count = compact.count;
    let slots = compact.slots;
    if (slots as u32) < need {
        let all = factorial(count as u64);
        return found_at_once(Outcome::NothingFits, need, 0, all, None);
    }
    if count == 0 {
        let plan = Plan {
            starts: [0u16; 20],
            order: [0u16; 20],
        };
        return found_at_once(Outcome::Finished(0), need, 1, 0, Some(plan));
    }
    let table = meeting_table(compact.words);
    let widths = compact.widths;
    let setting = Setting {
        table,
        widths,
        guard: compact.guard as u16,
        count,
        bound: need as u16,
        limit,
    };
    found_by_walk(walk_orders(setting, slots), need)
}

// What is known without a step: the bound is above the band, so that every order is ruled out; or no demand is asked for, and the empty
// plan is the answer.
fn found_at_once(outcome: Outcome, need: u32, reached: u64, ruled: u64, plan: Option<Plan>) -> Found
    ensures { result ≡ record { answer = record { outcome = outcome; bound = need; steps = 0; reached = reached; ruled = ruled }; plan = plan } }
{
    Found {
        answer: Answer {
            outcome,
            bound: need,
            steps: 0,
            reached,
            ruled,
        },
        plan,
    }
}

// What a walk found: how it came out, and its counts.
fn found_by_walk(tally: Tally, need: u32) -> Found
    ensures { result ≡ record { answer = record { outcome = outcome_by (is_spent (course_of tally.course)) (is_some tally.best) tally.mark; bound = need; steps = tally.steps; reached = tally.reached; ruled = tally.ruled }; plan = tally.best } }
{
    let outcome = match tally.course {
        Course::OutOfSteps => match tally.best {
            Some(_) => Outcome::Unfinished(tally.mark),
            None => Outcome::UnfinishedEmpty,
        },
        _ => match tally.best {
            Some(_) => Outcome::Finished(tally.mark),
            None => Outcome::NothingFits,
        },
    };
    Found {
        answer: Answer {
            outcome,
            bound: need,
            steps: tally.steps,
            reached: tally.reached,
            ruled: tally.ruled,
        },
        plan: tally.best,
    }
}

// First fit along an order that is one.
ghost use Rattle.std.specs.Prelude.{◌≡◌, ◌<◌, Ok, Err, IfOk, IfErr};
ghost use Rattle.board.specs.Board.{placed_one};
ghost use Rattle.meeting.specs.Compact.{word_row};
ghost use Rattle.meeting.specs.inner.Small.{problem_in};
ghost use Rattle.placing.specs.inner.Placement.{OrderAsked, PlanKept, fitted_in, reply_in};

use crate::Unplaced;
use board::{Placement, entry, place_one};
use meeting::{Compact, word_row};
use refusal::Refusal;

// A plan by listing position: where each demand starts, and who kept it from starting lower; with its largest end.
#[derive(Drop)]
pub(crate) struct Plan {
    pub(crate) starts: [u16; 200],
    // Kept as it is: 65535 for nobody, since `write_front` copies the array as it stands into a lent buffer; one of `Option`s would need a
    // second array, of the entries, beside it.
    pub(crate) blockers: [u16; 200],
    pub(crate) end: u16,
}

// Demand i placed beside those that stand: they start and end by listing position, and one that ends at 0 does not stand yet.
fn place_beside(compact: &Compact, starts: &[u16; 200], ends: &[u16; 200], i: usize) -> Placement
    requires { i < 200 }
    ensures { result ≡ placed_one (word_row compact.now.words i) starts.now ends.now
        compact.now.count ((problem_in compact.now).width i) compact.now.guard compact.now.slots }
{
    let row = word_row(compact.words, i);
    place_one(
        &row,
        starts,
        ends,
        compact.count,
        compact.widths[i],
        compact.guard as u16,
        compact.slots,
    )
}

// Places the demands of an order one by one, each at its lowest start beside those before it.
pub(crate) fn place_all(compact: &Compact, order: &[u16]) -> Result<Plan, Unplaced>
    requires { OrderAsked compact.now order.now }
    ensures unplaced { IfErr result (λ why. Err why ≡ reply_in compact.now (fitted_in compact.now order.now)) }
    ensures end { IfOk result (λ plan. Ok plan.end ≡ reply_in compact.now (fitted_in compact.now order.now)) }
    ensures kept { IfOk result (λ plan. PlanKept (problem_in compact.now) (fitted_in compact.now order.now) plan.starts plan.blockers) }
{
    let mut plan = Plan {
        starts: [0; 200],
        blockers: [65535; 200],
        end: 0,
    };
    let mut ends = [0; 200];
    for &position in order {
        let i = position as usize;
        let placement = place_beside(compact, &plan.starts, &ends, i);
        let blocker = entry(placement.blocker);
        let Some(start) = placement.spot else {
            return Err(Unplaced::Blocked(Refusal::NoStart(i), blocker));
        };
        let end = start + compact.widths[i];
        plan.starts[i] = start;
        plan.blockers[i] = blocker;
        ends[i] = end;
        plan.end = plan.end.max(end);
    }
    Ok(plan)
}

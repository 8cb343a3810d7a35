// First fit.
#![tactic(auto)]

ghost use Rattle.std.specs.Prelude.{◌≡◌, [], ◌∷◌, length};
ghost use Rattle.request.specs.View.{view};
ghost use Rattle.placing.specs.FirstFit.{check_first_fit, first_fit_reply, first_fit_starts, first_fit_blockers};

use fit::place_all;
use lent::{check_rooms, write_front};
use meeting::compacted;
use order::check_order;
use refusal::Refusal;
use request::{Request, check_request};

mod fit;
mod order;

// Why no plan was placed: a refusal of what was given; or a demand has no start, beside the listing position of who is in the way at the
// last start that it could have.
#[derive(Drop)]
pub enum Unplaced {
    Refused(Refusal),
    Blocked(Refusal, u16),
}

impl From<Refusal> for Unplaced {
    ghost use Rattle.placing.specs.declared.Unplaced.TheVariants.{Refused};

    ghost from_gives = { λ why unplaced. unplaced ≡ Refused why };

    fn from(why: Refusal) -> Unplaced {
        Unplaced::Refused(why)
    }
}

// First fit: the demands placed in this order, each at the lowest start that clashes with none before it. With a plan `starts` gets the
// starts and `blockers` who kept each from starting lower, 65535 for nobody, both by listing position. Nothing is written before all
// are placed, so that a refusal leaves both as they were; 13 comes last.
pub fn first_fit(
    request: Request,
    order: &[u16],
    starts: &mut [u16],
    blockers: &mut [u16],
) -> Result<u16, Unplaced>
    ensures reply { result ≡ first_fit_reply (view request) order.now (length starts.old ∷ length blockers.old ∷ []) }
    ensures starts { starts.new ≡
        first_fit_starts (view request) order.now (length starts.old ∷ length blockers.old ∷ []) starts.old }
    ensures blockers { blockers.new ≡
        first_fit_blockers (view request) order.now (length starts.old ∷ length blockers.old ∷ []) blockers.old }
{
    check_first_fit(request, order, starts.len(), blockers.len())?;
    let plan = place_all(&compacted(request), order)?;
    let count = request.demand_count;
    write_front(&plan.starts[..count], starts);
    write_front(&plan.blockers[..count], blockers);
    Ok(plan.end)
}

// What is tested before anything is placed: the request, then 12, then 10 for the two buffers, by their rooms.
fn check_first_fit(
    request: Request,
    order: &[u16],
    starts: usize,
    blockers: usize,
) -> Result<(), Refusal>
    ensures { result ≡ check_first_fit (view request) order.now (starts ∷ blockers ∷ []) }
{
    check_request(request)?;
    let count = request.demand_count;
    check_order(order, count)?;
    check_rooms(count, &[starts, blockers])
}

// Whole groups: the listing cut into consecutive groups, and first fit along every order of these. It is for lists too long to search.
#![tactic(auto)]

ghost use Rattle.std.specs.Prelude.{◌≡◌, [], ◌∷◌, length};
ghost use Rattle.request.specs.View.{view};
ghost use Rattle.groups.specs.Reply.{groupable, check_groups, groups_reply, groups_starts, groups_blockers};

use lent::check_rooms;
use meeting::compacted;
use order::members_of;
use placing::first_fit;
use refusal::Refusal;
use request::{Request, check_request};
use walk::best_order;

mod order;
mod table;
mod walk;

// A plan that a group order gave: its end, and the order of the groups, as many entries as there are groups. Behind them all are 0.
#[derive(Drop)]
pub struct Grouped {
    pub end: u16,
    // Kept as it is: a C program gets these eight places from `lightplan_groups`, and the library has no heap.
    pub order: [u16; 8],
}

// The best that first fit makes of the demands in m groups: the first group order, in listing order, with the lowest end; none, where first
// fit refuses along each of them. With a plan `starts` gets its starts and `blockers` who kept each demand from starting lower, 65535 for
// nobody, both by listing position; without one, and on a refusal, both stay as they were. First fit runs once more along the order found,
// for what is written.
pub fn groups(
    request: Request,
    m: usize,
    starts: &mut [u16],
    blockers: &mut [u16],
) -> Result<Option<Grouped>, Refusal>
    ensures reply { result ≡ groups_reply (view request) m (length starts.old ∷ length blockers.old ∷ []) }
    ensures starts { starts.new ≡
        groups_starts (view request) m (length starts.old ∷ length blockers.old ∷ []) starts.old }
    ensures blockers { blockers.new ≡
        groups_blockers (view request) m (length starts.old ∷ length blockers.old ∷ []) blockers.old }
{
    check_groups(request, m, starts.len(), blockers.len())?;
    let Some(best) = best_order(compacted(request), m) else {
        return Ok(None);
    };
    let count = request.demand_count;
    let along = members_of(count, &best.order[..m]);
    let _ = first_fit(request, &along[..count], starts, blockers);
    Ok(Some(best))
}

// What is tested before anything is tried: the request, then 10 for the two buffers, by their rooms, then 24.
fn check_groups(request: Request, m: usize, starts: usize, blockers: usize) -> Result<(), Refusal>
    ensures { result ≡ check_groups (view request) m (starts ∷ blockers ∷ []) }
{
    check_request(request)?;
    check_rooms(request.demand_count, &[starts, blockers])?;
    if can_group(request.demand_count, m) {
        Ok(())
    } else {
        Err(Refusal::GroupsOutside(m))
    }
}

// Whether so many demands can be cut into m groups: 1 to 8, and no group without a demand.
fn can_group(count: usize, m: usize) -> bool
    ensures { result ≡ groupable count m }
{
    (1..=8).contains(&m) && m <= count
}

// The test of a request in memory.
ghost use Rattle.std.specs.Prelude.{◌≡◌, take};
ghost use Rattle.request.specs.View.{view, view_demand};
ghost use Rattle.request.specs.Check.{check_demand, check};
ghost use Rattle.request.specs.Steps.{check_all_links, check_ground};

use crate::tests::{listed, test_demand};
use crate::{Demand, Link, Request};
use grid::Band;
use refusal::Refusal;

// Whether a request is sound, or the first fault in the order of its checks: the band, the links one by one, the demands one
// by one. A place is a listing position; for the band, or where there is no link, it is 0. What stands behind a count is not read.
pub fn check_request(request: Request) -> Result<(), Refusal>
    ensures { result ≡ check (view request) }
{
    check_ground(request.band, request.links, request.link_count)?;
    let slots = request.band.slots;
    let links = request.links;
    let link_count = request.link_count;
    // Kept as it is: a function for the first so many of any array, over its type and its length, is no plainer than these two lines.
    let asked = request.demand_count.min(Request::MOST_DEMANDS);
    let mut idents = [0; 200];
    for (k, demand) in request.demands[..asked].iter().enumerate() {
        check_demand(*demand, k, slots, links, link_count, &idents[..k])?;
        idents[k] = demand.ident;
    }
    if Request::MOST_DEMANDS < request.demand_count {
        return Err(Refusal::TooManyDemands(Request::MOST_DEMANDS));
    }
    Ok(())
}

// The band and the links: 4, then 2 where there is no link, then 5 link by link.
// Kept as it is: `check_ground` is public, and its clause speaks of the array and of each `count`, those beyond 64 too, which it refuses by 5.
#[tactic(auto, unfolding(crate::specs::Steps::check_ground, crate::specs::Check::check_band, crate::specs::Check::then))]
pub fn check_ground(band: Band, links: [Link; 64], count: usize) -> Result<(), Refusal>
    ensures { result ≡ check_ground band count (take count links) }
{
    if !band.allowed() {
        return Err(Refusal::BandOutside(0));
    }
    check_links(listed(&links, count), count)
}

// The links one by one, each its ends, and then how many there are said to be.
fn check_links(links: &[Link], count: usize) -> Result<(), Refusal>
    ensures { result ≡ check_all_links count links.now }
{
    if count == 0 {
        return Err(Refusal::WrongTag(0));
    }
    for (k, link) in links.iter().enumerate() {
        if link.from == link.to {
            return Err(Refusal::BadLink(k));
        }
    }
    if Request::MOST_LINKS < count {
        return Err(Refusal::BadLink(Request::MOST_LINKS));
    }
    Ok(())
}

// One demand at listing position `k`: which of its tests is told first in memory is decided here alone: 8, 21, 9, 3, 7.
#[tactic(auto, unfolding(crate::specs::Check::check_demand, crate::specs::Check::then, crate::specs::DemandTest::demand_tests))]
fn check_demand(
    demand: Demand,
    k: usize,
    slots: u16,
    links: [Link; 64],
    count: usize,
    earlier: &[u16],
) -> Result<(), Refusal>
    ensures { result ≡ check_demand slots (take count links) earlier.now k (view_demand demand) }
{
    let tests = test_demand(demand, slots, links, count, earlier);
    if tests.used {
        return Err(Refusal::IdentUsed(k));
    }
    if !tests.rate {
        return Err(Refusal::UnknownRate(k));
    }
    if !tests.width {
        return Err(Refusal::BadWidth(k));
    }
    if !tests.hops {
        return Err(Refusal::WrongLength(k));
    }
    if !tests.route {
        return Err(Refusal::BadRoute(k));
    }
    Ok(())
}

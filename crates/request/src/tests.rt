// The tests of one demand, each by itself.
ghost use Rattle.std.specs.Prelude.{◌≡◌, take};
ghost use Rattle.request.specs.View.{view_demand};
ghost use Rattle.request.specs.Check.{allowed_hops};
ghost use Rattle.request.specs.DemandTest.{demand_tests};

use crate::rates::{rate_known, width_of};
use crate::route::sound_route;
use crate::{Demand, DemandTests, Link, Request};
use grid::width_allowed;

// What each test says of a demand in a band of so many slots, over the first `count` links and after demands of these idents.
// Kept as it is: `test_demand` is public, and its clause speaks of the array and of each `count`, those beyond 64 too.
pub fn test_demand(
    demand: Demand,
    slots: u16,
    links: [Link; 64],
    count: usize,
    earlier: &[u16],
) -> DemandTests
    ensures { result ≡ demand_tests slots (take count links) earlier.now (view_demand demand) }
{
    DemandTests {
        used: earlier.contains(&demand.ident),
        rate: rate_known(demand.asked),
        width: width_allowed(slots, width_of(demand)),
        hops: allowed_hops(demand.hops),
        route: sound_route(demand.route(), listed(&links, count)),
    }
}

// The links of an array that are listed: the first `count`, and all of them where there are not so many.
// Kept as it is: to serve `asked_of` of `meeting` too it would have to be generic and public, which is no plainer than two lines in each.
pub(crate) fn listed(links: &[Link; 64], count: usize) -> &[Link]
    ensures { result.now ≡ take count links.now }
{
    let listed = count.min(Request::MOST_LINKS);
    &links[..listed]
}

// A route has 1 to 32 links.
#[tactic(auto, unfolding(crate::specs::Check::allowed_hops))]
fn allowed_hops(hops: usize) -> bool
    ensures { result ≡ allowed_hops hops }
{
    (1..=Request::MOST_HOPS).contains(&hops)
}

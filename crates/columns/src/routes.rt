// The links' nodes and the demands' routes.
ghost use Rattle.std.specs.Prelude.{◌≡◌, map, ◌*◌, ◌≤◌, length};
ghost use Rattle.request.specs.View.{view, view_demand};
ghost use Rattle.lent.specs.Lent.{over};
ghost use Rattle.columns.specs.Columns.{link_ends, route_links, route_reply, ends_after, hops_after, routes_after};

use crate::column::write_column;
use lent::check_room;
use refusal::Refusal;
use request::{Demand, Link, Request, check_request};

// The two nodes of each link by its number, how many links each demand's route has by listing position, and the links of all routes, demand
// by demand; answers how many links these are. Refuses as the request's test does, then 10 for each buffer. A refusal writes nothing.
pub fn route_columns(
    request: Request,
    ends: &mut [u16],
    hops: &mut [u16],
    routes: &mut [u16],
) -> Result<usize, Refusal>
    ensures answer { result ≡ route_reply (view request) (length ends.old) (length hops.old) (length routes.old) }
    ensures ends { ends.new ≡ ends_after (view request) ends.old hops.old routes.old }
    ensures hops { hops.new ≡ hops_after (view request) ends.old hops.old routes.old }
    ensures routes { routes.new ≡ routes_after (view request) ends.old hops.old routes.old }
{
    check_request(request)?;
    let links = &request.links[..request.link_count];
    let demands = &request.demands[..request.demand_count];
    let total = count_hops(demands);
    check_room(2 * links.len(), ends.len())?;
    check_room(demands.len(), hops.len())?;
    check_room(total, routes.len())?;
    write_ends(links, ends);
    write_column(|demand| demand.hops as u16, demands, hops);
    write_routes(demands, routes);
    Ok(total)
}

// How many links all routes have.
// Kept as it is: `route_links` says this sum, `demand_fields` that of `writing`; one function for both would need a third and two laws.
fn count_hops(demands: &[Demand]) -> usize
    requires { length demands.now ≤ 200 }
    ensures { result ≡ length (route_links (map view_demand demands.now)) }
{
    let mut total = 0;
    for demand in demands {
        total += demand.route().len();
    }
    total
}

// The nodes of each link, at the front of a buffer.
// Kept as it is: in chunks of two the buffer would be zipped with the links, and a node still go to each chunk's 0 and 1.
fn write_ends(links: &[Link], out: &mut [u16])
    requires { 2 * length links.now ≤ length out.old }
    ensures { out.new ≡ over (link_ends links.now) out.old }
{
    for (k, link) in links.iter().enumerate() {
        out[2 * k] = u16::from(link.from);
        out[2 * k + 1] = u16::from(link.to);
    }
}

// The links of all routes, at the front of a buffer.
fn write_routes(demands: &[Demand], out: &mut [u16])
    requires { length (route_links (map view_demand demands.now)) ≤ length out.old }
    ensures { out.new ≡ over (route_links (map view_demand demands.now)) out.old }
{
    let mut at = 0;
    for demand in demands {
        let route = demand.route();
        write_route(route, &mut out[at..]);
        at += route.len();
    }
}

// The links of one route, at the front of a buffer.
fn write_route(route: &[u8], out: &mut [u16])
    requires { length route.now ≤ length out.old }
    ensures { out.new ≡ over route.now out.old }
{
    for (k, link) in route.iter().enumerate() {
        out[k] = u16::from(*link);
    }
}

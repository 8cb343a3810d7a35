// The idents, the widths and the rates of the demands.
ghost use Rattle.std.specs.Prelude.{◌≡◌};
ghost use Rattle.request.specs.View.{view};
ghost use Rattle.columns.specs.Columns.{rate_asked, lent_demands, demand_rooms, demand_reply, demands_after};

use crate::column::write_column;
use lent::check_rooms;
use refusal::Refusal;
use request::{Asked, Demand, Request, check_request, width_of};

// The ident, the width and the rate of each demand by listing position, a rate of 0 where a width is asked for; answers how many demands
// there are. Refuses as the request's test does, then 10 for each buffer. A refusal writes nothing.
pub fn demand_columns(
    request: Request,
    idents: &mut [u16],
    widths: &mut [u16],
    rates: &mut [u16],
) -> Result<usize, Refusal>
    ensures answer { result ≡ demand_reply (view request) (demand_rooms (lent_demands idents.old widths.old rates.old)) }
    ensures idents { idents.new ≡ (demands_after (view request) (lent_demands idents.old widths.old rates.old)).idents }
    ensures widths { widths.new ≡ (demands_after (view request) (lent_demands idents.old widths.old rates.old)).widths }
    ensures rates { rates.new ≡ (demands_after (view request) (lent_demands idents.old widths.old rates.old)).rates }
{
    check_request(request)?;
    let demands = &request.demands[..request.demand_count];
    let rooms = [idents.len(), widths.len(), rates.len()];
    check_rooms(demands.len(), &rooms)?;
    write_column(|demand| demand.ident, demands, idents);
    write_column(|demand| width_of(demand), demands, widths);
    write_column(|demand| rate_asked(demand), demands, rates);
    Ok(demands.len())
}

// The rate that a demand asks for, 0 where it asks for a width.
fn rate_asked(demand: Demand) -> u16
    ensures { result ≡ rate_asked demand.asked }
{
    match demand.asked {
        Asked::Width(_) => 0,
        Asked::Rate(rate) => rate,
    }
}

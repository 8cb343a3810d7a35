// Bit rates, and the width that follows from what a demand asks for.
ghost use Rattle.std.specs.Prelude.{◌≡◌};
ghost use Rattle.request.specs.View.{view_demand, width_of, rate_width};
ghost use Rattle.request.specs.Check.{known_asked};

use crate::{Asked, Demand};

// The bit rates that can be asked for, in Gbit/s, each with the slots that it takes.
const RATES: [[u16; 2]; 5] = [[10, 1], [40, 1], [100, 2], [400, 8], [1000, 20]];

// The slots that a bit rate takes, 0 for one that is not in the table.
fn rate_width(rate: u16) -> u16
    ensures { result ≡ rate_width rate }
{
    for row in &RATES {
        if rate == row[0] {
            return row[1];
        }
    }
    0
}

// The width of a demand, in slots: what it asks for, or what its rate takes. There is no other way to it.
#[tactic(auto, unfolding(crate::specs::View::width_of, crate::specs::View::view_demand, crate::specs::View::asked_width))]
pub fn width_of(demand: Demand) -> u16
    ensures { result ≡ width_of (view_demand demand) }
{
    match demand.asked {
        Asked::Width(width) => width,
        Asked::Rate(rate) => rate_width(rate),
    }
}

// Whether what is asked for is a width, or a rate in the table.
#[tactic(auto, using(crate::proofs::RateLaws::known_width), unfolding(crate::specs::Check::known_asked))]
pub(crate) fn rate_known(asked: Asked) -> bool
    ensures { result ≡ known_asked asked }
{
    match asked {
        Asked::Width(_) => true,
        Asked::Rate(rate) => 0 < rate_width(rate),
    }
}

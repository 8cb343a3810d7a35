// The named empty values: what stands where there is nothing.
ghost use Rattle.std.specs.Prelude.{◌≡◌};
ghost use Rattle.request.specs.Packing.{empty_demand, empty_request};

use crate::{Asked, Demand, Link, Request};
use grid::Band;

// The empty request: nothing in it, and every number 0.
#[tactic(auto, unfolding(crate::specs::Packing::empty_request, crate::specs::Packing::empty_demand))]
pub fn empty_request() -> Request
    ensures { result ≡ empty_request }
{
    let band = Band {
        n0: 0,
        slots: 0,
        guard: 0,
    };
    let links = [Link { from: 0, to: 0 }; 64];
    let demands = [empty_demand(); 200];
    Request {
        band,
        link_count: 0,
        links,
        demand_count: 0,
        demands,
    }
}

// What fills an array of demands behind the last one.
#[tactic(auto, unfolding(crate::specs::Packing::empty_demand))]
pub fn empty_demand() -> Demand
    ensures { result ≡ empty_demand }
{
    Demand {
        ident: 0,
        asked: Asked::Width(0),
        hops: 0,
        links: [0u8; 32],
    }
}

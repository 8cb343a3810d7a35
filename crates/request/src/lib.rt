// Requests: a band, its links and the demands on them.
#![tactic(auto)]

ghost use Rattle.std.specs.Prelude.{◌≡◌, ◌≤◌, length};
ghost use Rattle.request.specs.View.{view_demand};

use grid::Band;
use refusal::Refusal;

mod check;
mod empty;
mod rates;
mod route;
mod tests;

pub use check::{check_ground, check_request};
pub use empty::{empty_demand, empty_request};
pub use rates::width_of;
pub use tests::test_demand;

// A directed link from one node to another.
#[derive(Clone, Copy)]
pub struct Link {
    pub from: u8,
    pub to: u8,
}

// What a circuit asks for: so many slots, or a bit rate in Gbit/s.
#[derive(Clone, Copy)]
pub enum Asked {
    Width(u16),
    Rate(u16),
}

// A circuit asked for: its own number, what it asks for, from which its width in slots follows, and its route: the first `hops` entries
// of `links`, each a link's number. Entries behind `hops` mean nothing.
// Kept as it is: a public type of fixed memory, as there is no heap; `hops` beyond 32 are a value that `check_request` refuses by 3.
#[derive(Clone, Copy)]
pub struct Demand {
    pub ident: u16,
    pub asked: Asked,
    pub hops: usize,
    pub links: [u8; 32],
}

// A request. It goes by value, so that every call has one parameter for it. Entries behind a count mean nothing.
// Kept as it is: a public type of fixed memory, as there is no heap; counts beyond 64 and 200 are values that `check_request` refuses, by 5
// and 6.
#[derive(Clone, Copy)]
pub struct Request {
    pub band: Band,
    pub link_count: usize,
    pub links: [Link; 64],
    pub demand_count: usize,
    pub demands: [Demand; 200],
}

// What each test of a demand says: whether its ident was used before, whether its rate, if it asks for one, is in the table, and whether
// its width, the length of its route and the route itself are good. Which of them is told first is the caller's matter.
#[derive(Drop)]
pub struct DemandTests {
    pub used: bool,
    pub rate: bool,
    pub width: bool,
    pub hops: bool,
    pub route: bool,
}

impl Demand {
    // The route: as many of the first entries of `links` as `hops` says, and all of them where it says more.
    #[tactic(auto, unfolding(crate::specs::View::view_demand))]
    pub fn route(&self) -> &[u8]
        ensures route { result.now ≡ (view_demand self.now).route }
        ensures room { length result.now ≤ 32 }
    {
        let hops = self.hops.min(Request::MOST_HOPS);
        &self.links[..hops]
    }
}

impl Request {
    // The longest file of a request.
    pub const MOST_BYTES: usize = 8128;

    pub const MOST_LINKS: usize = 64;

    pub const MOST_DEMANDS: usize = 200;

    pub const MOST_HOPS: usize = 32;
}

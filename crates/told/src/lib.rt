// A request file read and told as structs of numbers and columns, as the calls for C tell it. An answer has the refusal 0 and the place 0;
// a refusal has its number and its place, every other field is then 0, and every lent buffer as it was.
#![tactic(auto)]

ghost use Rattle.std.specs.Prelude.{◌≡◌, length};
ghost use Rattle.request.specs.View.{view};
ghost use Rattle.reading.specs.Reading.{read_file};
ghost use Rattle.meeting.specs.Reply.{bound_reply};
ghost use Rattle.columns.specs.Columns.{lent_demands, demand_rooms};
ghost use Rattle.told.specs.RequestTold.{request_refused, request_told, request_entry, demands_read, routes_refused, routes_entry, ends_read, hops_read, routes_read};

use columns::{demand_columns, route_columns};
use meeting::bound;
use reading::read_request;
use refusal::Refusal;
use request::Request;

// What a request file holds: its band, how many links and demands it has, and its bound.
#[repr(C)]
#[derive(Default, Drop)]
pub struct LightplanRequest {
    pub refusal: u8,
    pub place: usize,
    pub n0: i16,
    pub slots: u16,
    pub guard: u8,
    pub links: usize,
    pub demands: usize,
    pub bound: u32,
}

// How long the lists of a request file are: its links, its demands, and the links of all routes.
#[repr(C)]
#[derive(Default, Drop)]
pub struct LightplanRoutes {
    pub refusal: u8,
    pub place: usize,
    pub links: usize,
    pub demands: usize,
    pub hops: usize,
}

// A refusal is told by its number and its place.
impl From<Refusal> for LightplanRequest {
    ghost from_gives = { λ why told. told ≡ request_refused why };

    fn from(why: Refusal) -> LightplanRequest {
        LightplanRequest {
            refusal: why.number(),
            place: why.place(),
            ..LightplanRequest::default()
        }
    }
}

impl From<Refusal> for LightplanRoutes {
    ghost from_gives = { λ why told. told ≡ routes_refused why };

    fn from(why: Refusal) -> LightplanRoutes {
        LightplanRoutes {
            refusal: why.number(),
            place: why.place(),
            ..LightplanRoutes::default()
        }
    }
}

// Reads a request file. `idents`, `widths` and `rates` get the ident, the width and the rate of each demand by listing position, a rate of
// 0 where it asks for a width. The reader's refusals at their offsets come first, then 10 for each buffer.
pub fn request_told(
    file: &[u8],
    idents: &mut [u16],
    widths: &mut [u16],
    rates: &mut [u16],
) -> LightplanRequest
    ensures answer { result ≡ request_entry (read_file file.now) (demand_rooms (lent_demands idents.old widths.old rates.old)) }
    ensures idents { idents.new ≡ (demands_read (read_file file.now) (lent_demands idents.old widths.old rates.old)).idents }
    ensures widths { widths.new ≡ (demands_read (read_file file.now) (lent_demands idents.old widths.old rates.old)).widths }
    ensures rates { rates.new ≡ (demands_read (read_file file.now) (lent_demands idents.old widths.old rates.old)).rates }
{
    // Kept as it is: what the exported function answers is made here, a struct of numbers and no Result, so there is no `?`.
    let request = match read_request(file) {
        Ok(request) => request,
        Err(why) => return LightplanRequest::from(why),
    };
    match demand_columns(request, idents, widths, rates) {
        Ok(_) => numbers_told(request),
        Err(why) => LightplanRequest::from(why),
    }
}

// Reads the links and the routes of a request file. `ends` gets the two nodes of each link by its number, `hops` how many links each
// demand's route has by listing position, and `routes` the links of all routes, demand by demand. The reader's refusals at their offsets
// come first, then 10 for each buffer.
pub fn routes_told(
    file: &[u8],
    ends: &mut [u16],
    hops: &mut [u16],
    routes: &mut [u16],
) -> LightplanRoutes
    ensures answer { result ≡ routes_entry (read_file file.now) (length ends.old) (length hops.old) (length routes.old) }
    ensures ends { ends.new ≡ ends_read (read_file file.now) ends.old hops.old routes.old }
    ensures hops { hops.new ≡ hops_read (read_file file.now) ends.old hops.old routes.old }
    ensures routes { routes.new ≡ routes_read (read_file file.now) ends.old hops.old routes.old }
{
    let request = match read_request(file) {
        Ok(request) => request,
        Err(why) => return LightplanRoutes::from(why),
    };
    match route_columns(request, ends, hops, routes) {
        Ok(total) => LightplanRoutes {
            refusal: 0,
            place: 0,
            links: request.link_count,
            demands: request.demand_count,
            hops: total,
        },
        Err(why) => LightplanRoutes::from(why),
    }
}

// The numbers of a request and its bound, or the request's own fault.
fn numbers_told(request: Request) -> LightplanRequest
    ensures { result ≡ request_told (bound_reply (view request)) (view request) }
{
    match bound(request) {
        Ok(need) => LightplanRequest {
            refusal: 0,
            place: 0,
            n0: request.band.n0,
            slots: request.band.slots,
            guard: request.band.guard,
            links: request.link_count,
            demands: request.demand_count,
            bound: need,
        },
        Err(why) => LightplanRequest::from(why),
    }
}

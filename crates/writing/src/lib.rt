// Requests written as the bytes of a file.
#![tactic(auto)]

ghost use Rattle.std.specs.Prelude.{◌≡◌, ◌∷◌, map, ◌+◌, ◌*◌, ◌≤◌, length};
ghost use Rattle.request.specs.View.{view, view_demand};
ghost use Rattle.request.specs.Encoding.{two_bytes, band_field, link_field, link_fields, tag_of, number_asked, demand_field, demand_fields};
ghost use Rattle.writing.specs.Writing.{written, out_after};
ghost use Rattle.writing.specs.inner.Puts.{Puts};

use grid::Band;
use lent::check_room;
use refusal::Refusal;
use request::{Asked, Demand, Link, Request, check_request};

// Tests the request, then the buffer, and writes the request's file to the front of the buffer. A refusal writes nothing.
pub fn write_request(request: Request, out: &mut [u8]) -> Result<usize, Refusal>
    ensures value { result ≡ written (view request) out.old }
    ensures out_after { out.new ≡ out_after (view request) out.old }
{
    check_request(request)?;
    let links = &request.links[..request.link_count];
    let demands = &request.demands[..request.demand_count];
    let needed = file_length(links, demands);
    check_room(needed, out.len())?;
    let mut file = File { out, at: 0 };
    file.put_band(request.band);
    file.put_links(links);
    file.put_demands(demands);
    Ok(needed)
}

// How many bytes the file has: 8 for the band, 5 for each link, 7 and the route for each demand.
// Kept as it is: `demand_fields` says this sum, `route_links` that of `columns`; one function for both would need a third and two laws.
fn file_length(links: &[Link], demands: &[Demand]) -> usize
    requires links_bound { length links.now ≤ 64 }
    requires demands_bound { length demands.now ≤ 200 }
    ensures { result ≡ 8 + 5 * length links.now + length (demand_fields (map view_demand demands.now)) }
{
    let mut bytes = 8 + 5 * links.len();
    for demand in demands {
        bytes += 7 + demand.route().len();
    }
    bytes
}

// A file that is being written to a lent buffer: the next byte goes to `at`.
#[derive(Drop)]
struct File<'a> {
    out: &'a mut [u8],
    at: usize,
}

impl File<'_> {
    // Some bytes more.
    fn put(&mut self, bytes: &[u8])
        requires { self.old.at + length bytes.now ≤ length self.old.out.now }
        ensures { Puts self.old self.new bytes.now }
    {
        let start = self.at;
        let end = start + bytes.len();
        let out = &mut *self.out;
        out[start..end].copy_from_slice(bytes);
        self.at = end;
    }

    // Two bytes, the high one first.
    fn put_number(&mut self, number: u16)
        requires { self.old.at + 2 ≤ length self.old.out.now }
        ensures { Puts self.old self.new (two_bytes number) }
    {
        self.put(&number.to_be_bytes());
    }

    // A field's tag and the length of its body.
    fn put_header(&mut self, tag: u8, body: u16)
        requires { self.old.at + 3 ≤ length self.old.out.now }
        ensures { Puts self.old self.new (tag ∷ two_bytes body) }
    {
        self.put(&[tag]);
        self.put_number(body);
    }

    // The band's field.
    fn put_band(&mut self, band: Band)
        requires { self.old.at + 8 ≤ length self.old.out.now }
        ensures { Puts self.old self.new (band_field band) }
    {
        self.put_header(1, 5);
        self.put_number(band.n0.cast_unsigned());
        self.put_number(band.slots);
        self.put(&[band.guard]);
    }

    // The links' fields.
    fn put_links(&mut self, links: &[Link])
        requires { self.old.at + 5 * length links.now ≤ length self.old.out.now }
        ensures { Puts self.old self.new (link_fields links.now) }
    {
        for link in links {
            self.put_header(2, 2);
            self.put(&[link.from, link.to]);
        }
    }

    // The demands' fields.
    fn put_demands(&mut self, demands: &[Demand])
        requires { self.old.at + length (demand_fields (map view_demand demands.now)) ≤ length self.old.out.now }
        ensures { Puts self.old self.new (demand_fields (map view_demand demands.now)) }
    {
        for demand in demands {
            self.put_demand(*demand);
        }
    }

    fn put_demand(&mut self, demand: Demand)
        requires { self.old.at + length (demand_field (view_demand demand)) ≤ length self.old.out.now }
        ensures { Puts self.old self.new (demand_field (view_demand demand)) }
    {
        let route = demand.route();
        self.put_header(tag_of(demand.asked), 4 + route.len() as u16);
        self.put_number(demand.ident);
        self.put_number(number_asked(demand.asked));
        self.put(route);
    }
}

// A demand by its width has the tag 03, one by its rate 05.
fn tag_of(asked: Asked) -> u8
    ensures { result ≡ tag_of asked }
{
    match asked {
        Asked::Width(_) => 3,
        Asked::Rate(_) => 5,
    }
}

// The width or the rate, as it was asked for.
fn number_asked(asked: Asked) -> u16
    ensures { result ≡ number_asked asked }
{
    match asked {
        Asked::Width(width) => width,
        Asked::Rate(rate) => rate,
    }
}

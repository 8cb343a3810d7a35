// The body of a frame, read from its front on. All numbers stand with their high byte first.
ghost use Rattle.std.specs.Prelude.{◌≤◌, IfOk};

use grid::Band;
use request::{Asked, Demand, Link, Request, empty_demand};

// The longest buffer that a frame may ask to be lent.
const MOST_ROOM: usize = 8192;

// A body that ends too early or goes on for too long, or in which stands what no call takes.
#[derive(Drop)]
pub(crate) struct Malformed;

// What of a body is not read yet.
#[derive(Drop)]
pub(crate) struct Body<'a> {
    rest: &'a [u8],
}

impl<'a> Body<'a> {
    pub(crate) fn of(body: &'a [u8]) -> Body<'a> {
        Body { rest: body }
    }

    // All that is left.
    pub(crate) fn rest(self) -> &'a [u8] {
        self.rest
    }

    // Nothing may be left.
    pub(crate) fn end(self) -> Result<(), Malformed> {
        if self.rest.is_empty() {
            Ok(())
        } else {
            Err(Malformed)
        }
    }

    // So many bytes.
    pub(crate) fn bytes(&mut self, count: usize) -> Result<&'a [u8], Malformed> {
        let (front, rest) = self.rest.split_at_checked(count).ok_or(Malformed)?;
        self.rest = rest;
        Ok(front)
    }

    // As many bytes as an array has.
    fn array<const N: usize>(&mut self) -> Result<[u8; N], Malformed> {
        let (front, rest) = self.rest.split_first_chunk().ok_or(Malformed)?;
        self.rest = rest;
        Ok(*front)
    }

    // A number of one byte.
    pub(crate) fn one(&mut self) -> Result<u8, Malformed> {
        let [byte]: [u8; 1] = self.array()?;
        Ok(byte)
    }

    // A number of two bytes.
    pub(crate) fn two(&mut self) -> Result<u16, Malformed> {
        Ok(u16::from_be_bytes(self.array()?))
    }

    // A number of four bytes.
    pub(crate) fn four(&mut self) -> Result<u32, Malformed> {
        Ok(u32::from_be_bytes(self.array()?))
    }

    // How long a buffer is to be lent, in two bytes.
    pub(crate) fn room(&mut self) -> Result<usize, Malformed>
        ensures { IfOk result (λ room. room ≤ 8192) }
    {
        let room = usize::from(self.two()?);
        if room <= MOST_ROOM {
            Ok(room)
        } else {
            Err(Malformed)
        }
    }

    // As many entries as there is space for, two bytes each.
    pub(crate) fn fill(&mut self, entries: &mut [u16]) -> Result<(), Malformed> {
        for entry in entries.iter_mut() {
            *entry = self.two()?;
        }
        Ok(())
    }

    // A request as in memory, sound or not: the band, the link count and the links, the demand count and the demands. Only what the
    // request's arrays hold stands in the body, however large a count is; what stands behind a count is 0.
    pub(crate) fn request(&mut self) -> Result<Request, Malformed> {
        let band = self.band()?;
        let (link_count, links) = self.links()?;
        let (demand_count, demands) = self.demands()?;
        Ok(Request {
            band,
            link_count,
            links,
            demand_count,
            demands,
        })
    }

    pub(crate) fn band(&mut self) -> Result<Band, Malformed> {
        Ok(Band {
            n0: self.two()?.cast_signed(),
            slots: self.two()?,
            guard: self.one()?,
        })
    }

    // The link count, and the links.
    fn links(&mut self) -> Result<(usize, [Link; 64]), Malformed> {
        let count = usize::from(self.two()?);
        let mut links = [Link { from: 0, to: 0 }; 64];
        for link in links.iter_mut().take(count) {
            *link = self.link()?;
        }
        Ok((count, links))
    }

    fn link(&mut self) -> Result<Link, Malformed> {
        Ok(Link {
            from: self.one()?,
            to: self.one()?,
        })
    }

    // The demand count, and the demands.
    fn demands(&mut self) -> Result<(usize, [Demand; 200]), Malformed> {
        let count = usize::from(self.two()?);
        let mut demands = [empty_demand(); 200];
        for demand in demands.iter_mut().take(count) {
            *demand = self.demand()?;
        }
        Ok((count, demands))
    }

    // A demand: its tag, its ident, the width or the rate that the tag says, the count of its links and these.
    fn demand(&mut self) -> Result<Demand, Malformed> {
        let tag = self.one()?;
        let ident = self.two()?;
        let number = self.two()?;
        let asked = match tag {
            3 => Asked::Width(number),
            5 => Asked::Rate(number),
            _ => return Err(Malformed),
        };
        let hops = usize::from(self.one()?);
        let mut links = [0; 32];
        for link in links.iter_mut().take(hops) {
            *link = self.one()?;
        }
        Ok(Demand {
            ident,
            asked,
            hops,
            links,
        })
    }
}

// Meeting: who shares a link with whom, and a request's bound.
#![tactic(auto)]

ghost use Rattle.std.specs.Prelude.{◌≡◌};
ghost use Rattle.request.specs.View.{view};
ghost use Rattle.meeting.specs.Reply.{bound_reply};

use need::largest_need;
use refusal::Refusal;
use request::{Request, check_request};

mod need;
mod route;
mod row;
mod words;

pub use route::share_link;
pub use row::meeting_row;
pub use words::{compacted, share_bit, word_row};

// What is asked of a request often, small enough to hand on: the band's slots and guard, how many demands there are, and by listing
// position their widths and their routes as words, with bit k set where link k is on the route. Behind the last demand all are 0. For a
// sound request, which has no link above 63, the words tell who shares a link with whom.
// Kept as it is: a public type of fixed memory, as there is no heap; by the clause of `compacted` it has the request's count, whatever it is.
#[derive(Clone, Copy)]
pub struct Compact {
    pub slots: u16,
    pub guard: u8,
    pub count: usize,
    pub widths: [u16; 200],
    pub words: [u64; 200],
}

// The bound: no allowed plan ends below it. It takes 32 bits, since the widths of all demands may stand on one link.
pub fn bound(request: Request) -> Result<u32, Refusal>
    ensures { result ≡ bound_reply (view request) }
{
    check_request(request)?;
    let compact = compacted(request);
    Ok(largest_need(&compact, request.link_count))
}

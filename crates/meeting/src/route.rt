// Routes as words: one word with a bit for each link that stands in a route, and by it who shares a link with whom.
ghost use Rattle.std.specs.Prelude.{◌≡◌, true};
ghost use Rattle.std.specs.Option.{ForSome};
ghost use Rattle.request.specs.View.{view_demand};
ghost use Rattle.request.specs.Sharing.{share_link};
ghost use Rattle.meeting.specs.Compact.{link_bit};
ghost use Rattle.meeting.specs.inner.Word.{WordOf, all_low};

use crate::words::share_bit;
use request::Demand;

// The bit of a link in a word: a link of 64 or more has none.
pub(crate) fn link_bit(link: u8) -> u64
    ensures { result ≡ link_bit link }
{
    if link < 64 { 1u64 << link } else { 0 }
}

// A route as one word: bit k is set where link k stands in it. Links of 64 or more, which no sound route has, leave no trace.
pub(crate) fn route_word(route: &[u8]) -> u64
    ensures { WordOf route.now result }
{
    route.iter().fold(0, |word, link| word | link_bit(*link))
}

// Whether a route's word tells the whole of it: all its links are below 64.
pub(crate) fn in_word(route: &[u8]) -> bool
    ensures { result ≡ all_low route.now }
{
    route.iter().all(|link| *link < 64)
}

// Whether two routes share a link, link by link: for a route that no word tells.
fn share_by_link(route: &[u8], other: &[u8]) -> bool
    ensures { result ≡ share_link route.now other.now }
{
    route.iter().any(|link| other.contains(link))
}

// A route with its word, where the word tells the whole of it: made once for a route that many others are held against.
#[derive(Clone, Copy)]
pub(crate) struct Worded<'a> {
    route: &'a [u8],
    word: Option<u64>,
    ghost tells: { ForSome word (λ w. WordOf route.now w × (all_low route.now ≡ true)) },
}

impl<'a> Worded<'a> {
    // A route, gone through once for its word.
    pub(crate) fn new(route: &'a [u8]) -> Worded<'a>
        ensures { result.route.now ≡ route.now }
    {
        Worded {
            route,
            word: in_word(route).then_some(route_word(route)),
        }
    }

    // Whether another route shares a link with it.
    pub(crate) fn met_by(&self, other: &[u8]) -> bool
        ensures { result ≡ share_link other.now self.now.route.now }
    {
        match self.word {
            Some(word) => share_bit(route_word(other), word),
            None => share_by_link(other, self.route),
        }
    }
}

// Whether two demands share a link.
pub fn share_link(demand: Demand, other: Demand) -> bool
    ensures { result ≡ share_link (view_demand demand).route (view_demand other).route }
{
    Worded::new(other.route()).met_by(demand.route())
}

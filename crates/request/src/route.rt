// The test of a route.
ghost use Rattle.std.specs.Prelude.{◌≤◌, ◌≡◌, length};
ghost use Rattle.request.specs.Check.{sound_route};

use crate::Link;

// Whether a route over these links is sound: each link is listed, sets out where the route has come to, and leads to a node that the
// route has not met. Tested in this sequence, so that only a listed link is looked up. A link that stands in it twice leads to the same
// node twice, so it needs no test of its own.
pub(crate) fn sound_route(route: &[u8], links: &[Link]) -> bool
    requires { length route.now ≤ 32 }
    ensures { result ≡ sound_route links.now route.now }
{
    let mut met = [0; 32];
    let mut node = 0;
    for (p, link) in route.iter().enumerate() {
        let Some(here) = links.get(usize::from(*link)) else {
            return false;
        };
        if p != 0 && node != here.from {
            return false;
        }
        met[p] = here.from;
        if met[..=p].contains(&here.to) {
            return false;
        }
        node = here.to;
    }
    true
}

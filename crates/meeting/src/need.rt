// What the links need: the bound.
ghost use Rattle.std.specs.Prelude.{◌≡◌, ◌≤◌, ◌<◌};
ghost use Rattle.request.specs.View.{View};
ghost use Rattle.meeting.specs.Bound.{link_bound, bound_over};
ghost use Rattle.meeting.specs.inner.Small.{Compacted};

use crate::Compact;
use crate::route::link_bit;
use crate::words::share_bit;

// What a link needs: the widths on it, and a guard between each two neighbours.
fn link_need(compact: &Compact, link: u8) -> u32
    requires { (compact.now.count ≤ 200) × (link < 64) }
    ensures { (v : View) → Compacted v compact.now → result ≡ link_bound v link }
{
    let bit = link_bit(link);
    let words = &compact.words[..compact.count];
    let mut widths: u32 = 0;
    let mut users: u32 = 0;
    for (word, width) in words.iter().zip(&compact.widths) {
        if share_bit(*word, bit) {
            widths += u32::from(*width);
            users += 1;
        }
    }
    widths + u32::from(compact.guard) * users.saturating_sub(1)
}

// The largest need of so many links of a sound request.
pub(crate) fn largest_need(compact: &Compact, links: usize) -> u32
    requires { (compact.now.count ≤ 200) × (links ≤ 64) }
    ensures { (v : View) → Compacted v compact.now → result ≡ bound_over v links }
{
    let mut most = 0;
    for link in 0..links {
        most = most.max(link_need(compact, link as u8));
    }
    most
}

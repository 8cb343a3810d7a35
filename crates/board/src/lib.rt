// One demand placed beside what stands: its lowest start, and who keeps it from starting lower. It knows no request: what stands goes
// by number.
#![tactic(auto)]

ghost use Rattle.std.specs.Prelude.{◌≡◌, ◌≤◌};
ghost use Rattle.board.specs.Board.{placed_one, entry_of};
ghost use Rattle.board.specs.inner.Near.{spot_below};

use standing::{Near, first_above};

mod blocking;
mod scan;
mod standing;

// Where a demand can start, and who keeps it from starting lower, by number; where it has no start, who is in the way at the last there
// is.
#[derive(Drop)]
pub struct Placement {
    pub spot: Option<u16>,
    pub blocker: Option<u16>,
}

// Places one demand beside the first `count` numbers, of 200 at most, so that it ends within the slots. `meets` says which of them it
// shares a link with; each stands from its start up to its end, and one that ends no higher than it starts holds nothing. All sums
// have 32 bits, so that none wraps.
// Kept as it is: the arrays and the count beside them are what `placed_one` speaks of and what its callers fill in place, so slices and a
// struct of numbers would change a public function.
pub fn place_one(
    meets: &[bool; 200],
    starts: &[u16; 200],
    ends: &[u16; 200],
    count: usize,
    width: u16,
    guard: u16,
    slots: u16,
) -> Placement
    ensures { result ≡ placed_one meets.now starts.now ends.now count width guard slots }
{
    let near = Near::beside(meets, starts, ends, count, width, guard);
    let above = first_above(width, slots);
    let start = near.lowest_below(above);
    Placement {
        spot: spot_below(start, above),
        blocker: near.blocker_below(start),
    }
}

// The spot of `place_one` alone, for who asks often and needs no blocker.
// Kept as it is: a public function, whose clause speaks of `placed_one` and so of the same arrays and the count beside them.
pub fn lowest_spot(
    meets: &[bool; 200],
    starts: &[u16; 200],
    ends: &[u16; 200],
    count: usize,
    width: u16,
    guard: u16,
    slots: u16,
) -> Option<u16>
    ensures { result ≡ (placed_one meets.now starts.now ends.now count width guard slots).spot }
{
    let near = Near::beside(meets, starts, ends, count, width, guard);
    let above = first_above(width, slots);
    spot_below(near.lowest_below(above), above)
}

// A blocker as an entry of a lent buffer, where 65535 says that there is none.
pub fn entry(blocker: Option<u16>) -> u16
    ensures { result ≡ entry_of blocker }
{
    blocker.unwrap_or(65535)
}

// What a scan that stops at a limit has found: a start below the limit is a spot.
#[tactic(auto, unfolding(crate::specs::inner::Near::spot_below))]
fn spot_below(start: u32, above: u32) -> Option<u16>
    requires { above ≤ 65536 }
    ensures { result ≡ spot_below start above }
{
    if start < above {
        Some(start as u16)
    } else {
        None
    }
}

// Which demands meet: those that share a link.
ghost use Rattle.std.specs.Prelude.{◌≡◌, ◌≤◌, length, map, take};
ghost use Rattle.request.specs.View.{view_demand};
ghost use Rattle.meeting.specs.Row.{meeting_row};

use crate::route::Worded;
use request::{Demand, Request};

// The demands of an array that are asked for: the first `count`, and all of them where there are not so many.
// Kept as it is: one generic function for it and for `listed` of `request` would have to be public there, which is no plainer than two
// lines in each.
pub(crate) fn asked_of(demands: &[Demand; 200], count: usize) -> &[Demand]
    ensures asked { result.now ≡ take count demands.now }
    ensures room { length result.now ≤ 200 }
{
    let asked = count.min(Request::MOST_DEMANDS);
    &demands[..asked]
}

// Which of the first `count` demands share a link with demand i: none where there is no demand i. Its word is made once, so that each
// other route is gone through once.
// Kept as it is: `meeting_row` is public, and its clause speaks of the array and of each `count`, those beyond 200 too.
pub fn meeting_row(demands: [Demand; 200], count: usize, i: usize) -> [bool; 200]
    ensures { result ≡ meeting_row (map view_demand (take count demands)) i }
{
    let mut row = [false; 200];
    let asked = asked_of(&demands, count);
    if let Some(demand) = asked.get(i) {
        let worded = Worded::new(demand.route());
        for (j, other) in asked.iter().enumerate() {
            row[j] = worded.met_by(other.route());
        }
    }
    row
}

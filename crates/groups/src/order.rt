// The demands of a group order, group by group.
ghost use Rattle.std.specs.Prelude.{◌≡◌, ◌++◌, ◌+◌, ◌≤◌, length, take};
ghost use Rattle.theory.specs.Orders.{count_up};
ghost use Rattle.theory.specs.Groups.{members};
ghost use Rattle.groups.specs.inner.Members.{Filled};

use crate::table::group_starts;

// Writes the listing positions of a group's demands, counted up from its first, into an array, from a place on.
fn put_group(along: &mut [u16; 200], at: usize, first: usize, size: usize)
    requires { (at + size ≤ 200) × (first + size ≤ 200) × (length along.old ≡ 200) }
    ensures kept { length along.new ≡ 200 }
    ensures put { take (at + size) along.new ≡ take at along.old ++ count_up size first }
{
    for k in 0..size {
        along[at + k] = (first + k) as u16;
    }
}

// The demands in the order of their groups, inside each by listing.
pub(crate) fn members_of(count: usize, order: &[u16]) -> [u16; 200]
    requires sizes { (1 ≤ length order.now) × (length order.now ≤ 8) × (count ≤ 200) }
    requires filled { Filled count order.now }
    ensures { (length result ≡ 200) × (take count result ≡ members count (length order.now) order.now) }
{
    let first = group_starts(count, order.len());
    let mut along = [0u16; 200];
    let mut at = 0;
    for g in order {
        let g = usize::from(*g);
        let size = first[g + 1] - first[g];
        put_group(&mut along, at, first[g], size);
        at += size;
    }
    along
}

// The test of an order.
ghost use Rattle.std.specs.Prelude.{◌≡◌, [], ◌≤◌, length};
ghost use Rattle.placing.specs.FirstFit.{check_entries, check_order};

use refusal::Refusal;
use request::Request;

// Whether an order's entries are demands, none twice, or 12 at the first that is not, or stood before.
fn check_entries(order: &[u16], count: usize) -> Result<(), Refusal>
    requires { (count ≤ 200) × (length order.now ≡ count) }
    ensures { result ≡ check_entries count [] 0 order.now }
{
    let mut seen = [false; 200];
    for (k, &position) in order.iter().enumerate() {
        let i = position as usize;
        if count <= i || seen[i] {
            return Err(Refusal::NotAnOrder(k));
        }
        seen[i] = true;
    }
    Ok(())
}

// Whether an order lists each of the demands once, or 12.
pub(crate) fn check_order(order: &[u16], count: usize) -> Result<(), Refusal>
    requires { count ≤ 200 }
    ensures { result ≡ check_order count order.now }
{
    if order.len() == count {
        check_entries(order, count)
    } else {
        Err(Refusal::NotAnOrder(order.len()))
    }
}

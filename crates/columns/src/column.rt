// One number of each demand as a column.
ghost use Rattle.std.specs.Prelude.{◌≡◌, ℕ, ◌≤◌, length, map};
ghost use Rattle.std.specs.List.{All};
ghost use Rattle.request.specs.declared.Demand.{Demand};
ghost use Rattle.lent.specs.Lent.{over};

use request::Demand;

// What `number` says of each demand, by listing position, at the front of a buffer.
pub(crate) fn write_column<F: Fn(Demand) -> u16>(number: F, demands: &[Demand], out: &mut [u16])
    requires call { All (λ d. F.pre number d) demands.now }
    requires in_bounds { length demands.now ≤ length out.old }
    ensures { (of : Demand → ℕ) → All (λ d. (n : ℕ) → F.post number d n → n ≡ of d) demands.now → out.new ≡ over (map of demands.now) out.old }
{
    for (k, demand) in demands.iter().enumerate() {
        out[k] = number(*demand);
    }
}

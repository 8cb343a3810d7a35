// Plans written as the bytes of a file.
ghost use Rattle.std.specs.Prelude.{◌≡◌, ◌*◌, ◌≤◌, length, map};
ghost use Rattle.std.proofs.lemmas.List.Edits.{sets};
ghost use Rattle.request.specs.View.{view, view_demand};
ghost use Rattle.planfile.specs.PlanFile.{row_field, row_fields, plan_written, plan_out};

use lent::check_room;
use plan::check_starts;
use refusal::Refusal;
use request::{Demand, Request};

// Writes the plan that starts give a request into the front of `out`, a row for each demand in listing order, and answers how
// many bytes: the check of starts first, then 10. What stands behind the file stays as it was, and on a refusal all of `out`.
pub fn write_plan(request: Request, starts: &[u16], out: &mut [u8]) -> Result<usize, Refusal>
    ensures value { result ≡ plan_written (view request) starts.now out.old }
    ensures out_after { out.new ≡ plan_out (view request) starts.now out.old }
{
    check_starts(request, starts)?;
    let demands = &request.demands[..request.demand_count];
    let bytes = 7 * demands.len();
    check_room(bytes, out.len())?;
    write_rows(demands, starts, out);
    Ok(bytes)
}

// A row for each demand, in listing order.
// Kept as it is: chunks of seven would be zipped with the demands and these with the starts, where one number says all three places.
fn write_rows(demands: &[Demand], starts: &[u16], out: &mut [u8])
    requires demands_bound { length demands.now ≤ 200 }
    requires starts_in_bounds { length demands.now ≤ length starts.now }
    requires rows_in_bounds { 7 * length demands.now ≤ length out.old }
    ensures { out.new ≡ sets out.old 0 (row_fields starts.now 0 (map view_demand demands.now)) }
{
    for (k, demand) in demands.iter().enumerate() {
        out[7 * k..7 * k + 7].copy_from_slice(&row_field(demand.ident, starts[k]));
    }
}

// A row: 04, the length 4, the ident, the start.
fn row_field(ident: u16, start: u16) -> [u8; 7]
    ensures { result ≡ row_field ident start }
{
    let [ident_high, ident_low] = ident.to_be_bytes();
    let [start_high, start_low] = start.to_be_bytes();
    [4, 0, 4, ident_high, ident_low, start_high, start_low]
}

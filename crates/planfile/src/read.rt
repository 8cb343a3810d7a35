// Plans read from the bytes of a file.
ghost use Rattle.std.specs.Prelude.{◌≡◌, [], ◌<◌, ◌≤◌, length, map, IfSome};
ghost use Rattle.request.specs.View.{view, view_demand, idents};
ghost use Rattle.planfile.specs.PlanReading.{read_rows, read_plan_file, plan_reply, plan_starts};
ghost use Rattle.planfile.specs.inner.PlanPacking.{pack_rows, place_of, all_given};

use fields::{check_field, number_in};
use grid::end_within;
use lent::{check_room, write_front};
use plan::check_starts;
use refusal::Refusal;
use request::{Demand, Request, check_request, width_of};

// The longest plan file: 200 rows of 7 bytes.
const MOST_BYTES: usize = 1400;

// Reads a plan's file, whose rows come in any sequence and are matched by ident, into the front of `starts`, by listing position:
// the request's own test, 20, the rows in file order with 1, 2, 3, 14, 15, 17 at their offsets, then 16, 18, 10. An accepted plan
// answers its end. What stands behind the starts stays as it was, and on a refusal all of `starts`. Each row has passed 17, so of
// the check of starts only 18 is left.
pub fn read_plan(request: Request, file: &[u8], starts: &mut [u16]) -> Result<u16, Refusal>
    ensures value { result ≡ plan_reply (view request) (read_plan_file (view request) file.now (length starts.old)) }
    ensures starts_after { starts.new ≡ plan_starts (read_plan_file (view request) file.now (length starts.old)) starts.old }
{
    check_request(request)?;
    if MOST_BYTES < file.len() {
        return Err(Refusal::FileTooLong(MOST_BYTES));
    }
    let count = request.demand_count;
    let rows = read_rows(request, file)?;
    let found = all_given(&rows[..count])?;
    let end = check_starts(request, &found[..count])?;
    check_room(count, starts.len())?;
    write_front(&found[..count], starts);
    Ok(end)
}

// The rows one by one, up to the end of the file: the start that each gives to its demand's listing position.
// Kept as it is: an offset counted by hand is no index; the test of a field takes it, and a fault is told with it.
fn read_rows(request: Request, file: &[u8]) -> Result<[Option<u16>; 200], Refusal>
    requires demand_count_bound { request.demand_count ≤ 200 }
    requires file_len_bound { length file.now ≤ 1400 }
    ensures { result ≡ pack_rows (read_rows 201 (view request) file.now 0 []) }
{
    let demands = &request.demands[..request.demand_count];
    let mut rows = [None; 200];
    let mut at = 0;
    while at < file.len() {
        check_field(file, at, 4, 4, 4)?;
        let who = place_of(number_in(file, at + 3), demands).ok_or(Refusal::UnknownIdent(at))?;
        if rows[who].is_some() {
            return Err(Refusal::IdentSeen(at));
        }
        let start = number_in(file, at + 5);
        if !end_within(request.band.slots, u64::from(start), width_of(demands[who])) {
            return Err(Refusal::EndAbove(at));
        }
        rows[who] = Some(start);
        at += 7;
    }
    Ok(rows)
}

// The listing position of an ident.
fn place_of(ident: u16, demands: &[Demand]) -> Option<usize>
    ensures value { result ≡ place_of ident (idents (map view_demand demands.now)) }
    ensures within { IfSome result (λ who. who < length demands.now) }
{
    demands.iter().position(|demand| demand.ident == ident)
}

// The starts, where each listing position has one; 16 at the first that has none.
fn all_given(rows: &[Option<u16>]) -> Result<[u16; 200], Refusal>
    requires { length rows.now ≤ 200 }
    ensures { result ≡ all_given rows.now }
{
    let mut starts = [0u16; 200];
    for (k, row) in rows.iter().enumerate() {
        starts[k] = row.ok_or(Refusal::NoRow(k))?;
    }
    Ok(starts)
}

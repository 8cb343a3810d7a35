// A request file read, for programs in C.
ghost use Rattle.std.specs.Prelude.{◌≡◌, length};
ghost use Rattle.reading.specs.Reading.{read_file};
ghost use Rattle.columns.specs.Columns.{lent_demands, demand_rooms};
ghost use Rattle.told.specs.RequestTold.{request_entry, demands_read, routes_entry, ends_read, hops_read, routes_read};

use told::{LightplanRequest, LightplanRoutes, request_told, routes_told};

// Reads a request file. `idents`, `widths` and `rates` get the ident, the width and the rate of each demand by listing position, a rate of
// 0 where it asks for a width. The reader's refusals at their offsets come first, then 10 for each buffer.
// Kept as it is: an archive has the exported functions of its own crate alone, so this one says again what `request_told` says.
#[unsafe(no_mangle)]
pub extern "C" fn lightplan_read(
    file: &[u8],
    idents: &mut [u16],
    widths: &mut [u16],
    rates: &mut [u16],
) -> LightplanRequest
    ensures answer { result ≡ request_entry (read_file file.now) (demand_rooms (lent_demands idents.old widths.old rates.old)) }
    ensures idents { idents.new ≡ (demands_read (read_file file.now) (lent_demands idents.old widths.old rates.old)).idents }
    ensures widths { widths.new ≡ (demands_read (read_file file.now) (lent_demands idents.old widths.old rates.old)).widths }
    ensures rates { rates.new ≡ (demands_read (read_file file.now) (lent_demands idents.old widths.old rates.old)).rates }
{
    request_told(file, idents, widths, rates)
}

// Reads the links and the routes of a request file. `ends` gets the two nodes of each link by its number, `hops` how many links each
// demand's route has by listing position, and `routes` the links of all routes, demand by demand. The reader's refusals at their offsets
// come first, then 10 for each buffer.
// Kept as it is: for the same reason it says again what `routes_told` says.
#[unsafe(no_mangle)]
pub extern "C" fn lightplan_read_routes(
    file: &[u8],
    ends: &mut [u16],
    hops: &mut [u16],
    routes: &mut [u16],
) -> LightplanRoutes
    ensures answer { result ≡ routes_entry (read_file file.now) (length ends.old) (length hops.old) (length routes.old) }
    ensures ends { ends.new ≡ ends_read (read_file file.now) ends.old hops.old routes.old }
    ensures hops { hops.new ≡ hops_read (read_file file.now) ends.old hops.old routes.old }
    ensures routes { routes.new ≡ routes_read (read_file file.now) ends.old hops.old routes.old }
{
    routes_told(file, ends, hops, routes)
}

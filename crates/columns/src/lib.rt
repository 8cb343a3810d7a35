// A request's numbers as columns, one after the other at the front of lent buffers: of each demand its ident, its width, the rate that it
// asks for and how many links its route has, of each link its two nodes, and the links of all routes.
#![tactic(auto)]

mod column;
mod demands;
mod routes;

pub use demands::demand_columns;
pub use routes::route_columns;

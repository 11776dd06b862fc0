//! Which cells polygons cover by their centres, and values burned on them.
#![tactic(auto)]

mod burning;
mod centre;
mod crossing;
mod edge_rows;
mod laws;
mod run_list;

pub use burning::{How, burn, burn_runs, burned_on};
pub use centre::{CentreScan, centre_runs, cover_centre};
pub use crossing::{least_steps, least_wide_steps};
pub use edge_rows::{EdgeRows, EdgeWalk, SpanRule, SpannedEdge};
pub use laws::{burns_in_order, burns_outside};
pub use run_list::{RunList, mark_runs};

// The calendar: root and paths over a row of nodes that is asked place by place.
#![tactic(auto)]

mod forest;
mod path;
mod range;
mod row;

pub use path::calendar_path;
pub use range::calendar_root;
pub use row::{Row, Slice, Small};

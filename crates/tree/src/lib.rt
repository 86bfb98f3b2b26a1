// Trees over lists of nodes, paths and shapes, for any kind of node with a joining.
#![tactic(auto)]

mod descent;
mod following;
mod group;
mod joining;
mod link;
mod parting;
mod refusal;
mod shapes;

pub use descent::{Sibling, Siblings};
pub use following::follow;
pub use group::{path, root};
pub use joining::{CalendarNodes, Joining, Nodes, RoundNodes, calendar_node, round_node};
pub use link::{Link, Side, UnknownSide};
pub use parting::split;
pub use refusal::PathRefusal;
pub use shapes::{has_shape, sides, sides_of};

// Printed lists of calendar roots: read, held, looked up and written.
#![tactic(auto)]

mod entry;
mod fault;
mod holder;
mod list;
mod order;
mod printing;
mod reading;
mod roots;

pub use entry::Entry;
pub use fault::{ListFault, PrintRefusal};
pub use holder::{Holder, LookUp};
pub use list::PrintedList;
pub use printing::print_list;
pub use reading::read_list;
pub use roots::Roots;

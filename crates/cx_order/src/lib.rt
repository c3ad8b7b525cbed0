//! In which order the entries of a schedule run.
#![tactic(auto)]

mod all_files;
mod all_places;
mod checks;
mod context;
mod copies;
mod entry_text;
mod fault;
mod files;
mod items;
mod meaning;
mod name_lookup;
mod order_files;
mod ordered;
mod planning;
mod sizes;
mod storage;
mod summary;
mod tree_parts;

pub use fault::OrderFault;
pub use order_files::order;
pub use ordered::Ordered;

//! Lists of names, in which a name is found in any case without a search.
#![tactic(auto)]

mod name_list;

pub use name_list::NameList;

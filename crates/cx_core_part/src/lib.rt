//! What one operation does with a part's patch: an item's turn, a number for a reduction and the number of all parts, the faces
//! that are posted and taken, and the scalar that is tested. Each call does what the definitions of a run in parts say.
#![tactic(auto)]

mod copies;
mod exchanges;
mod items;
mod law;
mod patches;
mod reductions;
mod steering;
mod tests;

pub use copies::Items;
pub use exchanges::{post, take};
pub use items::{apply, sweep};
pub use law::takes_are_there;
pub use patches::start;
pub use reductions::{give, join};
pub use tests::tested;

//! What a test finds of a case, beside what it wants.
#![tactic(auto)]

use std::fmt::Debug;
use std::test::Fail;

/// Fails, and names the case, unless what was found is what is wanted.
pub fn same<C: Debug, T: PartialEq + Debug>(case: &C, found: &T, want: &T) -> Result<(), Fail> {
    if found == want {
        return Ok(());
    }
    Err(Fail::new(format_args!("{case:?}: found {found:?}, and not {want:?}")))
}

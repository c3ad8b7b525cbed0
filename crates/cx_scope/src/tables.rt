//! Tables of what is asked again and again.

ghost use Rattle.std.specs.Prelude.{◌≡◌};
ghost use Rattle.cx_scope.specs.Closures.{sight_of, row_of, is_of_ancestor, is_of_friend};
ghost use Rattle.cx_scope.specs.Sight.{is_in, is_public, is_protected};
ghost use Rattle.cx_plan.specs.Lists.{is_marked};

use crate::groups::Groups;
use crate::names::{NamedGroup, NamedVariable, Tier};
use cx_iface::Access;
use cx_text::List;

/// What names find, and for each thorn which ones provide its ancestors and friends.
#[derive(Debug, Drop)]
pub(crate) struct Tables {
    pub(crate) groups: Groups,
    pub(crate) variables: List<NamedVariable>,
    pub(crate) ancestors: List<List<bool>>,
    pub(crate) friends: List<List<bool>>,
}

/// Whether the row of a thorn marks this place; none beyond the ends of the table is.
fn is_marked(rows: &[List<bool>], row: usize, place: usize) -> bool
    ensures { result ≡ is_marked (row_of rows.now row) place }
{
    match rows.get(row) {
        Some(marks) => marks.as_slice().get(place).copied().unwrap_or(false),
        None => false,
    }
}

/// Whether a group is public, so that thorns that inherit its implementation see it.
fn is_public(access: Access) -> bool
    ensures { result ≡ is_public access }
{
    match access {
        Access::Public => true,
        Access::Protected | Access::Private => false,
    }
}

/// Whether a group is protected, so that friends of its implementation see it.
fn is_protected(access: Access) -> bool
    ensures { result ≡ is_protected access }
{
    match access {
        Access::Protected => true,
        Access::Public | Access::Private => false,
    }
}

/// Whether a group is public and of an ancestor of the thorn's implementation.
fn is_of_ancestor(tables: &Tables, thorn: usize, group: &NamedGroup) -> bool
    ensures { result ≡ is_of_ancestor tables.now thorn group.now }
{
    is_public(group.access) && is_marked(tables.ancestors.as_slice(), thorn, group.thorn)
}

/// Whether a group is protected and of a friend of the thorn's implementation.
fn is_of_friend(tables: &Tables, thorn: usize, group: &NamedGroup) -> bool
    ensures { result ≡ is_of_friend tables.now thorn group.now }
{
    is_protected(group.access) && is_marked(tables.friends.as_slice(), thorn, group.thorn)
}

impl Tables {
    /// Whether a group is one of these to a thorn.
    pub(crate) fn is_in(&self, thorn: usize, tier: Tier, group: &NamedGroup) -> bool
        ensures { result ≡ is_in (sight_of self.now) thorn tier group.now }
    {
        match tier {
            Tier::Own => group.thorn == thorn,
            Tier::Inherited => is_of_ancestor(self, thorn, group),
            Tier::Friends => is_of_friend(self, thorn, group),
            Tier::Any => true,
        }
    }
}

//! How large trees are, without the trees.

ghost use Rattle.std.specs.Prelude.{◌≡◌, ℕ, List, [], ◌∷◌, ◌++◌};
ghost use Rattle.cx_plan.specs.declared.tree.Tree.{Tree, Seq, If, While};
ghost use Rattle.cx_plan.specs.declared.variable.VarId as variables;
ghost use Rattle.cx_order.specs.Plans.{sync_tree, call_tree, with_if, with_while, wrapped, work_tree, group_tree};
ghost use Rattle.cx_order.specs.Meanings.{meaning_or_none};
ghost use Rattle.cx_order.specs.TreeSizes.{AreSizes, is_synced};

use crate::meaning::Meaning;
use cx_plan::VarId;
use cx_scope::ScopeFault;

/// How many nodes trees have and how deep they go, or the greatest number where 64 bits don't hold it.
#[derive(Clone, Copy, Debug)]
pub(crate) struct Sizes {
    pub nodes: u64,
    pub depth: u64,
}

impl Sizes {
    /// Those of no trees.
    pub(crate) fn none() -> Self
        ensures { AreSizes [] result }
    {
        Sizes { nodes: 0, depth: 0 }
    }

    /// Those of a tree and further ones behind it.
    pub(crate) fn before(self, rest: Sizes) -> Self
        ensures { (tree : Tree) (trees : List Tree)
            → AreSizes (tree ∷ []) self → AreSizes trees rest → AreSizes (tree ∷ trees) result }
    {
        Sizes {
            nodes: self.nodes.saturating_add(rest.nodes),
            depth: self.depth.max(rest.depth),
        }
    }

    /// Those of one tree around these.
    pub(crate) fn around(self) -> Self
        ensures sequence { (trees : List Tree)
            → AreSizes trees self → AreSizes (Seq trees ∷ []) result }
        ensures if_tree { (v : variables.VarId) (path : List ℕ) (tree : Tree)
            → AreSizes (tree ∷ []) self → AreSizes (If v path tree ∷ []) result }
        ensures while_tree { (v : variables.VarId) (path : List ℕ) (tree : Tree)
            → AreSizes (tree ∷ []) self → AreSizes (While v path tree ∷ []) result }
    {
        Sizes {
            nodes: self.nodes.saturating_add(1),
            depth: self.depth.saturating_add(1),
        }
    }

    /// Those of these trees with a SYNC behind them.
    fn with_sync(self) -> Self
        ensures { (v : variables.VarId) (vars : List variables.VarId) (path : List ℕ)
            (trees : List Tree)
            → AreSizes trees self → AreSizes (trees ++ sync_tree path (v ∷ vars)) result }
    {
        Sizes {
            nodes: self.nodes.saturating_add(1),
            depth: self.depth.max(1),
        }
    }

    /// Those of a tree under a test, where there is one.
    fn under(self, test: Option<VarId>) -> Self
        ensures if_tree { (path : List ℕ) (tree : Tree)
            → AreSizes (tree ∷ []) self → AreSizes (with_if path test tree ∷ []) result }
        ensures while_tree { (path : List ℕ) (tree : Tree)
            → AreSizes (tree ∷ []) self → AreSizes (with_while path test tree ∷ []) result }
    {
        match test {
            Some(_) => self.around(),
            None => self,
        }
    }
}

/// Those of a group with these contents.
fn group_sizes(synced: bool, inside: Sizes) -> Sizes
    ensures { (vars : List variables.VarId) (path : List ℕ) (trees : List Tree)
        → is_synced vars ≡ synced → AreSizes trees inside
        → AreSizes (group_tree path vars trees ∷ []) result }
{
    let contents = if synced { inside.with_sync() } else { inside };
    contents.around()
}

/// Those of a call.
fn call_sizes(synced: bool) -> Sizes
    ensures { (vars : List variables.VarId) (path : List ℕ) (k : ℕ)
        → is_synced vars ≡ synced → AreSizes (call_tree path vars k ∷ []) result }
{
    if synced {
        Sizes { nodes: 3, depth: 2 }
    } else {
        Sizes { nodes: 1, depth: 1 }
    }
}

/// Those of a group with these contents, or of a call.
fn work_sizes(group: bool, synced: bool, inside: Sizes) -> Sizes
    ensures { (vars : List variables.VarId) (path : List ℕ) (k : ℕ) (trees : List Tree)
        → is_synced vars ≡ synced → AreSizes trees inside
        → AreSizes (work_tree group path vars trees k ∷ []) result }
{
    if group {
        group_sizes(synced, inside)
    } else {
        call_sizes(synced)
    }
}

/// Whether there is a SYNC.
fn is_synced(meaning: &Meaning) -> bool
    ensures { is_synced meaning.now.sync ≡ result }
{
    !meaning.sync.is_empty()
}

/// Those of the tree of an entry with these contents. Names of an entry with a fault stand for nothing.
pub(crate) fn entry_sizes(
    group: bool,
    meaning: &Result<Meaning, ScopeFault>,
    inside: Sizes,
) -> Sizes
    ensures { let m = meaning_or_none meaning.now in
        (path : List ℕ) (k : ℕ) (trees : List Tree) → AreSizes trees inside
        → AreSizes (wrapped m path (work_tree group path m.sync trees k) ∷ []) result }
{
    match meaning {
        Ok(meaning) => work_sizes(group, is_synced(meaning), inside)
            .under(meaning.turn)
            .under(meaning.test),
        Err(_) => work_sizes(group, false, inside),
    }
}

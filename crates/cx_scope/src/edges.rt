//! Ancestors and friends as edges between active implementations, and what is reached along them.

ghost use Rattle.std.specs.Prelude.{◌≡◌, ◌++◌, ◌∷◌, [], slice_get, true, IfOk, OnOk};
ghost use Rattle.cx_scope.specs.Relations.{active_implementations, has_friend_line, is_friend_line};
ghost use Rattle.cx_scope.specs.Closures.{inherits_by, name_at, is_tied, AddsEdge, AddsTies, AreTies, Closes, Links};
ghost use Rattle.cx_scope.specs.Reach.{ends_below, MarksReach};

use crate::reach::reach_from;
use cx_bind::Thorn;
use cx_text::{List, Memory, Text, among, same_name};
use std::alloc::Global;

/// What ties two implementations.
#[derive(Clone, Copy, Debug, PartialEq, Eq)]
pub(crate) enum Tie {
    /// The first one's thorn inherits the second one.
    Inherits,
    /// One of them has a friend line for the other.
    Friends,
}

/// Adds a copy of a name at the end of the list.
fn push_copy(alloc: Global, names: &mut List<Text>, name: &[u8]) -> Result<(), Memory>
    ensures { OnOk result (names.new ≡ names.old ++ name.now ∷ []) }
{
    names.push(Text::from_slice(alloc, name)?)
}

/// What active thorns implement, those that are built in after the others.
fn active_implementations(alloc: Global, thorns: &[Thorn]) -> Result<List<Text>, Memory>
    ensures { IfOk result (λ names. names ≡ active_implementations thorns.now) }
{
    let mut names = List::empty(alloc);
    'thorns: for thorn in thorns {
        push_copy(alloc, &mut names, thorn.interface.implements.as_slice())?;
    }
    push_copy(alloc, &mut names, b"Cactus")?;
    push_copy(alloc, &mut names, b"driver")?;
    push_copy(alloc, &mut names, b"IO")?;
    Ok(names)
}

/// Whether a thorn that provides `from` has `to` in its friend line.
fn is_line_of(thorn: &Thorn, from: &[u8], to: &[u8]) -> bool
    ensures { result ≡ has_friend_line from.now to.now thorn.now }
{
    same_name(thorn.interface.implements.as_slice(), from)
        && among(thorn.interface.friends.as_slice(), to)
}

/// Whether some thorn that provides `from` has `to` in its friend line.
fn is_friend_line(thorns: &[Thorn], from: &[u8], to: &[u8]) -> bool
    ensures { result ≡ is_friend_line thorns.now from.now to.now }
{
    thorns.iter().any(|thorn| is_line_of(thorn, from, to))
}

/// Whether the thorn of this number inherits the implementation.
fn inherits_at(thorns: &[Thorn], number: usize, name: &[u8]) -> bool
    ensures { result ≡ inherits_by (slice_get thorns.now number) name.now }
{
    match thorns.get(number) {
        Some(thorn) => among(thorn.interface.inherits.as_slice(), name),
        None => false,
    }
}

/// The implementation at a place; empty beyond the end of the list.
fn name_at(names: &[Text], place: usize) -> &[u8]
    ensures { result.now ≡ name_at names.now place }
{
    match names.get(place) {
        Some(name) => name.as_slice(),
        None => b"",
    }
}

/// Whether the tie leads from one implementation to the other. Friendship leads both ways.
fn is_tied(thorns: &[Thorn], names: &[Text], tie: Tie, from: usize, to: usize) -> bool
    ensures { result ≡ is_tied thorns.now names.now tie from to }
{
    let first = name_at(names, from);
    let second = name_at(names, to);
    match tie {
        Tie::Inherits => inherits_at(thorns, from, second),
        Tie::Friends => {
            is_friend_line(thorns, first, second) || is_friend_line(thorns, second, first)
        }
    }
}

/// Adds an edge if the two implementations are tied.
fn push_edge(
    edges: &mut List<(usize, usize)>,
    tied: bool,
    from: usize,
    to: usize,
) -> Result<(), Memory>
    ensures { OnOk result (AddsEdge from to tied edges.old edges.new) }
{
    if !tied {
        return Ok(());
    }
    edges.push((from, to))
}

/// Adds the edges that lead from one implementation to all others.
fn push_edges_from(
    thorns: &[Thorn],
    names: &[Text],
    tie: Tie,
    edges: &mut List<(usize, usize)>,
    from: usize,
) -> Result<(), Memory>
    ensures { OnOk result (AddsTies thorns.now names.now tie from edges.old edges.new) }
{
    'to: for to in 0..names.len() {
        push_edge(edges, is_tied(thorns, names, tie, from, to), from, to)?;
    }
    Ok(())
}

/// The edges by which implementations are tied.
fn edges(
    alloc: Global,
    thorns: &[Thorn],
    names: &[Text],
    tie: Tie,
) -> Result<List<(usize, usize)>, Memory>
    ensures { IfOk result (AreTies thorns.now names.now tie) }
{
    let mut edges = List::empty(alloc);
    'from: for from in 0..names.len() {
        push_edges_from(thorns, names, tie, &mut edges, from)?;
    }
    Ok(edges)
}

/// For each number whether edges lead to it from this one, in one step or more.
fn row(
    alloc: Global,
    count: usize,
    edges: &[(usize, usize)],
    from: usize,
) -> Result<List<bool>, Memory>
    requires { ends_below count edges.now ≡ true }
    ensures { IfOk result (MarksReach edges.now from) }
{
    let marks = reach_from(alloc, count, edges, from)?;
    Ok(List::new(marks))
}

/// What is reached from each number.
fn rows(alloc: Global, count: usize, edges: &[(usize, usize)]) -> Result<List<List<bool>>, Memory>
    requires { ends_below count edges.now ≡ true }
    ensures { IfOk result (λ rows. Closes edges.now count rows) }
{
    let mut rows = List::empty(alloc);
    'from: for from in 0..count {
        rows.push(row(alloc, count, edges, from)?)?;
    }
    Ok(rows)
}

/// For each active implementation, to which ones a chain of ties leads.
pub(crate) fn links(alloc: Global, thorns: &[Thorn], tie: Tie) -> Result<List<List<bool>>, Memory>
    ensures { IfOk result (Links thorns.now tie) }
{
    let names = active_implementations(alloc, thorns)?;
    let edges = edges(alloc, thorns, names.as_slice(), tie)?;
    let rows = rows(alloc, names.len(), edges.as_slice())?;
    Ok(rows)
}

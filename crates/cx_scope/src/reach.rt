//! What is reached along edges.

ghost use Rattle.std.specs.Prelude.{◌≡◌, true, false, replicate, IfOk, find, option_map};
ghost use Rattle.std.specs.Option.{option_copied};
ghost use Rattle.cx_scope.specs.Reach.{is_new, ends_below, MarksReach};
ghost use Rattle.cx_plan.specs.Lists.{is_marked};

use std::alloc::{AllocError, Global};

/// Whether a number is marked; none beyond the end of the marks is.
fn is_marked(marks: &[bool], k: usize) -> bool
    ensures { result ≡ is_marked marks.now k }
{
    match marks.get(k) {
        Some(mark) => *mark,
        None => false,
    }
}

/// Whether an edge leads from the start or a marked number to a number that isn't marked.
fn is_new(from: usize, marks: &[bool], edge: (usize, usize)) -> bool
    ensures { result ≡ is_new from marks.now edge }
{
    (edge.0 == from || is_marked(marks, edge.0)) && !is_marked(marks, edge.1)
}

/// An edge that leads to a number which is not marked.
fn next_edge<'a>(
    edges: &'a [(usize, usize)],
    from: usize,
    marks: &[bool],
) -> Option<&'a (usize, usize)>
    ensures { option_copied result ≡ find (is_new from marks.now) edges.now }
{
    edges.iter().find(|edge| is_new(from, marks, **edge))
}

/// The end of such an edge.
fn next_end(edges: &[(usize, usize)], from: usize, marks: &[bool]) -> Option<usize>
    ensures { result ≡ option_map (λ e. e.1) (find (is_new from marks.now) edges.now) }
{
    match next_edge(edges, from, marks) {
        Some(edge) => Some(edge.1),
        None => None,
    }
}

/// Marks of so many numbers, none of them set.
fn no_marks(alloc: Global, count: usize) -> Result<Vec<bool>, AllocError>
    ensures { IfOk result (λ v. v.items ≡ replicate count false) }
{
    vec![in alloc; false; count]
}

/// Marks what is reached from a number along edges.
pub(crate) fn reach_from(
    alloc: Global,
    count: usize,
    edges: &[(usize, usize)],
    from: usize,
) -> Result<Vec<bool>, AllocError>
    requires { ends_below count edges.now ≡ true }
    ensures { IfOk result (λ marks. MarksReach edges.now from marks.items) }
{
    let mut marks = no_marks(alloc, count)?;
    'rounds: loop {
        match next_end(edges, from, marks.as_slice()) {
            None => return Ok(marks),
            Some(end) => marks[end] = true,
        }
    }
}

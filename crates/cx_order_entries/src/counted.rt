//! The blocks and STORAGE lines that count: those whose enclosing `if`s all hold.

ghost use Rattle.std.specs.Prelude.{◌≡◌, ℤ, Ok, Err, IfOk, IfErr, OnOk};
ghost use Rattle.cx_expr.specs.Evaluation.{eval};
ghost use Rattle.cx_order_entries.specs.Counted.{and_then, lines_alone, block_alone, one_counted, counted_of};
ghost use Rattle.cx_order_entries.specs.Seen.{seen, unless_memory, Adds};
ghost use Rattle.cx_text.specs.Numbers.{is_not_zero};

use cx_expr::{Expr, ExprFault, Lookup, eval};
use cx_sched::{Block, Node, Ref};
use cx_text::Memory;

/// A name of a STORAGE line.
#[derive(Drop)]
pub struct Line<'a> {
    /// The number of its thorn.
    pub thorn: u32,
    /// The group that it names.
    pub group: &'a Ref,
    /// The number of levels that it gives, if one stands.
    pub levels: Option<u32>,
}

/// A block that counts.
#[derive(Drop)]
pub struct Entry<'a> {
    /// The number of its thorn.
    pub thorn: u32,
    pub block: &'a Block,
}

/// What counts, in the order of activation and of the files.
#[derive(Drop)]
pub struct Counted<'a> {
    /// The names of the STORAGE lines; those of a block stand at its place.
    pub lines: Vec<Line<'a>>,
    /// The blocks.
    pub entries: Vec<Entry<'a>>,
}

/// Why it isn't known what counts.
#[derive(Drop)]
pub enum Uncounted<'a> {
    /// An `if` has no value.
    Expr(&'a ExprFault),
    /// Out of memory.
    Memory,
}

/// Adds the names of a STORAGE line.
fn push_lines<'a>(
    counted: &mut Counted<'a>,
    thorn: u32,
    stores: &'a [(Ref, Option<u32>)],
) -> Result<(), Memory>
    ensures { OnOk result
        (seen counted.new ≡ and_then (seen counted.old) (lines_alone thorn stores.now)) }
{
    'stores: for (group, levels) in stores {
        counted.lines.push(Line {
            thorn,
            group,
            levels: *levels,
        })?;
    }
    Ok(())
}

/// Adds a block and the names of its STORAGE lines.
fn push_block<'a>(counted: &mut Counted<'a>, thorn: u32, block: &'a Block) -> Result<(), Memory>
    ensures { OnOk result
        (seen counted.new ≡ and_then (seen counted.old) (block_alone thorn block.now)) }
{
    push_lines(counted, thorn, block.storage.as_slice())?;
    counted.entries.push(Entry { thorn, block })?;
    Ok(())
}

/// What is added where memory doesn't run out.
fn unless_memory<'e>(done: Result<(), Memory>) -> Result<(), Uncounted<'e>>
    ensures { result ≡ unless_memory done }
{
    match done {
        Ok(()) => Ok(()),
        Err(_) => Err(Uncounted::Memory),
    }
}

/// Whether an expression isn't 0.
fn holds<'e, L: Lookup>(test: &'e Expr, names: &L) -> Result<bool, &'e ExprFault>
    ensures ok { IfOk result
        (λ b. (n : ℤ) × (eval (L.finds names.now) test.now ≡ Ok n) × (b ≡ is_not_zero n)) }
    ensures err { IfErr result (λ e. eval (L.finds names.now) test.now ≡ Err e.now) }
{
    match eval(test, names) {
        Ok(n) => Ok(n != 0),
        Err(fault) => Err(fault),
    }
}

/// Adds what a node of a schedule file counts; of an `if` only the body that its condition takes.
#[cycle(count)]
fn push_node<'a, L: Lookup>(
    counted: &mut Counted<'a>,
    thorn: u32,
    names: &L,
    node: &'a Node,
) -> Result<(), Uncounted<'a>>
    ensures { Adds (one_counted thorn (L.finds names.now) node.now) counted.old counted.new result }
{
    match node {
        Node::Storage(stores) => unless_memory(push_lines(counted, thorn, stores.as_slice())),
        Node::Block(block) => unless_memory(push_block(counted, thorn, block)),
        Node::Cond { test, yes, no } => match holds(test, names) {
            Ok(true) => push_nodes(counted, thorn, names, yes.as_slice()),
            Ok(false) => push_nodes(counted, thorn, names, no.as_slice()),
            Err(fault) => Err(Uncounted::Expr(fault)),
        },
    }
}

/// Adds what counts of some nodes of a thorn, in whose expressions names have these values.
#[cycle(count)]
pub fn push_nodes<'a, L: Lookup>(
    counted: &mut Counted<'a>,
    thorn: u32,
    names: &L,
    nodes: &'a [Node],
) -> Result<(), Uncounted<'a>>
    ensures { Adds (counted_of thorn (L.finds names.now) nodes.now) counted.old counted.new result }
{
    'nodes: for node in nodes {
        push_node(counted, thorn, names, node)?;
    }
    Ok(())
}

//! The nodes of a schedule file, and bodies of nodes within one another.

ghost use Rattle.std.specs.Prelude.{◌≡◌, ◌∷◌, ◌++◌, [], OnOk};
ghost use Rattle.cx_text.specs.Grammar.{passes, head, ReadsBy, AnswersOnly};
ghost use Rattle.cx_text.specs.Rules.{Obeys, Builds, loop};
ghost use Rattle.cx_sched.specs.declared.tree.Node.{Cond};
ghost use Rattle.cx_sched.specs.Nodes.{nobody, is_node, is_body, storage, blocked, otherwise, condition, conditional, node, braced, body, schedule};

use crate::block::block;
use crate::reference::stores;
use crate::{Node, ScheduleFile};
use cx_expr::{Expr, expression};
use cx_text::{CclFault, List, Mark, Memory, Reader, Stop, Token, Why};
use std::alloc::Global;

/// The most nodes of a schedule file.
const MAX_NODES: usize = 4096;

/// The most lines in the blocks of a schedule file.
const MAX_LINES: usize = 4096;

/// The most bodies within one another.
const MAX_BODIES: u32 = 32;

/// The nodes that are read so far, and how many nodes and lines of blocks may still stand.
#[derive(Drop)]
struct Read {
    nodes: usize,
    lines: usize,
    tree: List<Node>,
}

/// Whether a node begins at the next token.
fn at_node(reader: &Reader) -> bool
    ensures { result ≡ passes is_node (head reader.now.rest.now) }
{
    match reader.rest {
        [token, ..] => is_node(token),
        [] => false,
    }
}

/// Whether a token begins a node: `STORAGE`, `IF` or `SCHEDULE`.
fn is_node(token: &Token) -> bool
    ensures { result ≡ is_node token.now }
{
    token.is_named(b"STORAGE") || token.is_named(b"IF") || token.is_named(b"SCHEDULE")
}

/// Whether the body of an `if` begins at the next token: a brace or a single node.
fn at_body(reader: &Reader) -> bool
    ensures { result ≡ passes is_body (head reader.now.rest.now) }
{
    match reader.rest {
        [token, ..] => token.is_sign(b'{') || is_node(token),
        [] => false,
    }
}

/// Reads a `STORAGE` line outside of blocks, and adds it as a node.
fn storage(reader: &mut Reader, alloc: Global, read: &mut Read) -> Result<(), Stop>
    ensures { Builds (storage read.old) read.new result reader.old reader.new }
{
    reader.counted_keyword(b"STORAGE", read.nodes == 0)?;
    reader.sign_here(b':')?;
    let groups = stores(reader, alloc)?;
    reader.line_end()?;
    read.tree.push(Node::Storage(groups))?;
    read.nodes = read.nodes.saturating_sub(1);
    Ok(())
}

/// Reads a `schedule` block and adds it as a node.
fn blocked(reader: &mut Reader, alloc: Global, read: &mut Read) -> Result<(), Stop>
    ensures { Builds (blocked read.old) read.new result reader.old reader.new }
{
    let made = block(reader, alloc, read.nodes == 0, read.lines)?;
    read.tree.push(Node::Block(made.block))?;
    read.nodes = read.nodes.saturating_sub(1);
    read.lines = made.lines;
    Ok(())
}

/// Reads `IF` and the condition of a node in parentheses.
fn condition(reader: &mut Reader, alloc: Global, full: bool) -> Result<Expr, Stop>
    ensures { Obeys (condition full) result reader.old reader.new }
{
    reader.counted_keyword(b"IF", full)?;
    reader.sign(b'(')?;
    let test = expression(reader, alloc)?;
    reader.sign(b')')?;
    Ok(test)
}

/// Adds an `if` node. The limits that remain are those after its `else` body.
fn push_cond(read: &mut Read, test: Expr, yes: List<Node>, no: Read) -> Result<(), Memory>
    ensures { OnOk result (read.new ≡ record {
      nodes = no.nodes;
      lines = no.lines;
      tree = read.old.tree ++ Cond test yes no.tree ∷ [];
    }) }
{
    let Read { nodes, lines, tree } = no;
    read.tree.push(Node::Cond {
        test,
        yes,
        no: tree,
    })?;
    read.nodes = nodes;
    read.lines = lines;
    Ok(())
}

/// An empty body, with how many nodes and lines may still come.
fn nothing_yet(alloc: Global, nodes: usize, lines: usize) -> Read
    ensures { result ≡ nobody nodes lines }
{
    Read {
        nodes,
        lines,
        tree: List::empty(alloc),
    }
}

/// Reads an optional `ELSE` and its body; without it the body is empty.
#[cycle(node)]
fn otherwise(
    reader: &mut Reader,
    alloc: Global,
    depth: u32,
    nodes: usize,
    lines: usize,
) -> Result<Read, Stop>
    ensures { Obeys (otherwise (body depth) nodes lines) result reader.old reader.new }
{
    if reader.at_keyword(b"ELSE") {
        reader.keyword(b"ELSE")?;
        body(reader, alloc, depth, nodes, lines)
    } else {
        Ok(nothing_yet(alloc, nodes, lines))
    }
}

/// Reads an `if` with its bodies and adds it as a node.
#[cycle(node)]
fn conditional(reader: &mut Reader, alloc: Global, depth: u32, read: &mut Read) -> Result<(), Stop>
    ensures { Builds (conditional (body depth) read.old) read.new result reader.old reader.new }
{
    let test = condition(reader, alloc, read.nodes == 0)?;
    let yes = body(
        reader,
        alloc,
        depth,
        read.nodes.saturating_sub(1),
        read.lines,
    )?;
    let no = otherwise(reader, alloc, depth, yes.nodes, yes.lines)?;
    push_cond(read, test, yes.tree, no)?;
    Ok(())
}

/// Reads a node, whose bodies may nest `depth` deep.
#[cycle(node)]
fn node(reader: &mut Reader, alloc: Global, depth: u32, read: &mut Read) -> Result<(), Stop>
    ensures { Builds (node (body depth) read.old) read.new result reader.old reader.new }
{
    if reader.at_keyword(b"STORAGE") {
        storage(reader, alloc, read)
    } else if reader.at_keyword(b"IF") {
        conditional(reader, alloc, depth, read)
    } else {
        blocked(reader, alloc, read)
    }
}

/// Reads nodes for as long as one begins at the next token.
#[cycle(node)]
fn nodes(reader: &mut Reader, alloc: Global, depth: u32, read: &mut Read) -> Result<(), Stop>
    ensures { Builds (loop is_node (node (body depth)) read.old) read.new
        result reader.old reader.new }
{
    'nodes: while at_node(reader) {
        node(reader, alloc, depth, read)?;
    }
    Ok(())
}

/// Reads a body in braces.
#[cycle(node)]
fn braced(
    reader: &mut Reader,
    alloc: Global,
    depth: u32,
    left: usize,
    lines: usize,
) -> Result<Read, Stop>
    ensures { Obeys (braced (body depth) left lines) result reader.old reader.new }
{
    let mut read = nothing_yet(alloc, left, lines);
    reader.sign(b'{')?;
    nodes(reader, alloc, depth, &mut read)?;
    reader.sign(b'}')?;
    Ok(read)
}

/// Reads a body that is one node.
#[cycle(node)]
fn single(
    reader: &mut Reader,
    alloc: Global,
    depth: u32,
    left: usize,
    lines: usize,
) -> Result<Read, Stop>
    ensures { Obeys (node (body depth) (nobody left lines)) result reader.old reader.new }
{
    let mut read = nothing_yet(alloc, left, lines);
    node(reader, alloc, depth, &mut read)?;
    Ok(read)
}

/// Reads a body, which may have bodies in it up to this depth.
#[cycle(node)]
fn body(
    reader: &mut Reader,
    alloc: Global,
    depth: u32,
    left: usize,
    lines: usize,
) -> Result<Read, Stop>
    ensures { Obeys (body depth left lines) result reader.old reader.new }
{
    if depth == 0 {
        if at_body(reader) {
            return Err(Stop::Fault(Why::Marked(Mark::Limit)));
        }
        return Err(Stop::Fault(Why::Unexpected));
    }
    if reader.at_sign(b'{') {
        braced(reader, alloc, depth - 1, left, lines)
    } else {
        single(reader, alloc, depth - 1, left, lines)
    }
}

/// Reads a schedule file.
fn whole(reader: &mut Reader, alloc: Global) -> Result<ScheduleFile, Stop>
    ensures { Obeys schedule result reader.old reader.new }
{
    let mut read = nothing_yet(alloc, MAX_NODES, MAX_LINES);
    reader.skip_line_ends();
    nodes(reader, alloc, MAX_BODIES, &mut read)?;
    Ok(ScheduleFile { items: read.tree })
}

/// What the tokens of a schedule file spell.
///
/// The clauses and lines of a block add to its fields; several lists of one kind are joined. A list ends before `}` and
/// before a word that a colon follows. An `else` belongs to the nearest `if`. A STORAGE line outside of blocks ends
/// with its line. `GROUP` behind `schedule` is the keyword where the head can then be read, else a name.
///
/// # Errors
/// The first fault, with its line: `Unexpected` at the first token with which no schedule file goes on; `Repeated` at a
/// second AS, IF or WHILE; `BadNumber` at a number in brackets above 4,294,967,295, or one of an expression above
/// 2^63 - 1; `Limit` at a name of more than 64 bytes, the first token of the 4,097th node or of the 33rd body of those
/// within one another, the colon of the 4,097th line in blocks, and in an expression at its 1,025th token and at the
/// 33rd parenthesis or sign of those round one another.
pub fn read_schedule(alloc: Global, tokens: &List<Token>) -> Result<ScheduleFile, CclFault>
    // The answer is what the tokens spell, or the first fault.
    ensures answers { ReadsBy schedule.derives (λ x. x) tokens.now result }
    // What is spelled is answered, unless memory runs out.
    ensures only { AnswersOnly schedule.derives (λ x. x) tokens.now result }
{
    let tokens = tokens.as_slice();
    let mut reader = Reader::new(tokens);
    let answer = whole(&mut reader, alloc);
    reader.finish(tokens, answer)
}

//! Schedule files as text.

ghost use Rattle.std.specs.Prelude.{◌≡◌, [], ◌∷◌, ◌++◌, IfOk, codes};
ghost use Rattle.cx_text.specs.Written.{word, sign, sign_pair, line_end};
ghost use Rattle.cx_text.specs.declared.token.Style.TheVariants as styles;
ghost use Rattle.cx_text.specs.Printing.{printed, HasSpelling, TextSpells};
ghost use Rattle.cx_plan.specs.Names.{region_text};
ghost use Rattle.cx_expr.specs.Printed.{expr_tokens};
ghost use Rattle.cx_sched.specs.Words.{STORAGE};
ghost use Rattle.cx_sched.specs.Nodes.{schedule};
ghost use Rattle.cx_sched.specs.Printed.{ref, bracketed, store, access, stores, refs, accesses, storage_line, sync_line, access_line, lines, group_word, spot, heading, alias, scalar, others, clauses, description, block, node, nodes, otherwise_nodes, file_tokens};

use crate::{Block, Node, Ref, ScheduleFile, Spot};
use cx_expr::{Expr, expr_tokens};
use cx_plan::{Region, region_text};
use cx_text::{List, Memory, Text, Token, write_tokens};
use std::alloc::Global;

/// Appends `owner::name`.
fn push_owned(
    tokens: &mut List<Token>,
    alloc: Global,
    owner: &[u8],
    name: &[u8],
) -> Result<(), Memory>
    ensures { IfOk result (λ x. tokens.new ≡
        tokens.old ++ word owner.now ∷ sign_pair 58 58 ∷ word name.now ∷ []) }
{
    tokens.push_word(alloc, owner)?;
    tokens.push(Token::sign_pair(alloc, b':', b':')?)?;
    tokens.push_word(alloc, name)
}

/// Appends a name with its owner, if it has one, but not the number of its copy.
fn push_ref(tokens: &mut List<Token>, alloc: Global, item: &Ref) -> Result<(), Memory>
    ensures { IfOk result (λ x. tokens.new ≡ tokens.old ++ ref item.now) }
{
    match &item.owner {
        None => tokens.push_word(alloc, item.name.as_slice()),
        Some(owner) => push_owned(tokens, alloc, owner.as_slice(), item.name.as_slice()),
    }
}

/// Appends a number in square brackets, if there is one.
fn push_bracketed(tokens: &mut List<Token>, alloc: Global, n: Option<u32>) -> Result<(), Memory>
    ensures { IfOk result (λ x. tokens.new ≡ tokens.old ++ bracketed n) }
{
    match n {
        None => Ok(()),
        Some(n) => {
            tokens.push_sign(alloc, b'[')?;
            tokens.push_number(alloc, u64::from(n))?;
            tokens.push_sign(alloc, b']')
        }
    }
}

/// Appends the name of a group and its number of time levels, if it is written.
fn push_store(
    tokens: &mut List<Token>,
    alloc: Global,
    item: &(Ref, Option<u32>),
) -> Result<(), Memory>
    ensures { IfOk result (λ x. tokens.new ≡ tokens.old ++ store item.now) }
{
    push_ref(tokens, alloc, &item.0)?;
    push_bracketed(tokens, alloc, item.1)
}

/// Appends groups with their numbers of time levels, without commas.
fn push_stores(
    tokens: &mut List<Token>,
    alloc: Global,
    items: &[(Ref, Option<u32>)],
) -> Result<(), Memory>
    ensures { IfOk result (λ x. tokens.new ≡ tokens.old ++ stores items.now) }
{
    for item in items {
        push_store(tokens, alloc, item)?;
    }
    Ok(())
}

/// Appends names without commas.
fn push_refs(tokens: &mut List<Token>, alloc: Global, items: &[Ref]) -> Result<(), Memory>
    ensures { IfOk result (λ x. tokens.new ≡ tokens.old ++ refs items.now) }
{
    for item in items {
        push_ref(tokens, alloc, item)?;
    }
    Ok(())
}

/// Appends a region in parentheses.
fn push_region(tokens: &mut List<Token>, alloc: Global, region: Region) -> Result<(), Memory>
    ensures { IfOk result (λ x. tokens.new ≡
        tokens.old ++ sign 40 ∷ word (region_text region) ∷ sign 41 ∷ []) }
{
    tokens.push_sign(alloc, b'(')?;
    tokens.push_word(alloc, region_text(region))?;
    tokens.push_sign(alloc, b')')
}

/// Appends a variable that is read or written: its name, copy and region.
fn push_access(tokens: &mut List<Token>, alloc: Global, item: &(Ref, Region)) -> Result<(), Memory>
    ensures { IfOk result (λ x. tokens.new ≡ tokens.old ++ access item.now) }
{
    push_ref(tokens, alloc, &item.0)?;
    push_bracketed(tokens, alloc, item.0.copy)?;
    push_region(tokens, alloc, item.1)
}

/// Appends variables that are read or written, without commas.
fn push_accesses(
    tokens: &mut List<Token>,
    alloc: Global,
    items: &[(Ref, Region)],
) -> Result<(), Memory>
    ensures { IfOk result (λ x. tokens.new ≡ tokens.old ++ accesses items.now) }
{
    for item in items {
        push_access(tokens, alloc, item)?;
    }
    Ok(())
}

/// A line's word and its colon.
fn push_line(tokens: &mut List<Token>, alloc: Global, name: &[u8]) -> Result<(), Memory>
    ensures { IfOk result (λ x. tokens.new ≡ tokens.old ++ word name.now ∷ sign 58 ∷ []) }
{
    tokens.push_word(alloc, name)?;
    tokens.push_sign(alloc, b':')
}

/// Appends the `STORAGE` line of a block; nothing if it stores no group.
fn push_storage(
    tokens: &mut List<Token>,
    alloc: Global,
    items: &[(Ref, Option<u32>)],
) -> Result<(), Memory>
    ensures { IfOk result (λ x. tokens.new ≡ tokens.old ++ storage_line items.now) }
{
    match items {
        [] => Ok(()),
        [_, ..] => {
            push_line(tokens, alloc, b"STORAGE")?;
            push_stores(tokens, alloc, items)
        }
    }
}

/// Appends the `SYNC` line of a block; nothing if it synchronises nothing.
fn push_sync(tokens: &mut List<Token>, alloc: Global, items: &[Ref]) -> Result<(), Memory>
    ensures { IfOk result (λ x. tokens.new ≡ tokens.old ++ sync_line items.now) }
{
    match items {
        [] => Ok(()),
        [_, ..] => {
            push_line(tokens, alloc, b"SYNC")?;
            push_refs(tokens, alloc, items)
        }
    }
}

/// Appends a `READS` or `WRITES` line; nothing if it names no variable.
fn push_access_line(
    tokens: &mut List<Token>,
    alloc: Global,
    name: &[u8],
    items: &[(Ref, Region)],
) -> Result<(), Memory>
    ensures { IfOk result (λ x. tokens.new ≡ tokens.old ++ access_line name.now items.now) }
{
    match items {
        [] => Ok(()),
        [_, ..] => {
            push_line(tokens, alloc, name)?;
            push_accesses(tokens, alloc, items)
        }
    }
}

/// Appends all lines of a block, those without effect first.
fn push_lines(tokens: &mut List<Token>, alloc: Global, item: &Block) -> Result<(), Memory>
    ensures { IfOk result (λ x. tokens.new ≡ tokens.old ++ lines item.now) }
{
    tokens.push_copies(alloc, item.rest.as_slice())?;
    push_storage(tokens, alloc, item.storage.as_slice())?;
    push_sync(tokens, alloc, item.sync.as_slice())?;
    push_access_line(tokens, alloc, b"READS", item.reads.as_slice())?;
    push_access_line(tokens, alloc, b"WRITES", item.writes.as_slice())
}

/// Appends `GROUP` in the heading of a group; nothing in that of a routine.
fn push_group_word(tokens: &mut List<Token>, alloc: Global, group: bool) -> Result<(), Memory>
    ensures { IfOk result (λ x. tokens.new ≡ tokens.old ++ group_word group) }
{
    if group {
        tokens.push_word(alloc, b"GROUP")
    } else {
        Ok(())
    }
}

/// Two words.
fn push_two(
    tokens: &mut List<Token>,
    alloc: Global,
    first: &[u8],
    second: &[u8],
) -> Result<(), Memory>
    ensures { IfOk result (λ x. tokens.new ≡ tokens.old ++ word first.now ∷ word second.now ∷ []) }
{
    tokens.push_word(alloc, first)?;
    tokens.push_word(alloc, second)
}

/// Appends `AT` with the bin, or `IN` with the group.
fn push_spot(tokens: &mut List<Token>, alloc: Global, item: &Spot) -> Result<(), Memory>
    ensures { IfOk result (λ x. tokens.new ≡ tokens.old ++ spot item.now) }
{
    match item {
        Spot::At(bin) => push_two(tokens, alloc, b"AT", bin.as_slice()),
        Spot::Inside(group) => push_two(tokens, alloc, b"IN", group.as_slice()),
    }
}

/// Appends `schedule`, the name of a block and where it is placed.
fn push_heading(tokens: &mut List<Token>, alloc: Global, item: &Block) -> Result<(), Memory>
    ensures { IfOk result (λ x. tokens.new ≡ tokens.old ++ heading item.now) }
{
    tokens.push_word(alloc, b"schedule")?;
    push_group_word(tokens, alloc, item.group)?;
    tokens.push_word(alloc, item.name.as_slice())?;
    push_spot(tokens, alloc, &item.spot)
}

/// Appends the `AS` clause, if there is one.
fn push_alias(tokens: &mut List<Token>, alloc: Global, name: &Option<Text>) -> Result<(), Memory>
    ensures { IfOk result (λ x. tokens.new ≡ tokens.old ++ alias name.now) }
{
    match name {
        None => Ok(()),
        Some(name) => push_two(tokens, alloc, b"AS", name.as_slice()),
    }
}

/// Appends an `IF` or `WHILE` clause, if there is one.
fn push_scalar(
    tokens: &mut List<Token>,
    alloc: Global,
    name: &[u8],
    item: &Option<Ref>,
) -> Result<(), Memory>
    ensures { IfOk result (λ x. tokens.new ≡ tokens.old ++ scalar name.now item.now) }
{
    match item {
        None => Ok(()),
        Some(item) => {
            tokens.push_word(alloc, name)?;
            push_ref(tokens, alloc, item)
        }
    }
}

/// Appends a `BEFORE` or `AFTER` clause with its names in parentheses; nothing if it names none.
fn push_others(
    tokens: &mut List<Token>,
    alloc: Global,
    name: &[u8],
    names: &[Text],
) -> Result<(), Memory>
    ensures { IfOk result (λ x. tokens.new ≡ tokens.old ++ others name.now names.now) }
{
    match names {
        [] => Ok(()),
        [_, ..] => {
            tokens.push_word(alloc, name)?;
            tokens.push_sign(alloc, b'(')?;
            tokens.push_words(alloc, names)?;
            tokens.push_sign(alloc, b')')
        }
    }
}

/// Appends all clauses of a block in one fixed order.
fn push_clauses(tokens: &mut List<Token>, alloc: Global, item: &Block) -> Result<(), Memory>
    ensures { IfOk result (λ x. tokens.new ≡ tokens.old ++ clauses item.now) }
{
    push_alias(tokens, alloc, &item.alias)?;
    push_scalar(tokens, alloc, b"IF", &item.test)?;
    push_scalar(tokens, alloc, b"WHILE", &item.turn)?;
    push_others(tokens, alloc, b"BEFORE", item.before.as_slice())?;
    push_others(tokens, alloc, b"AFTER", item.after.as_slice())
}

/// Appends a description in quotes; nothing if it is empty.
fn push_description(tokens: &mut List<Token>, alloc: Global, text: &[u8]) -> Result<(), Memory>
    ensures { IfOk result (λ x. tokens.new ≡ tokens.old ++ description text.now) }
{
    match text {
        [] => Ok(()),
        [_, ..] => tokens.push_quoted_text(alloc, text),
    }
}

/// Appends a whole block and a line end.
fn push_block(tokens: &mut List<Token>, alloc: Global, item: &Block) -> Result<(), Memory>
    ensures { IfOk result (λ x. tokens.new ≡ tokens.old ++ (block item.now ++ line_end ∷ [])) }
{
    push_heading(tokens, alloc, item)?;
    push_clauses(tokens, alloc, item)?;
    tokens.push_sign(alloc, b'{')?;
    push_lines(tokens, alloc, item)?;
    tokens.push_sign(alloc, b'}')?;
    push_description(tokens, alloc, item.text.as_slice())?;
    tokens.push_line_end(alloc)
}

/// Appends a `STORAGE` line outside of blocks.
fn push_storage_node(
    tokens: &mut List<Token>,
    alloc: Global,
    groups: &[(Ref, Option<u32>)],
) -> Result<(), Memory>
    ensures { IfOk result (λ x. tokens.new ≡
        tokens.old ++ (word STORAGE ∷ sign 58 ∷ stores groups.now ++ line_end ∷ [])) }
{
    push_line(tokens, alloc, b"STORAGE")?;
    push_stores(tokens, alloc, groups)?;
    tokens.push_line_end(alloc)
}

/// Appends `if` and a condition in parentheses.
fn push_condition(tokens: &mut List<Token>, alloc: Global, test: &Expr) -> Result<(), Memory>
    ensures { IfOk result (λ x. tokens.new ≡
        tokens.old ++ (word (codes "if") ∷ sign 40 ∷ expr_tokens test.now ++ sign 41 ∷ [])) }
{
    tokens.push_word(alloc, b"if")?;
    tokens.push_sign(alloc, b'(')?;
    expr_tokens(alloc, test, tokens)?;
    tokens.push_sign(alloc, b')')
}

/// Appends a brace and a line end.
fn push_brace(tokens: &mut List<Token>, alloc: Global, brace: u8) -> Result<(), Memory>
    ensures { IfOk result (λ x. tokens.new ≡ tokens.old ++ sign brace ∷ line_end ∷ []) }
{
    tokens.push_sign(alloc, brace)?;
    tokens.push_line_end(alloc)
}

/// Appends nodes in braces.
#[cycle(print)]
fn push_body(tokens: &mut List<Token>, alloc: Global, items: &[Node]) -> Result<(), Memory>
    ensures { IfOk result (λ x. tokens.new ≡
        tokens.old ++ (sign 123 ∷ line_end ∷ nodes items.now ++ sign 125 ∷ line_end ∷ [])) }
{
    push_brace(tokens, alloc, b'{')?;
    push_nodes(tokens, alloc, items)?;
    push_brace(tokens, alloc, b'}')
}

/// Appends `else` and its body; nothing if the body is empty.
#[cycle(print)]
fn push_otherwise(tokens: &mut List<Token>, alloc: Global, items: &[Node]) -> Result<(), Memory>
    ensures { IfOk result (λ x. tokens.new ≡ tokens.old ++ otherwise_nodes items.now) }
{
    match items {
        [] => Ok(()),
        [_, ..] => {
            tokens.push_word(alloc, b"else")?;
            push_body(tokens, alloc, items)
        }
    }
}

/// Appends a node of any kind.
#[cycle(print)]
fn push_node(tokens: &mut List<Token>, alloc: Global, item: &Node) -> Result<(), Memory>
    ensures { IfOk result (λ x. tokens.new ≡ tokens.old ++ node item.now) }
{
    match item {
        Node::Storage(groups) => push_storage_node(tokens, alloc, groups.as_slice()),
        Node::Cond { test, yes, no } => {
            push_condition(tokens, alloc, test)?;
            push_body(tokens, alloc, yes.as_slice())?;
            push_otherwise(tokens, alloc, no.as_slice())
        }
        Node::Block(item) => push_block(tokens, alloc, item),
    }
}

/// Appends nodes in their order.
#[cycle(print)]
fn push_nodes(tokens: &mut List<Token>, alloc: Global, items: &[Node]) -> Result<(), Memory>
    ensures { IfOk result (λ x. tokens.new ≡ tokens.old ++ nodes items.now) }
{
    for item in items {
        push_node(tokens, alloc, item)?;
    }
    Ok(())
}

/// The tokens of this schedule file.
fn tokens_of(alloc: Global, file: &ScheduleFile) -> Result<List<Token>, Memory>
    ensures { IfOk result (λ tokens. tokens ≡ file_tokens file.now) }
{
    let mut tokens = List::empty(alloc);
    push_nodes(&mut tokens, alloc, file.items.as_slice())?;
    Ok(tokens)
}

/// A text that spells a schedule file, which is one that some text spells: each node on lines of its own, each body in
/// braces, with no `else` where nothing is in it, and the lines without effect of a block before its others. Read again,
/// where it has at most 1,048,576 bytes, it spells the same file.
///
/// # Errors
/// Want of memory alone.
pub fn print_schedule(alloc: Global, file: &ScheduleFile) -> Result<Text, Memory>
    requires { HasSpelling styles.Ccl schedule.derives file.now }
    // The text is what printing gives of the file's tokens.
    ensures printed { IfOk result (λ text. text ≡ printed (file_tokens file.now)) }
    ensures again { IfOk result (λ text. TextSpells styles.Ccl schedule.derives text file.now) }
{
    let tokens = tokens_of(alloc, file)?;
    let text = write_tokens(alloc, &tokens)?;
    Ok(text)
}

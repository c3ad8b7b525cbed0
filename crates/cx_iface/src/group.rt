//! The groups of variables.

ghost use Rattle.std.specs.Prelude.{[]};
ghost use Rattle.cx_text.specs.Rules.{Obeys, Builds, token, loop, name_mark, choice, is_sign, nothing};
ghost use Rattle.cx_text.specs.Lexemes.{first_mark, new_name_here, new_name, is_comma_or_word, is_quoted, quoted};
ghost use Rattle.cx_text.specs.Tokens.{is_word};
ghost use Rattle.cx_text.specs.declared.stop.Mark.TheVariants as marks;
ghost use Rattle.cx_iface.specs.Groups.{group_name_of, group_name, copies, more_variables, variables, block, block_or_name, group};

use crate::attributes::{Attributes, read_attributes, small};
use crate::{Access, GType, Group};
use cx_text::{CType, List, MAX_NAME, Mark, Reader, Stop, Text, Why};
use cx_text_names::NameList;
use std::alloc::Global;

/// The variables of a group, and its description.
#[derive(Drop)]
struct Contents {
    variables: List<Text>,
    text: Text,
}

/// Reads the name of a group, which isn't `FUNCTION`, but no line end after it.
fn group_name_here(reader: &mut Reader, alloc: Global, full: bool) -> Result<Text, Stop>
    ensures { Obeys (token group_name_of (λ t. first_mark full marks.Limit (name_mark t)))
        result reader.old reader.new }
{
    match reader.rest {
        [token, rest @ ..] if token.is_word() && !token.is_named(b"FUNCTION") => {
            if full || token.text.len() > MAX_NAME {
                return Err(Stop::Fault(Why::Marked(Mark::Limit)));
            }
            let name = Text::from_slice(alloc, token.text.as_slice())?;
            reader.rest = rest;
            Ok(name)
        }
        _ => Err(Stop::Fault(Why::Unexpected)),
    }
}

/// A group's name, which is past the limit where as many groups as may stand are there already.
fn group_name(reader: &mut Reader, alloc: Global, full: bool) -> Result<Text, Stop>
    ensures { Obeys (group_name full) result reader.old reader.new }
{
    let name = group_name_here(reader, alloc, full)?;
    reader.skip_line_ends();
    Ok(name)
}

/// The number of copies in brackets, if one stands here.
fn copies(reader: &mut Reader) -> Result<Option<u32>, Stop>
    ensures { Obeys (choice (is_sign 91) copies (nothing None)) result reader.old reader.new }
{
    if !reader.at_sign(b'[') {
        return Ok(None);
    }
    reader.sign(b'[')?;
    let copies = small(reader, 64)?;
    reader.sign(b']')?;
    Ok(Some(u32::from(copies)))
}

/// Reads the name of a variable that the group doesn't have yet, but no line end after it.
fn new_variable_here(reader: &mut Reader, alloc: Global, variables: &NameList) -> Result<Text, Stop>
    ensures { Obeys (new_name_here variables.now) result reader.old reader.new }
{
    match reader.rest {
        [token, rest @ ..] if token.is_word() => {
            if variables.has(alloc, token.text.as_slice())? {
                return Err(Stop::Fault(Why::Marked(Mark::Repeated)));
            }
            if token.text.len() > MAX_NAME {
                return Err(Stop::Fault(Why::Marked(Mark::Limit)));
            }
            let name = Text::from_slice(alloc, token.text.as_slice())?;
            reader.rest = rest;
            Ok(name)
        }
        _ => Err(Stop::Fault(Why::Unexpected)),
    }
}

/// The name of a variable that isn't yet among these.
fn new_variable(reader: &mut Reader, alloc: Global, variables: &NameList) -> Result<Text, Stop>
    ensures { Obeys (new_name variables.now) result reader.old reader.new }
{
    let name = new_variable_here(reader, alloc, variables)?;
    reader.skip_line_ends();
    Ok(name)
}

/// Reads an optional comma and a further variable of the group.
fn more_variables(reader: &mut Reader, alloc: Global, variables: &mut NameList) -> Result<(), Stop>
    ensures { Builds (more_variables variables.old) variables.new result reader.old reader.new }
{
    reader.comma()?;
    let variable = new_variable(reader, alloc, variables)?;
    variables.push(alloc, variable)?;
    Ok(())
}

/// Reads variables for as long as a comma or a word comes next.
fn variables_after(reader: &mut Reader, alloc: Global, variables: &mut NameList) -> Result<(), Stop>
    ensures { Builds (loop is_comma_or_word more_variables variables.old) variables.new
        result reader.old reader.new }
{
    'variables: while reader.at_comma_or_word() {
        more_variables(reader, alloc, variables)?;
    }
    Ok(())
}

/// The variables in a block.
fn variables(reader: &mut Reader, alloc: Global) -> Result<List<Text>, Stop>
    ensures { Obeys (choice is_word variables (nothing [])) result reader.old reader.new }
{
    let mut variables = NameList::new(alloc);
    if reader.at_word() {
        let variable = new_variable(reader, alloc, &variables)?;
        variables.push(alloc, variable)?;
        variables_after(reader, alloc, &mut variables)?;
    }
    Ok(variables.into_list())
}

/// A quoted text, if one stands here, else the text so far.
fn text_after(reader: &mut Reader, alloc: Global, text: Text) -> Result<Text, Stop>
    ensures { Obeys (choice is_quoted quoted (nothing text)) result reader.old reader.new }
{
    if reader.at_quoted_text() {
        reader.quoted_text(alloc)
    } else {
        Ok(text)
    }
}

/// Reads the variables of a group in braces, and the optional description after them.
fn block(reader: &mut Reader, alloc: Global, text: Text) -> Result<Contents, Stop>
    ensures { Obeys (block text) result reader.old reader.new }
{
    reader.sign(b'{')?;
    let variables = variables(reader, alloc)?;
    reader.sign(b'}')?;
    let text = text_after(reader, alloc, text)?;
    Ok(Contents { variables, text })
}

/// The block of a group, or without one a variable of the group's own name.
fn block_or_name(
    reader: &mut Reader,
    alloc: Global,
    name: &Text,
    text: Text,
) -> Result<Contents, Stop>
    ensures { Obeys (block_or_name name.now text) result reader.old reader.new }
{
    if reader.at_sign(b'{') {
        return block(reader, alloc, text);
    }
    let mut variables = List::empty(alloc);
    variables.push(Text::from_slice(alloc, name.as_slice())?)?;
    Ok(Contents { variables, text })
}

/// A group behind its type.
pub fn group(
    reader: &mut Reader,
    alloc: Global,
    access: Access,
    ctype: CType,
    full: bool,
) -> Result<Group, Stop>
    ensures { Obeys (group access ctype full) result reader.old reader.new }
{
    reader.skip_line_ends();
    let name = group_name(reader, alloc, full)?;
    let copies = copies(reader)?;
    let mut read = Attributes {
        gtype: None,
        dim: None,
        levels: None,
        distrib: false,
        size: false,
        ghostsize: false,
        tags: false,
        rest: List::empty(alloc),
    };
    read_attributes(reader, alloc, &mut read)?;
    let text = text_after(reader, alloc, Text::new(Vec::new(alloc)))?;
    let contents = block_or_name(reader, alloc, &name, text)?;
    Ok(Group {
        access,
        ctype,
        name,
        copies,
        gtype: read.gtype.unwrap_or(GType::Scalar),
        dim: read.dim.unwrap_or(3),
        levels: read.levels.unwrap_or(1),
        rest: read.rest,
        variables: contents.variables,
        text: contents.text,
    })
}

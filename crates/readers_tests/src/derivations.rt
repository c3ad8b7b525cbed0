//! What a table of rules derives, found by trying every rule at every place. Readers are compared with it.

use cx_text::{CclFault, Memory, Token};
use std::alloc::Global;

/// What each symbol derives. Every byte that no rule names is a token.
pub type Rules = &'static [(u8, &'static [&'static [u8]])];

/// What is still to be derived, its next symbol last, behind so many tokens that are derived.
#[derive(Drop)]
struct Form {
    next: Vec<u8>,
    at: usize,
}

/// Whether a list is derived, and how many of its tokens begin a list that is.
#[derive(Drop)]
struct Reach {
    whole: bool,
    begun: usize,
}

/// The form in which the next symbol is replaced.
fn replace_next(form: &Form, body: &[u8]) -> Result<Form, Memory> {
    let mut next = form.next.clone()?;
    for symbol in body.iter().rev() {
        next.push(*symbol)?;
    }
    Ok(Form { next, at: form.at })
}

/// What a symbol derives; a token isn't replaced.
fn bodies_of(rules: Rules, symbol: u8) -> Option<&'static [&'static [u8]]> {
    rules
        .iter()
        .find(|(name, _)| *name == symbol)
        .map(|(_, bodies)| *bodies)
}

/// Whether a body may begin with the next letter: only a token says no.
fn may_begin(rules: Rules, body: &[u8], next: Option<&u8>) -> bool {
    match body.first() {
        Some(symbol) => bodies_of(rules, *symbol).is_some() || next == Some(symbol),
        None => true,
    }
}

/// What becomes of a form whose next symbol is this: one form for each rule, or the form behind a token.
fn push_next(
    work: &mut Vec<Form>,
    mut form: Form,
    rules: Rules,
    symbol: u8,
    letters: &[u8],
) -> Result<(), Memory> {
    let Some(bodies) = bodies_of(rules, symbol) else {
        if form.at < letters.len() && letters[form.at] == symbol {
            form.at += 1;
            work.push(form)?;
        }
        return Ok(());
    };
    for body in bodies {
        if may_begin(rules, body, letters.get(form.at)) {
            work.push(replace_next(&form, body)?)?;
        }
    }
    Ok(())
}

/// What is derived of these tokens, by trying every rule at every place. Each symbol that isn't a token derives some
/// list, so the tokens behind which a form stands begin one. With too few steps a list would be derived less far than
/// it is.
fn reach_of(alloc: Global, rules: Rules, start: u8, letters: &[u8]) -> Result<Reach, Memory> {
    let mut reach = Reach {
        whole: false,
        begun: 0,
    };
    let first = Form {
        next: vec![in alloc; start]?,
        at: 0,
    };
    let mut work = vec![in alloc; first]?;
    for _ in 0..1_000_000 {
        let Some(mut form) = work.pop() else {
            break;
        };
        reach.begun = reach.begun.max(form.at);
        match form.next.pop() {
            Some(symbol) => push_next(&mut work, form, rules, symbol, letters)?,
            None => reach.whole = reach.whole || form.at == letters.len(),
        }
    }
    Ok(reach)
}

/// The fault of a list whose tokens have these letters: its first token with which no list goes on, or its last.
pub fn fault(
    alloc: Global,
    rules: Rules,
    start: u8,
    letters: &[u8],
    list: &[Token],
) -> Result<Option<CclFault>, Memory> {
    let reach = reach_of(alloc, rules, start, letters)?;
    if reach.whole {
        return Ok(None);
    }
    let line = match (list.get(reach.begun), list.last()) {
        (Some(token), _) | (None, Some(token)) => token.line,
        (None, None) => 1,
    };
    Ok(Some(CclFault::Unexpected(line)))
}

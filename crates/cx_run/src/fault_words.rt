//! The words of every fault.

ghost use Rattle.std.specs.Prelude.{◌≡◌, [], ◌∷◌, ◌++◌, codes, IfOk, OnOk};
ghost use Rattle.std.specs.List.{flat_map};
ghost use Rattle.std.specs.Fmt.{decimal};
ghost use Rattle.cx_run.specs.FaultWords.{spaced, or_dash, listed, flag_letter, text_fault_words, tree_fault_words, bind_fault_words, value_fault_words, expr_fault_words, scope_fault_words, order_fault_words, cut_fault_words, region_fault_words, fault_words, refused_text};

use cx_bind::BindFault;
use cx_cut::CutFault;
use cx_expr::ExprFault;
use cx_job::JobFault;
use cx_order::OrderFault;
use cx_plan::Flag;
use cx_region::RegionFault;
use cx_scope::ScopeFault;
use cx_text::{CclFault, Memory, Text, TextFault};
use cx_values::ValueFault;
use std::alloc::Global;

/// Adds a path or a name, or a dash where it is empty.
fn push_or_dash(text: &mut Text, name: &[u8]) -> Result<(), Memory>
    ensures { OnOk result (text.new ≡ text.old ++ or_dash name.now) }
{
    match name {
        [] => text.push_slice(b"-"),
        [_, ..] => text.push_slice(name),
    }
}

/// Adds a path or a name after a blank.
pub(crate) fn push_name(text: &mut Text, name: &[u8]) -> Result<(), Memory>
    ensures { OnOk result (text.new ≡ text.old ++ 32 ∷ or_dash name.now) }
{
    text.push_slice(b" ")?;
    push_or_dash(text, name)
}

/// Adds a number after a blank.
pub(crate) fn push_number(text: &mut Text, alloc: Global, number: u64) -> Result<(), Memory>
    ensures { OnOk result (text.new ≡ text.old ++ 32 ∷ decimal number) }
{
    text.push_slice(b" ")?;
    text.push_slice(number.to_string(alloc)?.as_bytes())
}

/// Adds what an outer fault keeps, and a blank.
fn push_outer(text: &mut Text, name: &Text) -> Result<(), Memory>
    ensures { OnOk result (text.new ≡ text.old ++ (or_dash name.now ++ 32 ∷ [])) }
{
    push_or_dash(text, name.as_slice())?;
    text.push_slice(b" ")
}

/// Adds the name of a fault and what it keeps.
pub(crate) fn push_one(text: &mut Text, fault: &[u8], name: &Text) -> Result<(), Memory>
    ensures { OnOk result (text.new ≡ text.old ++ spaced (fault.now ∷ or_dash name.now ∷ [])) }
{
    text.push_slice(fault)?;
    push_name(text, name.as_slice())
}

/// Adds the name of a fault and the two texts that it keeps.
fn push_two(text: &mut Text, fault: &[u8], first: &Text, second: &Text) -> Result<(), Memory>
    ensures { OnOk result
        (text.new ≡ text.old ++ spaced (fault.now ∷ or_dash first.now ∷ or_dash second.now ∷ [])) }
{
    push_one(text, fault, first)?;
    push_name(text, second.as_slice())
}

/// Adds the name of a fault and the three texts that it keeps.
fn push_three(
    text: &mut Text,
    fault: &[u8],
    first: &Text,
    second: &Text,
    third: &Text,
) -> Result<(), Memory>
    ensures { OnOk result
        (text.new ≡ text.old
        ++ spaced (fault.now ∷ or_dash first.now ∷ or_dash second.now ∷ or_dash third.now ∷ [])) }
{
    push_two(text, fault, first, second)?;
    push_name(text, third.as_slice())
}

/// Adds the name of a fault and its line.
pub(crate) fn push_line(
    text: &mut Text,
    alloc: Global,
    fault: &[u8],
    line: u32,
) -> Result<(), Memory>
    ensures { OnOk result (text.new ≡ text.old ++ spaced (fault.now ∷ decimal line ∷ [])) }
{
    text.push_slice(fault)?;
    push_number(text, alloc, u64::from(line))
}

/// Adds a limit, of what it is, and the number that is above it.
fn push_limit(text: &mut Text, alloc: Global, of: &Text, number: u64) -> Result<(), Memory>
    ensures { OnOk result
        (text.new ≡ text.old ++ spaced (codes "Limit" ∷ or_dash of.now ∷ decimal number ∷ [])) }
{
    push_one(text, b"Limit", of)?;
    push_number(text, alloc, number)
}

/// Adds the name of a fault and the two numbers that it keeps.
pub(crate) fn push_numbers(
    text: &mut Text,
    alloc: Global,
    fault: &[u8],
    first: u64,
    second: u64,
) -> Result<(), Memory>
    ensures { OnOk result
        (text.new ≡ text.old ++ spaced (fault.now ∷ decimal first ∷ decimal second ∷ [])) }
{
    text.push_slice(fault)?;
    push_number(text, alloc, first)?;
    push_number(text, alloc, second)
}

/// Adds a name after a comma.
fn push_further(text: &mut Text, name: &Text) -> Result<(), Memory>
    ensures { OnOk result (text.new ≡ text.old ++ (codes "," ++ or_dash name.now)) }
{
    text.push_slice(b",")?;
    push_or_dash(text, name.as_slice())
}

/// Adds names with a comma before each.
fn push_each_further(text: &mut Text, names: &[Text]) -> Result<(), Memory>
    ensures { OnOk result
        (text.new ≡ text.old ++ flat_map (λ name. codes "," ++ or_dash name) names.now) }
{
    'names: for name in names {
        push_further(text, name)?;
    }
    Ok(())
}

/// Adds names with commas between them.
fn push_listed(text: &mut Text, names: &[Text]) -> Result<(), Memory>
    ensures { OnOk result (text.new ≡ text.old ++ listed names.now) }
{
    match names {
        [] => Ok(()),
        [first, rest @ ..] => {
            push_or_dash(text, first.as_slice())?;
            push_each_further(text, rest)
        }
    }
}

/// Adds the name of a fault and the list that it keeps.
fn push_list(text: &mut Text, fault: &[u8], names: &[Text]) -> Result<(), Memory>
    ensures { OnOk result (text.new ≡ text.old ++ spaced (fault.now ∷ listed names.now ∷ [])) }
{
    text.push_slice(fault)?;
    text.push_slice(b" ")?;
    push_listed(text, names)
}

/// Adds a fault of a text.
fn push_text_fault(text: &mut Text, alloc: Global, fault: TextFault) -> Result<(), Memory>
    ensures { OnOk result (text.new ≡ text.old ++ text_fault_words fault) }
{
    match fault {
        TextFault::BadByte(line) => push_line(text, alloc, b"BadByte", line),
        TextFault::OpenQuote(line) => push_line(text, alloc, b"OpenQuote", line),
        TextFault::TooLong => text.push_slice(b"TooLong"),
        TextFault::Memory => text.push_slice(b"Memory"),
    }
}

/// Adds a fault of tokens.
fn push_tree_fault(text: &mut Text, alloc: Global, fault: CclFault) -> Result<(), Memory>
    ensures { OnOk result (text.new ≡ text.old ++ tree_fault_words fault) }
{
    match fault {
        CclFault::Unexpected(line) => push_line(text, alloc, b"Unexpected", line),
        CclFault::Repeated(line) => push_line(text, alloc, b"Repeated", line),
        CclFault::BadNumber(line) => push_line(text, alloc, b"BadNumber", line),
        CclFault::Limit(line) => push_line(text, alloc, b"Limit", line),
        CclFault::Memory => text.push_slice(b"Memory"),
    }
}

/// Adds a fault of thorns.
fn push_bind_fault(text: &mut Text, alloc: Global, fault: &BindFault) -> Result<(), Memory>
    ensures { OnOk result (text.new ≡ text.old ++ bind_fault_words fault.now) }
{
    match fault {
        BindFault::UnknownThorn(thorn) => push_one(text, b"UnknownThorn", thorn),
        BindFault::TwoThorns(thorn) => push_one(text, b"TwoThorns", thorn),
        BindFault::TwoProviders(name, a, b) => push_three(text, b"TwoProviders", name, a, b),
        BindFault::MissingImplementation(thorn, name) => {
            push_two(text, b"MissingImplementation", thorn, name)
        }
        BindFault::MissingCapability(thorn, name) => {
            push_two(text, b"MissingCapability", thorn, name)
        }
        BindFault::MissingThorn(thorn, other) => push_two(text, b"MissingThorn", thorn, other),
        BindFault::NoParameter(thorn, implementation, name) => {
            push_three(text, b"NoParameter", thorn, implementation, name)
        }
        BindFault::WrongType(thorn, name) => push_two(text, b"WrongType", thorn, name),
        BindFault::TwoVariables(full) => push_one(text, b"TwoVariables", full),
        BindFault::TwoParameters(full) => push_one(text, b"TwoParameters", full),
        BindFault::Unsupported(thorn, name) => push_two(text, b"Unsupported", thorn, name),
        BindFault::TwoDims(a, b) => push_two(text, b"TwoDims", a, b),
        BindFault::Limit(of, number) => push_limit(text, alloc, of, *number),
        BindFault::Memory => text.push_slice(b"Memory"),
    }
}

/// Adds a fault of parameters' values.
fn push_value_fault(text: &mut Text, alloc: Global, fault: &ValueFault) -> Result<(), Memory>
    ensures { OnOk result (text.new ≡ text.old ++ value_fault_words fault.now) }
{
    match fault {
        ValueFault::BadDefault(full) => push_one(text, b"BadDefault", full),
        ValueFault::UnknownParam(line) => push_line(text, alloc, b"UnknownParam", *line),
        ValueFault::Index(line) => push_line(text, alloc, b"Index", *line),
        ValueFault::BadSpelling(line) => push_line(text, alloc, b"BadSpelling", *line),
        ValueFault::OutOfRange(line) => push_line(text, alloc, b"OutOfRange", *line),
        ValueFault::Twice(line) => push_line(text, alloc, b"Twice", *line),
        ValueFault::NotSteerable(line) => push_line(text, alloc, b"NotSteerable", *line),
        ValueFault::SteerOrder(line) => push_line(text, alloc, b"SteerOrder", *line),
        ValueFault::Memory => text.push_slice(b"Memory"),
    }
}

/// Adds a fault of a line of a steer file after the file's name.
fn push_steer_of(
    text: &mut Text,
    alloc: Global,
    file: &Text,
    fault: &ValueFault,
) -> Result<(), Memory>
    ensures { OnOk result
        (text.new ≡ text.old ++ spaced (or_dash file.now ∷ value_fault_words fault.now ∷ [])) }
{
    push_outer(text, file)?;
    push_value_fault(text, alloc, fault)
}

/// Adds a fault of an expression.
fn push_expr_fault(text: &mut Text, fault: &ExprFault) -> Result<(), Memory>
    ensures { OnOk result (text.new ≡ text.old ++ expr_fault_words fault.now) }
{
    match fault {
        ExprFault::UnknownName(name) => push_one(text, b"UnknownName", name),
        ExprFault::NotNumber(name) => push_one(text, b"NotNumber", name),
        ExprFault::NotText(name) => push_one(text, b"NotText", name),
        ExprFault::Range(sign) => push_one(text, b"Range", sign),
    }
}

/// Adds a fault of a name.
fn push_scope_fault(text: &mut Text, fault: &ScopeFault) -> Result<(), Memory>
    ensures { OnOk result (text.new ≡ text.old ++ scope_fault_words fault.now) }
{
    match fault {
        ScopeFault::NotFound(name) => push_one(text, b"NotFound", name),
        ScopeFault::Hidden(name) => push_one(text, b"Hidden", name),
        ScopeFault::NoStorage(name) => push_one(text, b"NoStorage", name),
        ScopeFault::NoLevel(name) => push_one(text, b"NoLevel", name),
        ScopeFault::NotScalar(name) => push_one(text, b"NotScalar", name),
        ScopeFault::NotGrid(name) => push_one(text, b"NotGrid", name),
        ScopeFault::Memory => text.push_slice(b"Memory"),
    }
}

/// Adds a fault of an expression after the thorn that has it.
fn push_expr_of(text: &mut Text, thorn: &Text, fault: &ExprFault) -> Result<(), Memory>
    ensures { OnOk result
        (text.new ≡ text.old ++ spaced (or_dash thorn.now ∷ expr_fault_words fault.now ∷ [])) }
{
    push_outer(text, thorn)?;
    push_expr_fault(text, fault)
}

/// Adds a fault of a name after the thorn or the path where it is.
fn push_scope_of(text: &mut Text, place: &Text, fault: &ScopeFault) -> Result<(), Memory>
    ensures { OnOk result
        (text.new ≡ text.old ++ spaced (or_dash place.now ∷ scope_fault_words fault.now ∷ [])) }
{
    push_outer(text, place)?;
    push_scope_fault(text, fault)
}

/// Adds a fault of a schedule.
fn push_order_fault(text: &mut Text, alloc: Global, fault: &OrderFault) -> Result<(), Memory>
    ensures { OnOk result (text.new ≡ text.old ++ order_fault_words fault.now) }
{
    match fault {
        OrderFault::Expr(thorn, fault) => push_expr_of(text, thorn, fault),
        OrderFault::UnknownBin(name) => push_one(text, b"UnknownBin", name),
        OrderFault::TwoNames(path) => push_one(text, b"TwoNames", path),
        OrderFault::GroupCycle(names) => push_list(text, b"GroupCycle", names.as_slice()),
        OrderFault::Cycle(names) => push_list(text, b"Cycle", names.as_slice()),
        OrderFault::Scope(place, fault) => push_scope_of(text, place, fault),
        OrderFault::Limit(of, number) => push_limit(text, alloc, of, *number),
        OrderFault::Memory => text.push_slice(b"Memory"),
    }
}

/// The letter of a flag.
fn flag_letter(flag: Flag) -> &'static [u8]
    ensures { result.now ≡ flag_letter flag }
{
    match flag {
        Flag::I => b"I",
        Flag::B => b"B",
        Flag::G => b"G",
        Flag::S => b"S",
    }
}

/// A level of a variable, and the flag that isn't set there.
#[derive(Clone, Copy)]
struct LevelFlag {
    level: u8,
    flag: Flag,
}

/// Adds a level and a flag, each after a blank.
fn push_level_flag(text: &mut Text, alloc: Global, at: LevelFlag) -> Result<(), Memory>
    ensures { OnOk result
        (text.new ≡ text.old ++ 32 ∷ spaced (decimal at.level ∷ flag_letter at.flag ∷ [])) }
{
    push_number(text, alloc, u64::from(at.level))?;
    text.push_slice(b" ")?;
    text.push_slice(flag_letter(at.flag))
}

/// Adds a need that isn't met.
fn push_unset(
    text: &mut Text,
    alloc: Global,
    path: &Text,
    item: &Text,
    var: &Text,
    at: LevelFlag,
) -> Result<(), Memory>
    ensures { let where_ = or_dash path.now ∷ or_dash item.now ∷ or_dash var.now ∷ [] in
        let what = decimal at.level ∷ flag_letter at.flag ∷ [] in
        OnOk result (text.new ≡ text.old ++ spaced (codes "Unset" ∷ where_ ++ what)) }
{
    push_three(text, b"Unset", path, item, var)?;
    push_level_flag(text, alloc, at)
}

/// Adds a fault of regions.
fn push_region_fault(text: &mut Text, alloc: Global, fault: &RegionFault) -> Result<(), Memory>
    ensures { OnOk result (text.new ≡ text.old ++ region_fault_words fault.now) }
{
    match fault {
        RegionFault::Shape(path, var) => push_two(text, b"Shape", path, var),
        RegionFault::Unset {
            path,
            item,
            var,
            level,
            flag,
        } => {
            let at = LevelFlag {
                level: *level,
                flag: *flag,
            };
            push_unset(text, alloc, path, item, var, at)
        }
        RegionFault::Memory => text.push_slice(b"Memory"),
    }
}

/// Adds a fault of a text after its file's name.
fn push_text_of(text: &mut Text, alloc: Global, file: &Text, fault: TextFault) -> Result<(), Memory>
    ensures { OnOk result
        (text.new ≡ text.old ++ spaced (or_dash file.now ∷ text_fault_words fault ∷ [])) }
{
    push_outer(text, file)?;
    push_text_fault(text, alloc, fault)
}

/// Adds a fault of tokens after their file's name.
fn push_tree_of(text: &mut Text, alloc: Global, file: &Text, fault: CclFault) -> Result<(), Memory>
    ensures { OnOk result
        (text.new ≡ text.old ++ spaced (or_dash file.now ∷ tree_fault_words fault ∷ [])) }
{
    push_outer(text, file)?;
    push_tree_fault(text, alloc, fault)
}

/// Adds a fault of a cut.
fn push_cut_fault(text: &mut Text, alloc: Global, fault: CutFault) -> Result<(), Memory>
    ensures { OnOk result (text.new ≡ text.old ++ cut_fault_words fault) }
{
    match fault {
        CutFault::WidthsDiffer(sum, points) => {
            push_numbers(text, alloc, b"WidthsDiffer", sum, points)
        }
        CutFault::GridTooSmall(points, least) => {
            push_numbers(text, alloc, b"GridTooSmall", points, least)
        }
        CutFault::TooMany(parts, most) => push_numbers(text, alloc, b"TooMany", parts, most),
        CutFault::PartTooThin(width, least) => {
            push_numbers(text, alloc, b"PartTooThin", width, least)
        }
        CutFault::Memory => text.push_slice(b"Memory"),
    }
}

/// Adds the words of a part that is too large for a routine.
fn push_too_large(
    text: &mut Text,
    alloc: Global,
    path: &Text,
    points: u64,
    cap: u64,
) -> Result<(), Memory>
    ensures { OnOk result
        (text.new ≡ text.old
        ++ spaced (codes "TooLarge" ∷ or_dash path.now ∷ decimal points ∷ decimal cap ∷ [])) }
{
    push_one(text, b"TooLarge", path)?;
    push_number(text, alloc, points)?;
    push_number(text, alloc, cap)
}

/// Adds the words of a fault.
pub(crate) fn push_fault(text: &mut Text, alloc: Global, fault: &JobFault) -> Result<(), Memory>
    ensures { OnOk result (text.new ≡ text.old ++ fault_words fault.now) }
{
    match fault {
        JobFault::Shelf => text.push_slice(b"Shelf"),
        JobFault::NoFile(name) => push_one(text, b"NoFile", name),
        JobFault::Text(file, fault) => push_text_of(text, alloc, file, *fault),
        JobFault::Ccl(file, fault) => push_tree_of(text, alloc, file, *fault),
        JobFault::Bind(fault) => push_bind_fault(text, alloc, fault),
        JobFault::Value(fault) => push_value_fault(text, alloc, fault),
        JobFault::Steer(file, fault) => push_steer_of(text, alloc, file, fault),
        JobFault::Order(fault) => push_order_fault(text, alloc, fault),
        JobFault::UnknownRoutine(path) => push_one(text, b"UnknownRoutine", path),
        JobFault::RoutineMismatch(path, declared, offered) => {
            push_three(text, b"RoutineMismatch", path, declared, offered)
        }
        JobFault::Limit(of, number) => push_limit(text, alloc, of, *number),
        JobFault::Cut(fault) => push_cut_fault(text, alloc, *fault),
        JobFault::TooLarge(path, points, cap) => push_too_large(text, alloc, path, *points, *cap),
        JobFault::Region(fault) => push_region_fault(text, alloc, fault),
        JobFault::Memory => text.push_slice(b"Memory"),
    }
}

/// What is printed of a job that is refused.
pub(crate) fn refused_text(alloc: Global, fault: &JobFault) -> Result<Text, Memory>
    ensures { IfOk result (λ text. text ≡ refused_text fault.now) }
{
    let mut text = Text::from_slice(alloc, b"refused: ")?;
    push_fault(&mut text, alloc, fault)?;
    text.push_slice(b"\n")?;
    Ok(text)
}

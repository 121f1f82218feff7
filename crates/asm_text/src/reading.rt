//! Reads what a line says. `rest` is what is left of the line.
ghost use Rattle.std.specs.Prelude.{◌≡◌};
ghost use Rattle.jo_insn.specs.Opcodes.{operands_of as operands_with};
ghost use Rattle.asm_text.specs.Outcomes.{Gives};
ghost use Rattle.asm_text.specs.Lines.{items_of};
ghost use Rattle.asm_text.specs.ItemScan.{first_of};
ghost use Rattle.asm_text.specs.Words.{field_in, method_in};
ghost use Rattle.asm_text.specs.Statements.{at_end as at_end_of, behind_word as after_word, named as named_in, label as next_label, number as next_number, flag_words, begins_quoted as is_quoted_text, constant_in, constant as next_constant, class_words, implements_words, value_words, field_words, limit_words, method_words, caught_named, caught_in, catch_words, labels as labels_of, cases as cases_of, local_words, iinc_words, wide_words, push_words, load_words, member_words, class_operand, pooled_words, array_words, jump_words, table_words, lookup_words, operand_words, insn_words, ends_in_colon as sets_label, label_set, code_words, words as words_of, statement_of};

use crate::lines::{ends_in_space, next_item};
use crate::statements::{Case, Constant, Limits, Number, Operation, Statement};
use crate::stops::Stop;
use crate::words::{
    Kind, kept, read_field, read_flags, read_kind, read_label, read_method, read_name, read_number,
    read_quoted,
};
use jo_ids::List;
use jo_insn::{Operands, kind_named, opcode_named, operands_of};
use jo_text::Name;
use std::alloc::Global;

// ---- one item

fn item(rest: &[u8]) -> Result<(&[u8], &[u8]), Stop>
    ensures { Gives (λ r. (r.0.now, items_of r.1.now)) result (first_of (items_of rest.now)) }
{
    match next_item(rest) {
        Some(first) => Ok(first),
        None => Err(Stop::Outside),
    }
}

/// Nothing is left.
fn at_end<T: Drop>(rest: &[u8], value: T) -> Result<T, Stop>
    ensures { Gives (λ x. x) result (at_end_of (items_of rest.now) value) }
{
    match next_item(rest) {
        Some(_) => Err(Stop::Outside),
        None => Ok(value),
    }
}

fn behind_word<'a>(word: &[u8], rest: &'a [u8]) -> Result<&'a [u8], Stop>
    ensures { Gives (λ r. items_of r.now) result (after_word word.now (items_of rest.now)) }
{
    let (first, rest) = item(rest)?;
    if first == word {
        Ok(rest)
    } else {
        Err(Stop::Outside)
    }
}

fn named(alloc: Global, kind: Kind, rest: &[u8]) -> Result<(Name, &[u8]), Stop>
    ensures { Gives (λ r. (r.0, items_of r.1.now)) result (named_in kind (items_of rest.now)) }
{
    let (first, rest) = item(rest)?;
    let name = read_kind(alloc, kind, first)?;
    Ok((name, rest))
}

fn label(alloc: Global, rest: &[u8]) -> Result<(Name, &[u8]), Stop>
    ensures { Gives (λ r. (r.0, items_of r.1.now)) result (next_label (items_of rest.now)) }
{
    let (first, rest) = item(rest)?;
    let name = read_label(alloc, first)?;
    Ok((name, rest))
}

fn number(rest: &[u8]) -> Result<(Number, &[u8]), Stop>
    ensures { Gives (λ r. (r.0, items_of r.1.now)) result (next_number (items_of rest.now)) }
{
    let (first, rest) = item(rest)?;
    let number = read_number(first)?;
    Ok((number, rest))
}

/// `flags` and the flags.
fn flags(rest: &[u8]) -> Result<(u16, &[u8]), Stop>
    ensures { Gives (λ r. (r.0, items_of r.1.now)) result (flag_words (items_of rest.now)) }
{
    let rest = behind_word(b"flags", rest)?;
    let (first, rest) = item(rest)?;
    let flags = read_flags(first)?;
    Ok((flags, rest))
}

fn begins_quoted(text: &[u8]) -> bool
    ensures { result ≡ is_quoted_text text.now }
{
    matches!(text, [b'"', ..])
}

fn read_constant(alloc: Global, text: &[u8]) -> Result<Constant, Stop>
    ensures { Gives (λ x. x) result (constant_in text.now) }
{
    if begins_quoted(text) {
        let text = read_quoted(alloc, text)?;
        Ok(Constant::Text(text))
    } else {
        let number = read_number(text)?;
        Ok(Constant::Int(number))
    }
}

fn constant(alloc: Global, rest: &[u8]) -> Result<(Constant, &[u8]), Stop>
    ensures { Gives (λ r. (r.0, items_of r.1.now)) result (next_constant (items_of rest.now)) }
{
    let (first, rest) = item(rest)?;
    let constant = read_constant(alloc, first)?;
    Ok((constant, rest))
}

// ---- classes, fields and methods

fn class_line(alloc: Global, rest: &[u8]) -> Result<Statement, Stop>
    ensures { Gives (λ x. x) result (class_words (items_of rest.now)) }
{
    let (name, rest) = named(alloc, Kind::ClassName, rest)?;
    let rest = behind_word(b"super", rest)?;
    let (superclass, rest) = named(alloc, Kind::ClassName, rest)?;
    let (flags, rest) = flags(rest)?;
    at_end(
        rest,
        Statement::Class {
            name,
            superclass,
            flags,
        },
    )
}

fn implements_line(alloc: Global, rest: &[u8]) -> Result<Statement, Stop>
    ensures { Gives (λ x. x) result (implements_words (items_of rest.now)) }
{
    let (name, rest) = named(alloc, Kind::ClassName, rest)?;
    at_end(rest, Statement::Implements(name))
}

/// `value` and a constant, or nothing.
fn value(alloc: Global, rest: &[u8]) -> Result<Option<Constant>, Stop>
    ensures { Gives (λ x. x) result (value_words (items_of rest.now)) }
{
    if next_item(rest).is_none() {
        return Ok(None);
    }
    let rest = behind_word(b"value", rest)?;
    let (constant, rest) = constant(alloc, rest)?;
    at_end(rest, Some(constant))
}

fn field_line(alloc: Global, rest: &[u8]) -> Result<Statement, Stop>
    ensures { Gives (λ x. x) result (field_words (items_of rest.now)) }
{
    let (name, rest) = named(alloc, Kind::MemberName, rest)?;
    let (desc, rest) = named(alloc, Kind::FieldDesc, rest)?;
    let (flags, rest) = flags(rest)?;
    let constant = value(alloc, rest)?;
    Ok(Statement::Field {
        name,
        desc,
        flags,
        constant,
    })
}

/// `stack` and `locals`, each with a number, or nothing.
fn limits(rest: &[u8]) -> Result<Option<Limits>, Stop>
    ensures { Gives (λ x. x) result (limit_words (items_of rest.now)) }
{
    if next_item(rest).is_none() {
        return Ok(None);
    }
    let rest = behind_word(b"stack", rest)?;
    let (stack, rest) = number(rest)?;
    let rest = behind_word(b"locals", rest)?;
    let (locals, rest) = number(rest)?;
    at_end(rest, Some(Limits { stack, locals }))
}

fn method_line(alloc: Global, rest: &[u8]) -> Result<Statement, Stop>
    ensures { Gives (λ x. x) result (method_words (items_of rest.now)) }
{
    let (name, rest) = named(alloc, Kind::MemberName, rest)?;
    let (desc, rest) = named(alloc, Kind::MethodDesc, rest)?;
    let (flags, rest) = flags(rest)?;
    let limits = limits(rest)?;
    Ok(Statement::Method {
        name,
        desc,
        flags,
        limits,
    })
}

// ---- code

/// The class that a row catches by this name. One that is called `any` is spelled as a descriptor.
fn named_catch(alloc: Global, name: Name) -> Result<Name, Stop>
    ensures { Gives (λ x. x) result (caught_named name) }
{
    if name.as_slice() == b"Lany;".as_slice() {
        let mut any = Name::new(alloc);
        any.append(b"any")?;
        Ok(any)
    } else {
        kept(Kind::ClassOrArray, name)
    }
}

/// The class that a row catches, or none where it catches all.
fn caught(alloc: Global, text: &[u8]) -> Result<Option<Name>, Stop>
    ensures { Gives (λ x. x) result (caught_in text.now) }
{
    if text == b"any".as_slice() {
        return Ok(None);
    }
    let name = read_name(alloc, text)?;
    let name = named_catch(alloc, name)?;
    Ok(Some(name))
}

fn catch_line(alloc: Global, rest: &[u8]) -> Result<Statement, Stop>
    ensures { Gives (λ x. x) result (catch_words (items_of rest.now)) }
{
    let (start, rest) = label(alloc, rest)?;
    let (end, rest) = label(alloc, rest)?;
    let (handler, rest) = label(alloc, rest)?;
    let (last, rest) = item(rest)?;
    let caught = caught(alloc, last)?;
    at_end(
        rest,
        Statement::Catch {
            start,
            end,
            handler,
            caught,
        },
    )
}

fn local_line(op: u8, wide: bool, rest: &[u8]) -> Result<Operation, Stop>
    ensures { Gives (λ x. x) result (local_words op wide (items_of rest.now)) }
{
    let (index, rest) = number(rest)?;
    at_end(rest, Operation::Local { op, index, wide })
}

fn iinc_line(wide: bool, rest: &[u8]) -> Result<Operation, Stop>
    ensures { Gives (λ x. x) result (iinc_words wide (items_of rest.now)) }
{
    let (index, rest) = number(rest)?;
    let (by, rest) = number(rest)?;
    at_end(rest, Operation::Iinc { index, by, wide })
}

/// What stands behind `wide`.
fn wide_line(rest: &[u8]) -> Result<Operation, Stop>
    ensures { Gives (λ x. x) result (wide_words (items_of rest.now)) }
{
    let (word, rest) = item(rest)?;
    let Some(op) = opcode_named(word) else {
        return Err(Stop::Outside);
    };
    match operands_of(op) {
        Some(Operands::LocalByte) => local_line(op, true, rest),
        Some(Operands::LocalAndStep) => iinc_line(true, rest),
        _ => Err(Stop::Outside),
    }
}

fn push_line(op: u8, rest: &[u8]) -> Result<Operation, Stop>
    ensures { Gives (λ x. x) result (push_words op (items_of rest.now)) }
{
    let (value, rest) = number(rest)?;
    at_end(rest, Operation::Push { op, value })
}

fn load_line(alloc: Global, op: u8, rest: &[u8]) -> Result<Operation, Stop>
    ensures { Gives (λ x. x) result (load_words op (items_of rest.now)) }
{
    let (constant, rest) = constant(alloc, rest)?;
    at_end(rest, Operation::Load { op, constant })
}

fn field_operand(alloc: Global, op: u8, rest: &[u8]) -> Result<Operation, Stop>
    ensures { Gives (λ x. x) result (member_words field_in op (items_of rest.now)) }
{
    let (first, rest) = item(rest)?;
    let member = read_field(alloc, first)?;
    at_end(rest, Operation::OfMember { op, member })
}

fn method_operand(alloc: Global, op: u8, rest: &[u8]) -> Result<Operation, Stop>
    ensures { Gives (λ x. x) result (member_words method_in op (items_of rest.now)) }
{
    let (first, rest) = item(rest)?;
    let member = read_method(alloc, first)?;
    at_end(rest, Operation::OfMember { op, member })
}

fn class_operand(alloc: Global, op: u8, rest: &[u8]) -> Result<Operation, Stop>
    ensures { Gives (λ x. x) result (class_operand op (items_of rest.now)) }
{
    let (class, rest) = named(alloc, Kind::ClassOrArray, rest)?;
    at_end(rest, Operation::OfClass { op, class })
}

/// What an opcode with a pool index of two bytes names.
fn pooled_line(alloc: Global, op: u8, rest: &[u8]) -> Result<Operation, Stop>
    ensures { Gives (λ x. x) result (pooled_words op (items_of rest.now)) }
{
    if op < 20 {
        load_line(alloc, op, rest)
    } else if op < 182 {
        field_operand(alloc, op, rest)
    } else if op < 185 {
        method_operand(alloc, op, rest)
    } else {
        class_operand(alloc, op, rest)
    }
}

fn array_line(rest: &[u8]) -> Result<Operation, Stop>
    ensures { Gives (λ x. x) result (array_words (items_of rest.now)) }
{
    let (word, rest) = item(rest)?;
    let Some(kind) = kind_named(word) else {
        return Err(Stop::Outside);
    };
    at_end(rest, Operation::NewArray(kind))
}

fn jump_line(alloc: Global, op: u8, rest: &[u8]) -> Result<Operation, Stop>
    ensures { Gives (λ x. x) result (jump_words op (items_of rest.now)) }
{
    let (label, rest) = label(alloc, rest)?;
    at_end(rest, Operation::Jump { op, label })
}

/// Labels up to the end of the line.
fn labels(alloc: Global, rest: &[u8]) -> Result<List<Name>, Stop>
    ensures { Gives (λ x. x) result (labels_of (items_of rest.now)) }
{
    let mut labels = List::new(alloc);
    let mut rest = rest;
    while let Some((first, after)) = next_item(rest) {
        let label = read_label(alloc, first)?;
        labels.push(label)?;
        rest = after;
    }
    Ok(labels)
}

/// Pairs of a key and a label up to the end of the line.
#[tactic(auto, using(crate::proofs::Behind::next_case, crate::proofs::Behind::fewer, crate::proofs::Behind::no_more, crate::proofs::Behind::nothing_behind))]
fn cases(alloc: Global, rest: &[u8]) -> Result<List<Case>, Stop>
    ensures { Gives (λ x. x) result (cases_of (items_of rest.now)) }
{
    let mut cases = List::new(alloc);
    let mut rest = rest;
    while let Some((first, after)) = next_item(rest) {
        let (second, after) = item(after)?;
        let key = read_number(first)?;
        let label = read_label(alloc, second)?;
        cases.push(Case { key, label })?;
        rest = after;
    }
    Ok(cases)
}

fn table_line(alloc: Global, rest: &[u8]) -> Result<Operation, Stop>
    ensures { Gives (λ x. x) result (table_words (items_of rest.now)) }
{
    let (low, rest) = number(rest)?;
    let (other, rest) = label(alloc, rest)?;
    let labels = labels(alloc, rest)?;
    if labels.as_slice().is_empty() {
        Err(Stop::Outside)
    } else {
        Ok(Operation::TableSwitch { low, other, labels })
    }
}

fn lookup_line(alloc: Global, rest: &[u8]) -> Result<Operation, Stop>
    ensures { Gives (λ x. x) result (lookup_words (items_of rest.now)) }
{
    let (other, rest) = label(alloc, rest)?;
    let cases = cases(alloc, rest)?;
    Ok(Operation::LookupSwitch { other, cases })
}

/// What stands behind an opcode.
fn operands(alloc: Global, op: u8, rest: &[u8]) -> Result<Operation, Stop>
    ensures { Gives (λ x. x) result (operand_words op (items_of rest.now) (operands_with op)) }
{
    match operands_of(op) {
        None => Err(Stop::Outside),
        Some(Operands::NoOperand) => at_end(rest, Operation::Plain(op)),
        Some(Operands::SignedByte | Operands::SignedShort) => push_line(op, rest),
        Some(Operands::LocalByte) => local_line(op, false, rest),
        Some(Operands::LocalAndStep) => iinc_line(false, rest),
        Some(Operands::WidePrefix) => wide_line(rest),
        Some(Operands::PoolByte) => load_line(alloc, op, rest),
        Some(Operands::PoolShort) => pooled_line(alloc, op, rest),
        Some(Operands::PoolShortAndTwo) => method_operand(alloc, op, rest),
        Some(Operands::ArrayKind) => array_line(rest),
        Some(Operands::OffsetShort | Operands::OffsetInt) => jump_line(alloc, op, rest),
        Some(Operands::OffsetTable) => table_line(alloc, rest),
        Some(Operands::KeyTable) => lookup_line(alloc, rest),
    }
}

fn insn_line(alloc: Global, word: &[u8], rest: &[u8]) -> Result<Statement, Stop>
    ensures { Gives (λ x. x) result (insn_words word.now (items_of rest.now)) }
{
    let Some(op) = opcode_named(word) else {
        return Err(Stop::Outside);
    };
    let operation = operands(alloc, op, rest)?;
    Ok(Statement::Instruction(operation))
}

fn ends_in_colon(word: &[u8]) -> bool
    ensures { result ≡ sets_label word.now }
{
    matches!(word, [.., b':'])
}

/// A label that is set.
fn label_line(alloc: Global, word: &[u8], rest: &[u8]) -> Result<Statement, Stop>
    ensures { Gives (λ x. x) result (label_set word.now (items_of rest.now)) }
{
    let name = read_label(alloc, &word[..word.len().saturating_sub(1)])?;
    at_end(rest, Statement::Label(name))
}

// ---- lines

/// A line that stands in code.
fn code_line(alloc: Global, word: &[u8], rest: &[u8]) -> Result<Statement, Stop>
    ensures { Gives (λ x. x) result (code_words word.now (items_of rest.now)) }
{
    if word == b"catch".as_slice() {
        catch_line(alloc, rest)
    } else if word == b"end".as_slice() {
        at_end(rest, Statement::End)
    } else if ends_in_colon(word) {
        label_line(alloc, word, rest)
    } else {
        insn_line(alloc, word, rest)
    }
}

/// What a line says that begins with this word.
#[tactic(auto, unfolding(crate::specs::Statements::words))]
fn words(alloc: Global, word: &[u8], rest: &[u8]) -> Result<Statement, Stop>
    ensures { Gives (λ x. x) result (words_of word.now (items_of rest.now)) }
{
    if word == b"class".as_slice() {
        class_line(alloc, rest)
    } else if word == b"implements".as_slice() {
        implements_line(alloc, rest)
    } else if word == b"field".as_slice() {
        field_line(alloc, rest)
    } else if word == b"method".as_slice() {
        method_line(alloc, rest)
    } else {
        code_line(alloc, word, rest)
    }
}

/// What a line says: none where it has no items.
#[tactic(auto, unfolding(crate::specs::Statements::statement_of))]
pub fn read_line(alloc: Global, line: &[u8]) -> Result<Option<Statement>, Stop>
    ensures { Gives (λ x. x) result (statement_of line.now) }
{
    let Some((word, rest)) = next_item(line) else {
        return Ok(None);
    };
    if ends_in_space(line) {
        return Err(Stop::Outside);
    }
    let statement = words(alloc, word, rest)?;
    Ok(Some(statement))
}

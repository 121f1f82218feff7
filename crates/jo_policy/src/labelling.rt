//! The labels of a program's methods, and what is wrong with them.
ghost use Rattle.std.specs.Prelude.{◌≡◌, ◌<◌, ◌≤◌, ◌^◌, ◌∷◌, [], length, map, is_some, if◌then◌else◌, Some, None, IfOk, slice_set, option_copied};
ghost use Rattle.std.specs.List.{AllByRecursion};
ghost use Rattle.policy_tree.specs.Outcomes.{Gives, refused, or_fault};
ghost use Rattle.jo_order.specs.Flowing.{flows as flows_in};
ghost use Rattle.jo_prog.specs.PlainCode.{desc_for as shape_of};
ghost use Rattle.jo_prog.specs.Program.{method_at};
ghost use Rattle.jo_policy.specs.FileMethods.{method_named, IsIndexOf};
ghost use Rattle.jo_policy.specs.Labelling.{placed_by, fits_label as fits_it, first_twice, first_misshapen, is_misshapen as misshapen, is_upward as upward, first_upward, is_unlabelled as unlabelled, unlabelled_from, first_unlabelled, table_at, table_of, ordered_from, labelled_of};
ghost use Rattle.jo_policy.specs.LabelTables.{IsByMethod};

use crate::numbering::{NumberedLabel, copy_name};
use crate::spellings::{MethodIndex, find_method};
use jo_ids::{Id, List, Memory, MethodId};
use jo_insn::{ACC_NATIVE, ACC_STATIC, has_flag};
use jo_order::{Levels, Order};
use jo_prog::files::is_of_files;
use jo_prog::labels::Label;
use jo_prog::lists::add;
use jo_prog::program::{Method, Program, method_at};
use jo_text::Name;
use policy_tree::PolicyFault;
use std::alloc::Global;

// ---- methods in the place of spellings

/// The number of the method that a name spells.
fn method_of(
    alloc: Global,
    program: &Program,
    index: &MethodIndex,
    name: &Name,
) -> Result<u32, PolicyFault>
    requires { IsIndexOf program.now index.now }
    ensures { Gives (λ x. x) result (or_fault (PolicyFault.MissingMethod name.now)
        (method_named program.now name.now)) }
{
    match find_method(program, index, name.as_slice()) {
        Some((number, _)) => Ok(number),
        None => {
            let missing = copy_name(alloc, name.as_slice())?;
            Err(PolicyFault::MissingMethod(missing))
        }
    }
}

fn place_labels(
    alloc: Global,
    program: &Program,
    index: &MethodIndex,
    labels: &[NumberedLabel],
) -> Result<List<(MethodId, Label)>, PolicyFault>
    requires { IsIndexOf program.now index.now }
    ensures { Gives (λ x. x) result (placed_by program.now labels.now) }
{
    let mut placed = List::new(alloc);
    for label in labels {
        let number = method_of(alloc, program, index, &label.method)?;
        placed.push((Id::of(number), label.label))?;
    }
    Ok(placed)
}

// ---- the labels by methods

/// A label or none for each method, and the first method that has two.
#[derive(Drop)]
struct Table {
    labels: Vec<Option<Label>>,
    twice: Option<u32>,
}

/// Labels in the order of the policy, and the same by their methods.
#[derive(Drop)]
pub struct ByMethod {
    pub placed: List<(MethodId, Label)>,
    pub labels: Vec<Option<Label>>,
    pub twice: Option<u32>,
}

/// Sets a method's label. Says whether it had one.
fn enter(labels: &mut [Option<Label>], item: &(MethodId, Label)) -> bool
    requires { item.now.0 < length labels.old }
    ensures had { result ≡ is_some (table_at labels.old item.now.0) }
    ensures set { labels.new ≡ slice_set labels.old item.now.0 (Some item.now.1) }
{
    let place = item.0.number() as usize;
    let had = labels[place].is_some();
    labels[place] = Some(item.1);
    had
}

/// No label for any method.
fn no_labels(alloc: Global, count: u32) -> Result<Vec<Option<Label>>, Memory>
    ensures { IfOk result (λ labels. labels.items ≡ table_of count []) }
{
    let mut labels = Vec::new(alloc);
    for place in 0..count {
        labels.push(None)?;
    }
    Ok(labels)
}

fn first_of(again: bool, method: u32, later: Option<u32>) -> Option<u32>
    ensures { result ≡ (if again then Some method else later) }
{
    if again { Some(method) } else { later }
}

fn label_table(alloc: Global, count: u32, placed: &[(MethodId, Label)]) -> Result<Table, Memory>
    requires { AllByRecursion (λ item. item.0 < count) placed.now }
    ensures labels { IfOk result (λ table. table.labels.items ≡ table_of count placed.now) }
    ensures twice { IfOk result (λ table. table.twice ≡ first_twice placed.now) }
{
    let mut labels = no_labels(alloc, count)?;
    let mut twice = None;
    let mut i = placed.len();
    while i > 0 {
        i -= 1;
        let item = &placed[i];
        let again = enter(labels.as_mut_slice(), item);
        twice = first_of(again, item.0.number(), twice);
    }
    Ok(Table { labels, twice })
}

fn by_method(alloc: Global, count: u32, placed: List<(MethodId, Label)>) -> Result<ByMethod, Memory>
    requires { AllByRecursion (λ item. item.0 < count) placed }
    ensures placed { IfOk result (λ table. table.placed ≡ placed) }
    ensures table { IfOk result (IsByMethod count) }
{
    let table = label_table(alloc, count, placed.as_slice())?;
    Ok(ByMethod {
        placed,
        labels: table.labels,
        twice: table.twice,
    })
}

pub fn label_at(labels: &[Option<Label>], method: u32) -> Option<Label>
    ensures { result ≡ table_at labels.now method }
{
    match labels.get(method as usize) {
        Some(label) => *label,
        None => None,
    }
}

/// The methods with a label, in order.
fn list_labels(alloc: Global, labels: &[Option<Label>]) -> Result<List<(MethodId, Label)>, Memory>
    requires { length labels.now < 2 ^ 32 }
    ensures { IfOk result (λ labelled. labelled ≡ ordered_from 0 labels.now) }
{
    let mut labelled = List::new(alloc);
    for (i, item) in labels.iter().enumerate() {
        if let Some(label) = *item {
            add(&mut labelled, (Id::of(i as u32), label))?;
        }
    }
    Ok(labelled)
}

// ---- what may be wrong

fn no_twice(count: u32, table: &ByMethod) -> Result<(), PolicyFault>
    requires { IsByMethod count table.now }
    ensures { Gives (λ x. x) result (refused PolicyFault.TwiceLabelled (first_twice table.now.placed)) }
{
    match table.twice {
        Some(method) => Err(PolicyFault::TwiceLabelled(Id::of(method))),
        None => Ok(()),
    }
}

/// The descriptor that a label asks for.
fn desc_for(label: Label) -> &'static [u8]
    ensures { result.now ≡ shape_of label }
{
    match label {
        Label::Source(_) => b"()I",
        Label::Sink(_) => b"(I)V",
        Label::Release { from: _, to: _ } => b"(I)I",
    }
}

fn fits_label(method: &Method, label: Label) -> bool
    ensures { result ≡ fits_it method.now label }
{
    has_flag(ACC_STATIC, method.flags)
        && has_flag(ACC_NATIVE, method.flags)
        && method.code.is_none()
        && method.desc.as_slice() == desc_for(label)
}

fn is_misshapen(program: &Program, method: MethodId, label: Label) -> bool
    ensures { result ≡ misshapen program.now (method, label) }
{
    match method_at(program, method) {
        Some(method) => !fits_label(method, label),
        None => true,
    }
}

fn no_misshapen(program: &Program, placed: &[(MethodId, Label)]) -> Result<(), PolicyFault>
    ensures { Gives (λ x. x) result (refused PolicyFault.WrongShape
        (first_misshapen program.now placed.now)) }
{
    for item in placed {
        if is_misshapen(program, item.0, item.1) {
            return Err(PolicyFault::WrongShape(item.0));
        }
    }
    Ok(())
}

fn is_unlabelled(program: &Program, method: &Method, label: Option<Label>) -> bool
    ensures { result ≡ unlabelled program.now method.now label }
{
    is_of_files(program, method) && has_flag(ACC_NATIVE, method.flags) && label.is_none()
}

fn none_unlabelled(program: &Program, labels: &[Option<Label>]) -> Result<(), PolicyFault>
    requires { length program.now.methods < 2 ^ 32 }
    ensures { Gives (λ x. x) result (refused PolicyFault.UnlabelledNative (unlabelled_from program.now
        (table_at labels.now) 0 program.now.methods)) }
{
    for (i, method) in program.methods.as_slice().iter().enumerate() {
        let label = label_at(labels, i as u32);
        if is_unlabelled(program, method, label) {
            return Err(PolicyFault::UnlabelledNative(Id::of(i as u32)));
        }
    }
    Ok(())
}

fn no_unlabelled(program: &Program, table: &ByMethod) -> Result<(), PolicyFault>
    requires few { length program.now.methods < 2 ^ 32 }
    requires table { IsByMethod (length program.now.methods) table.now }
    ensures { Gives (λ x. x) result (refused PolicyFault.UnlabelledNative
        (first_unlabelled program.now table.now.placed)) }
{
    none_unlabelled(program, table.labels.as_slice())
}

fn is_upward(order: &Levels, label: Label) -> bool
    ensures { result ≡ upward (flows_in order.now) label }
{
    match label {
        Label::Release { from, to } => !order.flows(to, from),
        _ => false,
    }
}

fn no_upward(order: &Levels, placed: &[(MethodId, Label)]) -> Result<(), PolicyFault>
    ensures { Gives (λ x. x) result (refused PolicyFault.ReleaseUpward (first_upward
        (flows_in order.now) placed.now)) }
{
    for item in placed {
        if is_upward(order, item.1) {
            return Err(PolicyFault::ReleaseUpward(item.0));
        }
    }
    Ok(())
}

/// The methods with their labels in order, and the same as a table.
#[derive(Drop)]
pub struct Labelled {
    pub labelled: List<(MethodId, Label)>,
    pub by_method: Vec<Option<Label>>,
}

/// The labels of a program's methods, or the first thing that is wrong with them.
pub fn label_methods(
    alloc: Global,
    program: &Program,
    index: &MethodIndex,
    order: &Levels,
    labels: &[NumberedLabel],
) -> Result<Labelled, PolicyFault>
    requires few { length program.now.methods < 2 ^ 32 }
    requires index { IsIndexOf program.now index.now }
    ensures labelled { Gives (λ l. l.labelled) result (labelled_of
        (flows_in order.now) program.now labels.now) }
    ensures table { IfOk result (λ l. l.labelled ≡ ordered_from 0 l.by_method.items) }
{
    let placed = place_labels(alloc, program, index, labels)?;
    let count = program.methods.as_slice().len() as u32;
    let table = by_method(alloc, count, placed)?;
    no_twice(count, &table)?;
    no_misshapen(program, table.placed.as_slice())?;
    no_unlabelled(program, &table)?;
    no_upward(order, table.placed.as_slice())?;
    let labelled = list_labels(alloc, table.labels.as_slice())?;
    Ok(Labelled {
        labelled,
        by_method: table.labels,
    })
}

//! Reads what the tree of a run file says.
ghost use Rattle.std.specs.Prelude.{◌≡◌, option_map, option_and_then, IfOk, codes};
ghost use Rattle.toml.specs.Data.{get_member, as_integer, as_array};
ghost use Rattle.toml.specs.View.{view, items_view, table_view};
ghost use Rattle.policy_tree.specs.RunTree.{RunGives, key_or, natural_in as natural_by, int_in as int_by, naturals_in as naturals_by, ints_in as ints_by, steps_of as steps_by, schedule_of as schedule_by, inputs_in as inputs_by, inputs_of as all_inputs_by, no_other_run_key, written_run};

use crate::keys::{KeySet, first_unknown, value_at};
use jo_ids::{List, Memory};
use jo_text::Name;
use std::alloc::{AllocError, Global};
use toml::{Table, Value};

/// What is wrong with a run file.
#[derive(Clone, Copy, PartialEq, Eq, Debug)]
pub enum RunFileFault {
    NotToml,
    /// A key is unknown or missing, or its value is of another kind.
    Key,
    /// A key of `inputs` is no source.
    Source,
    /// An integer is out of its range.
    Range,
    Memory,
}

impl From<AllocError> for RunFileFault {
    ghost use Rattle.std.specs.Prelude.{◌≡◌};
    ghost use Rattle.policy_tree.specs.declared.runs.RunFileFault.TheVariants.{Memory};

    ghost from_gives = { λ _ fault. fault ≡ Memory };

    fn from(_e: AllocError) -> RunFileFault {
        RunFileFault::Memory
    }
}

impl<T: Drop> From<(T, AllocError)> for RunFileFault {
    ghost use Rattle.std.specs.Prelude.{◌≡◌};
    ghost use Rattle.policy_tree.specs.declared.runs.RunFileFault.TheVariants.{Memory};

    ghost from_gives = { λ _ fault. fault ≡ Memory };

    fn from(_e: (T, AllocError)) -> RunFileFault {
        RunFileFault::Memory
    }
}

/// The ints of a source by its spelling, each none where it is out of its range.
#[derive(Drop)]
pub struct WrittenInput {
    pub source: Name,
    pub values: List<Option<i32>>,
}

/// What a run file says. Numbers out of their ranges are none.
#[derive(Drop)]
pub struct WrittenRun {
    pub steps: Option<u32>,
    pub schedule: List<Option<u32>>,
    pub inputs: List<WrittenInput>,
}

fn integer_of(value: Option<&Value>) -> Result<i64, RunFileFault>
    ensures { RunGives (λ x. x) result (key_or (option_and_then as_integer (option_map (λ v. view v.now) value.entry))) }
{
    let Some(value) = value else {
        return Err(RunFileFault::Key);
    };
    match value.as_integer() {
        Some(number) => Ok(number),
        None => Err(RunFileFault::Key),
    }
}

fn array_of(value: &Value) -> Result<&[Value], RunFileFault>
    ensures { RunGives (λ values. items_view values.now) result (key_or (as_array (view value.now))) }
{
    match value.as_array() {
        Some(values) => Ok(values.as_slice()),
        None => Err(RunFileFault::Key),
    }
}

/// The number, where it is from 0 to the most.
fn natural_in(most: u32, number: i64) -> Option<u32>
    ensures { result ≡ natural_by most number }
{
    if number >= 0 && number <= i64::from(most) {
        Some(number as u32)
    } else {
        None
    }
}

/// The number, where it has 32 bits.
fn int_in(number: i64) -> Option<i32>
    ensures { result ≡ int_by number }
{
    let half = 1i64 << 31;
    if number >= 0 - half && number < half {
        Some(number as i32)
    } else {
        None
    }
}

fn steps_of(tree: &Table) -> Result<Option<u32>, RunFileFault>
    ensures { RunGives (λ x. x) result (steps_by (table_view tree.now)) }
{
    let steps = integer_of(value_at(tree, "steps"))?;
    Ok(natural_in(10_000_000, steps))
}

fn naturals_in(alloc: Global, values: &[Value]) -> Result<List<Option<u32>>, RunFileFault>
    ensures { RunGives (λ x. x) result (naturals_by (items_view values.now)) }
{
    let mut numbers = List::new(alloc);
    for value in values {
        let number = integer_of(Some(value))?;
        numbers.push(natural_in(2_147_483_647, number))?;
    }
    Ok(numbers)
}

fn ints_in(alloc: Global, values: &[Value]) -> Result<List<Option<i32>>, RunFileFault>
    ensures { RunGives (λ x. x) result (ints_by (items_view values.now)) }
{
    let mut numbers = List::new(alloc);
    for value in values {
        let number = integer_of(Some(value))?;
        numbers.push(int_in(number))?;
    }
    Ok(numbers)
}

fn schedule_of(alloc: Global, tree: &Table) -> Result<List<Option<u32>>, RunFileFault>
    ensures { RunGives (λ x. x) result (schedule_by (get_member (codes "schedule") (table_view tree.now))) }
{
    match value_at(tree, "schedule") {
        None => Ok(List::new(alloc)),
        Some(value) => {
            let values = array_of(value)?;
            naturals_in(alloc, values)
        }
    }
}

fn inputs_in(alloc: Global, entries: &Table) -> Result<List<WrittenInput>, RunFileFault>
    ensures { RunGives (λ x. x) result (inputs_by (table_view entries.now)) }
{
    let mut inputs = List::new(alloc);
    for (key, value) in entries {
        let items = array_of(value)?;
        let values = ints_in(alloc, items)?;
        let source = copy_key(alloc, key.as_str())?;
        inputs.push(WrittenInput { source, values })?;
    }
    Ok(inputs)
}

fn copy_key(alloc: Global, key: &str) -> Result<Name, Memory>
    ensures { IfOk result (λ name. name ≡ key.now) }
{
    let mut name = Name::new(alloc);
    name.append(key.as_bytes())?;
    Ok(name)
}

fn inputs_of(alloc: Global, tree: &Table) -> Result<List<WrittenInput>, RunFileFault>
    ensures { RunGives (λ x. x) result (all_inputs_by (get_member (codes "inputs") (table_view tree.now))) }
{
    let Some(value) = value_at(tree, "inputs") else {
        return Ok(List::new(alloc));
    };
    match value.as_table() {
        Some(entries) => inputs_in(alloc, entries),
        None => Err(RunFileFault::Key),
    }
}

fn no_other(tree: &Table) -> Result<(), RunFileFault>
    ensures { RunGives (λ x. x) result (no_other_run_key (table_view tree.now)) }
{
    match first_unknown(KeySet::Run, tree) {
        Some(_) => Err(RunFileFault::Key),
        None => Ok(()),
    }
}

/// What a tree says, or `Key` where a key is missing, unknown or of another kind.
pub fn read_written_run(alloc: Global, tree: &Table) -> Result<WrittenRun, RunFileFault>
    ensures { RunGives (λ x. x) result (written_run (table_view tree.now)) }
{
    let steps = steps_of(tree)?;
    let schedule = schedule_of(alloc, tree)?;
    let inputs = inputs_of(alloc, tree)?;
    no_other(tree)?;
    Ok(WrittenRun {
        steps,
        schedule,
        inputs,
    })
}

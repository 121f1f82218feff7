//! Run files: how many steps, by which schedule, and what the sources give.
ghost use Rattle.std.specs.Prelude.{◌≡◌, ◌<◌, ◌^◌, length, IfOk, IfErr};
ghost use Rattle.toml.specs.Data.{Members};
ghost use Rattle.toml.specs.View.{table_view};
ghost use Rattle.policy_tree.specs.RunTree.{RunGives};
ghost use Rattle.jo_policy.specs.FileMethods.{IsIndexOf};
ghost use Rattle.jo_policy.specs.Policies.{IsTree};
ghost use Rattle.run_plans.specs.RunFiles.{or_source, or_range, is_source as source_label, source_named, placed_input, placed_inputs, within, inputs_within as all_within, plan_by, plan_of, OrNoMemory, IsRunFault};

use jo_ids::{Id, List, Memory, MethodId};
use jo_policy::{MethodIndex, Policy, find_method, index_methods};
use jo_prog::labels::Label;
use jo_prog::lists::add;
use jo_prog::program::Program;
use jo_prog::runs::{Inputs, SourceInput};
use policy_tree::{RunFileFault, WrittenInput, WrittenRun, read_written_run};
use std::alloc::Global;
use toml::Table;

/// How to run a program. The schedule is repeated until all steps are taken; an empty one is all zeros.
#[derive(Drop)]
pub struct RunPlan {
    pub steps: u32,
    pub schedule: List<u32>,
    pub inputs: Inputs,
}

impl RunPlan {
    ghost use Rattle.run_plans.specs.Schedules.{picked};

    /// The number of the schedule at a step, where steps count from 0.
    pub fn picked(&self, step: u32) -> u32
        ensures { result ≡ picked self.now.schedule step }
    {
        let schedule = self.schedule.as_slice();
        if schedule.is_empty() {
            return 0;
        }
        schedule[step as usize % schedule.len()]
    }
}

/// The values of a source, each none where it is out of its range.
#[derive(Drop)]
pub struct PlacedInput {
    pub source: MethodId,
    pub values: List<Option<i32>>,
}

fn is_source(label: Option<Label>) -> bool
    ensures { result ≡ source_label label }
{
    matches!(label, Some(Label::Source(_)))
}

/// The source that a text spells.
#[tactic(auto, unfolding(crate::specs::RunFiles::source_named))]
fn source_of(
    program: &Program,
    policy: &Policy,
    index: &MethodIndex,
    text: &[u8],
) -> Result<u32, RunFileFault>
    requires { IsIndexOf program.now index.now }
    ensures { RunGives (λ x. x) result (or_source
        (source_named program.now policy.now.labels text.now)) }
{
    match find_method(program, index, text) {
        Some((number, _)) => {
            if is_source(policy.label(Id::of(number))) {
                Ok(number)
            } else {
                Err(RunFileFault::Source)
            }
        }
        None => Err(RunFileFault::Source),
    }
}

fn copy_values(alloc: Global, values: &[Option<i32>]) -> Result<List<Option<i32>>, Memory>
    ensures { IfOk result (λ copied. copied ≡ values.now) }
{
    let mut copied = List::new(alloc);
    for value in values {
        add(&mut copied, *value)?;
    }
    Ok(copied)
}

#[tactic(auto, unfolding(crate::specs::RunFiles::placed_input))]
fn place_input(
    alloc: Global,
    program: &Program,
    policy: &Policy,
    index: &MethodIndex,
    input: &WrittenInput,
) -> Result<PlacedInput, RunFileFault>
    requires { IsIndexOf program.now index.now }
    ensures { RunGives (λ x. x) result
        (placed_input program.now policy.now.labels input.now) }
{
    let source = source_of(program, policy, index, input.source.as_slice())?;
    let values = copy_values(alloc, input.values.as_slice())?;
    Ok(PlacedInput {
        source: Id::of(source),
        values,
    })
}

fn place_inputs(
    alloc: Global,
    program: &Program,
    policy: &Policy,
    index: &MethodIndex,
    inputs: &[WrittenInput],
) -> Result<List<PlacedInput>, RunFileFault>
    requires { IsIndexOf program.now index.now }
    ensures { RunGives (λ x. x) result
        (placed_inputs program.now policy.now.labels inputs.now) }
{
    let mut placed = List::new(alloc);
    for input in inputs {
        let one = place_input(alloc, program, policy, index, input)?;
        placed.push(one)?;
    }
    Ok(placed)
}

// ---- ranges

fn natural_within(value: Option<u32>) -> Result<u32, RunFileFault>
    ensures { RunGives (λ x. x) result (or_range value) }
{
    match value {
        Some(number) => Ok(number),
        None => Err(RunFileFault::Range),
    }
}

fn int_within(value: Option<i32>) -> Result<i32, RunFileFault>
    ensures { RunGives (λ x. x) result (or_range value) }
{
    match value {
        Some(number) => Ok(number),
        None => Err(RunFileFault::Range),
    }
}

fn naturals_within(alloc: Global, values: &[Option<u32>]) -> Result<List<u32>, RunFileFault>
    ensures { RunGives (λ x. x) result (within values.now) }
{
    let mut numbers = List::new(alloc);
    for value in values {
        let number = natural_within(*value)?;
        numbers.push(number)?;
    }
    Ok(numbers)
}

fn ints_within(alloc: Global, values: &[Option<i32>]) -> Result<List<i32>, RunFileFault>
    ensures { RunGives (λ x. x) result (within values.now) }
{
    let mut numbers = List::new(alloc);
    for value in values {
        let number = int_within(*value)?;
        numbers.push(number)?;
    }
    Ok(numbers)
}

fn inputs_within(alloc: Global, placed: &[PlacedInput]) -> Result<Inputs, RunFileFault>
    ensures { RunGives (λ x. x) result (all_within placed.now) }
{
    let mut inputs = List::new(alloc);
    for input in placed {
        let values = ints_within(alloc, input.values.as_slice())?;
        inputs.push(SourceInput {
            source: input.source,
            values,
        })?;
    }
    Ok(inputs)
}

// ---- the plan

fn plan_with(
    alloc: Global,
    program: &Program,
    policy: &Policy,
    index: &MethodIndex,
    written: &WrittenRun,
) -> Result<RunPlan, RunFileFault>
    requires { IsIndexOf program.now index.now }
    ensures { RunGives (λ x. x) result
        (plan_by program.now policy.now.labels written.now) }
{
    let placed = place_inputs(alloc, program, policy, index, written.inputs.as_slice())?;
    let steps = natural_within(written.steps)?;
    let schedule = naturals_within(alloc, written.schedule.as_slice())?;
    let inputs = inputs_within(alloc, placed.as_slice())?;
    Ok(RunPlan {
        steps,
        schedule,
        inputs,
    })
}

fn from_tree(
    alloc: Global,
    tree: &Table,
    program: &Program,
    policy: &Policy,
) -> Result<RunPlan, RunFileFault>
    requires { length program.now.methods < 2 ^ 32 }
    ensures { RunGives (λ x. x) result (plan_of program.now policy.now.labels
        (table_view tree.now)) }
{
    let written = read_written_run(alloc, tree)?;
    let index = index_methods(alloc, program)?;
    plan_with(alloc, program, policy, &index, &written)
}

/// The plan that a text gives for a program and its policy, or the first fault of the text.
pub fn read_run(
    alloc: Global,
    text: &[u8],
    program: &Program,
    policy: &Policy,
) -> Result<RunPlan, RunFileFault>
    requires { length program.now.methods < 2 ^ 32 }
    ensures plan { IfOk result (λ plan. (tree : Members) × IsTree text.now tree ×
        (plan_of program.now policy.now.labels tree ≡ Ok plan)) }
    ensures fault { IfErr result (OrNoMemory
        (IsRunFault program.now policy.now.labels text.now)) }
{
    match toml::table_from_slice(alloc, text) {
        Ok(tree) => from_tree(alloc, &tree, program, policy),
        Err(fault) if fault.is_memory() => Err(RunFileFault::Memory),
        Err(_) => Err(RunFileFault::NotToml),
    }
}

//! Runs over a schedule.
ghost use Rattle.std.specs.Prelude.{◌≡◌, ◌<◌, ◌^◌, ◌++◌, length, IfOk, OnOk};
ghost use Rattle.std.specs.Option.{option_to_list};
ghost use Rattle.machine.specs.Runs as machine;
ghost use Rattle.machine.specs.Runs.{advanced};
ghost use Rattle.hierarchy.specs.Hierarchies.{IsHierarchyOf};
ghost use Rattle.run_plans.specs.Schedules.{repeated};
ghost use Rattle.jvm_step.specs.Settings.{IsReady};
ghost use Rattle.jvm_step.specs.States.{state_of};
ghost use Rattle.jvm_step.specs.Moves.{event_of};

use crate::moves::Moved;
use crate::settings::Setting;
use crate::states::State;
use hierarchy::Hierarchy;
use jo_ids::{List, Memory};
use jo_prog::labels::Labels;
use jo_prog::lists::add;
use jo_prog::program::Program;
use jo_prog::runs::{Event, Trace};
use resolved_insns::{Instructions, Strings};
use run_plans::RunPlan;
use std::alloc::Global;

fn event_of(moved: Moved) -> Option<Event>
    ensures { result ≡ event_of moved }
{
    match moved {
        Moved::Went(event) => event,
        Moved::Stuck => None,
    }
}

fn add_shown(events: &mut List<Event>, shown: Option<Event>) -> Result<(), Memory>
    ensures { OnOk result (events.new ≡ events.old ++ option_to_list shown) }
{
    match shown {
        Some(event) => add(events, event),
        None => Ok(()),
    }
}

impl State {
    /// What a number of the schedule does, and what it shows.
    fn advance(
        &mut self,
        alloc: Global,
        setting: &Setting<'_>,
        number: u32,
    ) -> Result<Option<Event>, Memory>
        requires { IsReady setting.now }
        ensures { IfOk result (λ event. advanced setting.now.program.now setting.now.labels.now setting.now.inputs.now (state_of self.old) number ≡ record { state = state_of self.new; event = event }) }
    {
        let count = self.enabled_count(setting);
        if count == 0 {
            return Ok(None);
        }
        match self.enabled(setting, number as usize % count) {
            Some(thread) => {
                let moved = self.step(alloc, setting, thread)?;
                Ok(event_of(moved))
            }
            None => Ok(None),
        }
    }
}

/// The run from a state.
fn run_from(
    alloc: Global,
    setting: &Setting<'_>,
    plan: &RunPlan,
    state: State,
) -> Result<Trace, Memory>
    requires { IsReady setting.now }
    ensures { IfOk result (λ trace. trace ≡ machine.run_from setting.now.program.now setting.now.labels.now setting.now.inputs.now (state_of state) (repeated plan.now.schedule plan.now.steps)) }
{
    let mut state = state;
    let mut events = List::new(alloc);
    for step in 0..plan.steps {
        let shown = state.advance(alloc, setting, plan.picked(step))?;
        add_shown(&mut events, shown)?;
    }
    Ok(Trace {
        events,
        ended: state.ended(),
    })
}

/// The run of a program under its policy, with the inputs of a plan and so many steps of its schedule.
pub fn run(
    alloc: Global,
    program: &Program,
    hierarchy: &Hierarchy,
    labels: &Labels,
    plan: &RunPlan,
) -> Result<Trace, Memory>
    requires kept { IsHierarchyOf program.now hierarchy.now }
    requires few_classes { length program.now.classes < 2 ^ 32 }
    requires few { length program.now.methods < 2 ^ 32 }
    ensures { IfOk result (λ trace. trace ≡ machine.run program.now labels.now plan.now.inputs (repeated plan.now.schedule plan.now.steps)) }
{
    let strings = Strings::build(alloc, program)?;
    let instructions = Instructions::build(alloc, program, hierarchy, &strings)?;
    let state = State::start(alloc, program, labels, &strings)?;
    let setting = Setting {
        program,
        hierarchy,
        labels,
        inputs: plan.inputs.as_slice(),
        strings: &strings,
        instructions: &instructions,
    };
    run_from(alloc, &setting, plan, state)
}

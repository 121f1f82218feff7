//! The unwinding of a frame.
ghost use Rattle.std.specs.Prelude.{◌≡◌, List};
ghost use Rattle.jo_prog.specs.Machine.{Frame as OfFrame};
ghost use Rattle.machine.specs.Steps.{unwound};
ghost use Rattle.machine.specs.Invocation as machine;
ghost use Rattle.jvm_values.specs.Types.{info_in};
ghost use Rattle.jvm_frames.specs.Frames.{frame_of};
ghost use Rattle.jvm_step.specs.Settings.{IsReady};
ghost use Rattle.jvm_step.specs.States.{state_of, HasTop};
ghost use Rattle.jvm_step.specs.Moves.{StepsAt};
ghost use Rattle.jvm_step.specs.Fetches.{handler_in};

use crate::moves::Moved;
use crate::settings::Setting;
use crate::states::State;
use crate::threads::{catch_at, leave_at, top_at};
use jo_ids::{ClassId, Memory};
use jo_prog::program::code_at;
use jvm_frames::{Frame, handler_for};
use jvm_values::Address;

/// The handler of a frame for an exception of a class.
fn handler_in(setting: &Setting<'_>, frame: &Frame, class: ClassId) -> Option<u16>
    requires { IsReady setting.now }
    ensures { result ≡ handler_in setting.now.program.now (frame_of frame.now) class }
{
    match code_at(setting.program, frame.method) {
        Some(code) => handler_for(
            setting.program,
            setting.hierarchy,
            code.rows.as_slice(),
            frame.pc,
            class,
        ),
        None => None,
    }
}

impl State {
    fn handler_at(&self, setting: &Setting<'_>, place: usize, exception: Address) -> Option<u16>
        requires { IsReady setting.now }
        ensures { (f : OfFrame) (below : List OfFrame) → HasTop (state_of self.now).threads place f below → result ≡ handler_in setting.now.program.now f (machine.class_of (info_in (state_of self.now).heap exception)) }
    {
        match top_at(self.threads.as_slice(), place) {
            Some(frame) => handler_in(setting, frame, self.heap.class(exception)),
            None => None,
        }
    }

    /// The top frame goes on at the handler that catches an exception, or is dropped.
    pub(crate) fn unwind(
        &mut self,
        setting: &Setting<'_>,
        place: usize,
        exception: Address,
    ) -> Result<Moved, Memory>
        requires { IsReady setting.now }
        ensures { StepsAt (state_of self.old) (state_of self.new) place (λ f below. unwound setting.now.program.now (state_of self.old) place f below exception) result }
    {
        match self.handler_at(setting, place, exception) {
            Some(handler) => {
                match catch_at(&mut self.threads, place, u32::from(handler), exception) {
                    Ok(()) => Ok(Moved::Went(None)),
                    Err(memory) => Err(memory),
                }
            }
            None => {
                leave_at(&mut self.threads, place, exception);
                Ok(Moved::Went(None))
            }
        }
    }
}

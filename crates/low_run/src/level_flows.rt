//! What flows where among the levels of a policy, closed once.
ghost use Rattle.std.specs.Prelude.{◌≡◌, IfOk};
ghost use Rattle.jo_prog.specs.Labels.{flows};
ghost use Rattle.low_run.specs.LevelFlows.{KeepsFlows};

use jo_ids::LevelId;
use jo_order::{Levels, Order, OrderFault};
use jo_prog::labels::{self, Labels};
use std::alloc::{AllocError as Memory, Global};

/// How many names and pairs are put in order.
const MOST: usize = 1 << 31;

/// The rows of the levels; none where they are in no order, as those of a policy are.
pub fn rows_of(alloc: Global, labels: &Labels) -> Result<Option<Levels>, Memory>
    ensures { IfOk result (KeepsFlows labels.now) }
{
    let names = labels.levels.as_slice();
    let pairs = labels.flows.as_slice();
    if names.len() > MOST || pairs.len() > MOST {
        return Ok(None);
    }
    match Levels::build(alloc, names, pairs) {
        Ok(rows) => Ok(Some(rows)),
        Err(OrderFault::Memory) => Err(Memory),
        Err(_) => Ok(None),
    }
}

/// Whether what is at level `a` may flow to level `b`: by the rows, where there are some.
pub fn flows(labels: &Labels, rows: &Option<Levels>, a: LevelId, b: LevelId) -> bool
    requires { KeepsFlows labels.now rows.now }
    ensures { result ≡ flows labels.now a b }
{
    match rows {
        Some(rows) => rows.flows(a, b),
        None => labels::flows(labels, a, b),
    }
}

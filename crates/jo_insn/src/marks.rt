//! A mark for each pc of some code.
ghost use Rattle.std.specs.Prelude.{◌≡◌, false, replicate, IfOk};
ghost use Rattle.jo_insn.specs.Marks;

use crate::instructions::Memory;
use crate::jumps::Placed;
use std::alloc::Global;
use std::marker::Model;

/// Which pcs of some code are marked.
#[derive(Drop)]
pub struct PcMarks {
    marks: Vec<bool>,
}

impl Model for PcMarks {
    ghost use Rattle.std.specs.Prelude.{Bool, List};

    ghost Value = { List Bool };

    ghost view = { λ m. m.marks.items };
}

impl PcMarks {
    /// For so many pcs, none of them marked.
    pub fn none(alloc: Global, size: usize) -> Result<PcMarks, Memory>
        ensures { IfOk result (λ marks. marks ≡ replicate size false) }
    {
        let marks = vec![in alloc; false; size]?;
        Ok(PcMarks { marks })
    }

    /// Marks a pc. One past either end has no mark.
    pub fn mark(&mut self, pc: i64)
        ensures { self.new ≡ Marks.marked_at self.old pc }
    {
        if let Ok(pc) = usize::try_from(pc) {
            if let Some(mark) = self.marks.get_mut(pc) {
                *mark = true;
            }
        }
    }

    /// Whether a pc is marked. None past either end is.
    pub fn is_marked(&self, pc: i64) -> bool
        ensures { result ≡ Marks.is_marked self.now pc }
    {
        match usize::try_from(pc) {
            Ok(pc) => self.marks.get(pc).copied().unwrap_or(false),
            Err(_) => false,
        }
    }
}

/// Where these instructions start, in code of this size.
pub fn starts_of(alloc: Global, size: usize, insns: &[Placed]) -> Result<PcMarks, Memory>
    ensures { IfOk result (λ marks. marks ≡ Marks.starts_of size insns.now) }
{
    let mut starts = PcMarks::none(alloc, size)?;
    for placed in insns {
        starts.mark(i64::from(placed.pc));
    }
    Ok(starts)
}

#[cfg(test)]
mod tests {
    use super::*;
    use crate::Insn;
    use std::test::Fail;

    #[test]
    fn starts_are_marked(rt: HostRuntime) -> Result<(), Fail> {
        let insn = Insn::Plain(0);
        let insns = [
            Placed {
                pc: 0,
                insn,
                next: 2,
            },
            Placed {
                pc: 2,
                insn,
                next: 3,
            },
        ];
        let starts = starts_of(rt.alloc(), 3, &insns)?;
        for (pc, wanted) in [(-1, false), (0, true), (1, false), (2, true), (3, false)] {
            assert_eq!(rt; starts.is_marked(pc), wanted, "{pc}");
        }
        Ok(())
    }
}

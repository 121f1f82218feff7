//! The instructions of all methods in a table.
ghost use Rattle.std.specs.Prelude.{◌≡◌, ◌<◌, ◌^◌, length, Some, None, IfOk, OnOk, slice_set};
ghost use Rattle.std.specs.List.{AllByRecursion};
ghost use Rattle.std.specs.Option.{option_copied};
ghost use Rattle.jo_insn.specs.Jumps.{IsPlacedIn};
ghost use Rattle.jo_prog.specs.Program.{code_at as code_with};
ghost use Rattle.hierarchy.specs.Hierarchies.{IsHierarchyOf};
ghost use Rattle.resolved_insns.specs.Strings.{AreStringsOf};
ghost use Rattle.resolved_insns.specs.Tables.{HasCalls, IsWhole, IsRowIn, IsRowOf, found_in, AreInstructionsOf};

use crate::resolving::{LONGEST_CODE, pooled_at, resolve};
use crate::strings::Strings;
use hierarchy::Hierarchy;
use jo_ids::{Id, Memory, MethodId};
use jo_insn::Placed;
use jo_prog::program::{Code, Program, code_at};
use jo_prog::sites::instructions;
use jvm_values::Resolved;
use std::alloc::Global;

/// For each method and each pc the instruction that starts there.
#[derive(Drop)]
pub struct Instructions {
    rows: Vec<Vec<Option<Resolved>>>,
}

/// For each pc of some code the instruction there, where it names an operand: no call is missing, also where no instruction starts.
fn row_of_calls(
    alloc: Global,
    program: &Program,
    hierarchy: &Hierarchy,
    strings: &Strings,
    method: MethodId,
    code: &[u8],
) -> Result<Vec<Option<Resolved>>, Memory>
    requires kept { IsHierarchyOf program.now hierarchy.now }
    requires strings { AreStringsOf program.now strings.now }
    requires short { length code.now < 2 ^ 16 }
    ensures size { IfOk result (λ row. length row.items ≡ length code.now) }
    ensures calls { IfOk result (λ row. HasCalls program.now method code.now row.items) }
{
    let mut row = Vec::new(alloc);
    for pc in 0..code.len() {
        let found = pooled_at(alloc, program, hierarchy, strings, method, code, pc as u32)?;
        row.push(found)?;
    }
    Ok(row)
}

fn set<T: Drop>(items: &mut Vec<T>, place: usize, item: T)
    ensures { items.new.items ≡ slice_set items.old.items place item }
{
    if place < items.len() {
        items[place] = item;
    }
}

/// Puts each of these instructions at its pc.
fn fill(
    alloc: Global,
    program: &Program,
    hierarchy: &Hierarchy,
    strings: &Strings,
    method: MethodId,
    code: &[u8],
    insns: &[Placed],
    row: &mut Vec<Option<Resolved>>,
) -> Result<(), Memory>
    requires kept { IsHierarchyOf program.now hierarchy.now }
    requires strings { AreStringsOf program.now strings.now }
    requires short { length code.now < 2 ^ 16 }
    requires placed { AllByRecursion (IsPlacedIn code.now) insns.now }
    requires size { length row.old.items ≡ length code.now }
    requires calls { HasCalls program.now method code.now row.old.items }
    ensures { OnOk result (IsWhole program.now method code.now insns.now row.new.items) }
{
    for placed in insns {
        let found = resolve(alloc, program, hierarchy, strings, method, code, placed)?;
        set(row, placed.pc as usize, found);
    }
    Ok(())
}

/// The instructions of some code, under their pcs.
fn row_in(
    alloc: Global,
    program: &Program,
    hierarchy: &Hierarchy,
    strings: &Strings,
    method: MethodId,
    code: &Code,
) -> Result<Vec<Option<Resolved>>, Memory>
    requires kept { IsHierarchyOf program.now hierarchy.now }
    requires strings { AreStringsOf program.now strings.now }
    ensures { IfOk result (λ row. IsRowIn program.now method (Some code.now) row.items) }
{
    let bytes = code.bytes.as_slice();
    if bytes.len() > LONGEST_CODE {
        return Ok(Vec::new(alloc));
    }
    let insns = instructions(alloc, bytes)?;
    let mut row = row_of_calls(alloc, program, hierarchy, strings, method, bytes)?;
    fill(
        alloc,
        program,
        hierarchy,
        strings,
        method,
        bytes,
        insns.as_slice(),
        &mut row,
    )?;
    Ok(row)
}

fn row_of(
    alloc: Global,
    program: &Program,
    hierarchy: &Hierarchy,
    strings: &Strings,
    method: MethodId,
) -> Result<Vec<Option<Resolved>>, Memory>
    requires kept { IsHierarchyOf program.now hierarchy.now }
    requires strings { AreStringsOf program.now strings.now }
    ensures { IfOk result (λ row. IsRowOf program.now method row.items) }
{
    match code_at(program, method) {
        Some(code) => {
            let row = row_in(alloc, program, hierarchy, strings, method, code)?;
            Ok(row)
        }
        None => Ok(Vec::new(alloc)),
    }
}

impl Instructions {
    /// Looks up what the instructions of a program name.
    pub fn build(
        alloc: Global,
        program: &Program,
        hierarchy: &Hierarchy,
        strings: &Strings,
    ) -> Result<Instructions, Memory>
        requires short { length program.now.methods < 2 ^ 32 }
        requires kept { IsHierarchyOf program.now hierarchy.now }
        requires strings { AreStringsOf program.now strings.now }
        ensures { IfOk result (AreInstructionsOf program.now) }
    {
        let mut rows = Vec::new(alloc);
        for method in 0..program.methods.as_slice().len() {
            let row = row_of(alloc, program, hierarchy, strings, Id::of(method as u32))?;
            rows.push(row)?;
        }
        Ok(Instructions { rows })
    }

    /// The instruction at a pc of a method, where one starts there when the code is read from its first byte on, and what it names is
    /// found; a call is found at every pc. `None` may stand at all other pcs.
    pub fn at(&self, method: MethodId, pc: u32) -> Option<&Resolved>
        ensures { option_copied result ≡ found_in self.now method pc }
    {
        match self.rows.get(method.number() as usize) {
            Some(row) => match row.get(pc as usize) {
                Some(found) => found.as_ref(),
                None => None,
            },
            None => None,
        }
    }
}

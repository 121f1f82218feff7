//! The heights of a method's stack.
ghost use Rattle.std.specs.Prelude.{◌≡◌, ◌↔◌, ℕ, Some, IfOk};
ghost use Rattle.jo_prog.specs.TypingPaths.{HasHeightAt};
ghost use Rattle.typing_heights.specs.HeightFaults.{IsHeightAnswer};
ghost use Rattle.typing_heights.specs.Searches.{height_at};

use crate::faults::{first_of, height_faults};
use crate::moves::moves_of;
use crate::search::find_heights;
use crate::subjects::Subject;
use jo_ids::{Memory, MethodId};
use jo_prog::program::{Program, method_at};
use jo_prog::typed::{TypeFault, Typed};
use std::alloc::Global;

/// The height at each pc of the method that a typing path reaches, that of the first one, and none elsewhere. A method without code
/// has none. Each instruction that is reached is read once, with the rows of the method.
pub fn heights_of(alloc: Global, program: &Program, method: MethodId) -> Result<Typed, Memory>
    ensures { IfOk result (λ typed. (pc h : ℕ) → (height_at typed pc ≡ Some h) ↔ HasHeightAt program.now method pc h) }
{
    let Some(found) = method_at(program, method) else {
        return Ok(Typed::of(Vec::new(alloc)));
    };
    let Some(code) = &found.code else {
        return Ok(Typed::of(Vec::new(alloc)));
    };
    let subject = Subject {
        program,
        number: method,
        method: found,
        code,
    };
    let heights = find_heights(alloc, &subject)?;
    Ok(Typed::of(heights))
}

/// The first fault of the method that the heights of its typing paths tell: all faults but those of kinds. A method without code has
/// none.
pub fn first_height_fault(
    alloc: Global,
    program: &Program,
    method: MethodId,
) -> Result<Option<TypeFault>, Memory>
    ensures { IfOk result (λ fault. IsHeightAnswer program.now method fault) }
{
    let Some(found) = method_at(program, method) else {
        return Ok(None);
    };
    let Some(code) = &found.code else {
        return Ok(None);
    };
    let subject = Subject {
        program,
        number: method,
        method: found,
        code,
    };
    let heights = find_heights(alloc, &subject)?;
    let moves = moves_of(alloc, &subject, heights.as_slice())?;
    let faults = height_faults(alloc, &subject, heights.as_slice(), moves.as_slice())?;
    Ok(first_of(faults.as_slice()))
}

#[cfg(test)]
mod tests {
    use super::*;
    use jo_ids::{Id, List};
    use jo_prog::lists::add;
    use jo_prog::program::{Code, Method, Row};
    use jo_text::Name;
    use std::test::Fail;

    fn name(alloc: Global, text: &[u8]) -> Result<Name, Memory> {
        let mut name = Name::new(alloc);
        name.append(text)?;
        Ok(name)
    }

    /// A program whose one method is static, with this code, which pushes at most two places, and this row.
    fn program_of(alloc: Global, bytes: &[u8], row: Option<Row>) -> Result<Program, Memory> {
        let mut rows = List::new(alloc);
        if let Some(row) = row {
            add(&mut rows, row)?;
        }
        let code = Code {
            max_stack: 2,
            max_locals: 0,
            bytes: name(alloc, bytes)?,
            rows,
        };
        let method = Method {
            class: Id::of(0),
            name: name(alloc, b"m")?,
            desc: name(alloc, b"()V")?,
            flags: 8,
            code: Some(code),
        };
        let mut methods = List::new(alloc);
        add(&mut methods, method)?;
        Program::build(alloc, List::new(alloc), List::new(alloc), methods)
    }

    /// iconst_1, iconst_0, ifeq to 6, iconst_2, pop at 6, return: the jump comes to 6 first.
    #[test]
    fn the_first_path_tells(rt: HostRuntime) -> Result<(), Fail> {
        let program = program_of(rt.alloc(), &[4, 3, 153, 0, 4, 5, 87, 177], None)?;
        let typed = heights_of(rt.alloc(), &program, Id::of(0))?;
        assert_eq!(rt; typed.height(0), Some(0));
        assert_eq!(rt; typed.height(1), Some(1));
        assert_eq!(rt; typed.height(2), Some(2));
        assert_eq!(rt; typed.height(3), None);
        assert_eq!(rt; typed.height(5), Some(1));
        assert_eq!(rt; typed.height(6), Some(1));
        assert_eq!(rt; typed.height(7), Some(0));
        assert_eq!(rt; typed.height(8), None);
        Ok(())
    }

    /// iconst_0, pop, return, and a handler at 3 that pops and returns, over the first two.
    #[test]
    fn a_handler_has_one(rt: HostRuntime) -> Result<(), Fail> {
        let row = Row {
            start: 0,
            end: 2,
            handler: 3,
            catches: None,
        };
        let program = program_of(rt.alloc(), &[3, 87, 177, 87, 177], Some(row))?;
        let typed = heights_of(rt.alloc(), &program, Id::of(0))?;
        assert_eq!(rt; typed.height(1), Some(1));
        assert_eq!(rt; typed.height(2), Some(0));
        assert_eq!(rt; typed.height(3), Some(1));
        assert_eq!(rt; typed.height(4), Some(0));
        Ok(())
    }

    /// A path ends where the stack is too low, and a method that isn't there has no heights.
    #[test]
    fn paths_end(rt: HostRuntime) -> Result<(), Fail> {
        let program = program_of(rt.alloc(), &[87, 177], None)?;
        let typed = heights_of(rt.alloc(), &program, Id::of(0))?;
        assert_eq!(rt; typed.height(0), Some(0));
        assert_eq!(rt; typed.height(1), None);
        let none = heights_of(rt.alloc(), &program, Id::of(1))?;
        assert_eq!(rt; none.height(0), None);
        Ok(())
    }
}

//! Reads the attribute Code (JVM Specification SE 8, 4.7.3).
ghost use Rattle.std.specs.Prelude.{◌≡◌, ◌+◌, ◌*◌, ◌^◌, ◌<◌, length, IfOk};
ghost use Rattle.class_pool.specs.Items.{many};
ghost use Rattle.class_pool.specs.Code.{insns_of};
ghost use Rattle.class_pool.specs.ClassOrder.{read_code, read_row, read_spelled, code_checked};
ghost use Rattle.class_pool.specs.Outcomes.{Gives};
ghost use Rattle.class_read.specs.Codes.{spelled_of, HasRoom};

use crate::instructions::instructions;
use crate::jumps::{check_jumps, check_rows};
use crate::kept::kept_code;
use crate::parts::skip_attributes;
use class_pool::items::{bytes_of, fault_at, number_of_four, number_of_two, place_of, two_numbers};
use class_pool::{ClassCode, CodeInfo, KnownPool, RowInfo, Stop};
use jo_ids::List;
use jo_insn::starts_of;
use jo_text::Name;
use std::alloc::Global;

/// The attribute as it is spelled: its limits, the place of its code and the code, the place of its rows and the rows.
#[derive(Drop)]
pub struct Spelled<'a> {
    pub max_stack: u16,
    pub max_locals: u16,
    pub code_place: u32,
    pub code: &'a [u8],
    pub rows_place: u32,
    pub rows: List<RowInfo>,
}

fn row(size: u32, rest: &[u8]) -> Result<(RowInfo, &[u8]), Stop>
    ensures value { Gives (λ x. (x.0, x.1.now)) result (read_row size rest.now) }
    ensures eight { IfOk result (λ x. 8 + length x.1.now ≡ length rest.now) }
{
    let ((start, end), rest) = two_numbers(size, rest)?;
    let ((handler, catch_type), rest) = two_numbers(size, rest)?;
    let row = RowInfo {
        start,
        end,
        handler,
        catch_type,
    };
    Ok((row, rest))
}

/// So many rows, and what follows.
fn rows<'a>(
    alloc: Global,
    size: u32,
    count: u16,
    rest: &'a [u8],
) -> Result<(List<RowInfo>, &'a [u8]), Stop>
    ensures value { Gives (λ x. (x.0, x.1.now)) result (many (read_row size) count rest.now) }
    ensures few { IfOk result (λ x. length x.0 < 2 ^ 16) }
    ensures eights { IfOk result (λ x. 8 * length x.0 + length x.1.now ≡ length rest.now) }
{
    let mut rows = List::new(alloc);
    let mut rest = rest;
    for _ in 0..count {
        let (found, behind) = row(size, rest)?;
        rows.push(found)?;
        rest = behind;
    }
    Ok((rows, rest))
}

/// The attribute behind its length `count`, which stands at `place`, and what follows.
#[tactic(auto, unfolding(class_pool::specs::ClassOrder::read_spelled))]
fn attribute<'a>(
    alloc: Global,
    size: u32,
    pool: &KnownPool,
    place: u32,
    count: u32,
    rest: &'a [u8],
) -> Result<(Spelled<'a>, &'a [u8]), Stop>
    ensures value { Gives (λ x. (spelled_of x.0, x.1.now)) result (read_spelled size pool.now place count rest.now) }
    ensures room { IfOk result (λ x. HasRoom x.0) }
{
    let ((max_stack, max_locals), behind_limits) = two_numbers(size, rest)?;
    let (code_count, behind_count) = number_of_four(size, behind_limits)?;
    if code_count < 1 || 65535 < code_count {
        return Err(fault_at(ClassCode::CodeBounds, place_of(size, behind_limits)));
    }
    let (code, behind_code) = bytes_of(size, code_count as usize, behind_count)?;
    let (row_count, behind_row_count) = number_of_two(size, behind_code)?;
    let (rows, behind_rows) = rows(alloc, size, row_count, behind_row_count)?;
    let end = skip_attributes(size, pool, behind_rows)?;
    if rest.len().saturating_sub(end.len()) != count as usize {
        return Err(fault_at(ClassCode::CodeBounds, place));
    }
    let spelled = Spelled {
        max_stack,
        max_locals,
        code_place: place_of(size, behind_count),
        code,
        rows_place: place_of(size, behind_row_count),
        rows,
    };
    Ok((spelled, end))
}

/// The code that is kept, where its instructions, jumps and rows pass.
fn checked(alloc: Global, pool: &KnownPool, spelled: &Spelled) -> Result<Name, Stop>
    requires { HasRoom spelled.now }
    ensures { Gives (λ x. x) result (code_checked pool.now (spelled_of spelled.now) (insns_of pool.now spelled.now.code.now)) }
{
    let code = spelled.code;
    let insns = instructions(alloc, spelled.code_place, pool, code)?;
    let insns = insns.as_slice();
    let starts = starts_of(alloc, code.len(), insns)?;
    check_jumps(alloc, spelled.code_place, &starts, code, insns)?;
    check_rows(
        spelled.rows_place,
        pool,
        &starts,
        code.len(),
        spelled.rows.as_slice(),
    )?;
    Ok(kept_code(alloc, pool, code, insns)?)
}

/// The code behind the length `count` of its attribute, which stands at `place`, and what follows.
#[tactic(auto, unfolding(class_pool::specs::ClassOrder::read_code))]
pub fn code<'a>(
    alloc: Global,
    size: u32,
    pool: &KnownPool,
    place: u32,
    count: u32,
    rest: &'a [u8],
) -> Result<(CodeInfo, &'a [u8]), Stop>
    ensures { Gives (λ x. (x.0, x.1.now)) result (read_code size pool.now place count rest.now) }
{
    let (spelled, rest) = attribute(alloc, size, pool, place, count, rest)?;
    let bytes = checked(alloc, pool, &spelled)?;
    let code = CodeInfo {
        max_stack: spelled.max_stack,
        max_locals: spelled.max_locals,
        bytes,
        rows: spelled.rows,
    };
    Ok((code, rest))
}

#[cfg(test)]
mod tests {
    use super::*;
    use class_pool::ClassFault;
    use std::test::Fail;

    /// An attribute whose code, from place 8 on, is iconst_0, goto +3, nop, nop, return. Its row, from place 17 on, goes
    /// from 0 to 4, with the handler 4.
    const CONTENT: [u8; 27] = [
        0, 2, 0, 1, 0, 0, 0, 7, 0x03, 0xa7, 0, 3, 0, 0, 0xb1, 0, 1, 0, 0, 0, 4, 0, 4, 0, 0, 0, 0,
    ];

    /// What is at fault with these bytes at these places, or `None` where nothing is.
    fn fault_of(
        alloc: Global,
        places: [usize; 2],
        bytes: [u8; 2],
    ) -> Result<Option<ClassFault>, Fail> {
        let mut content = CONTENT;
        for (place, byte) in places.into_iter().zip(bytes) {
            if place < content.len() {
                content[place] = byte;
            }
        }
        let pool = KnownPool::of(alloc, List::new(alloc))?;
        match code(alloc, 27, &pool, 1, 27, &content) {
            Ok((_, _)) => Ok(None),
            Err(Stop::Fault(fault)) => Ok(Some(fault)),
            Err(Stop::Memory) => Err(Fail::from("memory")),
        }
    }

    /// The place of the fault with that byte at that place, or `None` where there is none.
    fn fault_with(alloc: Global, place: usize, byte: u8) -> Result<Option<u32>, Fail> {
        Ok(fault_of(alloc, [place, place], [byte, byte])?.map(|fault| fault.place))
    }

    fn at(code: ClassCode, place: u32) -> Option<ClassFault> {
        Some(ClassFault { code, place })
    }

    #[test]
    fn one_byte_is_at_fault(rt: HostRuntime) -> Result<(), Fail> {
        let alloc = rt.alloc();
        assert_eq!(rt; fault_with(alloc, 0, 0)?, None);
        // No code at all.
        assert_eq!(rt; fault_with(alloc, 7, 0)?, Some(4));
        // An opcode past the last, an anewarray whose index is cut off, and a getstatic of an entry that isn't there.
        assert_eq!(rt; fault_with(alloc, 8, 0xff)?, Some(8));
        assert_eq!(rt; fault_with(alloc, 13, 0xbd)?, Some(13));
        assert_eq!(rt; fault_with(alloc, 12, 0xb2)?, Some(12));
        // Jumps to another start, into an instruction, and behind the code.
        assert_eq!(rt; fault_with(alloc, 11, 4)?, None);
        assert_eq!(rt; fault_with(alloc, 11, 2)?, Some(9));
        assert_eq!(rt; fault_with(alloc, 11, 6)?, Some(9));
        // A row that ends with the code, one that ends behind it, an empty one, and a handler in an instruction.
        assert_eq!(rt; fault_with(alloc, 20, 7)?, None);
        assert_eq!(rt; fault_with(alloc, 20, 8)?, Some(17));
        assert_eq!(rt; fault_with(alloc, 20, 0)?, Some(17));
        assert_eq!(rt; fault_with(alloc, 22, 2)?, Some(17));
        // A row that catches a class that isn't there, and an attribute that is cut off.
        assert_eq!(rt; fault_with(alloc, 24, 9)?, Some(17));
        assert_eq!(rt; fault_with(alloc, 26, 1)?, Some(27));
        Ok(())
    }

    #[test]
    fn the_earlier_of_two_faults_is_told(rt: HostRuntime) -> Result<(), Fail> {
        let alloc = rt.alloc();
        // A row's class that isn't there has a code of its own, and its pcs come before it.
        let class = fault_of(alloc, [24, 24], [9, 9])?;
        assert_eq!(rt; class, at(ClassCode::PoolIndex, 17));
        let pcs_before_class = fault_of(alloc, [20, 24], [8, 9])?;
        assert_eq!(rt; pcs_before_class, at(ClassCode::CodeBounds, 17));
        // A jump into an instruction comes before the row, and a bad opcode before the row's class.
        let jump_before_row = fault_of(alloc, [11, 24], [2, 9])?;
        assert_eq!(rt; jump_before_row, at(ClassCode::CodeBounds, 9));
        let opcode_before_row = fault_of(alloc, [13, 24], [0xff, 9])?;
        assert_eq!(rt; opcode_before_row, at(ClassCode::BadOpcode, 13));
        // An attribute that is cut off comes before what is wrong with the code.
        let attribute_before_opcode = fault_of(alloc, [8, 26], [0xff, 1])?;
        assert_eq!(rt; attribute_before_opcode, at(ClassCode::Truncated, 27));
        Ok(())
    }

    #[test]
    fn padding_is_kept_as_zeros(rt: HostRuntime) -> Result<(), Fail> {
        // iconst_0, a tableswitch of 0 to 0 whose two offsets lead to 20, and return
        let content = [
            0, 1, 0, 0, 0, 0, 0, 21, 0x03, 0xaa, 7, 9, 0, 0, 0, 19, 0, 0, 0, 0, 0, 0, 0, 0, 0, 0,
            0, 19, 0xb1, 0, 0, 0, 0, 0xff,
        ];
        let kept = [
            0x03, 0xaa, 0, 0, 0, 0, 0, 19, 0, 0, 0, 0, 0, 0, 0, 0, 0, 0, 0, 19, 0xb1,
        ];
        let pool = KnownPool::of(rt.alloc(), List::new(rt.alloc()))?;
        let (found, rest) = code(rt.alloc(), 34, &pool, 1, 33, &content).map_err(|_| "it is code")?;
        assert_eq!(rt; found.bytes.as_slice(), kept.as_slice());
        assert_eq!(rt; found.rows.as_slice().len(), 0);
        assert_eq!(rt; rest, [0xff].as_slice());
        Ok(())
    }
}

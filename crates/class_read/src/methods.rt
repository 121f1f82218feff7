//! Reads methods (JVM Specification SE 8, 4.6).
ghost use Rattle.std.specs.Prelude.{◌≡◌, false};
ghost use Rattle.class_pool.specs.Items.{many};
ghost use Rattle.class_pool.specs.Pool.{first_failing};
ghost use Rattle.class_pool.specs.ClassOrder.{method_attributes as read_attributes, method_questions, first_code as first_of_codes, read_method};
ghost use Rattle.class_pool.specs.Outcomes.{Gives};
ghost use Rattle.class_read.specs.Methods.{method_attribute as read_attribute};

use crate::code::code;
use crate::parts::{head, is_named, text_index};
use class_pool::items::{bytes_of, fault_at, number_of_four, number_of_two, place_of};
use class_pool::{ClassCode, CodeInfo, Cut, KnownPool, MemberKind, MethodInfo, Stop};
use jo_ids::List;
use jo_insn::{ACC_ABSTRACT, ACC_NATIVE, ACC_SYNCHRONIZED, has_flag};
use std::alloc::{AllocError, Global};

/// The Code of an attribute, where it is one, and what follows.
#[tactic(auto, unfolding(crate::specs::Methods::method_attribute))]
fn method_attribute<'a>(
    alloc: Global,
    size: u32,
    pool: &KnownPool,
    rest: &'a [u8],
) -> Result<(Option<CodeInfo>, &'a [u8]), Stop>
    ensures { Gives (λ x. (x.0, x.1.now)) result (read_attribute size pool.now rest.now) }
{
    let (name, count_rest) = text_index(size, pool, rest)?;
    let (count, content) = number_of_four(size, count_rest)?;
    if is_named(pool, b"Code", name) {
        let place = place_of(size, count_rest);
        let (found, behind) = code(alloc, size, pool, place, count, content)?;
        return Ok((Some(found), behind));
    }
    let (_, behind) = bytes_of(size, count as usize, content)?;
    Ok((None, behind))
}

/// The Codes of so many attributes, and what follows.
fn method_attributes<'a>(
    alloc: Global,
    size: u32,
    pool: &KnownPool,
    count: u16,
    rest: &'a [u8],
) -> Result<(Vec<CodeInfo>, &'a [u8]), Stop>
    ensures { Gives (λ x. (x.0.items, x.1.now)) result (read_attributes size pool.now count rest.now) }
{
    let mut codes = Vec::new(alloc);
    let mut rest = rest;
    for _ in 0..count {
        let (found, behind) = method_attribute(alloc, size, pool, rest)?;
        if let Some(code) = found {
            codes.push(code).map_err(AllocError::from)?;
        }
        rest = behind;
    }
    Ok((codes, rest))
}

/// A method's own fault: a double, float or long is in its descriptor and it may run, it is synchronized, or not exactly one
/// of a Code and a flag that says that there is none is there.
fn method_fault(wide: bool, flags: u16, codes: &[CodeInfo]) -> Option<ClassCode>
    ensures { result ≡ first_failing (method_questions wide flags codes.now) }
{
    let is_native = has_flag(ACC_NATIVE, flags);
    if wide && (is_native || !codes.is_empty()) {
        return Some(ClassCode::Unsupported(Cut::WideType));
    }
    if has_flag(ACC_SYNCHRONIZED, flags) {
        return Some(ClassCode::Unsupported(Cut::Synchronized));
    }
    let bodies = if is_native || has_flag(ACC_ABSTRACT, flags) {
        0
    } else {
        1
    };
    if codes.len() != bodies {
        return Some(ClassCode::CodeBounds);
    }
    None
}

fn first_code(codes: Vec<CodeInfo>) -> Option<CodeInfo>
    ensures { result ≡ first_of_codes codes.items }
{
    codes.into_iter().next()
}

#[tactic(auto, unfolding(class_pool::specs::ClassOrder::read_method))]
fn method<'a>(
    alloc: Global,
    size: u32,
    pool: &KnownPool,
    rest: &'a [u8],
) -> Result<(MethodInfo, &'a [u8]), Stop>
    ensures { Gives (λ x. (x.0, x.1.now)) result (read_method size pool.now rest.now) }
{
    let ((flags, name, desc), count_rest) = head(size, pool, MemberKind::Method, rest)?;
    let (count, attributes) = number_of_two(size, count_rest)?;
    let (codes, behind) = method_attributes(alloc, size, pool, count, attributes)?;
    let wide = pool.facts_at(desc).is_wide;
    if let Some(code) = method_fault(wide, flags, codes.as_slice()) {
        return Err(fault_at(code, place_of(size, rest)));
    }
    let method = MethodInfo {
        flags,
        name,
        desc,
        code: first_code(codes),
    };
    Ok((method, behind))
}

/// So many methods, and what follows.
pub fn methods<'a>(
    alloc: Global,
    size: u32,
    pool: &KnownPool,
    count: u16,
    rest: &'a [u8],
) -> Result<(List<MethodInfo>, &'a [u8]), Stop>
    ensures { Gives (λ x. (x.0, x.1.now)) result (many (read_method size pool.now) count rest.now) }
{
    let mut methods = List::new(alloc);
    let mut rest = rest;
    for _ in 0..count {
        let (found, behind) = method(alloc, size, pool, rest)?;
        methods.push(found)?;
        rest = behind;
    }
    Ok((methods, rest))
}

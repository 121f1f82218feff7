//! Checks the pool entries that instructions name (JVM Specification SE 8, 4.9.1).
ghost use Rattle.std.specs.Prelude.{◌≡◌, ◌≤◌};
ghost use Rattle.class_pool.specs.Pool.{entry_at as entry_with};
ghost use Rattle.class_pool.specs.Code;

use crate::parts::dims_at;
use class_pool::{ClassCode, Cut, KnownPool, PoolEntry, entry_at};
use jo_insn::Insn;

const LDC_W: u8 = 19;

const PUT_FIELD: u8 = 181;

const INVOKE_VIRTUAL: u8 = 182;

const INVOKE_STATIC: u8 = 184;

const INVOKE_INTERFACE: u8 = 185;

const NEW: u8 = 187;

const NEW_ARRAY_OF_CLASS: u8 = 189;

fn wide_member(pool: &KnownPool, member: u16) -> Option<ClassCode>
    ensures { result ≡ Code.wide_member pool.now member }
{
    if pool.desc_facts_at(member).is_wide {
        Some(ClassCode::Unsupported(Cut::WideType))
    } else {
        None
    }
}

fn constant_fault(pool: &KnownPool, index: u16) -> Option<ClassCode>
    ensures { result ≡ Code.constant_fault index (entry_with pool.now index) }
{
    let Some(entry) = entry_at(pool.entries(), index) else {
        return Some(ClassCode::PoolIndex);
    };
    match entry {
        PoolEntry::Integer(_) | PoolEntry::Text(_) => None,
        PoolEntry::Float(_)
        | PoolEntry::Class(_)
        | PoolEntry::MethodHandle(_, _)
        | PoolEntry::MethodType(_) => Some(ClassCode::Unsupported(Cut::Constant(index))),
        _ => Some(ClassCode::PoolIndex),
    }
}

fn field_fault(pool: &KnownPool, index: u16) -> Option<ClassCode>
    ensures { result ≡ Code.field_fault pool.now (entry_with pool.now index) }
{
    match entry_at(pool.entries(), index) {
        Some(PoolEntry::FieldRef(_, member)) => wide_member(pool, *member),
        _ => Some(ClassCode::PoolIndex),
    }
}

fn method_fault(pool: &KnownPool, index: u16) -> Option<ClassCode>
    ensures { result ≡ Code.method_fault pool.now (entry_with pool.now index) }
{
    match entry_at(pool.entries(), index) {
        Some(PoolEntry::MethodRef(_, member)) => wide_member(pool, *member),
        _ => Some(ClassCode::PoolIndex),
    }
}

fn interface_fault(pool: &KnownPool, index: u16) -> Option<ClassCode>
    ensures { result ≡ Code.interface_fault pool.now (entry_with pool.now index) }
{
    match entry_at(pool.entries(), index) {
        Some(PoolEntry::InterfaceMethodRef(_, member)) => wide_member(pool, *member),
        _ => Some(ClassCode::PoolIndex),
    }
}

/// The fault of a call of a method of a class. One of an interface is outside the profile.
fn class_method_fault(pool: &KnownPool, op: u8, index: u16) -> Option<ClassCode>
    ensures { result ≡ Code.class_method_fault op pool.now (entry_with pool.now index) }
{
    match entry_at(pool.entries(), index) {
        Some(PoolEntry::MethodRef(_, member)) => wide_member(pool, *member),
        Some(PoolEntry::InterfaceMethodRef(_, member)) => match wide_member(pool, *member) {
            Some(fault) => Some(fault),
            None => Some(ClassCode::Unsupported(Cut::Opcode(op))),
        },
        _ => Some(ClassCode::PoolIndex),
    }
}

fn index_unless(test: bool) -> Option<ClassCode>
    ensures { result ≡ Code.index_unless test }
{
    if test {
        None
    } else {
        Some(ClassCode::PoolIndex)
    }
}

/// The fault of an instruction that names a class or an array.
fn class_fault(pool: &KnownPool, op: u8, index: u16) -> Option<ClassCode>
    requires { 186 ≤ op }
    ensures { result ≡ Code.pooled_fault pool.now op index }
{
    let Some(dims) = dims_at(pool, index) else {
        return Some(ClassCode::PoolIndex);
    };
    match op {
        NEW => index_unless(dims == 0),
        NEW_ARRAY_OF_CLASS => index_unless(dims < 255),
        _ => None,
    }
}

fn pooled_fault(pool: &KnownPool, op: u8, index: u16) -> Option<ClassCode>
    ensures { result ≡ Code.pooled_fault pool.now op index }
{
    if op <= LDC_W {
        constant_fault(pool, index)
    } else if op <= PUT_FIELD {
        field_fault(pool, index)
    } else if op == INVOKE_VIRTUAL {
        method_fault(pool, index)
    } else if op <= INVOKE_STATIC {
        class_method_fault(pool, op, index)
    } else if op == INVOKE_INTERFACE {
        interface_fault(pool, index)
    } else {
        class_fault(pool, op, index)
    }
}

/// What is at fault with the pool entry that an instruction names.
pub fn insn_fault(pool: &KnownPool, insn: &Insn) -> Option<ClassCode>
    ensures { result ≡ Code.insn_fault pool.now insn.now }
{
    match *insn {
        Insn::Pooled { op, index } => pooled_fault(pool, op, index),
        _ => None,
    }
}

//! Arithmetic on the ints of the machine.
ghost use Rattle.std.specs.Prelude.{◌≡◌};
ghost use Rattle.std.specs.Int.{w32, IsNonZero};
ghost use Rattle.jo_text.specs.declared.descriptors.Base.TheVariants.{Byte, Char, Short, Boolean};
ghost use Rattle.machine.specs.Arithmetic;

use jo_text::{Base, FieldDesc};

/// What iushr gives.
fn shifted_unsigned(a: i32, b: i32) -> i32
    ensures { result ≡ Arithmetic.shifted_unsigned a b }
{
    let shifted = a.cast_unsigned().wrapping_shr(b.cast_unsigned());
    shifted.cast_signed()
}

/// What an instruction with two int operands gives, by its opcode: that of iadd, isub, imul, ishl, ishr, iushr, iand, ior or ixor, which
/// always give an int.
fn whole_op(op: u8, a: i32, b: i32) -> i32
    ensures { result ≡ Arithmetic.whole_op op a b }
{
    match op {
        96 => a.wrapping_add(b),
        100 => a.wrapping_sub(b),
        104 => a.wrapping_mul(b),
        120 => a.wrapping_shl(b.cast_unsigned()),
        122 => a.wrapping_shr(b.cast_unsigned()),
        124 => shifted_unsigned(a, b),
        126 => a & b,
        128 => a | b,
        _ => a ^ b,
    }
}

/// What idiv, or else irem, gives.
fn divided(op: u8, a: i32, b: i32) -> i32
    requires { IsNonZero w32 b }
    ensures { result ≡ Arithmetic.divided op a b }
{
    match op {
        108 => a.wrapping_div(b),
        _ => a.wrapping_rem(b),
    }
}

/// Whether the opcode is that of idiv or irem.
fn divides(op: u8) -> bool
    ensures { result ≡ Arithmetic.divides op }
{
    op == 108 || op == 112
}

/// What an instruction with two int operands gives, by its opcode. `None` exactly where the divisor of idiv or irem is 0. The opcode of
/// no such instruction gives what ixor does.
pub fn int_op(op: u8, a: i32, b: i32) -> Option<i32>
    ensures { result ≡ Arithmetic.int_op op a b }
{
    if divides(op) {
        if b == 0 {
            return None;
        }
        return Some(divided(op, a, b));
    }
    Some(whole_op(op, a, b))
}

/// What ineg gives.
pub fn negated(a: i32) -> i32
    ensures { result ≡ Arithmetic.negated a }
{
    a.wrapping_neg()
}

fn byte_of(a: i32) -> i32
    ensures { result ≡ Arithmetic.kept_by Byte a }
{
    i32::from(((a.cast_unsigned() % 256) as u8).cast_signed())
}

fn char_of(a: i32) -> i32
    ensures { result ≡ Arithmetic.kept_by Char a }
{
    i32::from((a.cast_unsigned() % 65_536) as u16)
}

fn short_of(a: i32) -> i32
    ensures { result ≡ Arithmetic.kept_by Short a }
{
    i32::from(((a.cast_unsigned() % 65_536) as u16).cast_signed())
}

fn boolean_of(a: i32) -> i32
    ensures { result ≡ Arithmetic.kept_by Boolean a }
{
    i32::from((a.cast_unsigned() % 2) as u16)
}

/// What a field, an element or a result of a base type keeps of an int.
fn kept_by(base: &Base, a: i32) -> i32
    ensures { result ≡ Arithmetic.kept_by base.now a }
{
    match base {
        Base::Byte => byte_of(a),
        Base::Char => char_of(a),
        Base::Short => short_of(a),
        Base::Boolean => boolean_of(a),
        _ => a,
    }
}

/// What a field, an element or a result of a type keeps of an int.
pub fn kept_int(desc: &FieldDesc, a: i32) -> i32
    ensures { result ≡ Arithmetic.kept_int desc.now a }
{
    if desc.dims == 0 {
        kept_by(&desc.base, a)
    } else {
        a
    }
}

/// What i2b, i2c and i2s give, by the opcode. Any other gives what i2s does.
pub fn narrow(op: u8, a: i32) -> i32
    ensures { result ≡ Arithmetic.narrow op a }
{
    match op {
        145 => byte_of(a),
        146 => char_of(a),
        _ => short_of(a),
    }
}

/// Whether a conditional jump is taken, by its opcode: ifeq to ifle of an int and 0, if_icmpeq to if_icmple of two ints.
pub fn int_test(op: u8, a: i32, b: i32) -> bool
    ensures { result ≡ Arithmetic.int_test op a b }
{
    match op {
        153 | 159 => a == b,
        154 | 160 => a != b,
        155 | 161 => a < b,
        156 | 162 => a >= b,
        157 | 163 => a > b,
        _ => a <= b,
    }
}

#[cfg(test)]
mod tests {
    use super::*;

    /// As chapter 6 of the JVM Specification says of each instruction.
    #[test]
    fn two_ints(rt: HostRuntime) {
        assert_eq!(rt; int_op(96, i32::MAX, 1), Some(i32::MIN));
        assert_eq!(rt; int_op(104, i32::MIN, -1), Some(i32::MIN));
        assert_eq!(rt; int_op(108, i32::MIN, -1), Some(i32::MIN));
        assert_eq!(rt; int_op(108, -7, 2), Some(-3));
        assert_eq!(rt; int_op(112, -7, 2), Some(-1));
        assert_eq!(rt; int_op(112, 7, 0), None);
        assert_eq!(rt; int_op(120, 1, 33), Some(2));
        assert_eq!(rt; int_op(122, -1, 31), Some(-1));
        assert_eq!(rt; int_op(124, -1, 31), Some(1));
    }

    #[test]
    fn one_int(rt: HostRuntime) {
        assert_eq!(rt; negated(i32::MIN), i32::MIN);
        assert_eq!(rt; narrow(145, 0x80), -0x80);
        assert_eq!(rt; narrow(146, -1), 0xffff);
        assert_eq!(rt; narrow(147, 0x1_8000), -0x8000);
    }
}

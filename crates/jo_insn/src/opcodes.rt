//! The table of opcodes (JVM Specification SE 8, 6.5).
ghost use Rattle.std.specs.Prelude.{◌≡◌, map, option_map};
ghost use Rattle.jo_insn.specs.Opcodes;
ghost use Rattle.jo_insn.specs.Rows.{seen};

/// How the operands of an opcode are spelled.
#[derive(Clone, Copy)]
pub enum Operands {
    /// None.
    NoOperand,
    /// A signed number in one byte, which is pushed.
    SignedByte,
    /// A signed number in two bytes, which is pushed.
    SignedShort,
    /// The number of a local, in two bytes behind `wide`.
    LocalByte,
    /// The number of a local and a signed step, in two bytes each behind `wide`.
    LocalAndStep,
    /// The opcode and the operands of the instruction that is widened.
    WidePrefix,
    /// A pool index in one byte.
    PoolByte,
    /// A pool index in two bytes.
    PoolShort,
    /// A pool index in two bytes, and two bytes that mean nothing.
    PoolShortAndTwo,
    /// The kind of an array of a base type.
    ArrayKind,
    /// The distance of a jump, in two signed bytes.
    OffsetShort,
    /// The distance of a jump, in four signed bytes.
    OffsetInt,
    /// Padding, a default, the least and the greatest key, and an offset for each key.
    OffsetTable,
    /// Padding, a default, a count, and so many pairs of a key and an offset.
    KeyTable,
}

struct Opcode {
    code: u8,
    name: &'static str,
    operands: Operands,
}

#[rattlefmt::skip]
static OPCODES: [Opcode; 107] = [
    Opcode { code: 0, name: "nop", operands: Operands::NoOperand },
    Opcode { code: 1, name: "aconst_null", operands: Operands::NoOperand },
    Opcode { code: 2, name: "iconst_m1", operands: Operands::NoOperand },
    Opcode { code: 3, name: "iconst_0", operands: Operands::NoOperand },
    Opcode { code: 4, name: "iconst_1", operands: Operands::NoOperand },
    Opcode { code: 5, name: "iconst_2", operands: Operands::NoOperand },
    Opcode { code: 6, name: "iconst_3", operands: Operands::NoOperand },
    Opcode { code: 7, name: "iconst_4", operands: Operands::NoOperand },
    Opcode { code: 8, name: "iconst_5", operands: Operands::NoOperand },
    Opcode { code: 16, name: "bipush", operands: Operands::SignedByte },
    Opcode { code: 17, name: "sipush", operands: Operands::SignedShort },
    Opcode { code: 18, name: "ldc", operands: Operands::PoolByte },
    Opcode { code: 19, name: "ldc_w", operands: Operands::PoolShort },
    Opcode { code: 21, name: "iload", operands: Operands::LocalByte },
    Opcode { code: 25, name: "aload", operands: Operands::LocalByte },
    Opcode { code: 26, name: "iload_0", operands: Operands::NoOperand },
    Opcode { code: 27, name: "iload_1", operands: Operands::NoOperand },
    Opcode { code: 28, name: "iload_2", operands: Operands::NoOperand },
    Opcode { code: 29, name: "iload_3", operands: Operands::NoOperand },
    Opcode { code: 42, name: "aload_0", operands: Operands::NoOperand },
    Opcode { code: 43, name: "aload_1", operands: Operands::NoOperand },
    Opcode { code: 44, name: "aload_2", operands: Operands::NoOperand },
    Opcode { code: 45, name: "aload_3", operands: Operands::NoOperand },
    Opcode { code: 46, name: "iaload", operands: Operands::NoOperand },
    Opcode { code: 50, name: "aaload", operands: Operands::NoOperand },
    Opcode { code: 51, name: "baload", operands: Operands::NoOperand },
    Opcode { code: 52, name: "caload", operands: Operands::NoOperand },
    Opcode { code: 53, name: "saload", operands: Operands::NoOperand },
    Opcode { code: 54, name: "istore", operands: Operands::LocalByte },
    Opcode { code: 58, name: "astore", operands: Operands::LocalByte },
    Opcode { code: 59, name: "istore_0", operands: Operands::NoOperand },
    Opcode { code: 60, name: "istore_1", operands: Operands::NoOperand },
    Opcode { code: 61, name: "istore_2", operands: Operands::NoOperand },
    Opcode { code: 62, name: "istore_3", operands: Operands::NoOperand },
    Opcode { code: 75, name: "astore_0", operands: Operands::NoOperand },
    Opcode { code: 76, name: "astore_1", operands: Operands::NoOperand },
    Opcode { code: 77, name: "astore_2", operands: Operands::NoOperand },
    Opcode { code: 78, name: "astore_3", operands: Operands::NoOperand },
    Opcode { code: 79, name: "iastore", operands: Operands::NoOperand },
    Opcode { code: 83, name: "aastore", operands: Operands::NoOperand },
    Opcode { code: 84, name: "bastore", operands: Operands::NoOperand },
    Opcode { code: 85, name: "castore", operands: Operands::NoOperand },
    Opcode { code: 86, name: "sastore", operands: Operands::NoOperand },
    Opcode { code: 87, name: "pop", operands: Operands::NoOperand },
    Opcode { code: 88, name: "pop2", operands: Operands::NoOperand },
    Opcode { code: 89, name: "dup", operands: Operands::NoOperand },
    Opcode { code: 90, name: "dup_x1", operands: Operands::NoOperand },
    Opcode { code: 91, name: "dup_x2", operands: Operands::NoOperand },
    Opcode { code: 92, name: "dup2", operands: Operands::NoOperand },
    Opcode { code: 93, name: "dup2_x1", operands: Operands::NoOperand },
    Opcode { code: 94, name: "dup2_x2", operands: Operands::NoOperand },
    Opcode { code: 95, name: "swap", operands: Operands::NoOperand },
    Opcode { code: 96, name: "iadd", operands: Operands::NoOperand },
    Opcode { code: 100, name: "isub", operands: Operands::NoOperand },
    Opcode { code: 104, name: "imul", operands: Operands::NoOperand },
    Opcode { code: 108, name: "idiv", operands: Operands::NoOperand },
    Opcode { code: 112, name: "irem", operands: Operands::NoOperand },
    Opcode { code: 116, name: "ineg", operands: Operands::NoOperand },
    Opcode { code: 120, name: "ishl", operands: Operands::NoOperand },
    Opcode { code: 122, name: "ishr", operands: Operands::NoOperand },
    Opcode { code: 124, name: "iushr", operands: Operands::NoOperand },
    Opcode { code: 126, name: "iand", operands: Operands::NoOperand },
    Opcode { code: 128, name: "ior", operands: Operands::NoOperand },
    Opcode { code: 130, name: "ixor", operands: Operands::NoOperand },
    Opcode { code: 132, name: "iinc", operands: Operands::LocalAndStep },
    Opcode { code: 145, name: "i2b", operands: Operands::NoOperand },
    Opcode { code: 146, name: "i2c", operands: Operands::NoOperand },
    Opcode { code: 147, name: "i2s", operands: Operands::NoOperand },
    Opcode { code: 153, name: "ifeq", operands: Operands::OffsetShort },
    Opcode { code: 154, name: "ifne", operands: Operands::OffsetShort },
    Opcode { code: 155, name: "iflt", operands: Operands::OffsetShort },
    Opcode { code: 156, name: "ifge", operands: Operands::OffsetShort },
    Opcode { code: 157, name: "ifgt", operands: Operands::OffsetShort },
    Opcode { code: 158, name: "ifle", operands: Operands::OffsetShort },
    Opcode { code: 159, name: "if_icmpeq", operands: Operands::OffsetShort },
    Opcode { code: 160, name: "if_icmpne", operands: Operands::OffsetShort },
    Opcode { code: 161, name: "if_icmplt", operands: Operands::OffsetShort },
    Opcode { code: 162, name: "if_icmpge", operands: Operands::OffsetShort },
    Opcode { code: 163, name: "if_icmpgt", operands: Operands::OffsetShort },
    Opcode { code: 164, name: "if_icmple", operands: Operands::OffsetShort },
    Opcode { code: 165, name: "if_acmpeq", operands: Operands::OffsetShort },
    Opcode { code: 166, name: "if_acmpne", operands: Operands::OffsetShort },
    Opcode { code: 167, name: "goto", operands: Operands::OffsetShort },
    Opcode { code: 170, name: "tableswitch", operands: Operands::OffsetTable },
    Opcode { code: 171, name: "lookupswitch", operands: Operands::KeyTable },
    Opcode { code: 172, name: "ireturn", operands: Operands::NoOperand },
    Opcode { code: 176, name: "areturn", operands: Operands::NoOperand },
    Opcode { code: 177, name: "return", operands: Operands::NoOperand },
    Opcode { code: 178, name: "getstatic", operands: Operands::PoolShort },
    Opcode { code: 179, name: "putstatic", operands: Operands::PoolShort },
    Opcode { code: 180, name: "getfield", operands: Operands::PoolShort },
    Opcode { code: 181, name: "putfield", operands: Operands::PoolShort },
    Opcode { code: 182, name: "invokevirtual", operands: Operands::PoolShort },
    Opcode { code: 183, name: "invokespecial", operands: Operands::PoolShort },
    Opcode { code: 184, name: "invokestatic", operands: Operands::PoolShort },
    Opcode { code: 185, name: "invokeinterface", operands: Operands::PoolShortAndTwo },
    Opcode { code: 187, name: "new", operands: Operands::PoolShort },
    Opcode { code: 188, name: "newarray", operands: Operands::ArrayKind },
    Opcode { code: 189, name: "anewarray", operands: Operands::PoolShort },
    Opcode { code: 190, name: "arraylength", operands: Operands::NoOperand },
    Opcode { code: 191, name: "athrow", operands: Operands::NoOperand },
    Opcode { code: 192, name: "checkcast", operands: Operands::PoolShort },
    Opcode { code: 193, name: "instanceof", operands: Operands::PoolShort },
    Opcode { code: 196, name: "wide", operands: Operands::WidePrefix },
    Opcode { code: 198, name: "ifnull", operands: Operands::OffsetShort },
    Opcode { code: 199, name: "ifnonnull", operands: Operands::OffsetShort },
    Opcode { code: 200, name: "goto_w", operands: Operands::OffsetInt },
];

/// The rows of the table, which callers know by the contract alone, so that no look-up is proved row by row.
#[tactic(auto, unfolding(crate::specs::Opcodes::opcodes))]
fn rows() -> &'static [Opcode]
    ensures { map seen result.now ≡ Opcodes.opcodes }
{
    &OPCODES
}

/// The row of an opcode.
#[tactic(auto, unfolding(crate::specs::Opcodes::row_of))]
fn row_of(op: u8) -> Option<&'static Opcode>
    ensures { option_map (λ row. seen row.now) result ≡ Opcodes.row_of op }
{
    for row in rows() {
        if row.code == op {
            return Some(row);
        }
    }
    None
}

/// How the operands of an opcode are spelled. `None` for one outside the profile.
pub fn operands_of(op: u8) -> Option<Operands>
    ensures { result ≡ Opcodes.operands_of op }
{
    Some(row_of(op)?.operands)
}

/// The opcode's name. `None` for one outside the profile.
pub fn name_of(op: u8) -> Option<&'static str>
    ensures { option_map (λ n. n.now) result ≡ Opcodes.name_of op }
{
    Some(row_of(op)?.name)
}

/// The opcode with that name.
#[tactic(auto, unfolding(crate::specs::Opcodes::opcode_named))]
pub fn opcode_named(name: &[u8]) -> Option<u8>
    ensures { result ≡ Opcodes.opcode_named name.now }
{
    for row in rows() {
        if row.name.as_bytes() == name {
            return Some(row.code);
        }
    }
    None
}

#[cfg(test)]
mod tests {
    use super::*;
    use std::test::Fail;

    /// Whether the opcode has this name, and the name this opcode.
    fn is_named(op: u8, name: &str) -> bool {
        name_of(op) == Some(name) && opcode_named(name.as_bytes()) == Some(op)
    }

    #[test]
    fn names_lead_there_and_back(rt: HostRuntime) -> Result<(), Fail> {
        let named = [
            (0, "nop"),
            (2, "iconst_m1"),
            (25, "aload"),
            (87, "pop"),
            (124, "iushr"),
            (153, "ifeq"),
            (166, "if_acmpne"),
            (177, "return"),
            (187, "new"),
            (192, "checkcast"),
            (200, "goto_w"),
        ];
        for (op, name) in named {
            assert!(rt; is_named(op, name), "{name}");
        }
        Ok(())
    }

    #[test]
    fn other_opcodes_have_no_name(rt: HostRuntime) -> Result<(), Fail> {
        for op in [9, 20, 97, 186, 197, 201, 202, 255] {
            assert!(rt; name_of(op).is_none() && operands_of(op).is_none(), "{op}");
        }
        assert!(rt; opcode_named(b"").is_none());
        assert!(rt; opcode_named(b"lconst_0").is_none());
        assert!(rt; opcode_named(b"NOP").is_none());
        assert!(rt; opcode_named(b"nop ").is_none());
        assert!(rt; opcode_named(b"aload_").is_none());
        Ok(())
    }
}

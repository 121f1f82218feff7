ghost use Rattle.std.specs.Prelude.{◌<◌, ◌^◌, length};

use super::*;
use std::test::Fail;

// What stands in `OUTCOMES` where no instruction is read.
const OUTSIDE: u32 = 0;

const UNKNOWN: u32 = 100;

const MALFORMED: u32 = 101;

const CUT: u32 = 102;

const OTHER_OPCODE: u32 = 103;

/// By the opcode at pc 0, with zeros behind it: the next pc, or what is wrong. A wide before nop is outside the profile,
/// and no array has the kind 0.
const OUTCOMES: [u32; 256] = [
    1, 1, 1, 1, 1, 1, 1, 1, 1, 0, 0, 0, 0, 0, 0, 0, // nop to dconst_1
    2, 3, 2, 3, 0, 2, 0, 0, 0, 2, 1, 1, 1, 1, 0, 0, // bipush to lload_1
    0, 0, 0, 0, 0, 0, 0, 0, 0, 0, 1, 1, 1, 1, 1, 0, // lload_2 to laload
    0, 0, 1, 1, 1, 1, 2, 0, 0, 0, 2, 1, 1, 1, 1, 0, // faload to lstore_0
    0, 0, 0, 0, 0, 0, 0, 0, 0, 0, 0, 1, 1, 1, 1, 1, // lstore_1 to iastore
    0, 0, 0, 1, 1, 1, 1, 1, 1, 1, 1, 1, 1, 1, 1, 1, // lastore to swap
    1, 0, 0, 0, 1, 0, 0, 0, 1, 0, 0, 0, 1, 0, 0, 0, // iadd to ddiv
    1, 0, 0, 0, 1, 0, 0, 0, 1, 0, 1, 0, 1, 0, 1, 0, // irem to land
    1, 0, 1, 0, 3, 0, 0, 0, 0, 0, 0, 0, 0, 0, 0, 0, // ior to d2l
    0, 1, 1, 1, 0, 0, 0, 0, 0, 3, 3, 3, 3, 3, 3, 3, // d2f to if_icmpeq
    3, 3, 3, 3, 3, 3, 3, 3, 0, 0, 20, 12, 1, 0, 0, 0, // if_icmpne to dreturn
    1, 1, 3, 3, 3, 3, 3, 3, 3, 5, 0, 3, 101, 3, 1, 1, // areturn to athrow
    3, 3, 0, 0, 0, 0, 3, 3, 5, 0, 100, 100, 100, 100, 100, 100, // checkcast to jsr_w
    100, 100, 100, 100, 100, 100, 100, 100, 100, 100, 100, 100, 100, 100, 100, 100, 100, 100, 100,
    100, 100, 100, 100, 100, 100, 100, 100, 100, 100, 100, 100, 100, 100, 100, 100, 100, 100, 100,
    100, 100, 100, 100, 100, 100, 100, 100, 100, 100,
];

/// A tableswitch from -1 to 1 without its opcode, which may stand at each of the first four places.
const OFFSETS: [u8; 28] = [
    9, 9, 9, 9, 0xff, 0xff, 0xff, 0xfe, 0xff, 0xff, 0xff, 0xff, 0, 0, 0, 1, 0, 0, 0, 50, 0, 0, 0,
    60, 0, 0, 0, 70,
];

/// A lookupswitch of the least and the greatest key without its opcode, which may stand at each of the first four places.
const PAIRS: [u8; 28] = [
    9, 9, 9, 9, 0x7f, 0xff, 0xff, 0xff, 0, 0, 0, 2, 0x80, 0, 0, 0, 0, 0, 0, 50, 0x7f, 0xff, 0xff,
    0xff, 0, 0, 0, 60,
];

fn outcome(op: u8) -> u32 {
    let mut code = [0; 24];
    code[0] = op;
    match decode(&code, 0) {
        Ok((_, next)) => next,
        Err(InsnFault::Outside(fault)) if fault == op => OUTSIDE,
        Err(InsnFault::Unknown(fault)) if fault == op => UNKNOWN,
        Err(InsnFault::Malformed) => MALFORMED,
        Err(InsnFault::Cut) => CUT,
        Err(_) => OTHER_OPCODE,
    }
}

/// An instruction as numbers: which kind it is, and its fields.
fn numbers(insn: Insn) -> [i64; 5] {
    match insn {
        Insn::Plain(op) => [0, i64::from(op), 0, 0, 0],
        Insn::Local { op, index, wide } => [1, i64::from(op), i64::from(index), i64::from(wide), 0],
        Insn::Iinc { index, by, wide } => [2, i64::from(index), i64::from(by), i64::from(wide), 0],
        Insn::Push { op, value } => [3, i64::from(op), i64::from(value), 0, 0],
        Insn::Pooled { op, index } => [4, i64::from(op), i64::from(index), 0, 0],
        Insn::Array(kind) => [5, i64::from(kind), 0, 0, 0],
        Insn::Jump { op, by } => [6, i64::from(op), i64::from(by), 0, 0],
        Insn::TableSwitch {
            other,
            low,
            high,
            at,
        } => {
            [
                7,
                i64::from(other),
                i64::from(low),
                i64::from(high),
                i64::from(at),
            ]
        }
        Insn::LookupSwitch { other, pairs, at } => {
            [8, i64::from(other), i64::from(pairs), i64::from(at), 0]
        }
    }
}

/// Whether this instruction stands at a pc, and takes the rest of the code.
fn reads(code: &[u8], pc: u32, wanted: Insn) -> bool
    requires { length code.now < 2 ^ 31 }
{
    match decode(code, pc) {
        Ok((insn, next)) => next as usize == code.len() && numbers(insn) == numbers(wanted),
        Err(_) => false,
    }
}

fn is_cut(code: &[u8], pc: u32) -> bool
    requires { length code.now < 2 ^ 31 }
{
    matches!(decode(code, pc), Err(InsnFault::Cut))
}

fn is_malformed(code: &[u8]) -> bool
    requires { length code.now < 2 ^ 31 }
{
    matches!(decode(code, 0), Err(InsnFault::Malformed))
}

/// Whether the code is one instruction, and each proper beginning of it is cut.
fn needs_all(code: &[u8]) -> bool
    requires { length code.now < 2 ^ 31 }
{
    for end in 0..code.len() {
        if !is_cut(&code[..end], 0) {
            return false;
        }
    }
    match decode(code, 0) {
        Ok((_, next)) => next as usize == code.len(),
        Err(_) => false,
    }
}

#[test]
fn each_opcode(rt: HostRuntime) -> Result<(), Fail> {
    for op in 0..=255 {
        assert_eq!(rt; outcome(op), OUTCOMES[op as usize], "{op}");
    }
    Ok(())
}

#[test]
fn pushes_and_locals(rt: HostRuntime) -> Result<(), Fail> {
    assert!(rt; reads(&[16, 0x7f], 0, Insn::Push { op: 16, value: 127 }));
    assert!(rt;
        reads(
            &[16, 0x80],
            0,
            Insn::Push {
                op: 16,
                value: -128
            }
        )
    );
    assert!(rt;
        reads(
            &[17, 0x7f, 0xff],
            0,
            Insn::Push {
                op: 17,
                value: 32767
            }
        )
    );
    assert!(rt;
        reads(
            &[17, 0x80, 0],
            0,
            Insn::Push {
                op: 17,
                value: -32768
            }
        )
    );
    assert!(rt;
        reads(
            &[21, 255],
            0,
            Insn::Local {
                op: 21,
                index: 255,
                wide: false
            }
        )
    );
    assert!(rt;
        reads(
            &[132, 255, 0x80],
            0,
            Insn::Iinc {
                index: 255,
                by: -128,
                wide: false
            }
        )
    );
    assert!(rt;
        reads(
            &[196, 58, 0xff, 0xfe],
            0,
            Insn::Local {
                op: 58,
                index: 65534,
                wide: true
            }
        )
    );
    assert!(rt;
        reads(
            &[196, 132, 1, 2, 0x80, 0],
            0,
            Insn::Iinc {
                index: 258,
                by: -32768,
                wide: true
            }
        )
    );
    assert!(rt;
        reads(
            &[196, 132, 1, 2, 0x7f, 0xff],
            0,
            Insn::Iinc {
                index: 258,
                by: 32767,
                wide: true
            }
        )
    );
    Ok(())
}

#[test]
fn pools_arrays_and_jumps(rt: HostRuntime) -> Result<(), Fail> {
    assert!(rt; reads(&[18, 255], 0, Insn::Pooled { op: 18, index: 255 }));
    assert!(rt;
        reads(
            &[19, 0xff, 0xfe],
            0,
            Insn::Pooled {
                op: 19,
                index: 65534
            }
        )
    );
    assert!(rt;
        reads(
            &[185, 1, 2, 0xff, 0xff],
            0,
            Insn::Pooled {
                op: 185,
                index: 258
            }
        )
    );
    assert!(rt;
        reads(
            &[167, 0x80, 0],
            0,
            Insn::Jump {
                op: 167,
                by: -32768
            }
        )
    );
    assert!(rt; reads(&[198, 0x7f, 0xff], 0, Insn::Jump { op: 198, by: 32767 }));
    assert!(rt;
        reads(
            &[200, 0x80, 0, 0, 0],
            0,
            Insn::Jump {
                op: 200,
                by: i32::MIN
            }
        )
    );
    assert!(rt;
        reads(
            &[200, 0x7f, 0xff, 0xff, 0xff],
            0,
            Insn::Jump {
                op: 200,
                by: i32::MAX
            }
        )
    );
    for kind in [4, 5, 8, 9, 10] {
        assert!(rt; reads(&[188, kind], 0, Insn::Array(kind)), "{kind}");
    }
    for kind in [6, 7, 11] {
        assert!(rt;
            matches!(decode(&[188, kind], 0), Err(InsnFault::Outside(188))),
            "{kind}"
        );
    }
    for kind in [0, 3, 12, 255] {
        assert!(rt; is_malformed(&[188, kind]), "{kind}");
    }
    Ok(())
}

#[test]
fn switches_at_each_alignment(rt: HostRuntime) -> Result<(), Fail> {
    for pc in 0..4 {
        let mut table = OFFSETS;
        table[pc as usize] = 170;
        assert!(rt;
            reads(
                &table,
                pc,
                Insn::TableSwitch {
                    other: -2,
                    low: -1,
                    high: 1,
                    at: 16
                }
            ),
            "{pc}"
        );
        let mut table = PAIRS;
        table[pc as usize] = 171;
        assert!(rt;
            reads(
                &table,
                pc,
                Insn::LookupSwitch {
                    other: i32::MAX,
                    pairs: 2,
                    at: 12
                }
            ),
            "{pc}"
        );
    }
    Ok(())
}

#[test]
fn switches_that_cannot_be(rt: HostRuntime) -> Result<(), Fail> {
    // low above high, whether or not there are offsets
    assert!(rt; is_malformed(&[170, 0, 0, 0, 0, 0, 0, 0, 0, 0, 0, 1, 0, 0, 0, 0]));
    // as many offsets as there can be
    assert!(rt;
        is_cut(
            &[
                170, 0, 0, 0, 0, 0, 0, 0, 0x80, 0, 0, 0, 0x7f, 0xff, 0xff, 0xff, 0, 0, 0, 0
            ],
            0
        )
    );
    // a negative count, and the greatest
    assert!(rt; is_malformed(&[171, 0, 0, 0, 0, 0, 0, 0, 0x80, 0, 0, 0]));
    assert!(rt;
        is_cut(
            &[
                171, 0, 0, 0, 0, 0, 0, 0, 0x7f, 0xff, 0xff, 0xff, 0, 0, 0, 0, 0, 0, 0, 0
            ],
            0
        )
    );
    // equal keys, falling keys, and falling keys of which the last offset is cut
    let mut pairs = PAIRS;
    pairs[0] = 171;
    pairs[12] = 0x7f;
    pairs[13] = 0xff;
    pairs[14] = 0xff;
    pairs[15] = 0xff;
    assert!(rt; is_malformed(&pairs));
    pairs[20] = 0x80;
    assert!(rt; is_malformed(&pairs));
    assert!(rt; is_cut(&pairs[..27], 0));
    Ok(())
}

#[test]
fn each_beginning_is_cut(rt: HostRuntime) -> Result<(), Fail> {
    assert!(rt; needs_all(&[0]));
    assert!(rt; needs_all(&[16, 1]));
    assert!(rt; needs_all(&[17, 1, 2]));
    assert!(rt; needs_all(&[21, 1]));
    assert!(rt; needs_all(&[132, 1, 2]));
    assert!(rt; needs_all(&[196, 21, 1, 2]));
    assert!(rt; needs_all(&[196, 132, 1, 2, 3, 4]));
    assert!(rt; needs_all(&[18, 1]));
    assert!(rt; needs_all(&[178, 1, 2]));
    assert!(rt; needs_all(&[185, 1, 2, 3, 4]));
    assert!(rt; needs_all(&[188, 4]));
    assert!(rt; needs_all(&[153, 1, 2]));
    assert!(rt; needs_all(&[200, 1, 2, 3, 4]));
    let mut table = OFFSETS;
    table[0] = 170;
    assert!(rt; needs_all(&table));
    let mut table = PAIRS;
    table[0] = 171;
    assert!(rt; needs_all(&table));
    Ok(())
}

#[test]
fn no_instruction_behind_the_code(rt: HostRuntime) -> Result<(), Fail> {
    assert!(rt; reads(&[0, 1], 1, Insn::Plain(1)));
    assert!(rt; is_cut(&[0, 1], 2));
    assert!(rt; is_cut(&[0, 1], u32::MAX));
    assert!(rt; is_cut(&[], 0));
    Ok(())
}

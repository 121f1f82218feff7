//! The cases of switches.
ghost use Rattle.std.specs.Prelude.{◌≡◌, ◌∷◌, [], ◌++◌, ◌<◌, ◌≤◌, ◌*◌, ◌^◌, ◌+ℤ◌, ◌≤ℤ◌, ◌<ℤ◌, pos, length, map, IfOk, OnOk};
ghost use Rattle.byteorder.specs.Endian.{big_number, twos_complement};
ghost use Rattle.jo_insn.specs.Instructions.{keys_of};
ghost use Rattle.jo_insn.specs.Jumps.{AreOffsets, offsets_of};
ghost use Rattle.machine.specs.Instructions.{cases_of, keys_from};
ghost use Rattle.machine.specs.Instructions as machine;
ghost use Rattle.jvm_values.specs.Resolved.{case_of};

use crate::plain::pc_behind;
use byteorder::{BigEndian, ByteOrder};
use jo_ids::{List, Memory};
use jo_insn::behind;
use jo_prog::lists::add;
use jvm_values::Case;
use std::alloc::Global;

/// The offset that begins a table.
fn offset_of(table: &[u8]) -> i32
    requires { 4 ≤ length table.now }
    ensures { result ≡ twos_complement 4 (big_number 4 table.now) }
{
    BigEndian::read_i32(table)
}

/// Adds the case of a key, for the offset that begins a table.
fn add_case(cases: &mut List<Case>, pc: u32, key: i32, table: &[u8]) -> Result<(), Memory>
    requires short { pc < 2 ^ 16 }
    requires there { 4 ≤ length table.now }
    ensures { OnOk result (map case_of cases.new ≡ map case_of cases.old ++ (key, machine.pc_behind pc (twos_complement 4 (big_number 4 table.now))) ∷ []) }
{
    let target = pc_behind(pc, offset_of(table));
    add(cases, Case { key, target })
}

/// The key at a place of a row.
fn key_at(low: i32, place: u64) -> i32
    requires { (low +ℤ pos place) <ℤ pos (2 ^ 31) }
    ensures { result ≡ low +ℤ pos place }
{
    (i64::from(low) + place as i64) as i32
}

/// The cases of so many keys in a row.
pub(crate) fn cases_in_row(
    alloc: Global,
    pc: u32,
    low: i32,
    count: u64,
    table: &[u8],
) -> Result<List<Case>, Memory>
    requires short { pc < 2 ^ 16 }
    requires keys { (low +ℤ pos count) ≤ℤ pos (2 ^ 31) }
    requires offsets { AreOffsets count 4 table.now }
    ensures { IfOk result (λ cases. map case_of cases ≡ cases_of pc (keys_from low count) (offsets_of count 4 table.now)) }
{
    let mut cases = List::new(alloc);
    let mut table = table;
    for place in 0..count {
        add_case(&mut cases, pc, key_at(low, place), table)?;
        table = behind(table, 4);
    }
    Ok(cases)
}

/// The cases of so many pairs of a key and an offset.
pub(crate) fn cases_of_pairs(
    alloc: Global,
    pc: u32,
    count: u32,
    keys: &[u8],
    offsets: &[u8],
) -> Result<List<Case>, Memory>
    requires short { pc < 2 ^ 16 }
    requires keys { AreOffsets count 8 keys.now }
    requires offsets { AreOffsets count 8 offsets.now }
    ensures { IfOk result (λ cases. map case_of cases ≡ cases_of pc (keys_of count keys.now) (offsets_of count 8 offsets.now)) }
{
    let mut cases = List::new(alloc);
    let mut keys = keys;
    let mut offsets = offsets;
    for _ in 0..count {
        add_case(&mut cases, pc, offset_of(keys), offsets)?;
        keys = behind(keys, 8);
        offsets = behind(offsets, 8);
    }
    Ok(cases)
}

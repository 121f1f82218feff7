ghost use Rattle.std.specs.Prelude.{◌<◌, ◌^◌, length};

use crate::reader::read_pool;
use crate::writer::write_pool;
use crate::{ClassCode, PoolEntry, class_name_at, desc_at, entry_at, utf8_at};
use std::test::Fail;

/// A file whose pool has an entry of each kind, and two bytes behind it. An entry's place is given with its index.
const FILE: [u8; 101] = [
    0xca, 0xfe, 0xba, 0xbe, 0, 0, 0, 52, 0, 21, // the count at place 8
    1, 0, 1, b'A', // 1 at place 10
    7, 0, 1, // 2 at place 14
    1, 0, 1, b'f', // 3 at place 17
    1, 0, 1, b'I', // 4 at place 21
    12, 0, 3, 0, 4, // 5 at place 25
    9, 0, 2, 0, 5, // 6 at place 30
    1, 0, 3, b'(', b')', b'V', // 7 at place 35
    12, 0, 3, 0, 7, // 8 at place 41
    10, 0, 2, 0, 8, // 9 at place 46
    11, 0, 2, 0, 8, // 10 at place 51
    8, 0, 1, // 11 at place 56
    3, 0xff, 0xff, 0xff, 0xfe, // 12 at place 59
    4, 0x3f, 0x80, 0, 0, // 13 at place 64
    5, 1, 2, 3, 4, 5, 6, 7, 8, // 14 at place 69
    6, 0x3f, 0xf0, 0, 0, 0, 0, 0, 0, // 16 at place 78
    15, 6, 0, 9, // 18 at place 87
    16, 0, 7, // 19 at place 91
    18, 0, 0, 0, 8, // 20 at place 94
    0, 0x21,
];

fn fault_in(rt: &impl AllocGlobal, file: &[u8]) -> Option<(ClassCode, u32)>
    requires { length file.now < 2 ^ 31 }
{
    read_pool(rt.alloc(), file)
        .err()
        .map(|fault| (fault.code, fault.place))
}

/// The fault in the file with that byte at that place.
fn fault_with(rt: &impl AllocGlobal, place: usize, byte: u8) -> Option<(ClassCode, u32)> {
    let mut file = FILE;
    if place < file.len() {
        file[place] = byte;
    }
    fault_in(rt, &file)
}

#[test]
fn each_kind_is_read(rt: HostRuntime) -> Result<(), Fail> {
    let (pool, end) = read_pool(rt.alloc(), &FILE).ok().ok_or("it is a pool")?;
    let pool = pool.as_slice();
    assert_eq!(rt; end, 99);
    assert_eq!(rt; pool.len(), 20);
    assert!(rt; utf8_at(pool, 7) == Some(b"()V".as_slice()));
    assert!(rt; class_name_at(pool, 2) == Some(b"A".as_slice()));
    assert!(rt; desc_at(pool, 5) == Some(b"I".as_slice()));
    assert!(rt; matches!(entry_at(pool, 6), Some(PoolEntry::FieldRef(2, 5))));
    assert!(rt; matches!(entry_at(pool, 9), Some(PoolEntry::MethodRef(2, 8))));
    assert!(rt;
        matches!(
            entry_at(pool, 10),
            Some(PoolEntry::InterfaceMethodRef(2, 8))
        )
    );
    assert!(rt; matches!(entry_at(pool, 11), Some(PoolEntry::Text(1))));
    assert!(rt; matches!(entry_at(pool, 12), Some(PoolEntry::Integer(-2))));
    assert!(rt; matches!(entry_at(pool, 13), Some(PoolEntry::Float(0x3f80_0000))));
    assert!(rt;
        matches!(
            entry_at(pool, 14),
            Some(PoolEntry::Long(0x0102_0304_0506_0708))
        )
    );
    assert!(rt; matches!(entry_at(pool, 15), Some(PoolEntry::Second)));
    assert!(rt;
        matches!(
            entry_at(pool, 16),
            Some(PoolEntry::Double(0x3ff0_0000_0000_0000))
        )
    );
    assert!(rt; matches!(entry_at(pool, 18), Some(PoolEntry::MethodHandle(6, 9))));
    assert!(rt; matches!(entry_at(pool, 19), Some(PoolEntry::MethodType(7))));
    assert!(rt; matches!(entry_at(pool, 20), Some(PoolEntry::InvokeDynamic(0, 8))));
    assert!(rt; entry_at(pool, 0).is_none());
    assert!(rt; entry_at(pool, 21).is_none());
    Ok(())
}

/// A byte 7, and what is written of the pool of a file.
#[tactic(auto, using(crate::proofs::PoolFits::read_pool_fits))]
fn rewritten(rt: &impl AllocGlobal, file: &[u8]) -> Result<Vec<u8>, Fail>
    requires { length file.now < 2 ^ 31 }
{
    let mut bytes = vec![in rt.alloc(); 7]?;
    match read_pool(rt.alloc(), file) {
        Ok((pool, _)) => write_pool(&pool, &mut bytes)?,
        Err(_) => bytes.clear(),
    }
    Ok(bytes)
}

#[test]
fn what_is_read_is_written_back(rt: HostRuntime) -> Result<(), Fail> {
    let bytes = rewritten(&rt, &FILE)?;
    assert_eq!(rt; bytes.len(), 92);
    assert_eq!(rt; bytes[0], 7);
    assert!(rt; &bytes[1..] == &FILE[8..99]);
    Ok(())
}

#[test]
fn a_cut_pool_is_at_fault_at_its_end(rt: HostRuntime) -> Result<(), Fail> {
    for length in 0..99 {
        assert_eq!(rt;
            fault_in(&rt, &FILE[..length]),
            Some((ClassCode::Truncated, length as u32))
        );
    }
    assert_eq!(rt; fault_in(&rt, &FILE[..99]), None);
    Ok(())
}

#[test]
fn a_count_ends_no_entry_in_two(rt: HostRuntime) -> Result<(), Fail> {
    assert_eq!(rt; fault_with(&rt, 9, 0), Some((ClassCode::PoolIndex, 8)));
    assert_eq!(rt; fault_with(&rt, 9, 1), None);
    assert_eq!(rt; fault_with(&rt, 9, 15), Some((ClassCode::PoolIndex, 69)));
    assert_eq!(rt; fault_with(&rt, 9, 16), None);
    assert_eq!(rt; fault_with(&rt, 9, 17), Some((ClassCode::PoolIndex, 78)));
    Ok(())
}

#[test]
fn other_tags_are_unknown(rt: HostRuntime) -> Result<(), Fail> {
    for tag in [0, 2, 13, 14, 17, 19, 20, 255] {
        assert_eq!(rt; fault_with(&rt, 10, tag), Some((ClassCode::PoolTag, 10)));
        assert_eq!(rt; fault_with(&rt, 94, tag), Some((ClassCode::PoolTag, 94)));
    }
    Ok(())
}

#[test]
fn text_has_no_zero_byte(rt: HostRuntime) -> Result<(), Fail> {
    assert_eq!(rt; fault_with(&rt, 13, 0), Some((ClassCode::BadText, 10)));
    assert_eq!(rt; fault_with(&rt, 40, 0xff), Some((ClassCode::BadText, 35)));
    Ok(())
}

#[test]
fn indices_name_entries_of_their_kind(rt: HostRuntime) -> Result<(), Fail> {
    // The place of an index, and that of its entry: a class, a text, references, and names with their types.
    let indices = [
        (16, 14),
        (58, 56),
        (32, 30),
        (34, 30),
        (48, 46),
        (50, 46),
        (53, 51),
        (55, 51),
        (27, 25),
        (29, 25),
        (43, 41),
        (45, 41),
    ];
    for (place, entry) in indices {
        // none, a number's, a second place's, and the first past the end
        for index in [0, 12, 15, 21] {
            assert_eq!(rt;
                fault_with(&rt, place, index),
                Some((ClassCode::PoolIndex, entry))
            );
        }
    }
    Ok(())
}

#[test]
fn what_an_entry_names_is_in_its_grammar(rt: HostRuntime) -> Result<(), Fail> {
    // A byte, and the place of the entry at fault: the class `;`, the member `.`, the descriptors `V` and `()X`, a field
    // with a method's descriptor, and methods with a field's.
    let changes = [
        (13, b';', 14),
        (20, b'.', 25),
        (24, b'V', 25),
        (40, b'X', 41),
        (34, 8, 30),
        (50, 5, 46),
        (55, 5, 51),
    ];
    for (place, byte, entry) in changes {
        assert_eq!(rt;
            fault_with(&rt, place, byte),
            Some((ClassCode::BadDescriptor, entry))
        );
    }
    Ok(())
}

#[test]
fn what_invokedynamic_needs_is_not_followed(rt: HostRuntime) -> Result<(), Fail> {
    for place in [90, 93, 98] {
        assert_eq!(rt; fault_with(&rt, place, 0), None);
    }
    Ok(())
}

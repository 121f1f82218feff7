//! Class A: `class A { static native int get(); static native void show(int i); static void main() { if (get() > 0) show(1); } }`
//! as javac writes it, and what is at fault in it with some bytes changed. Places are counted by hand from the format: pool
//! entry 4 stands at place 25, the pool ends before 180, the methods begin at 192, 235, 243 and 251, the code of the first at 214
//! and that of `main` at 273.
use crate::read_class;
use class_pool::{ClassCode, ClassFault, ClassFile, Cut};
use samples::class_a;
use std::alloc::Global;
use std::test::Fail;

/// The number of a code, from 1 on; what the profile cuts has numbers of its own.
fn number(code: ClassCode) -> u32 {
    match code {
        ClassCode::Truncated => 1,
        ClassCode::Magic => 2,
        ClassCode::Version => 3,
        ClassCode::PoolTag => 4,
        ClassCode::PoolIndex => 5,
        ClassCode::BadText => 6,
        ClassCode::BadDescriptor => 7,
        ClassCode::CodeBounds => 8,
        ClassCode::BadOpcode => 9,
        ClassCode::Trailing => 10,
        ClassCode::Unsupported(Cut::Opcode(_)) => 11,
        ClassCode::Unsupported(Cut::Constant(_)) => 21,
        ClassCode::Unsupported(Cut::WideType) => 31,
        ClassCode::Unsupported(Cut::Synchronized) => 41,
        ClassCode::Memory => 12,
    }
}

/// The code and the place of a fault, zeros for a class.
fn told(read: Result<ClassFile, ClassFault>) -> [u32; 2] {
    match read {
        Ok(_) => [0, 0],
        Err(fault) => [number(fault.code), fault.place],
    }
}

/// What reading says of class A with these bytes at these places.
fn with(alloc: Global, changes: &[[u32; 2]]) -> [u32; 2] {
    let mut bytes = *class_a();
    for change in changes {
        let place = change[0] as usize;
        if place < bytes.len() {
            bytes[place] = change[1].to_be_bytes()[3];
        }
    }
    told(read_class(alloc, &bytes))
}

#[test]
fn class_a_is_read(rt: HostRuntime) -> Result<(), Fail> {
    let class = read_class(rt.alloc(), class_a()).map_err(|_| "a class")?;
    assert_eq!(rt; class.pool.as_slice().len(), 22);
    assert_eq!(rt; class.methods.as_slice().len(), 4);
    let mut lengths = [0, 0, 0, 0];
    for (length, method) in lengths.iter_mut().zip(class.methods.as_slice()) {
        if let Some(code) = &method.code {
            *length = code.bytes.as_slice().len();
        }
    }
    assert_eq!(rt; lengths, [5, 0, 0, 11]);
    Ok(())
}

#[test]
fn one_byte_is_at_fault(rt: HostRuntime) {
    // a place and its new byte; the code and the place of the fault
    let rows = [
        [0, 203, 2, 0],
        [3, 191, 2, 0],
        [7, 44, 3, 6],
        [6, 1, 3, 6],
        [9, 0, 5, 8],
        [10, 2, 4, 10],
        [25, 17, 4, 25],
        [34, 0, 6, 31],
        [43, 240, 6, 40],
        [45, 87, 7, 10],
        [151, 46, 7, 25],
        [27, 0, 5, 25],
        [27, 23, 5, 25],
        [27, 17, 5, 25],
        [183, 6, 5, 182],
        [185, 0, 5, 184],
        [195, 4, 5, 194],
        [195, 7, 7, 194],
        [197, 6, 7, 196],
        [201, 4, 5, 200],
        [205, 30, 8, 202],
        [213, 0, 8, 210],
        [235, 0, 8, 235],
        [251, 1, 8, 251],
        [278, 5, 8, 276],
        [278, 11, 8, 276],
        [283, 16, 8, 283],
        [279, 202, 9, 279],
        [283, 255, 9, 283],
        [279, 98, 11, 279],
        [280, 186, 11, 280],
        [193, 32, 41, 192],
        [82, 74, 31, 235],
        [275, 4, 5, 273],
        [273, 0xb2, 5, 273],
        [279, 0x12, 5, 279],
        [15, 11, 11, 273],
        // a NameAndType without a descriptor is found at the first entry that refers to it
        [137, 0, 7, 10],
    ];
    for row in rows {
        let place = row[0];
        assert_eq!(rt;
            with(rt.alloc(), &[[place, row[1]]]),
            [row[2], row[3]],
            "{place}"
        );
    }
}

#[test]
fn the_earlier_of_two_faults_is_told(rt: HostRuntime) {
    // two places, each with its new byte; the code and the place of the fault
    let rows = [
        // the magic number before the version, and this before a tag
        [0, 0xcb, 7, 53, 2, 0],
        [7, 44, 10, 2, 3, 6],
        // a tag before a reference of an earlier entry
        [25, 17, 14, 0, 4, 25],
        // a text before a later tag, a reference before this class, this one before its superclass, and that before methods
        [34, 0, 40, 2, 6, 31],
        [27, 0, 183, 6, 5, 25],
        [183, 6, 185, 0, 5, 182],
        [185, 0, 195, 4, 5, 184],
        // one method before the next
        [197, 6, 236, 0x28, 7, 196],
        // both indices of a method before its name's bytes
        [195, 7, 197, 4, 5, 196],
        // what stands in a method's attributes before its own fault
        [193, 0x20, 213, 0, 8, 210],
        // the length of Code before its instructions
        [205, 0x1e, 214, 0xca, 8, 202],
        // the name of an attribute before its length
        [201, 4, 205, 0x1e, 5, 200],
        // an instruction before the next, and a Class as a constant
        [275, 4, 283, 0xff, 5, 273],
        [276, 0x13, 278, 4, 21, 276],
        // the names and the lengths of Code's own attributes before its instructions
        [283, 0xff, 289, 4, 5, 288],
        [283, 0xff, 290, 1, 1, 319],
        // all instructions before a jump
        [278, 5, 283, 0xff, 9, 283],
        // a wide type before synchronized, and this before a body that isn't there
        [82, 0x4a, 236, 0x28, 31, 235],
        [235, 0, 236, 0x28, 41, 235],
        // a jump before a method's own fault
        [251, 1, 278, 5, 8, 276],
    ];
    for row in rows {
        let place = row[0];
        let told = with(rt.alloc(), &[[place, row[1]], [row[2], row[3]]]);
        assert_eq!(rt; told, [row[4], row[5]], "{place}");
    }
}

#[test]
fn bytes_are_missing_or_left(rt: HostRuntime) {
    let mut longer = [0; 320];
    longer[..319].copy_from_slice(class_a());
    assert_eq!(rt; told(read_class(rt.alloc(), &longer)), [10, 319]);
    for length in [0u32, 3, 9, 30, 181, 272, 318] {
        let cut = &longer[..(length as usize).min(319)];
        assert_eq!(rt; told(read_class(rt.alloc(), cut)), [1, length], "{length}");
    }
}

/// Class A with this entry behind its pool, of which it has then `count`.
fn with_entry(alloc: Global, count: u8, entry: &[u8], changes: [u8; 2]) -> Result<[u32; 2], Fail> {
    let mut bytes = Vec::new(alloc);
    bytes.extend_from_slice(&class_a()[..9])?;
    bytes.push(count)?;
    bytes.extend_from_slice(&class_a()[10..26])?;
    bytes.extend_from_slice(&changes)?;
    bytes.extend_from_slice(&class_a()[28..180])?;
    bytes.extend_from_slice(entry)?;
    bytes.extend_from_slice(&class_a()[180..])?;
    let bytes = bytes.as_slice();
    if bytes.len() > 400 {
        return Err(Fail::from("the entry is short"));
    }
    Ok(told(read_class(alloc, bytes)))
}

#[test]
fn constants_of_two_indices(rt: HostRuntime) -> Result<(), Fail> {
    let alloc = rt.alloc();
    let long = [5, 0, 0, 0, 0, 0, 0, 0, 1];
    // entry 4 names its text, and then the second index of the Long
    assert_eq!(rt; with_entry(alloc, 25, &long, [0, 20])?, [0, 0]);
    assert_eq!(rt; with_entry(alloc, 25, &long, [0, 24])?, [5, 25]);
    assert_eq!(rt; with_entry(alloc, 24, &long, [0, 20])?, [5, 180], "no room");
    assert_eq!(rt;
        with_entry(alloc, 24, &[4, 0x3f, 0x80, 0, 0], [0, 20])?,
        [0, 0],
        "a Float"
    );
    Ok(())
}

//! A class that is written. Its bytes are counted out by hand from the format (JVM Specification SE 8, 4.1).
ghost use Rattle.std.specs.Prelude.{◌≡◌, ◌++◌, [], ◌∷◌, Some, None, codes, OnOk, IfOk};
ghost use Rattle.class_pool.specs.Fitting.{FitsClass};

use crate::write_class;
use class_pool::{ClassFile, CodeInfo, FieldInfo, MethodInfo, Pool, PoolEntry, RowInfo};
use jo_ids::{List, Memory};
use jo_text::Name;
use std::alloc::Global;
use std::test::Fail;

#[rattlefmt::skip]
const BYTES: [u8; 93] = [
    0xca, 0xfe, 0xba, 0xbe, 0, 0, 0, 52,
    0, 6, // the pool, whose count is one more than its entries
    1, 0, 1, b'A',
    7, 0, 1,
    1, 0, 4, b'C', b'o', b'd', b'e',
    1, 0, 3, b'(', b')', b'V',
    1, 0, 1, b'I',
    0, 0x21, 0, 2, 0, 2, // flags, the class and its superclass
    0, 1, 0, 2, // an interface
    0, 1, 0, 8, 0, 1, 0, 5, 0, 0, // a field
    0, 1, 0, 9, 0, 3, 0, 4, 0, 1, // a method with one attribute
    0, 3, 0, 0, 0, 21, 0, 1, 0, 2, // which is Code
    0, 0, 0, 1, 0xb1,
    0, 1, 0, 0, 0, 1, 0, 0, 0, 0, // its one row
    0, 0, 0, 0, // no more attributes
];

fn add<T: Drop>(list: &mut List<T>, item: T) -> Result<(), Memory>
    ensures { OnOk result (list.new ≡ list.old ++ item ∷ []) }
{
    list.push(item).map_err(|(_, memory)| memory)
}

fn text(alloc: Global, text: &[u8]) -> Result<PoolEntry, Memory>
    ensures { IfOk result (λ entry. entry ≡ PoolEntry.Utf8 text.now) }
{
    let mut name = Name::new(alloc);
    name.append(text)?;
    Ok(PoolEntry::Utf8(name))
}

fn pool(alloc: Global) -> Result<Pool, Memory>
    ensures { IfOk result (λ pool. pool ≡ PoolEntry.Utf8 (codes "A") ∷ PoolEntry.Class 1 ∷ PoolEntry.Utf8 (codes "Code") ∷ PoolEntry.Utf8 (codes "()V") ∷ PoolEntry.Utf8 (codes "I") ∷ []) }
{
    let mut pool = List::new(alloc);
    add(&mut pool, text(alloc, b"A")?)?;
    add(&mut pool, PoolEntry::Class(1))?;
    add(&mut pool, text(alloc, b"Code")?)?;
    add(&mut pool, text(alloc, b"()V")?)?;
    add(&mut pool, text(alloc, b"I")?)?;
    Ok(pool)
}

fn code(alloc: Global) -> Result<CodeInfo, Memory>
    ensures { IfOk result (λ code. code ≡ record { max_stack = 1; max_locals = 2; bytes = 0xb1 ∷ []; rows = record { start = 0; end = 1; handler = 0; catch_type = 0 } ∷ [] }) }
{
    let mut bytes = Name::new(alloc);
    bytes.append(&[0xb1])?;
    let mut rows = List::new(alloc);
    let row = RowInfo {
        start: 0,
        end: 1,
        handler: 0,
        catch_type: 0,
    };
    add(&mut rows, row)?;
    Ok(CodeInfo {
        max_stack: 1,
        max_locals: 2,
        bytes,
        rows,
    })
}

fn class(alloc: Global) -> Result<ClassFile, Memory>
    ensures { IfOk result FitsClass }
{
    let mut interfaces = List::new(alloc);
    add(&mut interfaces, 2)?;
    let mut fields = List::new(alloc);
    let field = FieldInfo {
        flags: 8,
        name: 1,
        desc: 5,
        constant: None,
    };
    add(&mut fields, field)?;
    let mut methods = List::new(alloc);
    let method = MethodInfo {
        flags: 9,
        name: 3,
        desc: 4,
        code: Some(code(alloc)?),
    };
    add(&mut methods, method)?;
    Ok(ClassFile {
        minor: 0,
        major: 52,
        pool: pool(alloc)?,
        flags: 0x21,
        this_class: 2,
        super_class: 2,
        interfaces,
        fields,
        methods,
    })
}

#[test]
fn a_class_is_written(rt: HostRuntime) -> Result<(), Fail> {
    let class = class(rt.alloc())?;
    let written = write_class(rt.alloc(), &class)?;
    assert_eq!(rt; written.as_slice(), BYTES.as_slice());
    Ok(())
}

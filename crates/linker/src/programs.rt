//! The parts of a program, made from classes.
ghost use Rattle.std.specs.Prelude.{◌≡◌, ◌+◌, ◌-◌, ◌<◌, ◌≤◌, ◌^◌, ◌++◌, length, map, option_map, IfOk, OnOk};
ghost use Rattle.jo_prog.specs.Numbers.{count_from};
ghost use Rattle.jo_prog.specs.Program.{HasNumbers};
ghost use Rattle.linker.specs.ClassPlaces.{ArePlaces};
ghost use Rattle.linker.specs.Linking.{number_at, numbers_at, constant_in, field_of, row_of, code_of, method_of, class_of, classes_from, fields_from, methods_from, program_among, this_name};

use crate::names::{ClassNames, name_of};
use crate::operands::{constant_of, operands_of, type_at};
use crate::texts::{named, text_at};
use class_pool::{ClassFile, CodeInfo, FieldInfo, MethodInfo, PoolEntry, RowInfo, class_name_at};
use jo_ids::{ClassId, Id, List, Memory};
use jo_prog::lists::add;
use jo_prog::program::{Class, Code, Field, Method, Operand, Program, Row};
use std::alloc::{AllocError, Global};

fn constant_in(
    alloc: Global,
    pool: &[PoolEntry],
    constant: Option<u16>,
) -> Result<Option<Operand>, Memory>
    ensures { IfOk result (λ made. made ≡ constant_in pool.now constant) }
{
    match constant {
        Some(index) => Ok(Some(constant_of(alloc, pool, index)?)),
        None => Ok(None),
    }
}

fn field_of(
    alloc: Global,
    class: u32,
    pool: &[PoolEntry],
    field: &FieldInfo,
) -> Result<Field, Memory>
    ensures { IfOk result (λ made. made ≡ field_of class pool.now field.now) }
{
    Ok(Field {
        class: ClassId::of(class),
        name: text_at(alloc, pool, field.name)?,
        desc: text_at(alloc, pool, field.desc)?,
        flags: field.flags,
        constant: constant_in(alloc, pool, field.constant)?,
    })
}

fn row_of(
    alloc: Global,
    names: &ClassNames,
    pool: &[PoolEntry],
    row: &RowInfo,
) -> Result<Row, Memory>
    requires { length names.now < 2 ^ 32 }
    ensures { IfOk result (λ made. made ≡ row_of names.now pool.now row.now) }
{
    Ok(Row {
        start: row.start,
        end: row.end,
        handler: row.handler,
        catches: type_at(alloc, names, pool, row.catch_type)?,
    })
}

fn rows_of(
    alloc: Global,
    names: &ClassNames,
    pool: &[PoolEntry],
    rows: &[RowInfo],
) -> Result<List<Row>, Memory>
    requires { length names.now < 2 ^ 32 }
    ensures { IfOk result (λ made. made ≡ map (row_of names.now pool.now) rows.now) }
{
    let mut made = List::new(alloc);
    for row in rows {
        add(&mut made, row_of(alloc, names, pool, row)?)?;
    }
    Ok(made)
}

fn code_of(
    alloc: Global,
    names: &ClassNames,
    pool: &[PoolEntry],
    code: &CodeInfo,
) -> Result<Code, Memory>
    requires { length names.now < 2 ^ 32 }
    ensures { IfOk result (λ made. made ≡ code_of names.now pool.now code.now) }
{
    Ok(Code {
        max_stack: code.max_stack,
        max_locals: code.max_locals,
        bytes: named(alloc, code.bytes.as_slice())?,
        rows: rows_of(alloc, names, pool, code.rows.as_slice())?,
    })
}

fn body_of(
    alloc: Global,
    names: &ClassNames,
    pool: &[PoolEntry],
    code: &Option<CodeInfo>,
) -> Result<Option<Code>, Memory>
    requires { length names.now < 2 ^ 32 }
    ensures { IfOk result (λ made. made ≡ option_map (code_of names.now pool.now) code.now) }
{
    match code {
        Some(code) => Ok(Some(code_of(alloc, names, pool, code)?)),
        None => Ok(None),
    }
}

fn method_of(
    alloc: Global,
    names: &ClassNames,
    class: u32,
    pool: &[PoolEntry],
    method: &MethodInfo,
) -> Result<Method, Memory>
    requires { length names.now < 2 ^ 32 }
    ensures { IfOk result (λ made. made ≡ method_of names.now class pool.now method.now) }
{
    Ok(Method {
        class: ClassId::of(class),
        name: text_at(alloc, pool, method.name)?,
        desc: text_at(alloc, pool, method.desc)?,
        flags: method.flags,
        code: body_of(alloc, names, pool, &method.code)?,
    })
}

fn number_at(names: &ClassNames, pool: &[PoolEntry], index: u16) -> Option<ClassId>
    requires { length names.now < 2 ^ 32 }
    ensures { result ≡ number_at names.now pool.now index }
{
    names.number_of(class_name_at(pool, index)?)
}

fn numbers_at(
    alloc: Global,
    names: &ClassNames,
    pool: &[PoolEntry],
    indices: &[u16],
) -> Result<List<ClassId>, Memory>
    requires { length names.now < 2 ^ 32 }
    ensures { IfOk result (λ numbers. numbers ≡ numbers_at names.now pool.now indices.now) }
{
    let mut numbers = List::new(alloc);
    for index in indices {
        if let Some(class) = number_at(names, pool, *index) {
            add(&mut numbers, class)?;
        }
    }
    Ok(numbers)
}

/// The number behind so many from a first one on. Past 2^32 - 1 there is none, and memory is said to be wanting.
fn behind(first: u32, count: usize) -> Result<u32, Memory>
    ensures { IfOk result (λ end. end ≡ first + count) }
{
    if count > (u32::MAX - first) as usize {
        return Err(AllocError);
    }
    Ok(first + count as u32)
}

/// The numbers from a first one on up to another.
fn numbers_between<K>(alloc: Global, first: u32, end: u32) -> Result<List<Id<K>>, Memory>
    requires { first ≤ end }
    ensures { IfOk result (λ numbers. numbers ≡ count_from first (end - first)) }
{
    let mut numbers = List::new(alloc);
    for number in first..end {
        add(&mut numbers, Id::of(number))?;
    }
    Ok(numbers)
}

/// Where the fields and methods of a class begin and end among all.
#[derive(Clone, Copy)]
struct Places {
    field: u32,
    fields_end: u32,
    method: u32,
    methods_end: u32,
}

fn places_behind(field: u32, method: u32, file: &ClassFile) -> Result<Places, Memory>
    ensures { IfOk result (λ places. ArePlaces field method file.now places) }
{
    Ok(Places {
        field,
        fields_end: behind(field, file.fields.as_slice().len())?,
        method,
        methods_end: behind(method, file.methods.as_slice().len())?,
    })
}

fn class_of(
    alloc: Global,
    names: &ClassNames,
    places: &Places,
    file: &ClassFile,
) -> Result<Class, Memory>
    requires few { length names.now < 2 ^ 32 }
    requires places { ArePlaces places.now.field places.now.method file.now places.now }
    ensures { IfOk result (λ made. made ≡ class_of names.now places.now.field places.now.method file.now) }
{
    let pool = file.pool.as_slice();
    Ok(Class {
        name: named(alloc, name_of(file))?,
        flags: file.flags,
        superclass: number_at(names, pool, file.super_class),
        interfaces: numbers_at(alloc, names, pool, file.interfaces.as_slice())?,
        fields: numbers_between(alloc, places.field, places.fields_end)?,
        methods: numbers_between(alloc, places.method, places.methods_end)?,
        operands: operands_of(alloc, names, file)?,
    })
}

fn classes_of(alloc: Global, names: &ClassNames, files: &[ClassFile]) -> Result<List<Class>, Memory>
    requires { length names.now < 2 ^ 32 }
    ensures { IfOk result (λ made. made ≡ classes_from names.now 0 0 files.now) }
{
    let mut classes = List::new(alloc);
    let mut field = 0;
    let mut method = 0;
    for file in files {
        let places = places_behind(field, method, file)?;
        add(&mut classes, class_of(alloc, names, &places, file)?)?;
        field = places.fields_end;
        method = places.methods_end;
    }
    Ok(classes)
}

fn add_fields(
    alloc: Global,
    fields: &mut List<Field>,
    class: u32,
    file: &ClassFile,
) -> Result<(), Memory>
    ensures { OnOk result (fields.new ≡ fields.old ++ map (field_of class file.now.pool) file.now.fields) }
{
    let pool = file.pool.as_slice();
    for field in file.fields.as_slice() {
        add(fields, field_of(alloc, class, pool, field)?)?;
    }
    Ok(())
}

fn fields_of(alloc: Global, files: &[ClassFile]) -> Result<List<Field>, Memory>
    requires { length files.now < 2 ^ 32 }
    ensures { IfOk result (λ made. made ≡ fields_from 0 files.now) }
{
    let mut fields = List::new(alloc);
    for (class, file) in files.iter().enumerate() {
        add_fields(alloc, &mut fields, class as u32, file)?;
    }
    Ok(fields)
}

fn add_methods(
    alloc: Global,
    names: &ClassNames,
    methods: &mut List<Method>,
    class: u32,
    file: &ClassFile,
) -> Result<(), Memory>
    requires { length names.now < 2 ^ 32 }
    ensures { OnOk result (methods.new ≡ methods.old ++ map (method_of names.now class file.now.pool) file.now.methods) }
{
    let pool = file.pool.as_slice();
    for method in file.methods.as_slice() {
        add(methods, method_of(alloc, names, class, pool, method)?)?;
    }
    Ok(())
}

fn methods_of(
    alloc: Global,
    names: &ClassNames,
    files: &[ClassFile],
) -> Result<List<Method>, Memory>
    requires few { length names.now < 2 ^ 32 }
    requires files { length files.now < 2 ^ 32 }
    ensures { IfOk result (λ made. made ≡ methods_from names.now 0 files.now) }
{
    let mut methods = List::new(alloc);
    for (class, file) in files.iter().enumerate() {
        add_methods(alloc, names, &mut methods, class as u32, file)?;
    }
    Ok(methods)
}

/// The program of these classes, which have these names.
#[tactic(auto, unfolding(crate::specs::Linking::program_among))]
pub(crate) fn program_among(
    alloc: Global,
    names: &ClassNames,
    files: &[ClassFile],
) -> Result<Program, Memory>
    requires few { length files.now < 2 ^ 32 }
    requires names { names.now ≡ map this_name files.now }
    ensures program { IfOk result (λ program. program ≡ program_among files.now) }
    ensures numbers { IfOk result HasNumbers }
{
    let classes = classes_of(alloc, names, files)?;
    let fields = fields_of(alloc, files)?;
    let methods = methods_of(alloc, names, files)?;
    let program = Program::build(alloc, classes, fields, methods)?;
    Ok(program)
}

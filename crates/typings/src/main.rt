//! Types programs, and prints the heights of their methods, or the faults. Each word names a list of class files and assembly texts.
#![tactic(auto)]

ghost use Rattle.std.specs.Prelude.{◌≡◌, ◌<◌, ◌^◌, length, string_bytes, IfOk, IfSome, IfNone};
ghost use Rattle.hierarchy.specs.Hierarchies.{IsHierarchyOf};
ghost use Rattle.jo_prog.specs.Program.{HasNumbers, method_at as method_with};
ghost use Rattle.jo_prog.specs.Spelling.{spelled_method};
ghost use Rattle.jvm_typing.specs.Typings.{IsFirstMethodFault};
ghost use Rattle.typings.specs.Words.{word_of, is_of_a_file, AreTyped};

use class_pool::ClassFile;
use hierarchy::{Hierarchy, has_its_parents};
use jo_ids::{Id, MethodId};
use jo_io::StdFiles;
use jo_prog::files::is_of_files;
use jo_prog::program::{Program, method_at};
use jo_prog::spelling::push_method;
use jo_prog::typed::{TypeCode, TypeFault, Typed};
use joana_base::{ProgramNames, Stop, class_of_file, class_of_text, read_program};
use jvm_typing::programs::{MethodFault, type_program};
use jvm_typing::typing_methods::type_method;
use linker::link;
use std::{env, io, str};

/// The bytes that a class file begins with (JVM Specification SE 8, 4.1).
const MAGIC: [u8; 4] = [0xCA, 0xFE, 0xBA, 0xBE];

fn code_of(code: TypeCode) -> &'static str
    ensures { result.now ≡ word_of code }
{
    match code {
        TypeCode::Underflow => "Y1",
        TypeCode::Overflow => "Y2",
        TypeCode::HeightDiffers => "Y3",
        TypeCode::WrongKind => "Y4",
        TypeCode::FallsOff => "Y5",
        TypeCode::LocalRange => "Y6",
        TypeCode::Memory => "memory",
    }
}

fn invalid() -> io::Error {
    io::Error::from(io::ErrorKind::InvalidData)
}

fn spelled(rt: &HostRuntime, program: &Program, method: MethodId) -> io::Result<String>
    ensures { IfOk result (λ name. string_bytes name ≡ spelled_method program.now method) }
{
    let mut bytes = Vec::new(rt.alloc());
    push_method(&mut bytes, program, method)?;
    match str::from_utf8(bytes.as_slice()) {
        Ok(text) => Ok(String::from_str(rt.alloc(), text)?),
        Err(_) => Err(invalid()),
    }
}

/// Prints the pcs that typing paths reach, each with its height.
fn show_heights(rt: &HostRuntime, name: &str, typed: &Typed) -> io::Result<()> {
    for pc in 0..65_536 {
        if let Some(height) = typed.height(pc) {
            println!(rt; "{name} {pc} {height}")?;
        }
    }
    Ok(())
}

fn show_fault(rt: &HostRuntime, name: &str, fault: TypeFault) -> io::Result<()> {
    println!(rt; "joana: input {} {name} {}", code_of(fault.code), fault.pc)
}

fn is_of_a_file(program: &Program, method: MethodId) -> bool
    ensures { result ≡ is_of_a_file program.now (method_with program.now method) }
{
    match method_at(program, method) {
        Some(method) => is_of_files(program, method),
        None => false,
    }
}

/// Prints what a method of the files comes to.
fn show_method(
    rt: &HostRuntime,
    program: &Program,
    hierarchy: &Hierarchy,
    method: MethodId,
) -> io::Result<()>
    requires kept { IsHierarchyOf program.now hierarchy.now }
    requires short { length program.now.classes < 2 ^ 32 }
{
    let name = spelled(rt, program, method)?;
    match type_method(rt.alloc(), program, hierarchy, method) {
        Ok(typed) => show_heights(rt, &name, &typed),
        Err(fault) => show_fault(rt, &name, fault),
    }
}

fn show_first(rt: &HostRuntime, program: &Program, first: MethodFault) -> io::Result<()> {
    let name = spelled(rt, program, first.method)?;
    println!(rt;
        "first {} {name} {}",
        code_of(first.fault.code),
        first.fault.pc
    )
}

fn show_typed(rt: &HostRuntime) -> io::Result<()> {
    println!(rt; "typed")
}

fn first_fault(rt: &HostRuntime, program: &Program, hierarchy: &Hierarchy) -> Option<MethodFault>
    requires kept { IsHierarchyOf program.now hierarchy.now }
    requires numbers { HasNumbers program.now }
    ensures fault { IfSome result (IsFirstMethodFault program.now) }
    ensures typed { IfNone result (AreTyped program.now) }
{
    match &type_program(rt.alloc(), program, hierarchy) {
        Ok(_) => None,
        Err(fault) => Some(*fault),
    }
}

/// Prints whether all methods are typed, or the first that isn't, and then what each method of the files comes to.
fn show_program(rt: &HostRuntime, program: &Program, hierarchy: &Hierarchy) -> io::Result<()>
    requires kept { IsHierarchyOf program.now hierarchy.now }
    requires numbers { HasNumbers program.now }
{
    match first_fault(rt, program, hierarchy) {
        Some(first) => show_first(rt, program, first)?,
        None => show_typed(rt)?,
    }
    for number in 0..program.methods() {
        if is_of_a_file(program, Id::of(number)) {
            show_method(rt, program, hierarchy, Id::of(number))?;
        }
    }
    Ok(())
}

fn hierarchy_of(rt: &HostRuntime, program: &Program) -> io::Result<Hierarchy>
    requires { HasNumbers program.now }
    ensures { IfOk result (λ hierarchy. IsHierarchyOf program.now hierarchy) }
{
    if !has_its_parents(program) {
        return Err(invalid());
    }
    match Hierarchy::build(rt.alloc(), program) {
        Ok(hierarchy) => Ok(hierarchy),
        Err(_) => Err(invalid()),
    }
}

fn type_classes(rt: &HostRuntime, classes: Vec<ClassFile>) -> io::Result<()> {
    let Ok(program) = link(rt.alloc(), classes) else {
        return println!(rt; "not linked");
    };
    let hierarchy = hierarchy_of(rt, &program)?;
    show_program(rt, &program, &hierarchy)
}

/// The class of a class file, or of an assembly text.
fn class_of(rt: &HostRuntime, file: &[u8]) -> Result<ClassFile, Stop> {
    if file.starts_with(&MAGIC) {
        class_of_file(rt.alloc(), file)
    } else {
        class_of_text(rt.alloc(), file)
    }
}

fn type_files(rt: &HostRuntime, files: &[Vec<u8>]) -> io::Result<()> {
    let mut classes = Vec::new(rt.alloc());
    for (place, file) in files.iter().enumerate() {
        match class_of(rt, file.as_slice()) {
            Ok(class) => classes.push(class)?,
            Err(_) => return println!(rt; "file {place} is refused"),
        }
    }
    type_classes(rt, classes)
}

fn type_list(rt: &HostRuntime, list: &str) -> io::Result<()> {
    println!(rt; "$ {list}")?;
    let names = ProgramNames {
        classes: list,
        policy: list,
        third: None,
    };
    let mut files = StdFiles::new(rt);
    match read_program(rt.alloc(), &mut files, names) {
        Ok(read) => type_files(rt, read.classes.as_slice()),
        Err(_) => Err(invalid()),
    }
}

fn main(rt: HostRuntime) -> io::Result<()> {
    for list in env::args(&rt)?.skip(1) {
        type_list(&rt, &list)?;
    }
    Ok(())
}

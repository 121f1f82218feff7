//! Assembles the lines of a text.
ghost use Rattle.std.specs.Prelude.{◌≡◌, drop, Ok, IfOk, OnOk};
ghost use Rattle.class_pool.specs.Fitting.{FitsClass};
ghost use Rattle.class_asm.specs.Halts.{Comes};
ghost use Rattle.class_asm.specs.Making.{IsMaker};
ghost use Rattle.class_asm.specs.Assembling.{seen, seen_code};
ghost use Rattle.class_asm.specs.Assembly.{nothing, set_here as same_setting, insn_line as insn_of, row_line as row_of, standing_line as standing_of, code_line as code_of, may_come as comes, class_line as class_with, interface_line as interface_with, field_line as field_with, open_line as open_with, method_line as method_with, member_line as member_with, closed as closed_with, line_in, made_by, assembled, is_whole as whole_made, class_of};
ghost use Rattle.class_asm.specs.Layout.{setting_of};
ghost use Rattle.class_asm.specs.Encoding.{need_operand};
ghost use Rattle.class_asm.specs.Answers.{fault_for as fault_with, answer_of, Puts, Answers};

use crate::causes::{Cause, Fault, Halt};
use crate::encoding::{operation_bytes, pc_of, unsigned_in};
use crate::labels::Labels;
use crate::layout::{body_of, ends, labels_of, size_of, stands};
use crate::pool_maker::PoolMaker;
use asm_text::statements::{Constant, Limits, Operation, Statement};
use asm_text::texts::{NumberedLine, read_lines};
use class_pool::{ClassFile, CodeInfo, FieldInfo, MethodInfo, RowInfo};
use jo_ids::List;
use jo_text::Name;
use std::alloc::Global;

/// A method with code, before its `end`.
#[derive(Drop)]
pub struct OpenCode {
    flags: u16,
    name: u16,
    desc: u16,
    stack: u16,
    locals: u16,
    labels: Labels,
    caught: bool,
    bytes: Vec<u8>,
    rows: List<RowInfo>,
}

/// The parts of a class so far.
#[derive(Drop)]
pub struct Parts {
    stage: u8,
    flags: u16,
    this_class: u16,
    super_class: u16,
    pool: PoolMaker,
    interfaces: List<u16>,
    fields: List<FieldInfo>,
    methods: List<MethodInfo>,
    opened: Option<OpenCode>,
}

/// The most items of a list that a class file counts in two bytes.
const MOST: usize = 65535;

// ---- code

/// Whether the label is set in this line and in none before.
fn is_set_here(code: &OpenCode, number: usize, name: &[u8]) -> Result<(), Halt>
    ensures { Comes (λ _. seen_code code.now) result (same_setting number (setting_of code.now.labels name.now) (seen_code code.now)) }
{
    match code.labels.find(name) {
        Some(place) if place.line == number => Ok(()),
        _ => Err(Halt::At(Cause::Label)),
    }
}

/// The index of what an operation names, 0 where it names nothing.
#[tactic(auto, unfolding(crate::specs::Encoding::need_operand))]
fn operand(alloc: Global, pool: &mut PoolMaker, operation: &Operation) -> Result<u16, Halt>
    requires { IsMaker pool.old }
    ensures made { Comes (λ index. (pool.new.pool, index)) result (need_operand operation.now pool.old.pool) }
    ensures maker { OnOk result (IsMaker pool.new) }
{
    match operation {
        Operation::Load { constant, .. } => Ok(pool.need_constant(alloc, constant)?),
        Operation::OfClass { class, .. } => Ok(pool.need_class(alloc, class.as_slice())?),
        Operation::OfMember { op, member } => Ok(pool.need_member(alloc, *op, member)?),
        _ => Ok(0),
    }
}

/// The line of an instruction.
fn insn_line(
    alloc: Global,
    pool: &mut PoolMaker,
    code: &mut OpenCode,
    operation: &Operation,
) -> Result<(), Halt>
    requires { IsMaker pool.old }
    ensures coded { Comes (λ _. (seen_code code.new, pool.new.pool)) result (insn_of (seen_code code.old) pool.old.pool operation.now) }
    ensures maker { OnOk result (IsMaker pool.new) }
{
    let entry = operand(alloc, pool, operation)?;
    let bytes = operation_bytes(alloc, &code.labels, code.bytes.len(), entry, operation)?;
    code.bytes.extend_from_slice(bytes.as_slice())?;
    Ok(())
}

/// The line of a row of the exception table.
fn row_line(
    alloc: Global,
    pool: &mut PoolMaker,
    code: &mut OpenCode,
    start: &[u8],
    end: &[u8],
    handler: &[u8],
    caught: &Option<Name>,
) -> Result<(), Halt>
    requires { IsMaker pool.old }
    ensures coded { Comes (λ _. (seen_code code.new, pool.new.pool)) result (row_of (seen_code code.old) pool.old.pool start.now end.now handler.now caught.now) }
    ensures maker { OnOk result (IsMaker pool.new) }
{
    let start = pc_of(&code.labels, start)?;
    let end = pc_of(&code.labels, end)?;
    let handler = pc_of(&code.labels, handler)?;
    let catch_type = pool.need_caught(alloc, caught)?;
    if code.rows.as_slice().len() >= MOST {
        return Err(Halt::At(Cause::Range));
    }
    code.rows.push(RowInfo {
        start,
        end,
        handler,
        catch_type,
    })?;
    code.caught = true;
    Ok(())
}

/// A line that can stand in the code.
fn standing_line(
    alloc: Global,
    pool: &mut PoolMaker,
    code: &mut OpenCode,
    number: usize,
    statement: &Statement,
) -> Result<(), Halt>
    requires { IsMaker pool.old }
    ensures coded { Comes (λ _. (seen_code code.new, pool.new.pool)) result (standing_of (seen_code code.old) pool.old.pool number statement.now) }
    ensures maker { OnOk result (IsMaker pool.new) }
{
    match statement {
        Statement::Label(name) => is_set_here(code, number, name.as_slice()),
        Statement::Instruction(operation) => insn_line(alloc, pool, code, operation),
        Statement::Catch {
            start,
            end,
            handler,
            caught,
        } => row_line(
            alloc,
            pool,
            code,
            start.as_slice(),
            end.as_slice(),
            handler.as_slice(),
            caught,
        ),
        _ => Err(Halt::At(Cause::Line)),
    }
}

/// A line of the code.
#[tactic(auto, unfolding(crate::specs::Assembly::code_line))]
fn code_line(
    alloc: Global,
    pool: &mut PoolMaker,
    code: &mut OpenCode,
    line: &NumberedLine,
) -> Result<(), Halt>
    requires { IsMaker pool.old }
    ensures coded { Comes (λ _. (seen_code code.new, pool.new.pool)) result (code_of (seen_code code.old) pool.old.pool line.now.number line.now.said) }
    ensures maker { OnOk result (IsMaker pool.new) }
{
    match &line.said {
        Some(statement) if stands(code.caught, statement) => {
            standing_line(alloc, pool, code, line.number, statement)
        }
        _ => Err(Halt::At(Cause::Line)),
    }
}

// ---- the class

/// Whether a line of this rank may come at this stage.
fn may_come(stage: u8, rank: u8) -> bool
    ensures { result ≡ comes stage rank }
{
    if stage == 0 { rank == 0 } else { stage <= rank }
}

/// The line of the class.
fn class_line(
    alloc: Global,
    parts: &mut Parts,
    name: &[u8],
    superclass: &[u8],
    flags: u16,
) -> Result<(), Halt>
    requires { IsMaker parts.old.pool }
    ensures made { Comes (λ _. seen parts.new) result (class_with (seen parts.old) name.now superclass.now flags) }
    ensures maker { OnOk result (IsMaker parts.new.pool) }
{
    parts.this_class = parts.pool.need_class(alloc, name)?;
    parts.super_class = parts.pool.need_class(alloc, superclass)?;
    parts.flags = flags;
    parts.stage = 1;
    Ok(())
}

fn interface_line(alloc: Global, parts: &mut Parts, name: &[u8]) -> Result<(), Halt>
    requires { IsMaker parts.old.pool }
    ensures made { Comes (λ _. seen parts.new) result (interface_with (seen parts.old) name.now) }
    ensures maker { OnOk result (IsMaker parts.new.pool) }
{
    let index = parts.pool.need_class(alloc, name)?;
    if parts.interfaces.as_slice().len() >= MOST {
        return Err(Halt::At(Cause::Range));
    }
    parts.interfaces.push(index)?;
    Ok(())
}

fn field_line(
    alloc: Global,
    parts: &mut Parts,
    name: &[u8],
    desc: &[u8],
    flags: u16,
    constant: &Option<Constant>,
) -> Result<(), Halt>
    requires { IsMaker parts.old.pool }
    ensures made { Comes (λ _. seen parts.new) result (field_with (seen parts.old) name.now desc.now flags constant.now) }
    ensures maker { OnOk result (IsMaker parts.new.pool) }
{
    let (name, desc) = parts.pool.need_head(alloc, name, desc)?;
    let constant = parts.pool.need_value(alloc, constant)?;
    if parts.fields.as_slice().len() >= MOST {
        return Err(Halt::At(Cause::Range));
    }
    parts.fields.push(FieldInfo {
        flags,
        name,
        desc,
        constant,
    })?;
    parts.stage = 2;
    Ok(())
}

/// The line of a method with code, which these lines follow.
fn open_line(
    alloc: Global,
    parts: &mut Parts,
    name: &[u8],
    desc: &[u8],
    flags: u16,
    limits: Limits,
    body: &[NumberedLine],
) -> Result<(), Halt>
    requires { IsMaker parts.old.pool }
    ensures made { Comes (λ _. seen parts.new) result (open_with (seen parts.old) name.now desc.now flags limits body.now) }
    ensures maker { OnOk result (IsMaker parts.new.pool) }
{
    let (name, desc) = parts.pool.need_head(alloc, name, desc)?;
    parts.pool.need_text(alloc, b"Code")?;
    let stack = unsigned_in(65536, limits.stack)?;
    let locals = unsigned_in(65536, limits.locals)?;
    if size_of(body) >= 65536 || parts.methods.as_slice().len() >= MOST {
        return Err(Halt::At(Cause::Range));
    }
    let labels = labels_of(alloc, body)?;
    parts.opened = Some(OpenCode {
        flags,
        name,
        desc,
        stack,
        locals,
        labels,
        caught: false,
        bytes: Vec::new(alloc),
        rows: List::new(alloc),
    });
    parts.stage = 3;
    Ok(())
}

/// The line of a method, and what follows it.
fn method_line(
    alloc: Global,
    parts: &mut Parts,
    name: &[u8],
    desc: &[u8],
    flags: u16,
    limits: &Option<Limits>,
    rest: &[NumberedLine],
) -> Result<(), Halt>
    requires { IsMaker parts.old.pool }
    ensures made { Comes (λ _. seen parts.new) result (method_with (seen parts.old) name.now desc.now flags limits.now rest.now) }
    ensures maker { OnOk result (IsMaker parts.new.pool) }
{
    if let Some(limits) = limits {
        return open_line(alloc, parts, name, desc, flags, *limits, body_of(rest));
    }
    let (name, desc) = parts.pool.need_head(alloc, name, desc)?;
    if parts.methods.as_slice().len() >= MOST {
        return Err(Halt::At(Cause::Range));
    }
    parts.methods.push(MethodInfo {
        flags,
        name,
        desc,
        code: None,
    })?;
    parts.stage = 3;
    Ok(())
}

/// A line that stands in no code, and what follows it.
#[tactic(auto, unfolding(crate::specs::Assembly::member_line))]
fn member_line(
    alloc: Global,
    parts: &mut Parts,
    said: &Option<Statement>,
    rest: &[NumberedLine],
) -> Result<(), Halt>
    requires { IsMaker parts.old.pool }
    ensures made { Comes (λ _. seen parts.new) result (member_with (seen parts.old) said.now rest.now) }
    ensures maker { OnOk result (IsMaker parts.new.pool) }
{
    match said {
        Some(
            Statement::Class {
                name,
                superclass,
                flags,
            },
        ) if may_come(parts.stage, 0) => {
            class_line(alloc, parts, name.as_slice(), superclass.as_slice(), *flags)
        }
        Some(Statement::Implements(name)) if may_come(parts.stage, 1) => {
            interface_line(alloc, parts, name.as_slice())
        }
        Some(
            Statement::Field {
                name,
                desc,
                flags,
                constant,
            },
        ) if may_come(parts.stage, 2) => field_line(
            alloc,
            parts,
            name.as_slice(),
            desc.as_slice(),
            *flags,
            constant,
        ),
        Some(
            Statement::Method {
                name,
                desc,
                flags,
                limits,
            },
        ) if may_come(parts.stage, 3) => method_line(
            alloc,
            parts,
            name.as_slice(),
            desc.as_slice(),
            *flags,
            limits,
            rest,
        ),
        _ => Err(Halt::At(Cause::Line)),
    }
}

/// Puts the method to the others.
fn close(parts: &mut Parts, code: OpenCode) -> Result<(), Halt>
    ensures made { Comes (λ _. seen parts.new) result (Ok (closed_with (seen parts.old) (seen_code code))) }
    ensures pool { parts.new.pool ≡ parts.old.pool }
{
    parts.methods.push(MethodInfo {
        flags: code.flags,
        name: code.name,
        desc: code.desc,
        code: Some(CodeInfo {
            max_stack: code.stack,
            max_locals: code.locals,
            bytes: Name::from(code.bytes),
            rows: code.rows,
        }),
    })?;
    parts.opened = None;
    Ok(())
}

/// A line and what follows it.
#[tactic(auto, unfolding(crate::specs::Assembly::line_by))]
fn add_line(
    alloc: Global,
    parts: &mut Parts,
    line: &NumberedLine,
    rest: &[NumberedLine],
) -> Result<(), Halt>
    requires { IsMaker parts.old.pool }
    ensures made { Comes (λ _. seen parts.new) result (line_in (seen parts.old) line.now rest.now) }
    ensures maker { OnOk result (IsMaker parts.new.pool) }
{
    let Some(code) = parts.opened.take() else {
        return member_line(alloc, parts, &line.said, rest);
    };
    let mut code = code;
    if ends(&line.said) {
        return close(parts, code);
    }
    code_line(alloc, &mut parts.pool, &mut code, line)?;
    parts.opened = Some(code);
    Ok(())
}

impl Parts {
    /// No parts.
    fn new(alloc: Global) -> Parts
        ensures nothing { seen result ≡ nothing }
        ensures maker { IsMaker result.pool }
    {
        Parts {
            stage: 0,
            flags: 0,
            this_class: 0,
            super_class: 0,
            pool: PoolMaker::new(alloc),
            interfaces: List::new(alloc),
            fields: List::new(alloc),
            methods: List::new(alloc),
            opened: None,
        }
    }

    /// Whether there is a class, and no method without its `end`.
    fn is_whole(&self) -> bool
        ensures { result ≡ whole_made (seen self.now) }
    {
        self.stage != 0 && self.opened.is_none()
    }

    /// The class of these parts.
    fn into_class(self) -> ClassFile
        ensures { result ≡ class_of (seen self) }
    {
        ClassFile {
            minor: 0,
            major: 52,
            pool: self.pool.into_pool(),
            flags: self.flags,
            this_class: self.this_class,
            super_class: self.super_class,
            interfaces: self.interfaces,
            fields: self.fields,
            methods: self.methods,
        }
    }
}

/// Why a text wasn't assembled. Lines are counted from 1, and one past 2^32 - 1 stands as that number.
#[derive(Clone, Copy, PartialEq, Eq, Debug)]
pub enum AsmFault {
    /// The line is outside the grammar; or the text ends too early, and it is the line behind its last.
    Line(u32),
    /// A label that is used and not set in its method, or set a second time.
    Label(u32),
    /// A number, an offset, an index, a count or a length that doesn't fit its field.
    Range(u32),
    Memory,
}

/// Why no class was made.
#[derive(Clone, Copy)]
pub enum Refusal {
    At(Fault),
    Memory,
}

/// What a refusal is to a caller.
fn fault_for(refusal: Refusal) -> AsmFault
    ensures { result ≡ fault_with refusal }
{
    match refusal {
        Refusal::Memory => AsmFault::Memory,
        Refusal::At(fault) => {
            let line = fault.line.min(u32::MAX as usize) as u32;
            match fault.cause {
                Cause::Line => AsmFault::Line(line),
                Cause::Label => AsmFault::Label(line),
                Cause::Range => AsmFault::Range(line),
            }
        }
    }
}

/// Puts these lines together.
fn add_lines(alloc: Global, parts: &mut Parts, lines: &[NumberedLine]) -> Result<(), Refusal>
    requires { IsMaker parts.old.pool }
    ensures { Puts (λ _. seen parts.new) result (made_by (seen parts.old) lines.now) }
{
    for (index, line) in lines.iter().enumerate() {
        match add_line(alloc, parts, line, behind(lines, index + 1)) {
            Ok(()) => {}
            Err(Halt::At(cause)) => {
                return Err(Refusal::At(Fault {
                    line: line.number,
                    cause,
                }));
            }
            Err(Halt::Memory) => return Err(Refusal::Memory),
        }
    }
    Ok(())
}

/// What follows so many lines: nothing where there are fewer.
fn behind(lines: &[NumberedLine], count: usize) -> &[NumberedLine]
    ensures { result.now ≡ drop count lines.now }
{
    &lines[count.min(lines.len())..]
}

#[tactic(auto, unfolding(crate::specs::Assembly::assembled))]
fn class_or_refusal(alloc: Global, text: &[u8]) -> Result<ClassFile, Refusal>
    ensures { Puts (λ class. class) result (assembled text.now) }
{
    let text = match read_lines(alloc, text) {
        Ok(text) => text,
        Err(_) => return Err(Refusal::Memory),
    };
    let mut parts = Parts::new(alloc);
    add_lines(alloc, &mut parts, text.lines.as_slice())?;
    if parts.is_whole() {
        Ok(parts.into_class())
    } else {
        Err(Refusal::At(Fault {
            line: text.count + 1,
            cause: Cause::Line,
        }))
    }
}

/// The class that a text says, or its first fault.
pub fn assemble(alloc: Global, text: &[u8]) -> Result<ClassFile, AsmFault>
    ensures answer { Answers result (answer_of text.now) }
    ensures fits { IfOk result (λ class. FitsClass class) }
{
    match class_or_refusal(alloc, text) {
        Ok(class) => Ok(class),
        Err(refusal) => Err(fault_for(refusal)),
    }
}

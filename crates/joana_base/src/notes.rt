//! The lines of notes that say what refuses a command.
ghost use Rattle.std.specs.Prelude.{◌≡◌, ◌++◌, OnOk, IfOk, codes};
ghost use Rattle.std.specs.Fmt.{decimal};
ghost use Rattle.joana_base.specs.Notes;

use crate::status::{
    InputFault, LimitKind, LinkKind, PolicyKind, Refusal, RunFileKind, TypingFault, TypingKind,
};
use class_asm::AsmFault;
use class_pool::{ClassCode, ClassFault, Cut};
use jo_text::{Name, push_escaped};
use std::alloc::{AllocError as Memory, Global};

fn push_number(alloc: Global, out: &mut Vec<u8>, n: u32) -> Result<(), Memory>
    ensures { OnOk result (out.new.items ≡ out.old.items ++ decimal n) }
{
    let digits = n.to_string(alloc)?;
    out.extend_from_slice(digits.as_bytes())
}

/// The name of a code. Want of memory is no fault of a file and has none.
fn code_word(code: ClassCode) -> &'static [u8]
    ensures { result.now ≡ Notes.code_word code }
{
    match code {
        ClassCode::Truncated => b"C1",
        ClassCode::Magic => b"C2",
        ClassCode::Version => b"C3",
        ClassCode::PoolTag => b"C4",
        ClassCode::PoolIndex => b"C5",
        ClassCode::BadText => b"C6",
        ClassCode::BadDescriptor => b"C7",
        ClassCode::CodeBounds => b"C8",
        ClassCode::BadOpcode => b"C9",
        ClassCode::Trailing => b"C10",
        ClassCode::Unsupported(_) => b"C11",
        ClassCode::Memory => b"",
    }
}

/// What the profile cuts.
fn push_cut(alloc: Global, out: &mut Vec<u8>, cut: Cut) -> Result<(), Memory>
    ensures { OnOk result (out.new.items ≡ out.old.items ++ Notes.cut_words cut) }
{
    match cut {
        Cut::Opcode(op) => {
            out.extend_from_slice(b" opcode ")?;
            push_number(alloc, out, u32::from(op))
        }
        Cut::Constant(index) => {
            out.extend_from_slice(b" constant ")?;
            push_number(alloc, out, u32::from(index))
        }
        Cut::WideType => out.extend_from_slice(b" type"),
        Cut::Synchronized => out.extend_from_slice(b" synchronized"),
    }
}

fn push_detail(alloc: Global, out: &mut Vec<u8>, code: ClassCode) -> Result<(), Memory>
    ensures { OnOk result (out.new.items ≡ out.old.items ++ Notes.detail code) }
{
    match code {
        ClassCode::Unsupported(cut) => push_cut(alloc, out, cut),
        _ => Ok(()),
    }
}

/// The fault of the class file with that number.
fn push_class_fault(
    alloc: Global,
    out: &mut Vec<u8>,
    file: u32,
    fault: ClassFault,
) -> Result<(), Memory>
    ensures { OnOk result (out.new.items ≡ out.old.items ++ Notes.class_words file fault) }
{
    out.extend_from_slice(code_word(fault.code))?;
    out.push(b' ')?;
    push_number(alloc, out, file)?;
    out.push(b' ')?;
    push_number(alloc, out, fault.place)?;
    push_detail(alloc, out, fault.code)
}

/// A word and the place or the line of a text with a fault.
fn push_at(alloc: Global, out: &mut Vec<u8>, word: &[u8], place: u32) -> Result<(), Memory>
    ensures { OnOk result (out.new.items ≡ out.old.items ++ (word.now ++ decimal place)) }
{
    out.extend_from_slice(word)?;
    push_number(alloc, out, place)
}

/// The fault of an assembly text. Want of memory is none.
fn push_asm_fault(alloc: Global, out: &mut Vec<u8>, fault: AsmFault) -> Result<(), Memory>
    ensures { OnOk result (out.new.items ≡ out.old.items ++ Notes.asm_words fault) }
{
    match fault {
        AsmFault::Line(line) => push_at(alloc, out, b"A1 ", line),
        AsmFault::Label(line) => push_at(alloc, out, b"A2 ", line),
        AsmFault::Range(line) => push_at(alloc, out, b"A3 ", line),
        AsmFault::Memory => Ok(()),
    }
}

fn link_word(kind: LinkKind) -> &'static [u8]
    ensures { result.now ≡ Notes.link_word kind }
{
    match kind {
        LinkKind::TwiceDefined => b"L1",
        LinkKind::MissingClass => b"L2",
        LinkKind::CyclicSuper => b"L3",
        LinkKind::MissingMember => b"L4",
        LinkKind::NotImplemented => b"L5",
        LinkKind::InterfaceBody => b"L6",
        LinkKind::StaticInit => b"L7",
    }
}

/// The fault of the class with that name.
fn push_link_fault(out: &mut Vec<u8>, kind: LinkKind, name: &Name) -> Result<(), Memory>
    ensures { OnOk result (out.new.items ≡ out.old.items ++ Notes.link_words kind name.now) }
{
    out.extend_from_slice(link_word(kind))?;
    out.push(b' ')?;
    push_escaped(out, name.as_slice())
}

fn typing_word(kind: TypingKind) -> &'static [u8]
    ensures { result.now ≡ Notes.typing_word kind }
{
    match kind {
        TypingKind::Underflow => b"Y1",
        TypingKind::Overflow => b"Y2",
        TypingKind::HeightDiffers => b"Y3",
        TypingKind::WrongKind => b"Y4",
        TypingKind::FallsOff => b"Y5",
        TypingKind::LocalRange => b"Y6",
    }
}

/// The fault of a method.
fn push_typing_fault(alloc: Global, out: &mut Vec<u8>, fault: &TypingFault) -> Result<(), Memory>
    ensures { OnOk result (out.new.items ≡ out.old.items ++ Notes.typing_words fault.now) }
{
    out.extend_from_slice(typing_word(fault.kind))?;
    out.push(b' ')?;
    out.extend_from_slice(fault.method.as_slice())?;
    out.push(b' ')?;
    push_number(alloc, out, fault.pc)
}

fn policy_word(kind: PolicyKind) -> &'static [u8]
    ensures { result.now ≡ Notes.policy_word kind }
{
    match kind {
        PolicyKind::NotToml => b"P1",
        PolicyKind::Key => b"P2",
        PolicyKind::UnknownLevel => b"P3",
        PolicyKind::Order => b"P4",
        PolicyKind::MissingMethod => b"P5",
        PolicyKind::WrongShape => b"P6",
        PolicyKind::UnlabelledNative => b"P7",
        PolicyKind::TwiceLabelled => b"P8",
        PolicyKind::ReleaseUpward => b"P9",
        PolicyKind::ReleaseWithThreads => b"P10",
        PolicyKind::Entry => b"P11",
    }
}

/// The fault of a policy, which carries this.
fn push_policy_fault(out: &mut Vec<u8>, kind: PolicyKind, carried: &Name) -> Result<(), Memory>
    ensures { OnOk result (out.new.items ≡ out.old.items ++ (Notes.policy_word kind ++ carried.now)) }
{
    out.extend_from_slice(policy_word(kind))?;
    out.extend_from_slice(carried.as_slice())
}

fn run_file_word(kind: RunFileKind) -> &'static [u8]
    ensures { result.now ≡ Notes.run_file_word kind }
{
    match kind {
        RunFileKind::NotToml => b"U1",
        RunFileKind::Key => b"U2",
        RunFileKind::Source => b"U3",
        RunFileKind::Range => b"U4",
    }
}

fn push_fault(alloc: Global, out: &mut Vec<u8>, fault: &InputFault) -> Result<(), Memory>
    ensures { OnOk result (out.new.items ≡ out.old.items ++ Notes.fault_words fault.now) }
{
    match fault {
        InputFault::NotBuilt => out.extend_from_slice(b"NotBuilt"),
        InputFault::ClassList(place) => push_at(alloc, out, b"B1 ", *place),
        InputFault::Class(file, fault) => push_class_fault(alloc, out, *file, *fault),
        InputFault::Link(kind, name) => push_link_fault(out, *kind, name),
        InputFault::Typing(fault) => push_typing_fault(alloc, out, fault),
        InputFault::Policy(kind, carried) => push_policy_fault(out, *kind, carried),
        InputFault::RunFile(kind) => out.extend_from_slice(run_file_word(*kind)),
        InputFault::Asm(fault) => push_asm_fault(alloc, out, *fault),
    }
}

fn limit_word(kind: LimitKind) -> &'static [u8]
    ensures { result.now ≡ Notes.limit_word kind }
{
    match kind {
        LimitKind::M1 => b"M1",
        LimitKind::M2 => b"M2",
        LimitKind::M3 => b"M3",
        LimitKind::M4 => b"M4",
        LimitKind::M5 => b"M5",
        LimitKind::M6 => b"M6",
        LimitKind::M7 => b"M7",
    }
}

fn input_line(alloc: Global, fault: &InputFault) -> Result<Vec<u8>, Memory>
    ensures { IfOk result (λ line.
        line.items ≡ codes "joana: input " ++ Notes.fault_words fault.now ++ codes "\n") }
{
    let mut line = Vec::new(alloc);
    line.extend_from_slice(b"joana: input ")?;
    push_fault(alloc, &mut line, fault)?;
    line.push(b'\n')?;
    Ok(line)
}

fn limit_line(alloc: Global, kind: LimitKind) -> Result<Vec<u8>, Memory>
    ensures { IfOk result (λ line.
        line.items ≡ codes "joana: limit " ++ Notes.limit_word kind ++ codes "\n") }
{
    let mut line = Vec::new(alloc);
    line.extend_from_slice(b"joana: limit ")?;
    line.extend_from_slice(limit_word(kind))?;
    line.push(b'\n')?;
    Ok(line)
}

/// The line that says what refuses a command.
pub fn refusal_line(alloc: Global, refusal: &Refusal) -> Result<Vec<u8>, Memory>
    ensures { IfOk result (λ line. line.items ≡ Notes.refusal_line refusal.now) }
{
    match refusal {
        Refusal::Input(fault) => input_line(alloc, fault),
        Refusal::Limit(kind) => limit_line(alloc, *kind),
    }
}

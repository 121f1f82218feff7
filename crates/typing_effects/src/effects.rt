//! What each instruction asks of the stack and of locals, and what it makes of them.
ghost use Rattle.std.specs.Prelude.{◌≡◌, ◌<◌, ◌^◌, ◌++◌, ◌∷◌, ◌==◌, false, [], None, Some, Option, ℕ, IfOk, length, map, reverse, replicate, option_map, option_and_then, if◌then◌else◌};
ghost use Rattle.std.specs.Option.{option_copied};
ghost use Rattle.jo_prog.specs.Typing;
ghost use Rattle.jo_prog.specs.Shapes;
ghost use Rattle.jo_prog.specs.Calls;
ghost use Rattle.jo_prog.specs.MethodTypes.{field_desc_in, method_desc_in};
ghost use Rattle.jo_prog.specs.InsnTyping;
ghost use Rattle.jo_prog.specs.TypingPaths;
ghost use Rattle.hierarchy.specs.Hierarchies.{IsHierarchyOf};
ghost use Rattle.typing_effects.specs.Forms.{ask_in, push_in, form_in};
ghost use Rattle.typing_effects.specs.ClassNames.{AreNamesOf};
ghost use Rattle.typing_effects.specs.Kinds.{kind_in};
ghost use Rattle.typing_effects.specs.Effects.{need_in, pushes_in, effect_in};
ghost use Rattle.typing_heights.specs.Subjects.{program_of, typable_of, IsSubject};

use crate::class_names::ClassNames;
use crate::forms::{Ask, Form, Push, jump_form, local_form, plain_form};
use crate::kinds::{Kind, copy_base, copy_name, copy_type, kind_of_type};
use hierarchy::Hierarchy;
use jo_ids::{ClassId, Id, Memory};
use jo_insn::Insn;
use jo_prog::calls::is_taken_as_resolved;
use jo_prog::program::{MemberRef, Method, Operand, Program, TypeRef, class_at, method_at};
use jo_text::{Base, DescFault, FieldDesc, MethodDesc, read_field_desc, read_method_desc};
use std::alloc::{AllocError, Global};
use typing_heights::sizes::{operand_at, within};
use typing_heights::spots::insn_at;
use typing_heights::subjects::Subject;

/// The number of java/lang/String.
const STRING: u32 = 1;

/// What a place is asked for.
#[derive(Drop)]
pub enum Need {
    Anything,
    Of(Ask),
    OfType(TypeRef),
    /// Of both.
    OfTypeAnd(TypeRef, ClassId),
    Nothing,
}

/// What is pushed.
#[derive(Drop)]
pub enum Pushes {
    Of(Push),
    One(Kind),
    /// What a local holds, a reference.
    Local(u16),
    /// Copies of the popped places with these numbers.
    Copies(&'static [u8]),
}

/// A local that is read or written.
#[derive(Clone, Copy)]
pub enum Access {
    Nothing,
    Int(u16),
    Reference(u16),
}

/// What an instruction pops, pushes, reads and writes.
#[derive(Drop)]
pub struct Effect {
    pub pops: Vec<Need>,
    pub pushes: Pushes,
    pub reads: Access,
    pub writes: Access,
    /// Of a wrong kind, whatever the places hold.
    pub wrong: bool,
}

fn of_stack(pops: Vec<Need>, pushes: Pushes) -> Effect
    ensures { effect_in result ≡ InsnTyping.stack_effect (map need_in pops.items) (pushes_in pushes) }
{
    Effect {
        pops,
        pushes,
        reads: Access::Nothing,
        writes: Access::Nothing,
        wrong: false,
    }
}

fn wrong(alloc: Global) -> Effect
    ensures { effect_in result ≡ InsnTyping.wrong_effect }
{
    Effect {
        pops: Vec::new(alloc),
        pushes: Pushes::Of(Push::Nothing),
        reads: Access::Nothing,
        writes: Access::Nothing,
        wrong: true,
    }
}

fn one(alloc: Global, need: Need) -> Result<Vec<Need>, Memory>
    ensures { IfOk result (λ needs. map need_in needs.items ≡ need_in need ∷ []) }
{
    let mut needs = Vec::new(alloc);
    needs.push(need)?;
    Ok(needs)
}

fn asks(alloc: Global, asked: &[Ask]) -> Result<Vec<Need>, Memory>
    ensures { IfOk result (λ needs. map need_in needs.items ≡ map ask_in asked.now) }
{
    let mut needs = Vec::new(alloc);
    for ask in asked {
        needs.push(Need::Of(*ask))?;
    }
    Ok(needs)
}

fn anything(alloc: Global, count: u8) -> Result<Vec<Need>, Memory>
    ensures { IfOk result (λ needs. map need_in needs.items ≡ replicate count Shapes.Anything) }
{
    let mut needs = Vec::new(alloc);
    for _ in 0..count {
        needs.push(Need::Anything)?;
    }
    Ok(needs)
}

fn of_local(pops: Vec<Need>, pushes: Pushes, reads: Access, writes: Access) -> Effect
    ensures { result ≡ record { pops = pops; pushes = pushes; reads = reads; writes = writes; wrong = false } }
{
    Effect {
        pops,
        pushes,
        reads,
        writes,
        wrong: false,
    }
}

/// Of an instruction of that form.
fn of_form(alloc: Global, form: Form) -> Result<Effect, Memory>
    ensures { IfOk result (λ effect. effect_in effect ≡ form_in form) }
{
    match form {
        Form::PopNone(push) => Ok(of_stack(Vec::new(alloc), Pushes::Of(push))),
        Form::PopOne(a, push) => {
            let pops = asks(alloc, &[a])?;
            Ok(of_stack(pops, Pushes::Of(push)))
        }
        Form::PopTwo(a, b, push) => {
            let pops = asks(alloc, &[a, b])?;
            Ok(of_stack(pops, Pushes::Of(push)))
        }
        Form::PopThree(a, b, c) => {
            let pops = asks(alloc, &[a, b, c])?;
            Ok(of_stack(pops, Pushes::Of(Push::Nothing)))
        }
        Form::LoadInt(local) => Ok(of_local(
            Vec::new(alloc),
            Pushes::Of(Push::Int),
            Access::Int(local),
            Access::Nothing,
        )),
        Form::LoadReference(local) => Ok(of_local(
            Vec::new(alloc),
            Pushes::Local(local),
            Access::Reference(local),
            Access::Nothing,
        )),
        Form::StoreInt(local) => {
            let pops = asks(alloc, &[Ask::AnInt])?;
            Ok(of_local(
                pops,
                Pushes::Of(Push::Nothing),
                Access::Nothing,
                Access::Int(local),
            ))
        }
        Form::StoreReference(local) => {
            let pops = asks(alloc, &[Ask::AReference])?;
            Ok(of_local(
                pops,
                Pushes::Of(Push::Nothing),
                Access::Nothing,
                Access::Reference(local),
            ))
        }
        Form::Step(local) => Ok(of_local(
            Vec::new(alloc),
            Pushes::Of(Push::Nothing),
            Access::Int(local),
            Access::Int(local),
        )),
        Form::Move(count, places) => {
            let pops = anything(alloc, count)?;
            Ok(of_stack(pops, Pushes::Copies(places)))
        }
        Form::Wrong => Ok(wrong(alloc)),
    }
}

/// What a value of that kind is asked for, where it is passed on.
fn need_of(kind: Kind) -> Need
    ensures { need_in result ≡ Shapes.need_of (kind_in kind) }
{
    match kind {
        Kind::Int => Need::Of(Ask::AnInt),
        Kind::Null => Need::Nothing,
        Kind::Ref(named) => Need::OfType(named),
        Kind::Unset => Need::Nothing,
    }
}

/// The kind of the method's result.
fn result_kind(
    alloc: Global,
    program: &Program,
    names: &ClassNames,
    method: &Method,
) -> Result<Option<Kind>, Memory>
    requires { AreNamesOf program.now.classes names.now }
    ensures { IfOk result (λ kind. option_map kind_in kind ≡ InsnTyping.result_kind program.now method.now) }
{
    match read_method_desc(alloc, method.desc.as_slice()) {
        Ok(desc) => {
            let kind = described_result(alloc, program, names, &desc)?;
            Ok(kind)
        }
        Err(DescFault::Bad) => Ok(Some(Kind::Unset)),
        Err(DescFault::Memory) => Err(AllocError),
    }
}

fn described_result(
    alloc: Global,
    program: &Program,
    names: &ClassNames,
    desc: &MethodDesc,
) -> Result<Option<Kind>, Memory>
    requires { AreNamesOf program.now.classes names.now }
    ensures { IfOk result (λ kind. option_map kind_in kind ≡ option_map (Shapes.kind_of_type program.now) desc.now.result) }
{
    match &desc.result {
        Some(desc) => {
            let kind = kind_of_type(alloc, program, names, desc)?;
            Ok(Some(kind))
        }
        None => Ok(None),
    }
}

fn int_result(kind: Option<Kind>) -> Need
    ensures { need_in result ≡ InsnTyping.int_result (option_map kind_in kind) }
{
    match kind {
        Some(Kind::Int) => Need::Of(Ask::AnInt),
        _ => Need::Nothing,
    }
}

fn reference_result(kind: Option<Kind>) -> Need
    ensures { need_in result ≡ InsnTyping.reference_result (option_map kind_in kind) }
{
    match kind {
        Some(Kind::Ref(named)) => Need::OfType(named),
        _ => Need::Nothing,
    }
}

fn returns_nothing(alloc: Global, kind: Option<Kind>) -> Effect
    ensures { effect_in result ≡ InsnTyping.returns_nothing (option_map kind_in kind) }
{
    Effect {
        pops: Vec::new(alloc),
        pushes: Pushes::Of(Push::Nothing),
        reads: Access::Nothing,
        writes: Access::Nothing,
        wrong: kind.is_some(),
    }
}

fn pops_one(alloc: Global, need: Need, pushes: Pushes) -> Result<Effect, Memory>
    ensures { IfOk result (λ effect. effect_in effect ≡ InsnTyping.stack_effect (need_in need ∷ []) (pushes_in pushes)) }
{
    let pops = one(alloc, need)?;
    Ok(of_stack(pops, pushes))
}

/// Of a return, `athrow` or what isn't of the profile.
fn leaving(alloc: Global, kind: Option<Kind>, op: u8) -> Result<Effect, Memory>
    ensures { IfOk result (λ effect. effect_in effect ≡ InsnTyping.first_of (InsnTyping.leaving_effect (option_map kind_in kind) op) InsnTyping.wrong_effect) }
{
    if op == 172 {
        let effect = pops_one(alloc, int_result(kind), Pushes::Of(Push::Nothing))?;
        Ok(effect)
    } else if op == 176 {
        let effect = pops_one(alloc, reference_result(kind), Pushes::Of(Push::Nothing))?;
        Ok(effect)
    } else if op == 177 {
        Ok(returns_nothing(alloc, kind))
    } else if op == 191 {
        let thrown = Need::OfType(TypeRef::Class(Id::of(4)));
        let effect = pops_one(alloc, thrown, Pushes::Of(Push::Nothing))?;
        Ok(effect)
    } else {
        Ok(wrong(alloc))
    }
}

fn plain(
    alloc: Global,
    program: &Program,
    names: &ClassNames,
    method: &Method,
    op: u8,
) -> Result<Effect, Memory>
    requires { AreNamesOf program.now.classes names.now }
    ensures { IfOk result (λ effect. effect_in effect ≡ InsnTyping.plain_effect (InsnTyping.result_kind program.now method.now) op) }
{
    match plain_form(op) {
        Some(form) => {
            let effect = of_form(alloc, form)?;
            Ok(effect)
        }
        None => {
            let kind = result_kind(alloc, program, names, method)?;
            let effect = leaving(alloc, kind, op)?;
            Ok(effect)
        }
    }
}

fn makes(pops: Vec<Need>, named: TypeRef) -> Effect
    ensures { effect_in result ≡ InsnTyping.makes (map need_in pops.items) named }
{
    of_stack(pops, Pushes::One(Kind::Ref(named)))
}

/// Of `ldc` and `ldc_w`.
fn constant(alloc: Global, operand: Option<&Operand>) -> Effect
    ensures { effect_in result ≡ InsnTyping.constant_of (option_copied operand.entry) }
{
    match operand {
        Some(Operand::Int(_)) => of_stack(Vec::new(alloc), Pushes::Of(Push::Int)),
        Some(Operand::Text(_)) => makes(Vec::new(alloc), TypeRef::Class(Id::of(STRING))),
        _ => wrong(alloc),
    }
}

fn named_array(alloc: Global, dims: u8, base: Base) -> Result<Effect, Memory>
    ensures { IfOk result (λ effect. effect_in effect ≡ InsnTyping.makes (Shapes.AnInt ∷ []) (TypeRef.Array (record { dims = dims; base = base }))) }
{
    let pops = asks(alloc, &[Ask::AnInt])?;
    Ok(makes(pops, TypeRef::Array(FieldDesc { dims, base })))
}

/// Of `anewarray`.
fn array_over(alloc: Global, program: &Program, element: &TypeRef) -> Result<Effect, Memory>
    ensures { IfOk result (λ effect. effect_in effect ≡ InsnTyping.array_over program.now element.now) }
{
    match element {
        TypeRef::Class(class) => match class_at(program, *class) {
            Some(class) => {
                let name = copy_name(alloc, &class.name)?;
                let effect = named_array(alloc, 1, Base::Class(name))?;
                Ok(effect)
            }
            None => Ok(wrong(alloc)),
        },
        TypeRef::Array(desc) => {
            // there are no arrays of more than 255 dimensions (JVM Specification SE 8, 4.9.1)
            let Some(dims) = desc.dims.checked_add(1) else {
                return Err(AllocError);
            };
            let base = copy_base(alloc, &desc.base)?;
            let effect = named_array(alloc, dims, base)?;
            Ok(effect)
        }
    }
}

fn of_type(alloc: Global, program: &Program, op: u8, named: &TypeRef) -> Result<Effect, Memory>
    ensures { IfOk result (λ effect. effect_in effect ≡ InsnTyping.type_effect program.now op named.now) }
{
    if op == 187 {
        let made = copy_type(alloc, named)?;
        Ok(makes(Vec::new(alloc), made))
    } else if op == 189 {
        let effect = array_over(alloc, program, named)?;
        Ok(effect)
    } else if op == 192 {
        let pops = asks(alloc, &[Ask::AReference])?;
        let made = copy_type(alloc, named)?;
        Ok(makes(pops, made))
    } else if op == 193 {
        let pops = asks(alloc, &[Ask::AReference])?;
        Ok(of_stack(pops, Pushes::Of(Push::Int)))
    } else {
        Ok(wrong(alloc))
    }
}

fn of_field(alloc: Global, op: u8, owner: &TypeRef, kind: Kind) -> Result<Effect, Memory>
    ensures { IfOk result (λ effect. effect_in effect ≡ InsnTyping.field_effect op owner.now (kind_in kind)) }
{
    if op == 178 {
        return Ok(of_stack(Vec::new(alloc), Pushes::One(kind)));
    }
    if op == 179 {
        let pops = one(alloc, need_of(kind))?;
        return Ok(of_stack(pops, Pushes::Of(Push::Nothing)));
    }
    let owner = copy_type(alloc, owner)?;
    if op == 180 {
        let pops = one(alloc, Need::OfType(owner))?;
        return Ok(of_stack(pops, Pushes::One(kind)));
    }
    let mut pops = one(alloc, need_of(kind))?;
    pops.push(Need::OfType(owner))?;
    Ok(of_stack(pops, Pushes::Of(Push::Nothing)))
}

fn field_by(
    alloc: Global,
    program: &Program,
    names: &ClassNames,
    op: u8,
    member: &MemberRef,
) -> Result<Effect, Memory>
    requires { AreNamesOf program.now.classes names.now }
    ensures { IfOk result (λ effect. effect_in effect ≡ InsnTyping.field_by program.now op member.now.owner (field_desc_in member.now.desc)) }
{
    match read_field_desc(alloc, member.desc.as_slice()) {
        Ok(desc) => {
            let kind = kind_of_type(alloc, program, names, &desc)?;
            let effect = of_field(alloc, op, &member.owner, kind)?;
            Ok(effect)
        }
        Err(DescFault::Bad) => Ok(wrong(alloc)),
        Err(DescFault::Memory) => Err(AllocError),
    }
}

/// The class in which methods of that type are looked for.
fn receiver_class(owner: &TypeRef) -> ClassId
    ensures { result ≡ Calls.receiver_class owner.now }
{
    match owner {
        TypeRef::Class(class) => *class,
        TypeRef::Array(_) => Id::of(0),
    }
}

/// Whether an `invokespecial` of the class looks for the method above it.
fn searches(program: &Program, hierarchy: &Hierarchy, current: ClassId, member: &MemberRef) -> bool
    requires { IsHierarchyOf program.now hierarchy.now }
    ensures { InsnTyping.special_types program.now current member.now ≡ (if result then TypeRef.Class current ∷ [] else []) }
{
    let owner = receiver_class(&member.owner);
    let Some(number) = hierarchy.resolve(
        program,
        owner,
        member.name.as_slice(),
        member.desc.as_slice(),
    ) else {
        return false;
    };
    match method_at(program, number) {
        Some(method) => !is_taken_as_resolved(current, method),
        None => false,
    }
}

/// What the receiver of a call is asked for.
fn receiver_need(
    alloc: Global,
    program: &Program,
    hierarchy: &Hierarchy,
    op: u8,
    current: ClassId,
    member: &MemberRef,
) -> Result<Need, Memory>
    requires kept { IsHierarchyOf program.now hierarchy.now }
    requires instance { (op == 184) ≡ false }
    ensures { IfOk result (λ need. InsnTyping.receiver_needs program.now op current member.now ≡ need_in need ∷ []) }
{
    let owner = copy_type(alloc, &member.owner)?;
    if op == 183 {
        if searches(program, hierarchy, current, member) {
            return Ok(Need::OfTypeAnd(owner, current));
        }
    }
    Ok(Need::OfType(owner))
}

fn argument_needs(
    alloc: Global,
    program: &Program,
    names: &ClassNames,
    params: &[FieldDesc],
) -> Result<Vec<Need>, Memory>
    requires { AreNamesOf program.now.classes names.now }
    ensures { IfOk result (λ needs. map need_in needs.items ≡ InsnTyping.argument_needs program.now params.now) }
{
    let mut needs = Vec::new(alloc);
    for desc in params {
        let kind = kind_of_type(alloc, program, names, desc)?;
        needs.push(need_of(kind))?;
    }
    needs.reverse();
    Ok(needs)
}

fn call_needs(
    alloc: Global,
    program: &Program,
    names: &ClassNames,
    hierarchy: &Hierarchy,
    op: u8,
    current: ClassId,
    member: &MemberRef,
    params: &[FieldDesc],
) -> Result<Vec<Need>, Memory>
    requires kept { IsHierarchyOf program.now hierarchy.now }
    requires names { AreNamesOf program.now.classes names.now }
    ensures { IfOk result (λ needs. map need_in needs.items ≡ InsnTyping.argument_needs program.now params.now ++ InsnTyping.receiver_needs program.now op current member.now) }
{
    let mut needs = argument_needs(alloc, program, names, params)?;
    if op == 184 {
        return Ok(needs);
    }
    let receiver = receiver_need(alloc, program, hierarchy, op, current, member)?;
    needs.push(receiver)?;
    Ok(needs)
}

fn result_pushes(
    alloc: Global,
    program: &Program,
    names: &ClassNames,
    desc: &MethodDesc,
) -> Result<Pushes, Memory>
    requires { AreNamesOf program.now.classes names.now }
    ensures { IfOk result (λ pushes. pushes_in pushes ≡ InsnTyping.result_origins program.now desc.now.result) }
{
    match &desc.result {
        Some(desc) => {
            let kind = kind_of_type(alloc, program, names, desc)?;
            Ok(Pushes::One(kind))
        }
        None => Ok(Pushes::Of(Push::Nothing)),
    }
}

fn described_call(
    alloc: Global,
    program: &Program,
    names: &ClassNames,
    hierarchy: &Hierarchy,
    op: u8,
    current: ClassId,
    member: &MemberRef,
    desc: &MethodDesc,
) -> Result<Effect, Memory>
    requires kept { IsHierarchyOf program.now hierarchy.now }
    requires names { AreNamesOf program.now.classes names.now }
    ensures { IfOk result (λ effect. effect_in effect ≡ InsnTyping.call_effect program.now op current member.now (Some desc.now)) }
{
    let pops = call_needs(
        alloc,
        program,
        names,
        hierarchy,
        op,
        current,
        member,
        desc.params.as_slice(),
    )?;
    let pushes = result_pushes(alloc, program, names, desc)?;
    Ok(of_stack(pops, pushes))
}

fn of_call(
    alloc: Global,
    program: &Program,
    names: &ClassNames,
    hierarchy: &Hierarchy,
    op: u8,
    current: ClassId,
    member: &MemberRef,
) -> Result<Effect, Memory>
    requires kept { IsHierarchyOf program.now hierarchy.now }
    requires names { AreNamesOf program.now.classes names.now }
    ensures { IfOk result (λ effect. effect_in effect ≡ InsnTyping.call_effect program.now op current member.now (method_desc_in member.now.desc)) }
{
    match read_method_desc(alloc, member.desc.as_slice()) {
        Ok(desc) => {
            let effect = described_call(
                alloc, program, names, hierarchy, op, current, member, &desc,
            )?;
            Ok(effect)
        }
        Err(DescFault::Bad) => Ok(wrong(alloc)),
        Err(DescFault::Memory) => Err(AllocError),
    }
}

fn of_member(
    alloc: Global,
    program: &Program,
    names: &ClassNames,
    hierarchy: &Hierarchy,
    op: u8,
    current: ClassId,
    member: &MemberRef,
) -> Result<Effect, Memory>
    requires kept { IsHierarchyOf program.now hierarchy.now }
    requires names { AreNamesOf program.now.classes names.now }
    ensures { IfOk result (λ effect. effect_in effect ≡ InsnTyping.member_effect program.now current op member.now) }
{
    if within(178, 181, op) {
        let effect = field_by(alloc, program, names, op, member)?;
        Ok(effect)
    } else if within(182, 185, op) {
        let effect = of_call(alloc, program, names, hierarchy, op, current, member)?;
        Ok(effect)
    } else {
        Ok(wrong(alloc))
    }
}

/// Of an instruction that names an operand.
fn of_operand(
    alloc: Global,
    program: &Program,
    names: &ClassNames,
    hierarchy: &Hierarchy,
    op: u8,
    current: ClassId,
    operand: Option<&Operand>,
) -> Result<Effect, Memory>
    requires kept { IsHierarchyOf program.now hierarchy.now }
    requires names { AreNamesOf program.now.classes names.now }
    ensures { IfOk result (λ effect. effect_in effect ≡ InsnTyping.pooled_effect program.now current op (option_copied operand.entry)) }
{
    if within(18, 19, op) {
        return Ok(constant(alloc, operand));
    }
    match operand {
        Some(Operand::OfType(named)) => {
            let effect = of_type(alloc, program, op, named)?;
            Ok(effect)
        }
        Some(Operand::Member(member)) => {
            let effect = of_member(alloc, program, names, hierarchy, op, current, member)?;
            Ok(effect)
        }
        _ => Ok(wrong(alloc)),
    }
}

/// The letter by which `newarray` names its elements' type.
fn base_of_kind(kind: u8) -> Base
    ensures { result ≡ InsnTyping.base_of_kind kind }
{
    if kind == 4 {
        Base::Boolean
    } else if kind == 5 {
        Base::Char
    } else if kind == 8 {
        Base::Byte
    } else if kind == 9 {
        Base::Short
    } else {
        Base::Int
    }
}

fn switches(alloc: Global) -> Result<Effect, Memory>
    ensures { IfOk result (λ effect. effect_in effect ≡ InsnTyping.stack_effect (Shapes.AnInt ∷ []) []) }
{
    let pops = asks(alloc, &[Ask::AnInt])?;
    Ok(of_stack(pops, Pushes::Of(Push::Nothing)))
}

/// Of an instruction of the method.
#[tactic(auto, unfolding(jo_prog::specs::InsnTyping::effect_of))]
pub(crate) fn effect_of(
    alloc: Global,
    hierarchy: &Hierarchy,
    names: &ClassNames,
    subject: &Subject<'_>,
    insn: Insn,
) -> Result<Effect, Memory>
    requires subject { IsSubject subject.now }
    requires kept { IsHierarchyOf (program_of subject.now) hierarchy.now }
    requires names { AreNamesOf (program_of subject.now).classes names.now }
    ensures { IfOk result (λ effect. effect_in effect ≡ InsnTyping.effect_of (program_of subject.now) subject.now.number subject.now.method.now insn) }
{
    match insn {
        Insn::Plain(op) => {
            let effect = plain(alloc, subject.program, names, subject.method, op)?;
            Ok(effect)
        }
        Insn::Local { op, index, .. } => {
            let effect = of_form(alloc, local_form(op, index))?;
            Ok(effect)
        }
        Insn::Iinc { index, .. } => {
            let effect = of_form(alloc, Form::Step(index))?;
            Ok(effect)
        }
        Insn::Push { .. } => Ok(of_stack(Vec::new(alloc), Pushes::Of(Push::Int))),
        Insn::Pooled { op, index } => {
            let operand = operand_at(subject.program, subject.method, index);
            let current = subject.method.class;
            let effect = of_operand(
                alloc,
                subject.program,
                names,
                hierarchy,
                op,
                current,
                operand,
            )?;
            Ok(effect)
        }
        Insn::Array(kind) => {
            let effect = named_array(alloc, 1, base_of_kind(kind))?;
            Ok(effect)
        }
        Insn::Jump { op, .. } => {
            let effect = of_form(alloc, jump_form(op))?;
            Ok(effect)
        }
        Insn::TableSwitch { .. } => {
            let effect = switches(alloc)?;
            Ok(effect)
        }
        Insn::LookupSwitch { .. } => {
            let effect = switches(alloc)?;
            Ok(effect)
        }
    }
}

/// What stands at that pc of the method.
pub fn effect_at(
    alloc: Global,
    hierarchy: &Hierarchy,
    names: &ClassNames,
    subject: &Subject<'_>,
    pc: u32,
) -> Result<Effect, Memory>
    requires subject { IsSubject subject.now }
    requires kept { IsHierarchyOf (program_of subject.now) hierarchy.now }
    requires names { AreNamesOf (program_of subject.now).classes names.now }
    ensures { IfOk result (λ effect. effect_in effect ≡ TypingPaths.effect_at (program_of subject.now) (typable_of subject.now) pc) }
{
    match insn_at(subject.code, pc) {
        Some(placed) => {
            let effect = effect_of(alloc, hierarchy, names, subject, placed.insn)?;
            Ok(effect)
        }
        None => Ok(wrong(alloc)),
    }
}

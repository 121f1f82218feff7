//! What the places of a method hold at its start.
ghost use Rattle.std.specs.Prelude.{◌≡◌, ◌↔◌, ◌<◌, ◌^◌, ◌++◌, [], Contains, IfOk, OnOk, length, map, replicate, slice_get};
ghost use Rattle.std.specs.Option.{option_copied};
ghost use Rattle.jo_prog.specs.InsnTyping;
ghost use Rattle.jo_prog.specs.MethodTypes.{method_desc_in};
ghost use Rattle.jo_prog.specs.Shapes;
ghost use Rattle.jo_prog.specs.Typing;
ghost use Rattle.typing_heights.specs.Adds.{Adds};
ghost use Rattle.typing_effects.specs.ClassNames.{AreNamesOf};
ghost use Rattle.typing_effects.specs.Kinds.{kind_in};
ghost use Rattle.jvm_typing.specs.KindPasses.{Item, items_of, Starts, StartAt};
ghost use Rattle.typing_heights.specs.Subjects.{program_of, typable_of, IsSubject};

use crate::fact_tables::FactTable;
use crate::facts::Fact;
use jo_ids::Memory;
use jo_insn::{ACC_STATIC, has_flag};
use jo_prog::program::{Method, Program, TypeRef};
use jo_text::{DescFault, FieldDesc, read_method_desc};
use std::alloc::{AllocError, Global};
use typing_effects::class_names::ClassNames;
use typing_effects::kinds::{Kind, copy_kind, kind_of_type};
use typing_heights::subjects::Subject;

fn receiver_kinds(alloc: Global, method: &Method) -> Result<Vec<Kind>, Memory>
    ensures { IfOk result (λ kinds. map kind_in kinds.items ≡ InsnTyping.receiver_kinds method.now) }
{
    let mut kinds = Vec::new(alloc);
    if has_flag(ACC_STATIC, method.flags) {
        return Ok(kinds);
    }
    kinds.push(Kind::Ref(TypeRef::Class(method.class)))?;
    Ok(kinds)
}

fn add_params(
    alloc: Global,
    kinds: &mut Vec<Kind>,
    program: &Program,
    names: &ClassNames,
    params: &[FieldDesc],
) -> Result<(), Memory>
    requires { AreNamesOf program.now.classes names.now }
    ensures { OnOk result (map kind_in kinds.new.items ≡ map kind_in kinds.old.items ++ map (Shapes.kind_of_type program.now) params.now) }
{
    for desc in params {
        let kind = kind_of_type(alloc, program, names, desc)?;
        kinds.push(kind)?;
    }
    Ok(())
}

fn add_described(
    alloc: Global,
    kinds: &mut Vec<Kind>,
    program: &Program,
    names: &ClassNames,
    method: &Method,
) -> Result<(), Memory>
    requires { AreNamesOf program.now.classes names.now }
    ensures { OnOk result (map kind_in kinds.new.items ≡ map kind_in kinds.old.items ++ InsnTyping.param_kinds program.now (method_desc_in method.now.desc)) }
{
    match read_method_desc(alloc, method.desc.as_slice()) {
        Ok(desc) => {
            add_params(alloc, kinds, program, names, desc.params.as_slice())?;
            Ok(())
        }
        Err(DescFault::Bad) => Ok(()),
        Err(DescFault::Memory) => Err(AllocError),
    }
}

fn add_unset(kinds: &mut Vec<Kind>, count: u16) -> Result<(), Memory>
    ensures { OnOk result (map kind_in kinds.new.items ≡ map kind_in kinds.old.items ++ replicate count Typing.Unset) }
{
    for _ in 0..count {
        kinds.push(Kind::Unset)?;
    }
    Ok(())
}

/// What the locals hold.
fn start_kinds(
    alloc: Global,
    program: &Program,
    names: &ClassNames,
    method: &Method,
    count: u16,
) -> Result<Vec<Kind>, Memory>
    requires { AreNamesOf program.now.classes names.now }
    ensures { IfOk result (λ kinds. map kind_in kinds.items ≡ InsnTyping.locals_at_start program.now method.now count) }
{
    let mut kinds = receiver_kinds(alloc, method)?;
    add_described(alloc, &mut kinds, program, names, method)?;
    add_unset(&mut kinds, count)?;
    kinds.truncate(usize::from(count));
    Ok(kinds)
}

fn kind_at(kinds: &[Kind], place: usize) -> Option<&Kind>
    ensures { option_copied result ≡ slice_get kinds.now place }
{
    kinds.get(place)
}

fn add_start(
    alloc: Global,
    facts: &mut FactTable,
    kinds: &[Kind],
    place: usize,
) -> Result<(), Memory>
    ensures { OnOk result (Adds (Contains (items_of facts.old)) (Contains (items_of facts.new)) (StartAt (map kind_in kinds.now) place)) }
{
    let Some(kind) = kind_at(kinds, place) else {
        return Ok(());
    };
    let kind = copy_kind(alloc, kind)?;
    facts.push(Fact { pc: 0, place, kind })?;
    Ok(())
}

/// The facts at the start of the method, and room for about so many.
pub(crate) fn start_facts(
    alloc: Global,
    subject: &Subject<'_>,
    names: &ClassNames,
    room: usize,
) -> Result<FactTable, Memory>
    requires { AreNamesOf (program_of subject.now).classes names.now }
    ensures { IfOk result (λ facts. (x : Item) → Contains (items_of facts) x ↔ Starts (program_of subject.now) (typable_of subject.now) x) }
{
    let kinds = start_kinds(
        alloc,
        subject.program,
        names,
        subject.method,
        subject.code.max_locals,
    )?;
    let mut facts = FactTable::new(alloc, room)?;
    for place in 0..kinds.len() {
        add_start(alloc, &mut facts, kinds.as_slice(), place)?;
    }
    Ok(facts)
}

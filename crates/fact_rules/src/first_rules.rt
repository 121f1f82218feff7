//! With what a program begins.
ghost use Rattle.std.specs.Prelude.{◌≡◌, ◌<◌, ◌^◌, ◌↔◌, [], length, IfOk, IsTrue, OnOk};
ghost use Rattle.jo_prog.specs.Program.{HasNumbers};
ghost use Rattle.dependence.specs.FactRules;
ghost use Rattle.dependence.specs.FactRules.{IsTextField};
ghost use Rattle.fact_sets.specs.Seen.{Listed, object_seen};
ghost use Rattle.fact_rules.specs.Adds.{Adds, FromBelow};
ghost use Rattle.fact_rules.specs.FirstRules.{ByFirst, HasParameter, IsText, EntryGives, FieldGives};

use crate::additions::add_fact;
use contexts::Contexts;
use dep_nodes::NodeKind;
use dependence::facts::{Fact, FactCell, InstKey};
use flow_graph::parameters;
use jo_ids::{FieldId, Id, Memory, MethodId, ObjKey};
use jo_insn::{ACC_STATIC, has_flag};
use jo_prog::program::{Field, Operand, Program};
use std::alloc::Global;

/// The numbers of the sites of all string constants, and of the entry's array.
const TEXTS: u32 = 0;

const ARGS: u32 = 1;

/// Whether a method has a parameter.
fn has_parameter(alloc: Global, program: &Program, method: MethodId) -> Result<bool, Memory>
    ensures { IfOk result (λ has. IsTrue has ↔ HasParameter program.now method) }
{
    let count = parameters(alloc, program, method)?;
    match count {
        Some(count) => Ok(count > 0),
        None => Ok(false),
    }
}

fn is_text(constant: &Option<Operand>) -> bool
    ensures { result ≡ FactRules.is_text constant.now }
{
    match constant {
        Some(Operand::Text(_)) => true,
        _ => false,
    }
}

/// Whether it is a static field of type String with a first value.
fn is_text_field(field: &Field) -> bool
    ensures { IsTrue result ↔ IsText field.now }
{
    has_flag(ACC_STATIC, field.flags)
        && field.desc.as_slice() == b"Ljava/lang/String;".as_slice()
        && is_text(&field.constant)
}

/// The object that a site makes in the first context.
fn object_of<X: Contexts>(contexts: &X, site: u32) -> ObjKey<X::C>
    ensures { object_seen X.list result ≡ FactRules.object_at site [] }
{
    ObjKey {
        site: Id::of(site),
        context: contexts.root(),
    }
}

/// Adds that the entry is given an array of strings, where it has a parameter.
fn add_given<X: Contexts>(
    alloc: Global,
    program: &Program,
    entry: MethodId,
    contexts: &X,
    following: &mut Vec<Fact<X::C>>,
) -> Result<(), Memory>
    ensures { OnOk result (Adds (Listed X.list following.old.items) (Listed X.list following.new.items) (EntryGives program.now entry)) }
{
    let has = has_parameter(alloc, program, entry)?;
    if !has {
        return Ok(());
    }
    let key = InstKey {
        method: entry,
        context: contexts.root(),
    };
    add_fact(
        following,
        Fact::Holds(key, NodeKind::Param(0), object_of(contexts, ARGS)),
    )
}

/// Adds that a field holds its first value, where that is a text.
fn add_field<X: Contexts>(
    program: &Program,
    field: FieldId,
    contexts: &X,
    following: &mut Vec<Fact<X::C>>,
) -> Result<(), Memory>
    requires { field < length program.now.fields }
    ensures { OnOk result (Adds (Listed X.list following.old.items) (Listed X.list following.new.items) (FieldGives program.now field)) }
{
    if !is_text_field(program.field(field)) {
        return Ok(());
    }
    add_fact(
        following,
        Fact::CellHolds(FactCell::Static(field), object_of(contexts, TEXTS)),
    )
}

/// Adds the first values of all fields.
fn add_fields<X: Contexts>(
    program: &Program,
    contexts: &X,
    following: &mut Vec<Fact<X::C>>,
) -> Result<(), Memory>
    requires { length program.now.fields < 2 ^ 32 }
    ensures { OnOk result (Adds (Listed X.list following.old.items) (Listed X.list following.new.items) (FromBelow (length program.now.fields) (FieldGives program.now))) }
{
    for number in 0..program.fields() {
        add_field(program, Id::of(number), contexts, following)?;
    }
    Ok(())
}

/// Adds with what a program begins: its entry runs, on an array of strings where it has a parameter, and fields have their first
/// values.
pub fn first_facts<X: Contexts>(
    alloc: Global,
    program: &Program,
    entry: MethodId,
    contexts: &X,
    following: &mut Vec<Fact<X::C>>,
) -> Result<(), Memory>
    requires numbers { HasNumbers program.now }
    ensures { OnOk result (Adds (Listed X.list following.old.items) (Listed X.list following.new.items) (ByFirst program.now entry)) }
{
    let key = InstKey {
        method: entry,
        context: contexts.root(),
    };
    add_fact(following, Fact::Reached(key))?;
    add_given(alloc, program, entry, contexts, following)?;
    add_fields(program, contexts, following)
}

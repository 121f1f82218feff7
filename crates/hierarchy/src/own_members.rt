//! The members of each class itself, by their names and descriptors.
ghost use Rattle.std.specs.Prelude.{◌≡◌, Some, if◌then◌else◌, IfOk, OnOk};
ghost use Rattle.jo_prog.specs.Program.{has_signature, method_at as method_with};
ghost use Rattle.jo_prog.specs.Hierarchy.{is_field};
ghost use Rattle.jo_prog.specs.Walks.{first_found};
ghost use Rattle.std.specs.Prelude.{slice_get};
ghost use Rattle.hierarchy.specs.declared.own_members.Signature.{Signature as OfSignature};
ghost use Rattle.hierarchy.specs.OwnMembers.{member_by, method_in, field_in, AreMethodsOf, AreFieldsOf, AreMembersOf, AreTables, HasTables};

use indexmap::IndexMap;
use jo_ids::{ClassId, FieldId, Memory, MethodId};
use jo_prog::members::field_at;
use jo_prog::program::{Class, Program, method_at};
use std::alloc::{AllocError, Global};

/// A name and a descriptor.
#[derive(Clone, Copy, PartialEq, Eq, Hash)]
pub(crate) struct Signature<'p> {
    pub name: &'p [u8],
    pub desc: &'p [u8],
}

/// The members of a class: of two with one name and descriptor the first.
#[derive(Drop)]
pub(crate) struct OwnMembers<'p> {
    methods: IndexMap<Signature<'p>, MethodId>,
    fields: IndexMap<Signature<'p>, FieldId>,
}

/// Puts a method in the place of one with its name and descriptor.
fn put_method<'p>(
    methods: &mut IndexMap<Signature<'p>, MethodId>,
    program: &'p Program,
    number: MethodId,
) -> Result<(), Memory>
    ensures { OnOk result ((q : OfSignature) → member_by methods.new q ≡
        (if has_signature q.name.now q.desc.now (method_with program.now number)
        then Some number else member_by methods.old q)) }
{
    let Some(method) = method_at(program, number) else {
        return Ok(());
    };
    let signature = Signature {
        name: method.name.as_slice(),
        desc: method.desc.as_slice(),
    };
    match methods.insert(signature, number) {
        Ok(_) => return Ok(()),
        Err(_) => return Err(AllocError),
    }
}

fn put_field<'p>(
    fields: &mut IndexMap<Signature<'p>, FieldId>,
    program: &'p Program,
    number: FieldId,
) -> Result<(), Memory>
    ensures { OnOk result ((q : OfSignature) → member_by fields.new q ≡
        (if is_field q.name.now q.desc.now (slice_get program.now.fields number)
        then Some number else member_by fields.old q)) }
{
    let Some(field) = field_at(program, number) else {
        return Ok(());
    };
    let signature = Signature {
        name: field.name.as_slice(),
        desc: field.desc.as_slice(),
    };
    match fields.insert(signature, number) {
        Ok(_) => return Ok(()),
        Err(_) => return Err(AllocError),
    }
}

/// The last methods first, so that of two the first stays.
fn methods_of<'p>(
    alloc: Global,
    program: &'p Program,
    numbers: &[MethodId],
) -> Result<IndexMap<Signature<'p>, MethodId>, Memory>
    ensures { IfOk result (λ methods. AreMethodsOf program.now numbers.now methods) }
{
    let mut methods = IndexMap::new(alloc);
    let mut left = numbers.len();
    while left > 0 {
        left -= 1;
        put_method(&mut methods, program, numbers[left])?;
    }
    Ok(methods)
}

fn fields_of<'p>(
    alloc: Global,
    program: &'p Program,
    numbers: &[FieldId],
) -> Result<IndexMap<Signature<'p>, FieldId>, Memory>
    ensures { IfOk result (λ fields. AreFieldsOf program.now numbers.now fields) }
{
    let mut fields = IndexMap::new(alloc);
    let mut left = numbers.len();
    while left > 0 {
        left -= 1;
        put_field(&mut fields, program, numbers[left])?;
    }
    Ok(fields)
}

fn members_of<'p>(
    alloc: Global,
    program: &'p Program,
    class: &Class,
) -> Result<OwnMembers<'p>, Memory>
    ensures { IfOk result (λ own. AreMembersOf program.now class.now own) }
{
    let methods = methods_of(alloc, program, class.methods.as_slice())?;
    let fields = fields_of(alloc, program, class.fields.as_slice())?;
    Ok(OwnMembers { methods, fields })
}

fn tables_of<'p>(
    alloc: Global,
    program: &'p Program,
    classes: &[Class],
) -> Result<Vec<OwnMembers<'p>>, Memory>
    ensures { IfOk result (λ tables. AreTables program.now classes.now tables.items) }
{
    let mut tables = Vec::new(alloc);
    for class in classes {
        let own = members_of(alloc, program, class)?;
        tables.push(own)?;
    }
    Ok(tables)
}

/// The tables of all classes.
#[tactic(auto, using(crate::proofs::MemberTables::tables_have))]
pub(crate) fn own_members<'p>(
    alloc: Global,
    program: &'p Program,
) -> Result<Vec<OwnMembers<'p>>, Memory>
    ensures { IfOk result (λ tables. HasTables program.now tables.items) }
{
    let tables = tables_of(alloc, program, program.classes.as_slice())?;
    Ok(tables)
}

fn own_method<'p>(
    tables: &[OwnMembers<'p>],
    class: ClassId,
    signature: &Signature<'p>,
) -> Option<MethodId>
    ensures { result ≡ method_in tables.now signature.now class }
{
    let own = tables.get(class.number() as usize)?;
    own.methods.get(signature).copied()
}

fn own_field<'p>(
    tables: &[OwnMembers<'p>],
    class: ClassId,
    signature: &Signature<'p>,
) -> Option<FieldId>
    ensures { result ≡ field_in tables.now signature.now class }
{
    let own = tables.get(class.number() as usize)?;
    own.fields.get(signature).copied()
}

/// What the first class of an order has.
pub(crate) fn first_method<'p>(
    tables: &[OwnMembers<'p>],
    order: &[ClassId],
    signature: &Signature<'p>,
) -> Option<MethodId>
    ensures { result ≡ first_found (method_in tables.now signature.now) order.now }
{
    for class in order {
        if let Some(method) = own_method(tables, *class, signature) {
            return Some(method);
        }
    }
    None
}

pub(crate) fn first_field<'p>(
    tables: &[OwnMembers<'p>],
    order: &[ClassId],
    signature: &Signature<'p>,
) -> Option<FieldId>
    ensures { result ≡ first_found (field_in tables.now signature.now) order.now }
{
    for class in order {
        if let Some(field) = own_field(tables, *class, signature) {
            return Some(field);
        }
    }
    None
}

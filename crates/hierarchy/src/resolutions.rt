//! The members that the operands of the classes resolve to, looked up once.
ghost use Rattle.std.specs.Prelude.{◌≡◌, map, IfOk};
ghost use Rattle.jo_prog.specs.Calls;
ghost use Rattle.jo_prog.specs.Hierarchy.{resolve_method, resolve_field};
ghost use Rattle.hierarchy.specs.OwnMembers.{HasTables};
ghost use Rattle.hierarchy.specs.Hierarchies.{IsHierarchyOf};
ghost use Rattle.hierarchy.specs.Resolutions.{is_of_method, resolved_operand, resolved_at, resolved_of_class, AreResolutionsOf};

use crate::Hierarchy;
use crate::orders::edges_at;
use crate::own_members::{OwnMembers, Signature, first_field, first_method, own_members};
use jo_ids::{ClassId, FieldId, Id, List, Memory, MethodId};
use jo_prog::lists::add;
use jo_prog::program::{Class, Operand, Program, TypeRef};
use std::alloc::Global;

/// What an operand resolves to.
#[derive(Clone, Copy, PartialEq, Eq)]
pub enum Member {
    Field(FieldId),
    Method(MethodId),
}

/// For each class and each index of its operands the member that it resolves to.
#[derive(Drop)]
pub struct Resolutions {
    members: Vec<List<Option<Member>>>,
}

/// Whether a descriptor is of a method, by its first byte.
fn is_of_method(desc: &[u8]) -> bool
    ensures { result ≡ is_of_method desc.now }
{
    match desc {
        [first, ..] => *first == b'(',
        [] => false,
    }
}

/// The class whose members a type has: an array those of java/lang/Object.
fn receiver_class(owner: &TypeRef) -> ClassId
    ensures { result ≡ Calls.receiver_class owner.now }
{
    match owner {
        TypeRef::Class(class) => *class,
        TypeRef::Array(_) => Id::of(0),
    }
}

fn resolve_method<'p>(
    program: &Program,
    hierarchy: &Hierarchy,
    tables: &[OwnMembers<'p>],
    class: ClassId,
    signature: &Signature<'p>,
) -> Option<MethodId>
    requires kept { IsHierarchyOf program.now hierarchy.now }
    requires tables { HasTables program.now tables.now }
    ensures { result ≡ resolve_method program.now class signature.now.name.now signature.now.desc.now }
{
    let order = edges_at(hierarchy.methods.as_slice(), class.number());
    first_method(tables, order, signature)
}

fn resolve_field<'p>(
    program: &Program,
    hierarchy: &Hierarchy,
    tables: &[OwnMembers<'p>],
    class: ClassId,
    signature: &Signature<'p>,
) -> Option<FieldId>
    requires kept { IsHierarchyOf program.now hierarchy.now }
    requires tables { HasTables program.now tables.now }
    ensures { result ≡ resolve_field program.now class signature.now.name.now signature.now.desc.now }
{
    let order = edges_at(hierarchy.supertypes.as_slice(), class.number());
    first_field(tables, order, signature)
}

fn resolve_operand<'p>(
    program: &Program,
    hierarchy: &Hierarchy,
    tables: &[OwnMembers<'p>],
    operand: &'p Operand,
) -> Option<Member>
    requires kept { IsHierarchyOf program.now hierarchy.now }
    requires tables { HasTables program.now tables.now }
    ensures { result ≡ resolved_operand program.now operand.now }
{
    let Operand::Member(member) = operand else {
        return None;
    };
    let signature = Signature {
        name: member.name.as_slice(),
        desc: member.desc.as_slice(),
    };
    if is_of_method(signature.desc) {
        let owner = receiver_class(&member.owner);
        return resolve_method(program, hierarchy, tables, owner, &signature).map(Member::Method);
    }
    match &member.owner {
        TypeRef::Class(owner) => resolve_field(program, hierarchy, tables, *owner, &signature).map(
            Member::Field,
        ),
        TypeRef::Array(_) => None,
    }
}

fn resolve_class<'p>(
    alloc: Global,
    program: &Program,
    hierarchy: &Hierarchy,
    tables: &[OwnMembers<'p>],
    class: &'p Class,
) -> Result<List<Option<Member>>, Memory>
    requires kept { IsHierarchyOf program.now hierarchy.now }
    requires tables { HasTables program.now tables.now }
    ensures { IfOk result (λ members. members ≡ resolved_of_class program.now class.now) }
{
    let mut members = List::new(alloc);
    for operand in class.operands.as_slice() {
        add(
            &mut members,
            resolve_operand(program, hierarchy, tables, operand),
        )?;
    }
    Ok(members)
}

impl Resolutions {
    /// Looks each operand of the program up.
    pub fn build(
        alloc: Global,
        program: &Program,
        hierarchy: &Hierarchy,
    ) -> Result<Resolutions, Memory>
        requires { IsHierarchyOf program.now hierarchy.now }
        ensures { IfOk result (λ resolutions. AreResolutionsOf program.now resolutions) }
    {
        let own = own_members(alloc, program)?;
        let tables = own.as_slice();
        let mut members = Vec::new(alloc);
        for class in program.classes.as_slice() {
            members.push(resolve_class(alloc, program, hierarchy, tables, class)?)?;
        }
        Ok(Resolutions { members })
    }

    /// The member that the operand with that pool index in a class resolves to.
    #[tactic(auto, using(crate::proofs::ResolutionLemmas::table_resolves))]
    pub fn resolved(&self, program: &Program, class: ClassId, index: u16) -> Option<Member>
        requires { AreResolutionsOf program.now self.now }
        ensures { result ≡ resolved_at program.now class index }
    {
        let members = self.members.get(class.number() as usize)?;
        *members.as_slice().get(index as usize)?
    }
}

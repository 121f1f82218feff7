//! Superclasses and interfaces of a program: subtypes, and the members that classes resolve and select.
#![tactic(auto)]

ghost use Rattle.std.specs.Prelude.{◌≡◌, ◌↔◌, ℕ, ◌<◌, ◌^◌, ◌++◌, ◌∷◌, length, map, IfOk, IfErr, OnOk};
ghost use Rattle.std.specs.List.{Contains};
ghost use Rattle.jo_prog.specs.Hierarchy.{HasNoCycle, Subtype, supertypes as supertypes_of, superclasses as superclasses_of, method_order, is_subtype, resolve_method, resolve_field, search_from, select as select_of, own_method as own_method_of, own_field as own_field_of, own_instance_method as own_instance_method_of};
ghost use Rattle.jo_prog.specs.Calls.{special, takes};
ghost use Rattle.jo_prog.specs.Walks.{first_found};
ghost use Rattle.hierarchy.specs.Hierarchies.{HasItsParents, KeepsOrder, IsHierarchyOf, IsFaultOf, superclass_list, interface_list, parent_list};

mod class_names;
mod cycles;
mod methods;
mod orders;
mod own_members;
mod parents;
pub mod resolutions;
mod types;

use class_names::{ClassNames, class_names};
use cycles::first_on_cycle;
use jo_ids::{ClassId, FieldId, List, Memory, MethodId};
use jo_prog::calls::{Taken, is_taken_as_resolved, superclass_at, taken_from};
use jo_prog::lists::add;
use jo_prog::members::{own_field, own_instance_method, own_method};
use jo_prog::program::{Class, Program, method_at};
use methods::method_orders;
use orders::{edges_at, has_class, walks};
pub use parents::has_its_parents;
use std::alloc::{AllocError, Global};

/// Opcodes of calls.
const INVOKESPECIAL: u8 = 183;

const INVOKESTATIC: u8 = 184;

/// The classes above each class of a program, in the orders in which members are looked for, each class once, and the
/// classes by their names.
#[derive(Drop)]
pub struct Hierarchy {
    supertypes: Vec<List<ClassId>>,
    superclasses: Vec<List<ClassId>>,
    methods: Vec<List<ClassId>>,
    names: ClassNames,
}

/// Why a program has no hierarchy.
#[derive(Clone, Copy, PartialEq, Eq)]
pub enum HierarchyFault {
    /// The first class that is above itself.
    Cyclic(ClassId),
    Memory,
}

impl From<AllocError> for HierarchyFault {
    ghost use Rattle.std.specs.Prelude.{◌≡◌};
    ghost use Rattle.hierarchy.specs.declared.HierarchyFault.TheVariants.{Memory};

    ghost from_gives = { λ _ e. e ≡ Memory };

    fn from(_e: AllocError) -> HierarchyFault {
        HierarchyFault::Memory
    }
}

fn add_all(list: &mut List<ClassId>, classes: &[ClassId]) -> Result<(), Memory>
    ensures { OnOk result (list.new ≡ list.old ++ classes.now) }
{
    for class in classes {
        add(list, *class)?;
    }
    Ok(())
}

fn superclass_list(alloc: Global, class: &Class) -> Result<List<ClassId>, Memory>
    ensures { IfOk result (λ list. list ≡ superclass_list class.now) }
{
    let mut list = List::new(alloc);
    if let Some(superclass) = class.superclass {
        add(&mut list, superclass)?;
    }
    Ok(list)
}

fn interface_list(alloc: Global, class: &Class) -> Result<List<ClassId>, Memory>
    ensures { IfOk result (λ list. list ≡ interface_list class.now) }
{
    let mut list = List::new(alloc);
    add_all(&mut list, class.interfaces.as_slice())?;
    Ok(list)
}

fn parent_list(alloc: Global, class: &Class) -> Result<List<ClassId>, Memory>
    ensures { IfOk result (λ list. list ≡ parent_list class.now) }
{
    let mut list = interface_list(alloc, class)?;
    if let Some(superclass) = class.superclass {
        add(&mut list, superclass)?;
    }
    Ok(list)
}

fn superclass_lists(alloc: Global, classes: &[Class]) -> Result<Vec<List<ClassId>>, Memory>
    ensures { IfOk result (λ lists. lists.items ≡ map superclass_list classes.now) }
{
    let mut lists = Vec::new(alloc);
    for class in classes {
        lists.push(superclass_list(alloc, class)?)?;
    }
    Ok(lists)
}

fn interface_lists(alloc: Global, classes: &[Class]) -> Result<Vec<List<ClassId>>, Memory>
    ensures { IfOk result (λ lists. lists.items ≡ map interface_list classes.now) }
{
    let mut lists = Vec::new(alloc);
    for class in classes {
        lists.push(interface_list(alloc, class)?)?;
    }
    Ok(lists)
}

fn parent_lists(alloc: Global, classes: &[Class]) -> Result<Vec<List<ClassId>>, Memory>
    ensures { IfOk result (λ lists. lists.items ≡ map parent_list classes.now) }
{
    let mut lists = Vec::new(alloc);
    for class in classes {
        lists.push(parent_list(alloc, class)?)?;
    }
    Ok(lists)
}

fn supertype_orders(
    alloc: Global,
    program: &Program,
    parents: &[List<ClassId>],
) -> Result<Vec<List<ClassId>>, Memory>
    requires short { length program.now.classes < 2 ^ 32 }
    requires there { HasItsParents program.now }
    requires no_cycle { HasNoCycle program.now }
    requires lists { parents.now ≡ map parent_list program.now.classes }
    ensures { IfOk result (λ orders. KeepsOrder program.now orders.items (supertypes_of program.now)) }
{
    let orders = walks(alloc, parents)?;
    Ok(orders)
}

fn superclass_orders(
    alloc: Global,
    program: &Program,
    superclasses: &[List<ClassId>],
) -> Result<Vec<List<ClassId>>, Memory>
    requires short { length program.now.classes < 2 ^ 32 }
    requires there { HasItsParents program.now }
    requires no_cycle { HasNoCycle program.now }
    requires lists { superclasses.now ≡ map superclass_list program.now.classes }
    ensures { IfOk result (λ orders. KeepsOrder program.now orders.items (superclasses_of program.now)) }
{
    let orders = walks(alloc, superclasses)?;
    Ok(orders)
}

fn method_orders_of(
    alloc: Global,
    program: &Program,
    interfaces: &[List<ClassId>],
    superclasses: &[List<ClassId>],
) -> Result<Vec<List<ClassId>>, Memory>
    requires short { length program.now.classes < 2 ^ 32 }
    requires there { HasItsParents program.now }
    requires no_cycle { HasNoCycle program.now }
    requires lists { interfaces.now ≡ map interface_list program.now.classes }
    requires above { KeepsOrder program.now superclasses.now (superclasses_of program.now) }
    ensures { IfOk result (λ orders. KeepsOrder program.now orders.items (method_order program.now)) }
{
    let interface_walks = walks(alloc, interfaces)?;
    let walks = interface_walks.as_slice();
    let orders = method_orders(alloc, interfaces, walks, superclasses)?;
    Ok(orders)
}

/// The hierarchy of a program in which no class is above itself.
fn hierarchy_of(
    alloc: Global,
    program: &Program,
    parents: &[List<ClassId>],
) -> Result<Hierarchy, Memory>
    requires short { length program.now.classes < 2 ^ 32 }
    requires there { HasItsParents program.now }
    requires no_cycle { HasNoCycle program.now }
    requires lists { parents.now ≡ map parent_list program.now.classes }
    ensures { IfOk result (λ hierarchy. IsHierarchyOf program.now hierarchy) }
{
    let classes = program.classes.as_slice();
    let supertypes = supertype_orders(alloc, program, parents)?;
    let superclasses = superclass_lists(alloc, classes)?;
    let superclasses = superclass_orders(alloc, program, superclasses.as_slice())?;
    let interfaces = interface_lists(alloc, classes)?;
    let methods = method_orders_of(
        alloc,
        program,
        interfaces.as_slice(),
        superclasses.as_slice(),
    )?;
    let names = class_names(alloc, classes)?;
    Ok(Hierarchy {
        supertypes,
        superclasses,
        methods,
        names,
    })
}

/// What the first class of an order has.
fn first_method(program: &Program, order: &[ClassId], name: &[u8], desc: &[u8]) -> Option<MethodId>
    ensures { result ≡ first_found (own_method_of program.now name.now desc.now) order.now }
{
    for class in order {
        if let Some(method) = own_method(program, *class, name, desc) {
            return Some(method);
        }
    }
    None
}

fn first_field(program: &Program, order: &[ClassId], name: &[u8], desc: &[u8]) -> Option<FieldId>
    ensures { result ≡ first_found (own_field_of program.now name.now desc.now) order.now }
{
    for class in order {
        if let Some(field) = own_field(program, *class, name, desc) {
            return Some(field);
        }
    }
    None
}

fn first_instance_method(
    program: &Program,
    order: &[ClassId],
    name: &[u8],
    desc: &[u8],
) -> Option<MethodId>
    ensures { result ≡ first_found (own_instance_method_of program.now name.now desc.now) order.now }
{
    for class in order {
        if let Some(method) = own_instance_method(program, *class, name, desc) {
            return Some(method);
        }
    }
    None
}

impl Hierarchy {
    /// The hierarchy of a program.
    pub fn build(alloc: Global, program: &Program) -> Result<Hierarchy, HierarchyFault>
        requires short { length program.now.classes < 2 ^ 32 }
        requires there { HasItsParents program.now }
        ensures ok { IfOk result (λ hierarchy. IsHierarchyOf program.now hierarchy) }
        ensures fault { IfErr result (λ fault. IsFaultOf program.now fault) }
    {
        let parents = parent_lists(alloc, program.classes.as_slice())?;
        let lists = parents.as_slice();
        let found = first_on_cycle(alloc, lists)?;
        match found {
            Some(class) => Err(HierarchyFault::Cyclic(class)),
            None => Ok(hierarchy_of(alloc, program, lists)?),
        }
    }

    /// Whether the second class is the first, or is reached from it by superclasses and interfaces.
    pub fn subtype(&self, program: &Program, a: ClassId, b: ClassId) -> bool
        requires { IsHierarchyOf program.now self.now }
        ensures { result ≡ is_subtype program.now a b }
    {
        if a.number() == b.number() {
            return true;
        }
        has_class(edges_at(self.supertypes.as_slice(), a.number()), b)
    }

    /// The class and all that are above it, each once.
    pub fn supertypes(&self, program: &Program, class: ClassId) -> &[ClassId]
        requires kept { IsHierarchyOf program.now self.now }
        requires there { class < length program.now.classes }
        ensures { (c : ℕ) → Contains result.now c ↔ Subtype program.now class c }
    {
        edges_at(self.supertypes.as_slice(), class.number())
    }

    /// The method that a class resolves.
    pub fn resolve(
        &self,
        program: &Program,
        class: ClassId,
        name: &[u8],
        desc: &[u8],
    ) -> Option<MethodId>
        requires { IsHierarchyOf program.now self.now }
        ensures { result ≡ resolve_method program.now class name.now desc.now }
    {
        let order = edges_at(self.methods.as_slice(), class.number());
        first_method(program, order, name, desc)
    }

    /// The field that a class resolves.
    pub fn resolve_field(
        &self,
        program: &Program,
        class: ClassId,
        name: &[u8],
        desc: &[u8],
    ) -> Option<FieldId>
        requires { IsHierarchyOf program.now self.now }
        ensures { result ≡ resolve_field program.now class name.now desc.now }
    {
        let order = edges_at(self.supertypes.as_slice(), class.number());
        first_field(program, order, name, desc)
    }

    /// The instance method that a search from a class upward finds, by name and descriptor alone.
    pub fn search_from(
        &self,
        program: &Program,
        class: ClassId,
        name: &[u8],
        desc: &[u8],
    ) -> Option<MethodId>
        requires { IsHierarchyOf program.now self.now }
        ensures { result ≡ search_from program.now class name.now desc.now }
    {
        let order = edges_at(self.superclasses.as_slice(), class.number());
        first_instance_method(program, order, name, desc)
    }

    /// The method that the receiver's class selects for a method that was resolved.
    pub fn select(&self, program: &Program, receiver: ClassId, method: MethodId) -> Option<MethodId>
        requires { IsHierarchyOf program.now self.now }
        ensures { result ≡ select_of program.now receiver method }
    {
        let method = method_at(program, method)?;
        self.search_from(
            program,
            receiver,
            method.name.as_slice(),
            method.desc.as_slice(),
        )
    }
    /// What an invokespecial in a class takes for the method that it resolves to, whatever its receiver.
    fn special(&self, program: &Program, current: ClassId, number: MethodId) -> Option<MethodId>
        requires { IsHierarchyOf program.now self.now }
        ensures { result ≡ special program.now current number }
    {
        let method = method_at(program, number)?;
        if is_taken_as_resolved(current, method) {
            return Some(number);
        }
        let superclass = superclass_at(program, current)?;
        self.search_from(
            program,
            superclass,
            method.name.as_slice(),
            method.desc.as_slice(),
        )
    }

    /// What a call with this opcode in a class takes, for the method that it resolves to and the class of its receiver.
    pub fn takes(
        &self,
        program: &Program,
        op: u8,
        current: ClassId,
        method: MethodId,
        receiver: ClassId,
    ) -> Taken
        requires { IsHierarchyOf program.now self.now }
        ensures { result ≡ takes program.now op current method receiver }
    {
        match op {
            INVOKESTATIC => taken_from(program, Some(method)),
            INVOKESPECIAL => taken_from(program, self.special(program, current, method)),
            _ => taken_from(program, self.select(program, receiver, method)),
        }
    }
}

#[cfg(test)]
mod tests;

//! Whether objects and arrays are of a type.
ghost use Rattle.std.specs.Prelude.{◌≡◌, ◌<◌, ◌^◌, length};
ghost use Rattle.jo_prog.specs.declared.program.TypeRef.TheVariants.{Class as OfClass, Array as OfArray};
ghost use Rattle.jo_prog.specs.Types;
ghost use Rattle.jo_prog.specs.Types.{type_fits};
ghost use Rattle.jo_prog.specs.Values.{array};
ghost use Rattle.machine.specs.Invocation.{type_of};
ghost use Rattle.hierarchy.specs.Hierarchies.{IsHierarchyOf};
ghost use Rattle.jvm_values.specs.Values.{info_seen};
ghost use Rattle.jvm_values.specs.Types.{of_type};

use crate::heap::Heap;
use crate::values::{Address, InfoView};
use hierarchy::Hierarchy;
use jo_ids::ClassId;
use jo_prog::program::{Program, TypeRef};
use jo_text::{Base, FieldDesc};

fn is_object(base: &Base) -> bool
    ensures { result ≡ Types.is_object base.now }
{
    match base {
        Base::Class(name) => name.as_slice() == b"java/lang/Object".as_slice(),
        _ => false,
    }
}

/// Whether an array of these elements is one of an array type.
fn elements_fit(
    program: &Program,
    hierarchy: &Hierarchy,
    elements: &FieldDesc,
    other: &FieldDesc,
) -> bool
    requires kept { IsHierarchyOf program.now hierarchy.now }
    requires short { length program.now.classes < 2 ^ 32 }
    ensures { result ≡ type_fits program.now (type_of (array elements.now 0)) (OfArray other.now) }
{
    let dims = u16::from(elements.dims) + 1;
    let others = u16::from(other.dims);
    if dims == others {
        hierarchy.base_fits(program, &elements.base, &other.base)
    } else {
        others < dims && is_object(&other.base)
    }
}

/// Whether an object or array is one of an array type.
pub fn is_of_array(
    program: &Program,
    hierarchy: &Hierarchy,
    info: &InfoView<'_>,
    other: &FieldDesc,
) -> bool
    requires kept { IsHierarchyOf program.now hierarchy.now }
    requires short { length program.now.classes < 2 ^ 32 }
    ensures { result ≡ type_fits program.now (type_of (info_seen info.now)) (OfArray other.now) }
{
    match info {
        InfoView::Object(_) => false,
        InfoView::Array(elements, _) => elements_fit(program, hierarchy, elements, other),
    }
}

/// Whether an object or array is of a class.
pub fn is_of_class(
    program: &Program,
    hierarchy: &Hierarchy,
    info: &InfoView<'_>,
    other: ClassId,
) -> bool
    requires { IsHierarchyOf program.now hierarchy.now }
    ensures { result ≡ type_fits program.now (type_of (info_seen info.now)) (OfClass other) }
{
    match info {
        InfoView::Object(class) => hierarchy.subtype(program, *class, other),
        InfoView::Array(_, _) => other.number() == 0,
    }
}

/// Whether what stands at an address is of a type.
pub fn is_of_type(
    program: &Program,
    hierarchy: &Hierarchy,
    heap: &Heap,
    named: &TypeRef,
    address: Address,
) -> bool
    requires kept { IsHierarchyOf program.now hierarchy.now }
    requires short { length program.now.classes < 2 ^ 32 }
    ensures { result ≡ of_type program.now heap.now named.now address }
{
    match named {
        TypeRef::Class(class) => is_of_class(program, hierarchy, &heap.info(address), *class),
        TypeRef::Array(desc) => is_of_array(program, hierarchy, &heap.info(address), desc),
    }
}

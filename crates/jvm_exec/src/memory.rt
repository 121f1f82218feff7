//! Instructions on objects, arrays and static fields.
ghost use Rattle.std.specs.Prelude.{◌≡◌, ◌<◌, ◌^◌, if◌then◌else◌, unsigned_abs, length, map, Some, None, option_map, slice_get};
ghost use Rattle.jo_text.specs.declared.descriptors.FieldDesc.{FieldDesc as Desc};
ghost use Rattle.jo_prog.specs.declared.program.TypeRef.TheVariants.{Class as OfClass};
ghost use Rattle.jo_prog.specs.Types.{class_named};
ghost use Rattle.jo_prog.specs.Values.{array, field as field_cell};
ghost use Rattle.machine.specs.Execution as machine;
ghost use Rattle.machine.specs.Steps.{fits_ref, fits};
ghost use Rattle.hierarchy.specs.Hierarchies.{IsHierarchyOf};
ghost use Rattle.jvm_values.specs.Values.{value_of, info_seen, popped_values};
ghost use Rattle.jvm_exec.specs.Outcomes.{outcome_of};
ghost use Rattle.jvm_exec.specs.Forms;
ghost use Rattle.jvm_exec.specs.Forms.{info_in, on_base, with_none, field_got, field_put, array_created, array_measured, element_loaded, element_stored};

use crate::moves::kept;
use crate::outcomes::{Cell, Effect, Outcome};
use crate::shapes::{Stored, on_array, on_object, one_int, one_reference, stored_on_array};
use hierarchy::Hierarchy;
use jo_ids::FieldId;
use jo_prog::program::Program;
use jo_prog::sites::Cause;
use jo_text::{Base, FieldDesc};
use jvm_values::{Address, Heap, InfoView, Length, Value, is_of_array, is_of_class};

/// What was read from a cell.
fn content_pushed<'i>(content: Option<Value>) -> Option<Outcome<'i>>
    ensures { option_map outcome_of result ≡ machine.content_pushed (option_map value_of content) }
{
    match content {
        Some(value) => Some(Outcome::pushes_one(value)),
        None => None,
    }
}

// ---- fields

fn static_value(statics: &[Value], field: FieldId) -> Option<Value>
    ensures { option_map value_of result ≡ slice_get (map value_of statics.now) field }
{
    statics.get(field.number() as usize).copied()
}

pub(crate) fn get_static<'i>(
    statics: &[Value],
    field: FieldId,
    values: &[Value],
) -> Option<Outcome<'i>>
    ensures { option_map outcome_of result ≡ with_none (machine.content_pushed (slice_get (map value_of statics.now) field)) (popped_values values.now) }
{
    if values.is_empty() {
        content_pushed(static_value(statics, field))
    } else {
        None
    }
}

pub(crate) fn get_field<'i>(heap: &Heap, field: FieldId, values: &[Value]) -> Option<Outcome<'i>>
    ensures { option_map outcome_of result ≡ field_got heap.now field (popped_values values.now) }
{
    match one_reference(values) {
        Some(Some(address)) => content_pushed(heap.field(address, field)),
        Some(None) => Some(Outcome::raises(Cause::NullBase)),
        None => None,
    }
}

fn put_value<'i>(
    field: FieldId,
    desc: &FieldDesc,
    value: Value,
    object: Option<Address>,
) -> Outcome<'i>
    ensures { Some (outcome_of result) ≡ on_base object (λ a. machine.writes (field_cell a field) (machine.kept desc.now (value_of value))) }
{
    match object {
        Some(address) => Outcome::writes(Cell::Field(address, field), kept(desc, value)),
        None => Outcome::raises(Cause::NullBase),
    }
}

pub(crate) fn put_field<'i>(
    field: FieldId,
    desc: &FieldDesc,
    values: &[Value],
) -> Option<Outcome<'i>>
    ensures { option_map outcome_of result ≡ field_put field desc.now (popped_values values.now) }
{
    match on_object(values) {
        Some(found) => Some(put_value(field, desc, found.value, found.object)),
        None => None,
    }
}

// ---- arrays

fn created<'i>(desc: &'i FieldDesc, count: i32) -> Outcome<'i>
    ensures { Some (outcome_of result) ≡ machine.created_array desc.now count }
{
    match Length::of(count) {
        Some(length) => Outcome::only(Effect::Allocates(InfoView::Array(desc, length))),
        None => Outcome::raises(Cause::NegativeLength),
    }
}

pub(crate) fn create_array<'i>(desc: &'i FieldDesc, values: &[Value]) -> Option<Outcome<'i>>
    ensures { option_map outcome_of result ≡ array_created desc.now (popped_values values.now) }
{
    match one_int(values) {
        Some(count) => Some(created(desc, count)),
        None => None,
    }
}

fn length_of<'i>(info: &InfoView<'_>) -> Option<Outcome<'i>>
    ensures { option_map outcome_of result ≡ machine.measured (info_seen info.now) }
{
    match info {
        InfoView::Object(_) => None,
        InfoView::Array(_, length) => Some(Outcome::pushes_int(length.as_int())),
    }
}

pub(crate) fn measure<'i>(heap: &Heap, values: &[Value]) -> Option<Outcome<'i>>
    ensures { option_map outcome_of result ≡ array_measured heap.now (popped_values values.now) }
{
    match one_reference(values) {
        Some(Some(address)) => length_of(&heap.info(address)),
        Some(None) => Some(Outcome::raises(Cause::NullBase)),
        None => None,
    }
}

/// The place in an array of a length that an int names.
fn place_in(index: i32, length: Length) -> Option<u32>
    ensures { result ≡ (if machine.is_inside index length then Some (unsigned_abs index) else None) }
{
    if index < 0 {
        return None;
    }
    let place = index.unsigned_abs();
    if place < length.count() {
        Some(place)
    } else {
        None
    }
}

fn element_from<'i>(
    heap: &Heap,
    address: Address,
    index: i32,
    length: Length,
) -> Option<Outcome<'i>>
    ensures { (type : Desc) → option_map outcome_of result ≡ Forms.element_from heap.now address index (array type length) }
{
    match place_in(index, length) {
        Some(place) => content_pushed(heap.element(address, place)),
        None => Some(Outcome::raises(Cause::BadIndex)),
    }
}

fn load_from<'i>(heap: &Heap, address: Address, index: i32) -> Option<Outcome<'i>>
    ensures { option_map outcome_of result ≡ Forms.element_from heap.now address index (info_in heap.now address) }
{
    let info = heap.info(address);
    match &info {
        InfoView::Object(_) => None,
        InfoView::Array(_, length) => element_from(heap, address, index, *length),
    }
}

pub(crate) fn load_element<'i>(heap: &Heap, values: &[Value]) -> Option<Outcome<'i>>
    ensures { option_map outcome_of result ≡ element_loaded heap.now (popped_values values.now) }
{
    match on_array(values) {
        Some((index, Some(address))) => load_from(heap, address, index),
        Some((_, None)) => Some(Outcome::raises(Cause::NullBase)),
        None => None,
    }
}

/// Whether an object or array may stand in an array of these elements.
fn fits_class(program: &Program, hierarchy: &Hierarchy, info: &InfoView<'_>, name: &[u8]) -> bool
    requires kept { IsHierarchyOf program.now hierarchy.now }
    requires short { length program.now.classes < 2 ^ 32 }
    ensures { result ≡ fits_ref program.now (info_seen info.now) (option_map (λ c. OfClass c) (class_named program.now name.now)) }
{
    match hierarchy.class_named(program, name) {
        Some(class) => is_of_class(program, hierarchy, info, class),
        None => false,
    }
}

fn fits_element(
    program: &Program,
    hierarchy: &Hierarchy,
    elements: &FieldDesc,
    info: &InfoView<'_>,
) -> bool
    requires kept { IsHierarchyOf program.now hierarchy.now }
    requires short { length program.now.classes < 2 ^ 32 }
    ensures { result ≡ (fits program.now).as_element elements.now (info_seen info.now) }
{
    if elements.dims == 0 {
        match &elements.base {
            Base::Class(name) => fits_class(program, hierarchy, info, name.as_slice()),
            _ => false,
        }
    } else {
        is_of_array(program, hierarchy, info, elements)
    }
}

fn takes_value(
    program: &Program,
    hierarchy: &Hierarchy,
    heap: &Heap,
    elements: &FieldDesc,
    value: Value,
) -> bool
    requires kept { IsHierarchyOf program.now hierarchy.now }
    requires short { length program.now.classes < 2 ^ 32 }
    ensures { result ≡ machine.takes_value (fits program.now) (info_in heap.now) elements.now (value_of value) }
{
    match value {
        Value::Int(_) => true,
        Value::Null => true,
        Value::Ref(address) => fits_element(program, hierarchy, elements, &heap.info(address)),
    }
}

/// A bad index first, then a wrong element.
fn store_in<'i>(
    program: &Program,
    hierarchy: &Hierarchy,
    heap: &Heap,
    address: Address,
    elements: &FieldDesc,
    count: Length,
    index: i32,
    value: Value,
) -> Outcome<'i>
    requires kept { IsHierarchyOf program.now hierarchy.now }
    requires short { length program.now.classes < 2 ^ 32 }
    ensures { Some (outcome_of result) ≡ machine.stored_element (fits program.now) (info_in heap.now) (value_of value) index address (array elements.now count) }
{
    match place_in(index, count) {
        Some(place) => {
            if takes_value(program, hierarchy, heap, elements, value) {
                Outcome::writes(Cell::Element(address, place), kept(elements, value))
            } else {
                Outcome::raises(Cause::WrongElement)
            }
        }
        None => Outcome::raises(Cause::BadIndex),
    }
}

fn store_at<'i>(
    program: &Program,
    hierarchy: &Hierarchy,
    heap: &Heap,
    address: Address,
    index: i32,
    value: Value,
) -> Option<Outcome<'i>>
    requires kept { IsHierarchyOf program.now hierarchy.now }
    requires short { length program.now.classes < 2 ^ 32 }
    ensures { option_map outcome_of result ≡ machine.stored_element (fits program.now) (info_in heap.now) (value_of value) index address (info_in heap.now address) }
{
    let info = heap.info(address);
    match &info {
        InfoView::Object(_) => None,
        InfoView::Array(elements, count) => Some(store_in(
            program, hierarchy, heap, address, elements, *count, index, value,
        )),
    }
}

/// A null array first.
fn store_found<'i>(
    program: &Program,
    hierarchy: &Hierarchy,
    heap: &Heap,
    found: Stored,
) -> Option<Outcome<'i>>
    requires kept { IsHierarchyOf program.now hierarchy.now }
    requires short { length program.now.classes < 2 ^ 32 }
    ensures { option_map outcome_of result ≡ on_base found.array (λ a. machine.stored_element (fits program.now) (info_in heap.now) (value_of found.value) found.index a (info_in heap.now a)) }
{
    match found.array {
        Some(address) => store_at(program, hierarchy, heap, address, found.index, found.value),
        None => Some(Outcome::raises(Cause::NullBase)),
    }
}

pub(crate) fn store_element<'i>(
    program: &Program,
    hierarchy: &Hierarchy,
    heap: &Heap,
    values: &[Value],
) -> Option<Outcome<'i>>
    requires kept { IsHierarchyOf program.now hierarchy.now }
    requires short { length program.now.classes < 2 ^ 32 }
    ensures { option_map outcome_of result ≡ element_stored program.now heap.now (popped_values values.now) }
{
    match stored_on_array(values) {
        Some(found) => store_found(program, hierarchy, heap, found),
        None => None,
    }
}

//! The heap: objects and arrays by their addresses.
ghost use Rattle.std.specs.Prelude.{◌≡◌, ℕ, ◌++◌, ◌∷◌, [], length, map, replicate, take, Option, Some, None, option_map, slice_get, slice_set, IfOk, OnOk, OnErr};
ghost use Rattle.std.specs.List.{position_or_len};
ghost use Rattle.jo_prog.specs.declared.program.Program.{Program};
ghost use Rattle.jo_prog.specs.Constants;
ghost use Rattle.jo_prog.specs.Values.{object, array};
ghost use Rattle.jo_prog.specs.Program.{class_at as class_with};
ghost use Rattle.jo_prog.specs.Machine;
ghost use Rattle.machine.specs.Heaps as machine;
ghost use Rattle.machine.specs.Invocation.{class_of};
ghost use Rattle.machine.specs.Heaps.{first_content, own_contents, first_contents, field_content, with_field, field_of, element_of, field_written, element_written, marked_started, is_marked};
ghost use Rattle.jvm_values.specs.Values.{value_of, info_of, info_seen};
ghost use Rattle.jvm_values.specs.Heaps.{content_of, is_field, object_of, changed};

use crate::values::{Address, Info, InfoView, Length, Value};
use jo_ids::{ClassId, FieldId, Id, Memory};
use jo_insn::{ACC_STATIC, has_flag};
use jo_prog::calls::superclass_at;
use jo_prog::members::field_at;
use jo_prog::program::{Program, class_at};
use jo_text::{Base, FieldDesc};
use jo_types::copy_desc;
use std::alloc::{AllocError, Global};
use std::marker::Model;

/// The number of java/lang/String.
const STRING_NUMBER: u32 = 1;

/// A field of an object with its value.
#[derive(Clone, Copy)]
pub struct FieldValue {
    pub field: FieldId,
    pub value: Value,
}

/// An object with its fields, or an array with its elements; whether a thread object was started.
#[derive(Drop)]
struct HeapObject {
    info: Info,
    fields: Vec<FieldValue>,
    elements: Vec<Value>,
    started: bool,
}

/// The objects and arrays in the order in which they were made. An address is a place in this order.
#[derive(Drop)]
pub struct Heap {
    objects: Vec<HeapObject>,
}

impl Model for Heap {
    ghost use Rattle.std.specs.Prelude.{List as Items, map};
    ghost use Rattle.jo_prog.specs.Machine.{HeapObject as Object};

    ghost Value = { Items Object };

    ghost use Rattle.jvm_values.specs.Heaps.{object_of};

    ghost view = { λ h. map object_of h.objects.items };
}

// ---- what stands there first

fn is_class_type(base: &Base) -> bool
    ensures { result ≡ machine.is_class_type base.now }
{
    matches!(base, Base::Class(_))
}

/// What each element of a new array holds.
fn first_element(desc: &FieldDesc) -> Value
    ensures { value_of result ≡ machine.first_element desc.now }
{
    if desc.dims == 0 && !is_class_type(&desc.base) {
        Value::Int(0)
    } else {
        Value::Null
    }
}

/// What a field with that descriptor holds first.
pub fn default_value(desc: &[u8]) -> Value
    ensures { value_of result ≡ Constants.default_value desc.now }
{
    match desc {
        [b'L' | b'[', ..] => Value::Null,
        _ => Value::Int(0),
    }
}

/// Adds a field of an object with its first value. A static field has none there.
fn add_field(fields: &mut Vec<FieldValue>, program: &Program, field: FieldId) -> Result<(), Memory>
    ensures { OnOk result (map content_of fields.new.items ≡
        map content_of fields.old.items ++ first_content field (slice_get program.now.fields field)) }
{
    let Some(own) = field_at(program, field) else {
        return Ok(());
    };
    if has_flag(ACC_STATIC, own.flags) {
        return Ok(());
    }
    let value = default_value(own.desc.as_slice());
    fields.push(FieldValue { field, value })?;
    Ok(())
}

/// Adds the fields of a class itself.
fn add_own_fields(
    fields: &mut Vec<FieldValue>,
    program: &Program,
    class: ClassId,
) -> Result<(), Memory>
    ensures { OnOk result (map content_of fields.new.items ≡
        map content_of fields.old.items ++ own_contents program.now (class_with program.now class)) }
{
    let Some(class) = class_at(program, class) else {
        return Ok(());
    };
    for field in class.fields.as_slice() {
        add_field(fields, program, *field)?;
    }
    Ok(())
}

/// The fields of a new object: those of its class and of the classes above it.
fn first_fields(alloc: Global, program: &Program, class: ClassId) -> Result<Vec<FieldValue>, Memory>
    ensures { IfOk result (λ fields. map content_of fields.items ≡ first_contents program.now class) }
{
    let mut fields = Vec::new(alloc);
    let mut above = class.number();
    let mut left = program.classes.as_slice().len() + 1;
    while left > 0 {
        left -= 1;
        add_own_fields(&mut fields, program, Id::of(above))?;
        match superclass_at(program, Id::of(above)) {
            Some(superclass) => above = superclass.number(),
            None => return Ok(fields),
        }
    }
    Ok(fields)
}

fn object_of_class(alloc: Global, program: &Program, class: ClassId) -> Result<HeapObject, Memory>
    ensures { IfOk result (λ o. object_of o ≡ machine.new_object program.now (object class)) }
{
    let fields = first_fields(alloc, program, class)?;
    Ok(HeapObject {
        info: Info::Object(class),
        fields,
        elements: Vec::new(alloc),
        started: false,
    })
}

/// A string, which is an object without content.
fn string_object(alloc: Global) -> HeapObject
    ensures { object_of result ≡ Machine.string_object }
{
    HeapObject {
        info: Info::Object(Id::of(STRING_NUMBER)),
        fields: Vec::new(alloc),
        elements: Vec::new(alloc),
        started: false,
    }
}

/// So many equal elements.
fn elements_of(alloc: Global, value: Value, count: usize) -> Result<Vec<Value>, Memory>
    ensures { IfOk result (λ elements. elements.items ≡ replicate count value) }
{
    vec![in alloc; value; count]
}

fn array_of(alloc: Global, desc: &FieldDesc, length: Length) -> Result<HeapObject, Memory>
    ensures { IfOk result (λ o. (program : Program) → object_of o ≡ machine.new_object program (array desc.now length)) }
{
    let own = copy_desc(alloc, desc)?;
    let elements = elements_of(alloc, first_element(desc), length.count() as usize)?;
    Ok(HeapObject {
        info: Info::Array(own, length),
        fields: Vec::new(alloc),
        elements,
        started: false,
    })
}

fn made_of(alloc: Global, program: &Program, info: &InfoView<'_>) -> Result<HeapObject, Memory>
    ensures { IfOk result (λ o. object_of o ≡ machine.new_object program.now (info_seen info.now)) }
{
    match info {
        InfoView::Object(class) => object_of_class(alloc, program, *class),
        InfoView::Array(desc, length) => {
            let made = array_of(alloc, desc, *length)?;
            Ok(made)
        }
    }
}

// ---- fields of an object

/// The value of a field.
fn value_in(fields: &[FieldValue], field: FieldId) -> Option<Value>
    ensures { option_map value_of result ≡ field_content (map content_of fields.now) field }
{
    for own in fields {
        if own.field.number() == field.number() {
            return Some(own.value);
        }
    }
    None
}

/// The place of the first field with that number, or how many fields there are.
fn place_of(fields: &[FieldValue], field: FieldId) -> usize
    ensures { result ≡ position_or_len (is_field field) fields.now }
{
    for (place, own) in fields.iter().enumerate() {
        if own.field.number() == field.number() {
            return place;
        }
    }
    fields.len()
}

/// Sets an item, where its place is in the list.
fn set<T: Drop>(items: &mut Vec<T>, place: usize, item: T)
    ensures { items.new.items ≡ slice_set items.old.items place item }
{
    if place < items.len() {
        items[place] = item;
    }
}

/// Sets the first field with that number, if there is one.
fn set_value(fields: &mut Vec<FieldValue>, field: FieldId, value: Value)
    ensures { map content_of fields.new.items ≡ with_field (map content_of fields.old.items) field (value_of value) }
{
    let place = place_of(fields.as_slice(), field);
    set(fields, place, FieldValue { field, value });
}

impl HeapObject {
    fn set_field(&mut self, field: FieldId, value: Value)
        ensures { object_of self.new ≡ field_written (object_of self.old) field (value_of value) }
    {
        set_value(&mut self.fields, field, value);
    }

    fn set_element(&mut self, index: u32, value: Value)
        ensures { object_of self.new ≡ element_written (object_of self.old) index (value_of value) }
    {
        set(&mut self.elements, index as usize, value);
    }

    fn start(&mut self)
        ensures { object_of self.new ≡ marked_started (object_of self.old) }
    {
        self.started = true;
    }
}

// ---- the heap

impl Heap {
    /// The heap without objects.
    pub fn new(alloc: Global) -> Heap
        ensures { result ≡ [] }
    {
        Heap {
            objects: Vec::new(alloc),
        }
    }

    /// The heap of so many strings, which are objects without content.
    pub fn of_strings(alloc: Global, count: u32) -> Result<Heap, Memory>
        ensures { IfOk result (λ heap. heap ≡ replicate count Machine.string_object) }
    {
        let mut heap = Heap::new(alloc);
        for _ in 0..count {
            heap.add(string_object(alloc))?;
        }
        Ok(heap)
    }

    fn add(&mut self, object: HeapObject) -> Result<Address, Memory>
        ensures ok { OnOk result (self.new ≡ self.old ++ object_of object ∷ []) }
        ensures address { IfOk result (λ address. address ≡ length self.old) }
        ensures err { OnErr result (self.new ≡ self.old) }
    {
        let Ok(address) = u32::try_from(self.objects.len()) else {
            return Err(AllocError);
        };
        match self.objects.push(object) {
            Ok(()) => Ok(address),
            Err(_) => Err(AllocError),
        }
    }

    /// Adds a new object or array, and gives its address. A refusal leaves the heap as it was.
    pub fn create(
        &mut self,
        alloc: Global,
        program: &Program,
        info: &InfoView<'_>,
    ) -> Result<Address, Memory>
        ensures ok { OnOk result (self.new ≡ self.old ++ machine.new_object program.now (info_seen info.now) ∷ []) }
        ensures address { IfOk result (λ address. address ≡ length self.old) }
        ensures err { OnErr result (self.new ≡ self.old) }
    {
        let object = made_of(alloc, program, info)?;
        self.add(object)
    }

    /// Takes back the object at an address and all that were made after it.
    pub fn take_back(&mut self, address: Address)
        ensures { self.new ≡ take address self.old }
    {
        self.objects.truncate(address as usize);
    }

    /// What stands at an address; an object of the class 0 where nothing stands.
    pub fn info(&self, address: Address) -> InfoView<'_>
        ensures { info_seen result ≡ Machine.info_of (slice_get self.now address) }
    {
        match self.objects.get(address as usize) {
            Some(object) => match &object.info {
                Info::Object(class) => InfoView::Object(*class),
                Info::Array(desc, length) => InfoView::Array(desc, *length),
            },
            None => InfoView::Object(Id::of(0)),
        }
    }

    /// The class by which what stands at an address selects: that of an object, and java/lang/Object for an array.
    pub fn class(&self, address: Address) -> ClassId
        ensures { result ≡ class_of (Machine.info_of (slice_get self.now address)) }
    {
        match self.objects.get(address as usize) {
            Some(object) => match &object.info {
                Info::Object(class) => *class,
                Info::Array(_, _) => Id::of(0),
            },
            None => Id::of(0),
        }
    }

    /// The value of a field of the object at an address.
    pub fn field(&self, address: Address, field: FieldId) -> Option<Value>
        ensures { option_map value_of result ≡ field_of (slice_get self.now address) field }
    {
        match self.objects.get(address as usize) {
            Some(object) => value_in(object.fields.as_slice(), field),
            None => None,
        }
    }

    /// An element of the array at an address.
    pub fn element(&self, address: Address, index: u32) -> Option<Value>
        ensures { option_map value_of result ≡ element_of (slice_get self.now address) index }
    {
        match self.objects.get(address as usize) {
            Some(object) => object.elements.get(index as usize).copied(),
            None => None,
        }
    }

    /// Whether the thread object at an address was started.
    pub fn was_started(&self, address: Address) -> bool
        ensures { result ≡ is_marked (slice_get self.now address) }
    {
        match self.objects.get(address as usize) {
            Some(object) => object.started,
            None => false,
        }
    }

    /// Sets a field of the object at an address. Where there is none, nothing changes.
    pub fn set_field(&mut self, address: Address, field: FieldId, value: Value)
        ensures { self.new ≡ changed self.old address (λ o. field_written o field (value_of value)) }
    {
        let place = address as usize;
        if place < self.objects.len() {
            let object = &mut self.objects[place];
            object.set_field(field, value);
        }
    }

    /// Sets an element of the array at an address. Where there is none, nothing changes.
    pub fn set_element(&mut self, address: Address, index: u32, value: Value)
        ensures { self.new ≡ changed self.old address (λ o. element_written o index (value_of value)) }
    {
        let place = address as usize;
        if place < self.objects.len() {
            let object = &mut self.objects[place];
            object.set_element(index, value);
        }
    }

    /// Marks the thread object at an address as started. Where there is none, nothing changes.
    pub fn start(&mut self, address: Address)
        ensures { self.new ≡ changed self.old address marked_started }
    {
        let place = address as usize;
        if place < self.objects.len() {
            let object = &mut self.objects[place];
            object.start();
        }
    }
}

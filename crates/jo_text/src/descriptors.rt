//! Names and descriptors (JVM Specification SE 8, 4.2 and 4.3).
ghost use Rattle.std.specs.Prelude.{◌≡◌, ◌≤◌, ◌==◌, length, ◌↔◌, [], true, position, None, IsTrue, IfOk, IfErr, MatchOption, option_map};
ghost use Rattle.std.specs.Option.{option_copied};
ghost use Rattle.std.specs.List.{list_any, prefix_len};
ghost use Rattle.jo_text.specs.Descriptors.{is_one_of, IsClassName, IsMemberName, IsFieldDesc, IsMethodDesc, IsClassOrArray, SpellsField, SpellsMethod};
ghost use Rattle.jo_text.specs.Scan.{after_byte, breaks_name, names_on, base_seen, field_seen, read_class, letter_base, read_base, read_field, PassFields, BeginsFields, SpellsResult, IsResultDesc};
ghost use Rattle.jo_text.specs.Tests.{is_class_name, is_member_name, is_field_desc, is_method_desc, is_class_or_array};
ghost use Rattle.jo_text.specs.declared.texts.DescFault.TheVariants.{Bad};

use crate::texts::{DescFault, Memory, Name};
use std::alloc::Global;
use std::marker::Model;

/// The type of a field, a parameter or a result: a base type under a number of array dimensions.
#[derive(Drop)]
pub struct FieldDesc {
    pub dims: u8,
    pub base: Base,
}

/// The base types of the Java Virtual Machine, and the classes by name.
#[derive(Drop)]
pub enum Base {
    Byte,
    Char,
    Double,
    Float,
    Int,
    Long,
    Short,
    Boolean,
    Class(Name),
}

/// The descriptors of a method's parameters, in order.
#[derive(Drop)]
pub struct Params {
    descs: Vec<FieldDesc>,
}

impl Model for Params {
    ghost use Rattle.std.specs.Prelude.{List as Items};
    ghost use Rattle.jo_text.specs.declared.descriptors.FieldDesc.{FieldDesc};

    ghost Value = { Items FieldDesc };

    ghost view = { λ p. p.descs.items };
}

impl Params {
    /// The descriptors.
    pub fn as_slice(&self) -> &[FieldDesc]
        ensures { result.now ≡ self.now }
    {
        self.descs.as_slice()
    }
}

/// The parameters of a method, and its result where it has one.
#[derive(Drop)]
pub struct MethodDesc {
    pub params: Params,
    pub result: Option<FieldDesc>,
}

/// A base type, with the bytes of a class's name lent from its descriptor.
#[derive(Drop)]
enum BaseView<'a> {
    Letter(Base),
    Named(&'a [u8]),
}

/// A field descriptor, with the bytes of a class's name lent from it.
#[derive(Drop)]
struct FieldView<'a> {
    dims: u8,
    base: BaseView<'a>,
}

fn is_one_of(these: &[u8], byte: u8) -> bool
    ensures { result ≡ is_one_of these.now byte }
{
    these.contains(&byte)
}

/// Whether some byte is one of these.
fn has_one_of(these: &[u8], bytes: &[u8]) -> bool
    ensures { result ≡ list_any (is_one_of these.now) bytes.now }
{
    bytes.iter().any(|byte| is_one_of(these, *byte))
}

/// Whether the byte can't stand in a class's name, behind an unqualified name that is empty so far or not.
fn breaks_name(empty: bool, byte: u8) -> bool
    ensures { result ≡ breaks_name empty byte }
{
    (byte == b'/' && empty) || is_one_of(b".;[", byte)
}

/// Whether the bytes are unqualified names with a `/` between each two.
#[tactic(auto, using(crate::proofs::NameSteps::names_at, crate::proofs::NameSteps::names_end))]
fn joins_names(bytes: &[u8]) -> bool
    ensures { result ≡ names_on true bytes.now }
{
    let mut empty = true;
    for byte in bytes {
        if breaks_name(empty, *byte) {
            return false;
        }
        empty = *byte == b'/';
    }
    !empty
}

/// What follows the byte, where it begins the bytes.
fn after_byte(byte: u8, bytes: &[u8]) -> Option<&[u8]>
    ensures { option_copied result ≡ after_byte byte bytes.now }
{
    match bytes {
        [first, rest @ ..] if *first == byte => Some(rest),
        _ => None,
    }
}

/// The place of the first such byte.
fn place_of(byte: u8, bytes: &[u8]) -> Option<usize>
    ensures { result ≡ position (λ b. b == byte) bytes.now }
{
    bytes.iter().position(|b| *b == byte)
}

/// How many of the bytes at the front are such.
fn count_front(byte: u8, bytes: &[u8]) -> usize
    ensures value { result ≡ prefix_len (λ b. b == byte) bytes.now }
    ensures within { result ≤ length bytes.now }
{
    bytes.iter().take_while(|b| **b == byte).count()
}

/// The class's name that begins the bytes, up to a `;`, and what follows.
#[tactic(auto, unfolding(crate::specs::Scan::read_class))]
fn next_class(bytes: &[u8]) -> Option<(&[u8], &[u8])>
    ensures { option_map (λ r. (r.0.now, r.1.now)) result ≡ read_class bytes.now }
{
    let end = place_of(b';', bytes)?;
    let name = &bytes[..end];
    if joins_names(name) {
        Some((name, &bytes[end + 1..]))
    } else {
        None
    }
}

/// The base type that is one letter.
#[tactic(auto, unfolding(crate::specs::Scan::letter_base))]
fn letter_base(letter: u8) -> Option<Base>
    ensures { result ≡ letter_base letter }
{
    match letter {
        b'B' => Some(Base::Byte),
        b'C' => Some(Base::Char),
        b'D' => Some(Base::Double),
        b'F' => Some(Base::Float),
        b'I' => Some(Base::Int),
        b'J' => Some(Base::Long),
        b'S' => Some(Base::Short),
        b'Z' => Some(Base::Boolean),
        _ => None,
    }
}

/// The base type that begins the bytes, and what follows.
#[tactic(auto, unfolding(crate::specs::Scan::read_base))]
fn next_base(bytes: &[u8]) -> Option<(BaseView<'_>, &[u8])>
    ensures { option_map (λ r. (base_seen r.0, r.1.now)) result ≡ read_base bytes.now }
{
    match bytes {
        [] => None,
        [b'L', rest @ ..] => {
            let (name, rest) = next_class(rest)?;
            Some((BaseView::Named(name), rest))
        }
        [letter, rest @ ..] => Some((BaseView::Letter(letter_base(*letter)?), rest)),
    }
}

/// The field descriptor that begins the bytes, and what follows.
#[tactic(auto, unfolding(crate::specs::Scan::read_field))]
fn next_field(bytes: &[u8]) -> Option<(FieldView<'_>, &[u8])>
    ensures { option_map (λ r. (field_seen r.0, r.1.now)) result ≡ read_field bytes.now }
{
    let front = count_front(b'[', bytes);
    let dims = u8::try_from(front).ok()?;
    let (base, rest) = next_base(&bytes[front..])?;
    Some((FieldView { dims, base }, rest))
}

/// The field descriptor that the bytes are.
fn whole_field(bytes: &[u8]) -> Option<FieldView<'_>>
    ensures { MatchOption result (IsFieldDesc bytes.now → ⊥) (λ view. SpellsField (field_seen view) bytes.now) }
{
    let (view, rest) = next_field(bytes)?;
    if rest.is_empty() { Some(view) } else { None }
}

/// What follows the field descriptor that begins the bytes.
fn after_field(bytes: &[u8]) -> Option<&[u8]>
    ensures { option_copied result ≡ option_map (λ r. r.1) (read_field bytes.now) }
{
    let (_, rest) = next_field(bytes)?;
    Some(rest)
}

/// What follows the field descriptors that begin the bytes, as many as there are.
fn after_params(bytes: &[u8]) -> &[u8]
    ensures passed { BeginsFields bytes.now result.now }
    ensures all { read_field result.now ≡ None }
{
    let mut rest = bytes;
    while let Some(after) = after_field(rest) {
        rest = after;
    }
    rest
}

/// Whether the bytes are a result's descriptor: `V`, or a field descriptor.
fn is_result_desc(bytes: &[u8]) -> bool
    ensures { IsTrue result ↔ IsResultDesc bytes.now }
{
    bytes == b"V".as_slice() || is_field_desc(bytes)
}

/// The name with those bytes.
fn own_name(alloc: Global, bytes: &[u8]) -> Result<Name, Memory>
    ensures { IfOk result (λ name. name ≡ bytes.now) }
{
    let mut name = Name::new(alloc);
    name.append(bytes)?;
    Ok(name)
}

/// The base type with memory of its own.
fn own_base(alloc: Global, view: BaseView<'_>) -> Result<Base, Memory>
    ensures { IfOk result (λ base. base ≡ base_seen view.entry) }
{
    match view {
        BaseView::Letter(base) => Ok(base),
        BaseView::Named(name) => Ok(Base::Class(own_name(alloc, name)?)),
    }
}

/// The field descriptor with memory of its own.
fn own_field(alloc: Global, view: FieldView<'_>) -> Result<FieldDesc, Memory>
    ensures { IfOk result (λ desc. desc ≡ field_seen view.entry) }
{
    let base = own_base(alloc, view.base)?;
    Ok(FieldDesc {
        dims: view.dims,
        base,
    })
}

/// The field descriptors that begin the bytes, as many as there are, and what follows.
fn read_params(alloc: Global, bytes: &[u8]) -> Result<(Params, &[u8]), Memory>
    ensures passed { IfOk result (λ r. PassFields r.0 bytes.now r.1.now) }
    ensures all { IfOk result (λ r. read_field r.1.now ≡ None) }
{
    let mut descs = Vec::new(alloc);
    let mut rest = bytes;
    while let Some((view, after)) = next_field(rest) {
        descs.push(own_field(alloc, view)?)?;
        rest = after;
    }
    Ok((Params { descs }, rest))
}

/// The result that the bytes are. `Bad` says that they are none.
fn read_result(alloc: Global, bytes: &[u8]) -> Result<Option<FieldDesc>, DescFault>
    ensures desc { IfOk result (λ desc. SpellsResult desc bytes.now) }
    ensures bad { IfErr result (λ fault. fault ≡ Bad → IsResultDesc bytes.now → ⊥) }
{
    if bytes == b"V".as_slice() {
        return Ok(None);
    }
    read_field_desc(alloc, bytes).map(Some)
}

/// Whether the bytes are the internal form of a class's name.
pub fn is_class_name(bytes: &[u8]) -> bool
    ensures grammar { IsTrue result ↔ IsClassName bytes.now }
    ensures test { result ≡ is_class_name bytes.now }
{
    joins_names(bytes)
}

/// Whether the bytes are the name of a field or method.
pub fn is_member_name(bytes: &[u8]) -> bool
    ensures grammar { IsTrue result ↔ IsMemberName bytes.now }
    ensures test { result ≡ is_member_name bytes.now }
{
    !bytes.is_empty() && !has_one_of(b".;[/(:", bytes)
}

/// Whether the bytes are a field descriptor.
pub fn is_field_desc(bytes: &[u8]) -> bool
    ensures grammar { IsTrue result ↔ IsFieldDesc bytes.now }
    ensures test { result ≡ is_field_desc bytes.now }
{
    whole_field(bytes).is_some()
}

/// Whether the bytes are a method descriptor.
pub fn is_method_desc(bytes: &[u8]) -> bool
    ensures grammar { IsTrue result ↔ IsMethodDesc bytes.now }
    ensures test { result ≡ is_method_desc bytes.now }
{
    let Some(params) = after_byte(b'(', bytes) else {
        return false;
    };
    match after_byte(b')', after_params(params)) {
        Some(result) => is_result_desc(result),
        None => false,
    }
}

/// Whether the bytes are what a Class entry may name: a class, or an array's descriptor.
pub fn is_class_or_array(bytes: &[u8]) -> bool
    ensures grammar { IsTrue result ↔ IsClassOrArray bytes.now }
    ensures test { result ≡ is_class_or_array bytes.now }
{
    match after_byte(b'[', bytes) {
        Some(_) => is_field_desc(bytes),
        None => is_class_name(bytes),
    }
}

/// The field descriptor that the bytes are. `Bad` says that they are none.
pub fn read_field_desc(alloc: Global, bytes: &[u8]) -> Result<FieldDesc, DescFault>
    ensures desc { IfOk result (λ desc. SpellsField desc bytes.now) }
    ensures bad { IfErr result (λ fault. fault ≡ Bad → IsFieldDesc bytes.now → ⊥) }
{
    let Some(view) = whole_field(bytes) else {
        return Err(DescFault::Bad);
    };
    own_field(alloc, view).map_err(|_| DescFault::Memory)
}

/// The method descriptor that the bytes are. `Bad` says that they are none.
pub fn read_method_desc(alloc: Global, bytes: &[u8]) -> Result<MethodDesc, DescFault>
    ensures desc { IfOk result (λ desc. SpellsMethod desc bytes.now) }
    ensures bad { IfErr result (λ fault. fault ≡ Bad → IsMethodDesc bytes.now → ⊥) }
{
    let Some(rest) = after_byte(b'(', bytes) else {
        return Err(DescFault::Bad);
    };
    let Ok((params, rest)) = read_params(alloc, rest) else {
        return Err(DescFault::Memory);
    };
    let Some(rest) = after_byte(b')', rest) else {
        return Err(DescFault::Bad);
    };
    let result = read_result(alloc, rest)?;
    Ok(MethodDesc { params, result })
}

#[cfg(test)]
mod tests {
    use super::*;
    use std::test::Fail;

    #[test]
    fn names_of_members(rt: HostRuntime) {
        for name in ["a", "<init>", "lambda$0", "a b", "\u{e9}"] {
            assert!(rt; is_member_name(name.as_bytes()), "{name}");
        }
        for name in ["", "a.b", "a;", "[a", "a/b", "f(", "a:b"] {
            assert!(rt; !is_member_name(name.as_bytes()), "{name}");
        }
    }

    #[test]
    fn names_of_classes(rt: HostRuntime) {
        for name in ["A", "java/lang/String", "a b/c", "f(:"] {
            assert!(rt; is_class_name(name.as_bytes()), "{name}");
        }
        for name in [
            "",
            "/",
            "/A",
            "A/",
            "a//B",
            "java.lang.String",
            "A;",
            "[A",
            "a/[B",
        ] {
            assert!(rt; !is_class_name(name.as_bytes()), "{name}");
        }
    }

    #[test]
    fn descs_of_fields(rt: HostRuntime) {
        for text in [
            "B",
            "C",
            "D",
            "F",
            "I",
            "J",
            "S",
            "Z",
            "LA;",
            "Ljava/lang/String;",
            "[I",
            "[[LA;",
        ] {
            assert!(rt; is_field_desc(text.as_bytes()), "{text}");
        }
        for text in [
            "", "V", "A", "b", "L", "L;", "LA", "LA/;", "L[I;", "[", "[V", "II", "I[", "LA;;",
        ] {
            assert!(rt; !is_field_desc(text.as_bytes()), "{text}");
        }
    }

    #[test]
    fn dimensions_of_fields(rt: HostRuntime) -> Result<(), Fail> {
        let mut text = [b'['; 257];
        text[256] = b'I';
        assert!(rt; !is_field_desc(&text));
        assert!(rt; is_field_desc(&text[1..]));
        let desc = read_field_desc(rt.alloc(), &text[1..])
            .ok()
            .ok_or("it is a descriptor")?;
        assert_eq!(rt; desc.dims, 255);
        assert!(rt; matches!(desc.base, Base::Int));
        Ok(())
    }

    #[test]
    fn descs_of_methods(rt: HostRuntime) {
        for text in ["()V", "(I)V", "(BCDFIJSZ)[I", "()LA;", "(LA;[[LB;)D"] {
            assert!(rt; is_method_desc(text.as_bytes()), "{text}");
        }
        for text in [
            "", "V", "()", "(V)V", "([V)V", "()VV", "()V ", "()II", "()[V", "(I", "I)V", "(L;)V",
            "(LA)V", "(I)V)", "(())V",
        ] {
            assert!(rt; !is_method_desc(text.as_bytes()), "{text}");
        }
    }

    #[test]
    fn classes_and_arrays(rt: HostRuntime) {
        for name in ["A", "I", "java/lang/String", "[I", "[[LA;"] {
            assert!(rt; is_class_or_array(name.as_bytes()), "{name}");
        }
        for name in ["", "LA;", "[", "[A", "[LA", "A[]"] {
            assert!(rt; !is_class_or_array(name.as_bytes()), "{name}");
        }
    }

    fn is_class(base: &Base, name: &[u8]) -> bool {
        match base {
            Base::Class(found) => found.as_slice() == name,
            _ => false,
        }
    }

    #[test]
    fn a_method_desc_is_read(rt: HostRuntime) -> Result<(), Fail> {
        let desc = read_method_desc(rt.alloc(), b"(IJ[[Ljava/lang/String;)D")
            .ok()
            .ok_or("it is a descriptor")?;
        let params = desc.params.as_slice();
        assert_eq!(rt; params.len(), 3);
        assert!(rt; params[0].dims == 0 && matches!(params[0].base, Base::Int));
        assert!(rt; params[1].dims == 0 && matches!(params[1].base, Base::Long));
        assert!(rt; params[2].dims == 2 && is_class(&params[2].base, b"java/lang/String"));
        let result = desc.result.as_ref().ok_or("it has a result")?;
        assert!(rt; result.dims == 0 && matches!(result.base, Base::Double));
        Ok(())
    }

    #[test]
    fn other_texts_are_no_descs(rt: HostRuntime) {
        assert!(rt; matches!(read_field_desc(rt.alloc(), b"V"), Err(DescFault::Bad)));
        assert!(rt; matches!(read_method_desc(rt.alloc(), b"(I)"), Err(DescFault::Bad)));
    }
}

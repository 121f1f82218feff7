//! Which kinds have what a place is asked for.
ghost use Rattle.std.specs.Prelude.{◌≡◌, ◌<◌, ◌^◌, ◌==◌, ◌&&◌, ◌||◌, false, length, if◌then◌else◌};
ghost use Rattle.std.specs.List.{list_any};
ghost use Rattle.hierarchy.specs.Hierarchies.{IsHierarchyOf};
ghost use Rattle.jo_prog.specs.declared.program.Program.{Program};
ghost use Rattle.jo_prog.specs.InsnTyping.{element_letters};
ghost use Rattle.jo_prog.specs.Shapes;
ghost use Rattle.jo_prog.specs.Types;
ghost use Rattle.jo_prog.specs.Typing;
ghost use Rattle.typing_effects.specs.Effects.{need_in};
ghost use Rattle.typing_effects.specs.Forms.{ask_in};
ghost use Rattle.typing_effects.specs.Kinds.{kind_in};

use crate::effects::Need;
use crate::forms::Ask;
use crate::kinds::{Kind, has_references};
use hierarchy::Hierarchy;
use jo_insn::has_flag;
use jo_prog::program::{Program, TypeRef, class_at};
use jo_text::{Base, FieldDesc};

/// ACC_INTERFACE (JVM Specification SE 8, 4.1).
const INTERFACE: u16 = 0x0200;

fn is_interface(program: &Program, named: &TypeRef) -> bool
    ensures { result ≡ Shapes.is_interface program.now named.now }
{
    match named {
        TypeRef::Class(class) => match class_at(program, *class) {
            Some(class) => has_flag(INTERFACE, class.flags),
            None => false,
        },
        TypeRef::Array(_) => false,
    }
}

/// Whether a value of the one type may stand where the other is needed.
pub(crate) fn takes_type(
    program: &Program,
    hierarchy: &Hierarchy,
    given: &TypeRef,
    needed: &TypeRef,
) -> bool
    requires kept { IsHierarchyOf program.now hierarchy.now }
    requires short { length program.now.classes < 2 ^ 32 }
    ensures { result ≡ Shapes.takes_type program.now given.now needed.now }
{
    let interface = is_interface(program, needed);
    let fits = hierarchy.type_fits(program, given, needed);
    interface || fits
}

fn letter_of(base: &Base) -> u8
    ensures { result ≡ Types.letter_of base.now }
{
    match base {
        Base::Byte => b'B',
        Base::Char => b'C',
        Base::Double => b'D',
        Base::Float => b'F',
        Base::Int => b'I',
        Base::Long => b'J',
        Base::Short => b'S',
        Base::Boolean => b'Z',
        Base::Class(_) => b'L',
    }
}

/// Whether elements of that letter are those of the instruction.
fn is_element(op: u8, letter: u8) -> bool
    ensures { result ≡ list_any (λ one. one == letter) (element_letters op) }
{
    if op == 46 || op == 79 {
        b'I' == letter || false
    } else if op == 51 || op == 84 {
        b'B' == letter || (b'Z' == letter || false)
    } else if op == 52 || op == 85 {
        b'C' == letter || false
    } else {
        b'S' == letter || false
    }
}

fn is_array_of(op: u8, desc: &FieldDesc) -> bool
    ensures { result ≡ Shapes.is_array_of (element_letters op) desc.now }
{
    let element = is_element(op, letter_of(&desc.base));
    desc.dims == 1 && element
}

fn array_passes(ask: Ask, desc: &FieldDesc) -> bool
    ensures { (program : Program) → result ≡ Shapes.passes program (ask_in ask) (Typing.Ref (TypeRef.Array desc.now)) }
{
    match ask {
        Ask::AnInt => false,
        Ask::AReference => true,
        Ask::AnArray => true,
        Ask::ArrayOfReferences => has_references(desc),
        Ask::ArrayOf(op) => is_array_of(op, desc),
    }
}

fn ask_passes(ask: Ask, named: &TypeRef) -> bool
    ensures { (program : Program) → result ≡ Shapes.passes program (ask_in ask) (Typing.Ref named.now) }
{
    match named {
        TypeRef::Class(_) => match ask {
            Ask::AnInt => false,
            Ask::AReference => true,
            Ask::AnArray => false,
            Ask::ArrayOfReferences => false,
            Ask::ArrayOf(_) => false,
        },
        TypeRef::Array(desc) => array_passes(ask, desc),
    }
}

fn both(a: bool, b: bool) -> bool
    ensures { result ≡ (a && b) }
{
    a && b
}

/// Whether a reference to that type has what is asked for.
fn reference_passes(program: &Program, hierarchy: &Hierarchy, need: &Need, named: &TypeRef) -> bool
    requires kept { IsHierarchyOf program.now hierarchy.now }
    requires short { length program.now.classes < 2 ^ 32 }
    ensures { result ≡ Shapes.passes program.now (need_in need.now) (Typing.Ref named.now) }
{
    match need {
        Need::Anything => true,
        Need::Of(ask) => ask_passes(*ask, named),
        Need::OfType(needed) => takes_type(program, hierarchy, named, needed),
        Need::OfTypeAnd(needed, class) => {
            let class = TypeRef::Class(*class);
            let first = takes_type(program, hierarchy, named, needed);
            let second = takes_type(program, hierarchy, named, &class);
            both(first, second)
        }
        Need::Nothing => false,
    }
}

fn int_passes(need: &Need) -> bool
    ensures { result ≡ Shapes.int_passes (need_in need.now) }
{
    match need {
        Need::Anything => true,
        Need::Of(Ask::AnInt) => true,
        Need::Of(_) => false,
        Need::OfType(_) => false,
        Need::OfTypeAnd(_, _) => false,
        Need::Nothing => false,
    }
}

fn null_passes(need: &Need) -> bool
    ensures { result ≡ Shapes.null_passes (need_in need.now) }
{
    match need {
        Need::Anything => true,
        Need::Of(Ask::AnInt) => false,
        Need::Of(_) => true,
        Need::OfType(_) => true,
        Need::OfTypeAnd(_, _) => true,
        Need::Nothing => false,
    }
}

fn unset_passes(need: &Need) -> bool
    ensures { result ≡ Shapes.unset_passes (need_in need.now) }
{
    match need {
        Need::Anything => true,
        Need::Of(_) => false,
        Need::OfType(_) => false,
        Need::OfTypeAnd(_, _) => false,
        Need::Nothing => false,
    }
}

/// Whether a place of that kind has what it is asked for.
pub fn passes(program: &Program, hierarchy: &Hierarchy, need: &Need, kind: &Kind) -> bool
    requires kept { IsHierarchyOf program.now hierarchy.now }
    requires short { length program.now.classes < 2 ^ 32 }
    ensures { result ≡ Shapes.passes program.now (need_in need.now) (kind_in kind.now) }
{
    match kind {
        Kind::Int => int_passes(need),
        Kind::Null => null_passes(need),
        Kind::Ref(named) => reference_passes(program, hierarchy, need, named),
        Kind::Unset => unset_passes(need),
    }
}

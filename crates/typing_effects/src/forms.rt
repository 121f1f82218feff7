//! What instructions ask of the stack and of locals and make of them, where no type of the program plays a part.
ghost use Rattle.std.specs.Prelude.{◌≡◌, None, Some, Option, ℕ, option_map, if◌then◌else◌};
ghost use Rattle.jo_prog.specs.InsnTyping;
ghost use Rattle.jo_prog.specs.Typing.{Kind};
ghost use Rattle.typing_effects.specs.Forms.{form_in, plain_by};

use typing_heights::sizes::within;

/// What a place is asked for.
#[derive(Clone, Copy)]
pub enum Ask {
    AnInt,
    AReference,
    AnArray,
    ArrayOfReferences,
    /// Of elements that the instruction with this opcode reads or writes.
    ArrayOf(u8),
}

/// What is pushed.
#[derive(Clone, Copy)]
pub enum Push {
    Nothing,
    Int,
    Null,
    /// An element of the array below the top.
    Element,
}

/// What an instruction without types does. The top of the stack comes first.
#[derive(Clone, Copy)]
pub(crate) enum Form {
    PopNone(Push),
    PopOne(Ask, Push),
    PopTwo(Ask, Ask, Push),
    PopThree(Ask, Ask, Ask),
    LoadInt(u16),
    LoadReference(u16),
    StoreInt(u16),
    StoreReference(u16),
    Step(u16),
    /// Pops so many places and pushes copies of those with these numbers.
    Move(u8, &'static [u8]),
    /// Of no kind that is needed.
    Wrong,
}

fn constant_form(op: u8) -> Option<Form>
    ensures { option_map form_in result ≡ InsnTyping.constant_effect op }
{
    if op == 0 {
        Some(Form::PopNone(Push::Nothing))
    } else if op == 1 {
        Some(Form::PopNone(Push::Null))
    } else if within(2, 8, op) {
        Some(Form::PopNone(Push::Int))
    } else {
        None
    }
}

fn short_local_form(op: u8) -> Option<Form>
    ensures { option_map form_in result ≡ InsnTyping.short_local_effect op }
{
    if within(26, 29, op) {
        Some(Form::LoadInt(u16::from(op - 26)))
    } else if within(42, 45, op) {
        Some(Form::LoadReference(u16::from(op - 42)))
    } else if within(59, 62, op) {
        Some(Form::StoreInt(u16::from(op - 59)))
    } else if within(75, 78, op) {
        Some(Form::StoreReference(u16::from(op - 75)))
    } else {
        None
    }
}

fn array_form(op: u8) -> Option<Form>
    ensures { option_map form_in result ≡ InsnTyping.array_effect op }
{
    if op == 50 {
        Some(Form::PopTwo(Ask::AnInt, Ask::ArrayOfReferences, Push::Element))
    } else if op == 46 || within(51, 53, op) {
        Some(Form::PopTwo(Ask::AnInt, Ask::ArrayOf(op), Push::Int))
    } else if op == 83 {
        Some(Form::PopThree(Ask::AReference, Ask::AnInt, Ask::ArrayOfReferences))
    } else if op == 79 || within(84, 86, op) {
        Some(Form::PopThree(Ask::AnInt, Ask::AnInt, Ask::ArrayOf(op)))
    } else if op == 190 {
        Some(Form::PopOne(Ask::AnArray, Push::Int))
    } else {
        None
    }
}

fn move_form(op: u8) -> Option<Form>
    ensures { option_map form_in result ≡ InsnTyping.move_effect op }
{
    if op == 87 {
        Some(Form::Move(1, &[]))
    } else if op == 88 {
        Some(Form::Move(2, &[]))
    } else if op == 89 {
        Some(Form::Move(1, &[0, 0]))
    } else if op == 90 {
        Some(Form::Move(2, &[0, 1, 0]))
    } else if op == 91 {
        Some(Form::Move(3, &[0, 1, 2, 0]))
    } else if op == 92 {
        Some(Form::Move(2, &[0, 1, 0, 1]))
    } else if op == 93 {
        Some(Form::Move(3, &[0, 1, 2, 0, 1]))
    } else if op == 94 {
        Some(Form::Move(4, &[0, 1, 2, 3, 0, 1]))
    } else if op == 95 {
        Some(Form::Move(2, &[1, 0]))
    } else {
        None
    }
}

fn arithmetic_form(op: u8) -> Option<Form>
    ensures { option_map form_in result ≡ InsnTyping.arithmetic_effect op }
{
    if op == 116 || within(145, 147, op) {
        Some(Form::PopOne(Ask::AnInt, Push::Int))
    } else if within(96, 130, op) {
        Some(Form::PopTwo(Ask::AnInt, Ask::AnInt, Push::Int))
    } else {
        None
    }
}

/// Of an instruction without operands that doesn't leave the method.
pub(crate) fn plain_form(op: u8) -> Option<Form>
    ensures { (kind : Option Kind) → plain_by (option_map form_in result) kind op ≡ InsnTyping.plain_effect kind op }
{
    if let Some(form) = constant_form(op) {
        return Some(form);
    }
    if let Some(form) = short_local_form(op) {
        return Some(form);
    }
    if let Some(form) = array_form(op) {
        return Some(form);
    }
    if let Some(form) = move_form(op) {
        return Some(form);
    }
    arithmetic_form(op)
}

pub(crate) fn local_form(op: u8, local: u16) -> Form
    ensures { form_in result ≡ InsnTyping.local_effect op local }
{
    if op == 21 {
        Form::LoadInt(local)
    } else if op == 25 {
        Form::LoadReference(local)
    } else if op == 54 {
        Form::StoreInt(local)
    } else if op == 58 {
        Form::StoreReference(local)
    } else {
        Form::Wrong
    }
}

pub(crate) fn jump_form(op: u8) -> Form
    ensures { form_in result ≡ InsnTyping.jump_effect op }
{
    if within(153, 158, op) {
        Form::PopOne(Ask::AnInt, Push::Nothing)
    } else if within(159, 164, op) {
        Form::PopTwo(Ask::AnInt, Ask::AnInt, Push::Nothing)
    } else if within(165, 166, op) {
        Form::PopTwo(Ask::AReference, Ask::AReference, Push::Nothing)
    } else if within(198, 199, op) {
        Form::PopOne(Ask::AReference, Push::Nothing)
    } else if op == 167 || op == 200 {
        Form::PopNone(Push::Nothing)
    } else {
        Form::Wrong
    }
}

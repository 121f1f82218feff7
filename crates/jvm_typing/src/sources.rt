//! Where the kind of a place behind a step comes from.
ghost use Rattle.std.specs.Prelude.{◌≡◌, ◌+◌, ◌-◌, ◌<◌, ◌≤◌, ◌^◌, ℕ, Some, None, length, slice_get, IfOk, OnOk, option_map};
ghost use Rattle.std.specs.Option.{option_copied};
ghost use Rattle.jo_prog.specs.declared.program.Program.{Program};
ghost use Rattle.jo_prog.specs.Shapes;
ghost use Rattle.jo_prog.specs.InsnTyping;
ghost use Rattle.typing_effects.specs.Forms.{push_in};
ghost use Rattle.typing_effects.specs.Kinds.{kind_in, change_in};
ghost use Rattle.typing_effects.specs.Effects.{pushes_in, writes_in, effect_in};
ghost use Rattle.jvm_typing.specs.KindPasses.{origin_source, written_source, pushed_source, plain_source, handler_source, row_source};
ghost use Rattle.jvm_typing.specs.Sources.{source_in, frame_in, copies, HasFrom, Feeds};

use jo_ids::{Id, Memory};
use jo_prog::program::{Row, TypeRef};
use std::alloc::Global;
use typing_effects::effects::{Access, Effect, Pushes};
use typing_effects::forms::Push;
use typing_effects::kinds::{Change, Kind, copy_kind, copy_type};

/// Where the kind of a place comes from.
#[derive(Drop)]
pub(crate) enum Source {
    Fixed(Kind),
    /// From a place before the step. The locals come first, then the stack from its top.
    FromPlace(usize, Change),
}

/// How many locals there are, and the height of the stack before a step.
#[derive(Clone, Copy)]
pub(crate) struct Sizes {
    pub(crate) locals: u16,
    pub(crate) height: u16,
}

fn from_stack(sizes: Sizes, k: u8, change: Change) -> Source
    ensures { (program : Program) → source_in result ≡ origin_source program (frame_in sizes) (Shapes.OfStack k (change_in change)) }
{
    if u16::from(k) < sizes.height {
        Source::FromPlace(usize::from(sizes.locals) + usize::from(k), change)
    } else {
        Source::Fixed(Kind::Unset)
    }
}

fn from_local(sizes: Sizes, k: u16, change: Change) -> Source
    ensures { (program : Program) → source_in result ≡ origin_source program (frame_in sizes) (Shapes.OfLocal k (change_in change)) }
{
    if k < sizes.locals {
        Source::FromPlace(usize::from(k), change)
    } else {
        Source::Fixed(Kind::Unset)
    }
}

/// Of a local behind a step without an exception.
fn of_local(sizes: Sizes, writes: Access, place: usize) -> Source
    ensures { (program : Program) → source_in result ≡ written_source program (frame_in sizes) (writes_in writes) place }
{
    match writes {
        Access::Nothing => Source::FromPlace(place, Change::Same),
        Access::Int(k) => {
            if usize::from(k) == place {
                Source::Fixed(Kind::Int)
            } else {
                Source::FromPlace(place, Change::Same)
            }
        }
        Access::Reference(k) => {
            if usize::from(k) == place {
                from_stack(sizes, 0, Change::Reference)
            } else {
                Source::FromPlace(place, Change::Same)
            }
        }
    }
}

fn of_push(sizes: Sizes, push: Push) -> Option<Source>
    ensures { (program : Program) → option_map source_in result ≡ option_map (origin_source program (frame_in sizes)) (slice_get (push_in push) 0) }
{
    match push {
        Push::Nothing => None,
        Push::Int => Some(Source::Fixed(Kind::Int)),
        Push::Null => Some(Source::Fixed(Kind::Null)),
        Push::Element => Some(from_stack(sizes, 1, Change::Element)),
    }
}

fn of_copy(sizes: Sizes, places: &[u8], k: usize) -> Option<Source>
    ensures { (program : Program) → option_map source_in result ≡ option_map (origin_source program (frame_in sizes)) (slice_get (copies places.now) k) }
{
    if k < places.len() {
        Some(from_stack(sizes, places[k], Change::Same))
    } else {
        None
    }
}

/// Of a pushed place, where so many are pushed. The top has number 0.
#[tactic(auto, using(crate::proofs::SourceLemmas::past_one))]
fn of_pushed(
    alloc: Global,
    sizes: Sizes,
    pushes: &Pushes,
    k: usize,
) -> Result<Option<Source>, Memory>
    ensures { IfOk result (λ source. (program : Program) → option_map source_in source ≡ option_map (origin_source program (frame_in sizes)) (slice_get (pushes_in pushes.now) k)) }
{
    match pushes {
        Pushes::Of(push) => {
            if k == 0 {
                Ok(of_push(sizes, *push))
            } else {
                Ok(None)
            }
        }
        Pushes::One(kind) => {
            if k == 0 {
                let kind = copy_kind(alloc, kind)?;
                Ok(Some(Source::Fixed(kind)))
            } else {
                Ok(None)
            }
        }
        Pushes::Local(local) => {
            if k == 0 {
                Ok(Some(from_local(sizes, *local, Change::Reference)))
            } else {
                Ok(None)
            }
        }
        Pushes::Copies(places) => Ok(of_copy(sizes, places, k)),
    }
}

fn push_count(pushes: &Pushes) -> usize
    ensures { result ≡ length (pushes_in pushes.now) }
{
    match pushes {
        Pushes::Of(Push::Nothing) => 0,
        Pushes::Of(_) => 1,
        Pushes::One(_) => 1,
        Pushes::Local(_) => 1,
        Pushes::Copies(places) => places.len(),
    }
}

/// Of a stack place behind a step without an exception. The top has number 0.
fn of_stack_place(alloc: Global, effect: &Effect, sizes: Sizes, k: usize) -> Result<Source, Memory>
    requires pops { length effect.now.pops.items ≤ sizes.height }
    requires place { k < 2 ^ 17 }
    ensures { IfOk result (λ source. (program : Program) → source_in source ≡ pushed_source program (frame_in sizes) (effect_in effect.now) k (slice_get (effect_in effect.now).pushes k)) }
{
    match of_pushed(alloc, sizes, &effect.pushes, k)? {
        Some(source) => Ok(source),
        None => {
            let below = effect.pops.len() + k.saturating_sub(push_count(&effect.pushes));
            Ok(Source::FromPlace(usize::from(sizes.locals) + below, Change::Same))
        }
    }
}

/// What a row catches. `None` is every Throwable.
fn caught(alloc: Global, row: &Row) -> Result<TypeRef, Memory>
    ensures { IfOk result (λ type. type ≡ InsnTyping.caught row.now.catches) }
{
    match &row.catches {
        Some(named) => {
            let named = copy_type(alloc, named)?;
            Ok(named)
        }
        None => Ok(TypeRef::Class(Id::of(4))),
    }
}

/// Of a place behind a step, to the row's handler where there is a row.
pub(crate) fn source_of(
    alloc: Global,
    effect: &Effect,
    row: Option<&Row>,
    sizes: Sizes,
    place: usize,
) -> Result<Source, Memory>
    requires pops { length effect.now.pops.items ≤ sizes.height }
    requires place { place < 2 ^ 17 }
    ensures { IfOk result (λ source. (program : Program) → source_in source ≡ row_source program (frame_in sizes) (effect_in effect.now) (option_copied row.entry) place) }
{
    let locals = usize::from(sizes.locals);
    match row {
        Some(row) => {
            if place < locals {
                return Ok(Source::FromPlace(place, Change::Same));
            }
            let caught = caught(alloc, row)?;
            Ok(Source::Fixed(Kind::Ref(caught)))
        }
        None => {
            if place < locals {
                return Ok(of_local(sizes, effect.writes, place));
            }
            let source = of_stack_place(alloc, effect, sizes, place - locals)?;
            Ok(source)
        }
    }
}

/// The local that is written, else that place.
fn written_or(writes: Access, place: usize) -> usize
    ensures { (k : ℕ) (origin : Shapes.Origin) → writes_in writes ≡ Some (k, origin) → result ≡ k }
{
    match writes {
        Access::Nothing => place,
        Access::Int(k) => usize::from(k),
        Access::Reference(k) => usize::from(k),
    }
}

fn add_places(places: &mut Vec<usize>, from: usize, end: usize) -> Result<(), Memory>
    ensures { OnOk result (HasFrom places.old.items from end places.new.items) }
{
    for place in from..end {
        places.push(place)?;
    }
    Ok(())
}

/// The places behind a step that may take their kind from that place, and few others.
pub(crate) fn fed(
    alloc: Global,
    effect: &Effect,
    sizes: Sizes,
    place: usize,
) -> Result<Vec<usize>, Memory>
    ensures { IfOk result (λ places. Feeds (frame_in sizes) (effect_in effect.now) place places.items) }
{
    let locals = usize::from(sizes.locals);
    let pushed = locals.saturating_add(push_count(&effect.pushes));
    let popped = locals.saturating_add(effect.pops.len());
    let mut places = Vec::new(alloc);
    places.push(place)?;
    places.push(written_or(effect.writes, place))?;
    places.push(pushed.saturating_add(place.saturating_sub(popped)))?;
    add_places(&mut places, locals, pushed)?;
    Ok(places)
}

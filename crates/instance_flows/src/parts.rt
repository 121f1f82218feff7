//! The part of a flow graph that a node reaches.
ghost use Rattle.std.specs.Prelude.{◌≡◌, ◌↔◌, ℕ, ◌<◌, ◌^◌, ◌∷◌, [], length, slice_get, Some, Contains, IfNone, IfOk, IfSome, OnOk};
ghost use Rattle.std.specs.List.{AllZip};
ghost use Rattle.jo_ids.specs.Path.{Path};
ghost use Rattle.dep_nodes.specs.OnceLists.{IsOnceEach};
ghost use Rattle.dependence.specs.FlowData.{EdgeIn};
ghost use Rattle.flow_graph.specs.Adding.{AddsThose, HasThose};
ghost use Rattle.instance_flows.specs.Parts.{IsFound, IsFoundAt, IsPlaceAmong, IsPart, IsPartRow};

use dep_nodes::OnceList;
use dependence::flow::Place;
use dependence::flows::{Flow, FlowRow, Places};
use dependence::searches::reach_behind;
use jo_ids::{BitRow, List, Memory, NodeId};
use jo_prog::lists::add;
use std::alloc::Global;

// ---- the nodes that are reached

/// The nodes to which a path leads from the start.
fn reached_from(alloc: Global, flow: &Flow, start: u32) -> Result<BitRow, Memory>
    requires { start < length flow.now }
    ensures same { IfOk result (λ found. length found ≡ length flow.now) }
    ensures each { IfOk result (λ found. (n : ℕ) → IsFound found n ↔ Path (EdgeIn flow.now) start n) }
{
    let mut found = BitRow::with_len(alloc, flow.len())?;
    let mut places = vec![in alloc; 0; flow.len() as usize]?;
    reach_behind(flow, start, None, &mut found, places.as_mut_slice());
    found.set(start);
    Ok(found)
}

fn add_if_found(found: &BitRow, number: u32, numbers: &mut OnceList<NodeId>) -> Result<(), Memory>
    requires inside { number < length found.now }
    requires new { Contains numbers.old number → ⊥ }
    ensures { OnOk result (AddsThose (IsFoundAt found.now number) numbers.old numbers.new) }
{
    if !found.has(number) {
        return Ok(());
    }
    numbers.push_new(NodeId::of(number))?;
    Ok(())
}

/// The numbers of a set, in order.
fn numbers_in(alloc: Global, found: &BitRow) -> Result<OnceList<NodeId>, Memory>
    ensures { IfOk result (λ numbers. HasThose (IsFound found.now) numbers) }
{
    let mut numbers = OnceList::new(alloc);
    for number in 0..found.len() {
        add_if_found(found, number, &mut numbers)?;
    }
    Ok(numbers)
}

// ---- successors

fn place_of(numbers: &OnceList<NodeId>, number: u32) -> Option<usize>
    ensures found { IfSome result (λ place. slice_get numbers.now place ≡ Some number) }
    ensures absent { IfNone result (Contains numbers.now number → ⊥) }
{
    numbers.find(&NodeId::of(number))
}

/// Adds the new number of a node, if it has one.
fn add_place(numbers: &OnceList<NodeId>, end: u32, places: &mut Vec<u32>) -> Result<(), Memory>
    requires few { length numbers.now < 2 ^ 32 }
    requires once { IsOnceEach numbers.now }
    ensures { OnOk result (AddsThose (IsPlaceAmong numbers.now (end ∷ [])) places.old.items places.new.items) }
{
    match place_of(numbers, end) {
        Some(place) => {
            places.push(place as u32)?;
            Ok(())
        }
        None => Ok(()),
    }
}

/// The new numbers of those of these nodes that have one, as they come.
fn places_as_they_come(
    alloc: Global,
    numbers: &OnceList<NodeId>,
    ends: &[u32],
) -> Result<Vec<u32>, Memory>
    requires few { length numbers.now < 2 ^ 32 }
    requires once { IsOnceEach numbers.now }
    ensures { IfOk result (λ places. HasThose (IsPlaceAmong numbers.now ends.now) places.items) }
{
    let mut places = Vec::new(alloc);
    for end in ends {
        add_place(numbers, *end, &mut places)?;
    }
    Ok(places)
}

/// The same in order, each once.
fn places_of(alloc: Global, numbers: &OnceList<NodeId>, ends: &[u32]) -> Result<Vec<u32>, Memory>
    requires few { length numbers.now < 2 ^ 32 }
    requires once { IsOnceEach numbers.now }
    ensures those { IfOk result (λ places. HasThose (IsPlaceAmong numbers.now ends.now) places.items) }
    ensures once { IfOk result (λ places. IsOnceEach places.items) }
{
    let mut places = places_as_they_come(alloc, numbers, ends)?;
    places.sort()?;
    places.dedup();
    Ok(places)
}

fn listed(alloc: Global, numbers: &[u32]) -> Result<List<u32>, Memory>
    ensures { IfOk result (λ list. list ≡ numbers.now) }
{
    let mut list = List::new(alloc);
    for number in numbers {
        add(&mut list, *number)?;
    }
    Ok(list)
}

// ---- rows

fn copied(alloc: Global, places: &[Place]) -> Result<Places, Memory>
    ensures { IfOk result (λ copy. HasThose (Contains places.now) copy) }
{
    let mut copy = Places::new(alloc);
    for place in places {
        copy.add(*place)?;
    }
    Ok(copy)
}

fn row_of(
    alloc: Global,
    flow: &Flow,
    kept: &Flow,
    numbers: &OnceList<NodeId>,
    n: u32,
) -> Result<FlowRow, Memory>
    requires there { n < length flow.now }
    requires same { length kept.now ≡ length flow.now }
    requires few { length numbers.now < 2 ^ 32 }
    requires once { IsOnceEach numbers.now }
    ensures { IfOk result (λ row. IsPartRow flow.now kept.now numbers.now n row) }
{
    let ends = places_of(alloc, numbers, kept.successors(n))?;
    let successors = listed(alloc, ends.as_slice())?;
    let reads = copied(alloc, flow.reads(n))?;
    let writes = copied(alloc, flow.writes(n))?;
    Ok(FlowRow {
        node: *flow.node(n),
        successors,
        reads,
        writes,
    })
}

fn number_at(numbers: &OnceList<NodeId>, place: usize) -> u32
    requires { place < length numbers.now }
    ensures { slice_get numbers.now place ≡ Some result }
{
    numbers.as_slice()[place].number()
}

fn rows_of(
    alloc: Global,
    flow: &Flow,
    kept: &Flow,
    numbers: &OnceList<NodeId>,
) -> Result<Vec<FlowRow>, Memory>
    requires there { (n : ℕ) → Contains numbers.now n → n < length flow.now }
    requires same { length kept.now ≡ length flow.now }
    requires few { length numbers.now < 2 ^ 32 }
    requires once { IsOnceEach numbers.now }
    ensures { IfOk result (λ rows. AllZip (IsPartRow flow.now kept.now numbers.now) numbers.now rows.items) }
{
    let mut rows = Vec::new(alloc);
    let mut done = 0;
    while done < numbers.as_slice().len() {
        let number = number_at(numbers, done);
        let row = row_of(alloc, flow, kept, numbers, number)?;
        rows.push(row)?;
        done += 1;
    }
    Ok(rows)
}

/// The nodes of a graph that the start reaches by the edges that are kept, in the order of their numbers. More nodes than there
/// are numbers have none: for them memory is said to be wanting.
pub(crate) fn part_of(alloc: Global, flow: &Flow, kept: &Flow, start: u32) -> Result<Flow, Memory>
    requires start { start < length flow.now }
    requires same { length kept.now ≡ length flow.now }
    ensures { IfOk result (λ part. IsPart flow.now kept.now start part) }
{
    let found = reached_from(alloc, kept, start)?;
    let numbers = numbers_in(alloc, &found)?;
    if numbers.as_slice().len() > u32::MAX as usize {
        return Err(Memory);
    }
    let rows = rows_of(alloc, flow, kept, &numbers)?;
    Ok(Flow::of(alloc, rows))
}

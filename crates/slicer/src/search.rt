//! The search: back from the criteria along edges and summary edges, from place to place.
ghost use Rattle.std.specs.Prelude.{◌≡◌, ℕ, ◌<◌, [], length, All, Contains};
ghost use Rattle.dep_nodes.specs.GrowingGraphs.{HasEdge};
ghost use Rattle.dep_nodes.specs.NumberedChains.{AreSummaries};
ghost use Rattle.slicer.specs.declared.finds.Found.{Found as AFound};
ghost use Rattle.slicer.specs.Finds.{place as place_in, place_at, HasPlace};
ghost use Rattle.slicer.specs.Slices.{BeginsWith, Appends, IsStepTo, IsPassTo, IsStep, IsSearch, IsClosed, AllStepsTo, AllEdgesTo, EdgeIsFound};

use crate::finds::{Finds, Found, Phase, Place, Way};
use crate::phases::phase_before;
use dep_nodes::{DependenceGraph, EdgeKind, Word};
use jo_ids::NodeId;
use summary_edges::Summaries;

/// Begins with the criteria.
pub fn begin(finds: &mut Finds, criteria: &[NodeId])
    requires none { finds.old.found ≡ [] }
    requires below { All (λ c. c < finds.old.count) criteria.now }
    ensures count { finds.new.count ≡ finds.old.count }
    ensures begins { BeginsWith criteria.now finds.new.found }
{
    for criterion in criteria {
        finds.add(Found {
            place: Place {
                node: *criterion,
                phase: Phase::First,
            },
            way: Way::Criterion,
        });
    }
}

/// Goes back from each place that is found, and from those that are found so.
pub fn spread(graph: &DependenceGraph, summaries: &Summaries, finds: &mut Finds)
    requires summaries { AreSummaries graph.now summaries.now }
    requires count { finds.old.count ≡ length graph.now }
    requires search { IsSearch graph.now finds.old.found }
    ensures count { finds.new.count ≡ finds.old.count }
    ensures more { Appends IsStep finds.old.found finds.new.found }
    ensures search { IsSearch graph.now finds.new.found }
    ensures closed { IsClosed graph.now finds.new.found }
{
    let mut done = 0;
    while done < finds.len() {
        follow(graph, summaries, finds, done);
        done += 1;
    }
}

/// Goes back from the place with that number, along each edge and each summary edge that ends there.
fn follow(graph: &DependenceGraph, summaries: &Summaries, finds: &mut Finds, number: usize)
    requires summaries { AreSummaries graph.now summaries.now }
    requires count { finds.old.count ≡ length graph.now }
    requires number { number < length finds.old.found }
    ensures count { finds.new.count ≡ finds.old.count }
    ensures more { (d : AFound) → Appends (IsStepTo graph.now number (place_at finds.old.found number d))
        finds.old.found finds.new.found }
    ensures all { (d : AFound) → AllStepsTo graph.now (place_at finds.old.found number d) finds.new.found }
{
    let place = finds.get(number).place;
    follow_edges(graph, finds, number, &place);
    follow_passes(summaries.beginnings(place.node), finds, number, &place);
}

/// Goes back along each edge that ends at the place, which has that number.
fn follow_edges(graph: &DependenceGraph, finds: &mut Finds, number: usize, place: &Place)
    requires node { place.now.node < length graph.now }
    requires count { finds.old.count ≡ length graph.now }
    ensures count { finds.new.count ≡ finds.old.count }
    ensures more { Appends (IsStepTo graph.now number place.now) finds.old.found finds.new.found }
    ensures all { AllEdgesTo graph.now place.now finds.new.found }
{
    let edges = graph.edges_into(place.node);
    for edge in edges {
        go_back(graph, finds, number, place, *edge);
    }
}

/// Goes back along an edge to the place, which has that number.
fn go_back(
    graph: &DependenceGraph,
    finds: &mut Finds,
    number: usize,
    place: &Place,
    edge: (NodeId, EdgeKind),
)
    requires node { place.now.node < length graph.now }
    requires from { edge.0 < length graph.now }
    requires count { finds.old.count ≡ length graph.now }
    requires edge { HasEdge graph.now edge.0 edge.1 place.now.node }
    ensures count { finds.new.count ≡ finds.old.count }
    ensures more { Appends (IsStepTo graph.now number place.now) finds.old.found finds.new.found }
    ensures all { EdgeIsFound graph.now edge place.now finds.new.found }
{
    let (from, kind) = edge;
    if let Some(phase) = phase_before(kind, graph.node(from), graph.node(place.node), place.phase) {
        finds.add(Found {
            place: Place { node: from, phase },
            way: Way::Step(Word::Edge(kind), number),
        });
    }
}

/// Goes back by a `pass` from each of the nodes to the place, which has that number.
fn follow_passes(nodes: &[NodeId], finds: &mut Finds, number: usize, place: &Place)
    requires below { All (λ n. n < finds.old.count) nodes.now }
    ensures count { finds.new.count ≡ finds.old.count }
    ensures more { Appends (IsPassTo nodes.now number place.now) finds.old.found finds.new.found }
    ensures all { (n : ℕ) → Contains nodes.now n → HasPlace finds.new.found (place_in n place.now.phase) }
{
    for node in nodes {
        finds.add(Found {
            place: Place {
                node: *node,
                phase: place.phase,
            },
            way: Way::Step(Word::Pass, number),
        });
    }
}

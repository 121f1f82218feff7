//! Searches of a flow graph.
ghost use Rattle.std.specs.Prelude.{◌≡◌, ◌↔◌, ◌<◌, length, All, IsTrue};
ghost use Rattle.jo_graph.specs.Queues.{IsQueueOf, Follows};
ghost use Rattle.dependence.specs.Behind.{StopsIn, AreBehind, BeginsBehind, FollowsOn};

use crate::flow::Place;
use crate::flows::Flow;
use jo_ids::BitRow;

/// Makes `found` the set of the nodes to which a path of at least one edge leads from `start`, with no node strictly between
/// that writes the place. Each edge that is reached is looked at once, and each word of `found` once more.
pub fn reach_behind(
    flow: &Flow,
    start: u32,
    stop: Option<Place>,
    found: &mut BitRow,
    queue: &mut [u32],
)
    requires start { start < length flow.now }
    requires found { length found.old ≡ length flow.now }
    requires queue { length queue.old ≡ length flow.now }
    ensures found { AreBehind flow.now stop start found.new }
    ensures queue { length queue.new ≡ length queue.old }
{
    found.clear();
    let end = follow(flow.successors(start), found, queue, 0);
    spread(flow, start, stop, found, queue, end);
}

/// Follows the edges from the first nodes of the queue, and on from each node that they lead to.
fn spread(
    flow: &Flow,
    start: u32,
    stop: Option<Place>,
    found: &mut BitRow,
    queue: &mut [u32],
    end: usize,
)
    requires room { length queue.old ≡ length flow.now }
    requires first { BeginsBehind flow.now start found.old queue.old end }
    ensures found { AreBehind flow.now stop start found.new }
    ensures queue { length queue.new ≡ length queue.old }
{
    let mut done = 0;
    let mut end = end;
    while done < end {
        let node = queue[done];
        end = follow_on(flow, node, stop, found, queue, end);
        done += 1;
    }
}

/// Follows the edges from a node, unless the search stops there.
fn follow_on(
    flow: &Flow,
    node: u32,
    stop: Option<Place>,
    found: &mut BitRow,
    queue: &mut [u32],
    end: usize,
) -> usize
    requires node { node < length flow.now }
    requires found { length found.old ≡ length flow.now }
    requires queue { IsQueueOf found.old queue.old end }
    ensures { FollowsOn flow.now stop node found.old queue.old end found.new queue.new result }
{
    if stops(flow, node, stop) {
        return end;
    }
    follow(flow.successors(node), found, queue, end)
}

/// Whether the search stops at the node.
fn stops(flow: &Flow, node: u32, stop: Option<Place>) -> bool
    requires { node < length flow.now }
    ensures { IsTrue result ↔ StopsIn flow.now stop node }
{
    match stop {
        None => false,
        Some(place) => flow.writes(node).contains(&place),
    }
}

/// Adds the numbers that are new to the set and behind the queue's end, and gives its new end.
fn follow(numbers: &[u32], found: &mut BitRow, queue: &mut [u32], end: usize) -> usize
    requires inside { All (λ n. n < length found.old) numbers.now }
    requires queue { IsQueueOf found.old queue.old end }
    ensures { Follows numbers.now found.old queue.old end found.new queue.new result }
{
    let mut end = end;
    for number in numbers {
        if found.set(*number) {
            queue[end] = *number;
            end += 1;
        }
    }
    end
}

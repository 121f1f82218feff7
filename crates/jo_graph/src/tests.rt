//! What can be reached in small graphs.
ghost use Rattle.std.specs.Prelude.{◌≡◌, length, IfOk};

use super::*;
use std::test::Fail;

fn graph_of(alloc: Global, len: u32, edges: &[(u32, u32)]) -> Result<Digraph, Memory>
    ensures { IfOk result (λ graph. length graph ≡ len) }
{
    let mut graph = Digraph::new(alloc, len)?;
    for (a, b) in edges {
        if *a < len && *b < len {
            graph.add(*a, *b)?;
        }
    }
    Ok(graph)
}

/// The numbers to which a path leads from the start, in order.
fn reached(alloc: Global, len: u32, edges: &[(u32, u32)], start: u32) -> Result<Vec<u32>, Memory> {
    let graph = graph_of(alloc, len, edges)?;
    let mut found = BitRow::with_len(alloc, len)?;
    let mut work = Work::with_len(alloc, len)?;
    if start < len {
        graph.reach(start, &mut found, &mut work);
    }
    let mut numbers = Vec::new(alloc);
    for number in 0..found.len() {
        if found.has(number) {
            numbers.push(number)?;
        }
    }
    Ok(numbers)
}

#[test]
fn a_cycle_reaches_itself(rt: HostRuntime) -> Result<(), Fail> {
    let edges = [(0, 1), (1, 2), (2, 0), (3, 0)];
    assert_eq!(rt;
        reached(rt.alloc(), 4, &edges, 1)?.as_slice(),
        [0, 1, 2].as_slice()
    );
    assert_eq!(rt;
        reached(rt.alloc(), 4, &edges, 3)?.as_slice(),
        [0, 1, 2, 3].as_slice()
    );
    Ok(())
}

#[test]
fn a_diamond_is_reached_once(rt: HostRuntime) -> Result<(), Fail> {
    let edges = [(0, 1), (0, 2), (1, 3), (2, 3), (2, 3), (3, 5)];
    assert_eq!(rt;
        reached(rt.alloc(), 6, &edges, 0)?.as_slice(),
        [0, 1, 2, 3, 5].as_slice()
    );
    assert_eq!(rt;
        reached(rt.alloc(), 6, &edges, 2)?.as_slice(),
        [2, 3, 5].as_slice()
    );
    assert_eq!(rt;
        reached(rt.alloc(), 6, &edges, 4)?.as_slice(),
        [4].as_slice()
    );
    Ok(())
}

#[test]
fn a_long_path_is_reached_to_its_end(rt: HostRuntime) -> Result<(), Fail> {
    let mut edges = Vec::new(rt.alloc());
    for number in 0..199 {
        edges.push((number, number + 1))?;
    }
    assert_eq!(rt; reached(rt.alloc(), 200, edges.as_slice(), 0)?.len(), 200);
    assert_eq!(rt; reached(rt.alloc(), 200, edges.as_slice(), 130)?.len(), 70);
    Ok(())
}

// The table of nodes: a node and a path that are put in, and what a log stores of them.
use bit_field::Bits;
use merkle_nodes::Node;
use node_set::{Fresh, Nodes};
use outside_traits::Memory;
use std::alloc::Global;

fn node(index: u64) -> Node {
    Node {
        index,
        size: 1,
        hash: [0; 32],
    }
}

// Of the nodes 0, 4, 3 and 10, which are stored for seven blocks of which two are held.
fn stored(alloc: Global) -> Result<[bool; 4], Memory> {
    let mut nodes = Nodes::new(alloc);
    nodes.put(alloc, &node(0))?;
    nodes.put(alloc, &node(4))?;
    let mut fresh = Fresh::new(Node::BLANK);
    fresh.push(node(3));
    fresh.push(node(10));
    nodes.insert_path(alloc, &fresh)?;
    let mut held = Bits::new(alloc, 7)?;
    held.set_range(0, 2);
    nodes.prune(7, &held);
    Ok([
        nodes.get(0).is_some(),
        nodes.get(4).is_some(),
        nodes.get(3).is_some(),
        nodes.get(10).is_some(),
    ])
}

#[test]
fn nodes_that_are_stored(rt: HostRuntime) {
    assert!(rt; stored(rt.alloc()) == Ok([true, false, true, false]));
}

// The nodes of way 3's store of 32-bit numbers, one at a time. Place 0 holds the first node's number; node j has its level, count, guide sum and next
// node at 4j - 3, 4j - 2, 4j - 1 and 4j. Node 0 stands for the start: its next is place 0, so the first node is linked like any other.
// Nodes are indices and not boxes, since the caller in C lends the store: there is no heap.
#![tactic(auto)]

ghost use Rattle.std.specs.Prelude.{◌≡◌, true, false, ◌+◌, ◌*◌, ◌<◌, ◌≤◌, length};
ghost use Rattle.chain_nodes.specs.Nodes.{node_level, node_pixels, node_guides, raised, lowered, linked, unlinked, freed};

use spec::{Guide, Level};

// The free list: its head and its length.
#[derive(Clone, Copy)]
pub struct FreeList {
    pub head: u32,
    pub count: u32,
}

// The place of a node's next.
pub fn place(node: u32) -> usize
    ensures { result ≡ 4 * node }
{
    4 * node as usize
}

// Whether the node is there and has the level.
pub fn holds(nodes: &[u32], node: u32, level: Level) -> bool
    requires { 4 * node < length nodes.now }
    ensures { (result ≡ true → (0 < node) × (node_level nodes.now node ≡ level.0))
        × (result ≡ false → 0 < node → node_level nodes.now node ≡ level.0 → ⊥) }
{
    node != 0 && nodes[place(node) - 3] == u32::from(level.0)
}

// One pixel more at the node.
#[tactic(auto, unfolding(crate::specs::Nodes::raised))]
pub fn raise(nodes: &mut [u32], node: u32, guide: Guide)
    requires node_nonzero { (0 < node) × (4 * node < length nodes.old) }
    requires node_bound { (node_pixels nodes.old node < 4294967295) × (node_guides nodes.old node + guide.0 < 4294967296) }
    ensures { nodes.new ≡ raised node guide.0 nodes.old }
{
    let at = place(node);
    nodes[at - 2] += 1;
    nodes[at - 1] += u32::from(guide.0);
}

// One pixel less at the node.
#[tactic(auto, unfolding(crate::specs::Nodes::lowered))]
pub fn lower(nodes: &mut [u32], node: u32, guide: Guide)
    requires node_nonzero { (0 < node) × (4 * node < length nodes.old) }
    requires node_nonzero_2 { (0 < node_pixels nodes.old node) × (guide.0 ≤ node_guides nodes.old node) }
    ensures { nodes.new ≡ lowered node guide.0 nodes.old }
{
    let at = place(node);
    nodes[at - 2] -= 1;
    nodes[at - 1] -= u32::from(guide.0);
}

// The node comes after `prev`, with one pixel.
#[tactic(auto, unfolding(crate::specs::Nodes::linked))]
pub fn link(nodes: &mut [u32], prev: u32, node: u32, level: Level, guide: Guide)
    requires { (0 < node) × (4 * node < length nodes.old) × (4 * prev < length nodes.old) }
    ensures { nodes.new ≡ linked prev node level.0 guide.0 nodes.old }
{
    let before = place(prev);
    let at = place(node);
    let next = nodes[before];
    nodes[at - 3] = u32::from(level.0);
    nodes[at - 2] = 1;
    nodes[at - 1] = u32::from(guide.0);
    nodes[at] = next;
    nodes[before] = node;
}

// The node, which comes after `prev`, becomes the head of the free list.
#[tactic(auto, unfolding(crate::specs::Nodes::unlinked))]
pub fn unlink(nodes: &mut [u32], prev: u32, node: u32, head: u32, rank: u32)
    requires { (0 < node) × (4 * node < length nodes.old) × (4 * prev < length nodes.old) }
    ensures { nodes.new ≡ unlinked prev node head rank nodes.old }
{
    let before = place(prev);
    let at = place(node);
    nodes[before] = nodes[at];
    nodes[at - 3] = rank;
    nodes[at - 2] = 0;
    nodes[at] = head;
}

// The node is free, and stands before the next lower one in the free list.
#[tactic(auto, unfolding(crate::specs::Nodes::freed))]
pub fn free_node(nodes: &mut [u32], node: u32)
    requires { (0 < node) × (4 * node < length nodes.old) }
    ensures { nodes.new ≡ freed node nodes.old }
{
    let at = place(node);
    nodes[at - 3] = node;
    nodes[at - 2] = 0;
    nodes[at] = node - 1;
}

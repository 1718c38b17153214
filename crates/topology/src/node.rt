// One node: what it is at first, its CPUs, and its place in the tree.
// Words and node are two parameters throughout: a function asks one node of the lent words, so a struct of both would be made at each call, and clauses would name
// both its fields.
ghost use Rattle.std.specs.Prelude.{◌≡◌};
ghost use Rattle.topology.specs.Node.{new_node, put_node, new_root, add_child, has_children, has_cpus, contains_at, put_cpu, set_cpu, first_of, end_of};

use crate::cpuset::{MAX_CPU_ID, bit, set_bit};
use crate::words::{NodeWords, WORDS, put_word, word};

// The words of a node. CHILDREN: 1 if it has children. FIRST and END: its CPUs are numbered from FIRST to below END. NEXT and PREV:
// a ring of all nodes in post-order, children before their parent; the root's NEXT is the first of all. SET: sixteen words, the CPUs on it or below it.
pub const LEVEL_TYPE: usize = 0;

pub const PARENT: usize = 1;

pub const CHILDREN: usize = 2;

pub const FIRST: usize = 3;

pub const END: usize = 4;

pub const NEXT: usize = 5;

pub const PREV: usize = 6;

pub const SET: usize = 16;

// The first CPU of a node that has none, as its word holds it.
pub const NO_CPU: u64 = u64::MAX;

// The type System.
pub const SYSTEM: u64 = 0;

// A node without children and CPUs, between two in the order of a search. Its type is an operand as it came in, a number as in its word.
#[tactic(auto, unfolding(crate::specs::Node::new_node))]
pub fn new_node(level_type: u64, parent: u64, prev: u64, next: u64) -> NodeWords
    ensures { result ≡ new_node level_type parent prev next }
{
    let mut row = [0; WORDS];
    row[LEVEL_TYPE] = level_type;
    row[PARENT] = parent;
    row[FIRST] = NO_CPU;
    row[NEXT] = next;
    row[PREV] = prev;
    row
}

// The words of a node stored; nothing past the end of the slice.
#[tactic(auto, unfolding(crate::specs::Node::put_node))]
pub fn put_node(nodes: &mut [NodeWords], n: u64, row: NodeWords)
    ensures { nodes.new ≡ put_node nodes.old n row }
{
    // The length is asked, since `get_mut` does not say what the slice becomes.
    let i = n as usize;
    if i < nodes.len() {
        nodes[i] = row;
    }
}

// Node 0, the root, alone.
#[tactic(auto, unfolding(crate::specs::Node::new_root))]
pub fn new_root(nodes: &mut [NodeWords])
    ensures { nodes.new ≡ new_root nodes.old }
{
    put_node(nodes, 0, new_node(SYSTEM, 0, 0, 0));
}

// Node n becomes the new last child of the parent: a search meets it just before its parent. Its type is a number, as in `new_node`.
#[tactic(auto, unfolding(crate::specs::Node::add_child, crate::specs::Node::linked))]
pub fn add_child(nodes: &mut [NodeWords], n: u64, parent: u64, level_type: u64)
    ensures { nodes.new ≡ add_child nodes.old n parent level_type }
{
    let prev = word(nodes, parent, PREV);
    put_node(nodes, n, new_node(level_type, parent, prev, parent));
    put_word(nodes, prev, NEXT, n);
    put_word(nodes, parent, PREV, n);
    put_word(nodes, parent, CHILDREN, 1);
}

#[tactic(auto, unfolding(crate::specs::Node::has_children))]
pub fn has_children(nodes: &[NodeWords], n: u64) -> bool
    ensures { result ≡ has_children nodes.now n }
{
    0 < word(nodes, n, CHILDREN)
}

// Has it CPUs of its own, not below it?
#[tactic(auto, unfolding(crate::specs::Node::has_cpus))]
pub fn has_cpus(nodes: &[NodeWords], n: u64) -> bool
    ensures { result ≡ has_cpus nodes.now n }
{
    !has_children(nodes, n) && 0 < word(nodes, n, END)
}

// Is the CPU on the node or below it? Asked of the words themselves, as in `put_cpu`.
#[tactic(auto, unfolding(crate::specs::Node::contains_at, crate::specs::CpuSet::max_cpu_id))]
pub fn contains(nodes: &[NodeWords], n: u64, cpu: u64) -> bool
    ensures { result ≡ contains_at nodes.now n cpu }
{
    cpu < MAX_CPU_ID && bit(word(nodes, n, SET + (cpu / 64) as usize), cpu)
}

// The CPUs of a node are from `first` to below `end`, and below the limit.
#[tactic(auto, unfolding(crate::specs::Node::first_of, crate::specs::Words::word))]
pub fn first(nodes: &[NodeWords], n: u64) -> u64
    ensures { result ≡ first_of nodes.now n }
{
    word(nodes, n, FIRST)
}

#[tactic(auto, unfolding(crate::specs::Node::end_of, crate::specs::Node::lesser))]
pub fn end(nodes: &[NodeWords], n: u64, limit: u64) -> u64
    ensures { result ≡ end_of nodes.now n limit }
{
    word(nodes, n, END).min(limit)
}

// A CPU put on one node. The set is sixteen of the node's words: a `CpuSet` would be copied out of them and in again.
#[tactic(auto, unfolding(crate::specs::Node::put_cpu, crate::specs::CpuSet::max_cpu_id, crate::specs::Node::lesser, crate::specs::Node::greater))]
pub fn put_cpu(nodes: &mut [NodeWords], n: u64, cpu: u64)
    ensures { nodes.new ≡ put_cpu nodes.old n cpu }
{
    if cpu < MAX_CPU_ID {
        let w = SET + (cpu / 64) as usize;
        let bits = set_bit(word(nodes, n, w), cpu);
        let first = word(nodes, n, FIRST).min(cpu);
        let end = word(nodes, n, END).max(cpu + 1);
        put_word(nodes, n, w, bits);
        put_word(nodes, n, FIRST, first);
        put_word(nodes, n, END, end);
    }
}

// A CPU put on a node and all nodes above.
#[tactic(auto, using(crate::specs::Node::length_put_cpu, crate::specs::Node::set_cpu_turn), unfolding(crate::specs::Node::set_cpu, crate::specs::Node::set_cpu_up))]
pub fn set_cpu(nodes: &mut [NodeWords], node: u64, cpu: u64)
    ensures { nodes.new ≡ set_cpu nodes.old node cpu }
{
    let mut n = node;
    for _i in 0..nodes.len() {
        put_cpu(nodes, n, cpu);
        if n == 0 {
            return;
        }
        n = word(nodes, n, PARENT);
    }
}

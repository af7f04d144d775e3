// The count list: an entry of eight numbers for each node of a table, front to back, each from
// those before it.
#![tactic(auto)]

ghost use Rattle.std.specs.Prelude.{◌≡◌, ◌++◌, ℕ, ◌+◌, ◌*◌, ◌/◌, ◌^◌, ◌<◌, ◌≤◌, IfSome, length, drop};
ghost use Rattle.node.specs.Nodes.{nodes_in};
ghost use Rattle.node.specs.Steps.{Fillable, NextOf};
ghost use Rattle.entries.specs.CountList.{input_number, numbers_of, entry_from, tree_numbers, node_numbers, OperandsListed};

use entry::{Entry, Tally};
use node::nodes::{Node, node_at};

// The entry whose first number has index at.
#[tactic(auto, using(crate::proofs::CountListLaws::input_found))]
pub fn get_entry(counts: &[u64], at: usize) -> Entry
    requires { at + 8 ≤ length counts.now }
    ensures { result ≡ entry_from counts.now at }
{
    Entry {
        gates: Tally {
            built: counts[at],
            undone: counts[at + 1],
        },
        toffolis: Tally {
            built: counts[at + 2],
            undone: counts[at + 3],
        },
        held: counts[at + 4],
        lines: counts[at + 5],
        input: counts[at + 6].checked_sub(1),
    }
}

// An input as the list has it: 1 more than its number, and 0 for none. The list is lent, and has
// numbers only.
#[tactic(auto, unfolding(crate::specs::CountList::input_number))]
fn input_number(input: Option<u64>) -> u64
    requires { IfSome input (λ j. j < 2 ^ 16) }
    ensures { result ≡ input_number input }
{
    match input {
        Some(j) => 1 + j,
        None => 0,
    }
}

// An entry's eight numbers.
#[tactic(auto, unfolding(crate::specs::CountList::numbers_of))]
fn numbers_of(e: Entry) -> [u64; 8]
    requires { IfSome e.input (λ j. j < 2 ^ 16) }
    ensures { result ≡ numbers_of e }
{
    let input = input_number(e.input);
    [
        e.gates.built,
        e.gates.undone,
        e.toffolis.built,
        e.toffolis.undone,
        e.held,
        e.lines,
        input,
        0,
    ]
}

// A node's entry, where counts has those of the nodes before it.
fn next_entry(node: Node, counts: &[u64]) -> Entry
    requires { OperandsListed counts.now node }
    ensures counts { NextOf tree_numbers node counts.now (numbers_of result) }
    ensures small_input { IfSome result.input (λ j. j < 2 ^ 16) }
{
    match node {
        Node::Zero => Entry::leaf(0, None),
        Node::One => Entry::leaf(1, None),
        Node::Input(j) => Entry::leaf(1, Some(j as u64)),
        Node::Not(a) => get_entry(counts, 8 * (a as usize)).negated(),
        Node::Xor(a, b) => {
            let x = get_entry(counts, 8 * (a as usize));
            x.xor(get_entry(counts, 8 * (b as usize)))
        }
        Node::And(marked, a, b) => {
            let x = get_entry(counts, 8 * (a as usize));
            x.and(marked, get_entry(counts, 8 * (b as usize)))
        }
    }
}

// Stores the entry of each node of a node body, in ascending order; each node is looked at once.
// Not by filling::fill, which keeps one item a node: the lent list has eight numbers a node, and of
// what as_chunks_mut makes of it std does not say how it leaves the list.
pub fn fill_entries(nodes: &[u8], counts: &mut [u64])
    requires { (n : ℕ) × Fillable n nodes.now (length counts.old / 8) }
    ensures { counts.new ≡ node_numbers (nodes_in nodes.now) ++ drop (8 * (length nodes.now / 6)) counts.old }
{
    for i in 0..nodes.len() / 6 {
        let at = 8 * i;
        let entry = next_entry(node_at(nodes, i), &counts[..at]);
        counts[at..at + 8].copy_from_slice(&numbers_of(entry));
    }
}

// How many gates and work lines the construction takes, counted before anything is written.
#![tactic(auto)]

ghost use Rattle.node.specs.Exprs.{size};
ghost use Rattle.program.specs.Tables.{tree_in, trees_in};
ghost use Rattle.counting.specs.Counters.{Countable, CountRoom, Counted, AllCountable, Needed};

use controls::input_of;
use counter::{ONE_GATE, count_cleaning, count_own, free_lines, shown_gates, take_line};
use node::nodes::{Node, node_at};
use pool::LINE_NUMBERS;
use program::reader::output_at;

// A circuit's numbers: its gates, as shown, and the most work lines that any output takes.
#[derive(Clone, Copy)]
pub struct Needs {
    pub gates: usize,
    pub lines: usize,
}

// Counts node i from how far counting has come, where one gate on its own line counts own: 1 where
// it is an output's, which is not undone, and else 2. Calls itself on the operands, whose indices
// are lower, but for an AND's inputs. The state is one number: behind `&mut` a struct made counting
// large XORs 7 to 9 in a hundred slower (counter).
pub fn count(nodes: &[u8], i: usize, own: usize, state: usize) -> usize
    requires { Countable nodes.now i × CountRoom (size (tree_in nodes.now i)) own state }
    ensures { Counted (tree_in nodes.now i) own state result }
{
    let node = node_at(nodes, i);
    match node {
        Node::Zero => state,
        Node::One => count_own(state, own),
        Node::Input(_) => count_own(state, own),
        Node::Not(a) => count(nodes, a as usize, own, count_own(state, own)),
        Node::Xor(a, b) => {
            let first = count(nodes, a as usize, own, state);
            count(nodes, b as usize, own, first)
        }
        Node::And(marked, a, b) => {
            let mut made = state;
            if input_of(nodes, a as usize).is_none() {
                made = count(nodes, a as usize, 2, take_line(made));
            }
            if input_of(nodes, b as usize).is_none() {
                made = count(nodes, b as usize, 2, take_line(made));
            }
            if marked {
                made = count_cleaning(state, made);
            }
            count_own(made, own)
        }
    }
}

// Counts the shares of all outputs.
pub fn count_shares(nodes: &[u8], outputs: &[u8]) -> Needs
    requires { AllCountable nodes.now outputs.now }
    ensures { Needed (trees_in nodes.now outputs.now) result }
{
    let mut state = 0;
    for k in 0..outputs.len() / 2 {
        state = count(nodes, output_at(outputs, k), 1, free_lines(state));
    }
    Needs {
        gates: shown_gates(state / ONE_GATE),
        lines: state / LINE_NUMBERS % LINE_NUMBERS,
    }
}

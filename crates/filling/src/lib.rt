// A list with an item for each node of a table, front to back, each from those before it.
#![tactic(auto)]

ghost use Rattle.std.specs.Prelude.{◌≡◌, ◌++◌, ℕ, ◌/◌, length, map, drop};
ghost use Rattle.node.specs.Exprs.{Expr};
ghost use Rattle.node.specs.Nodes.{nodes_in};
ghost use Rattle.node.specs.Steps.{Fillable};
ghost use Rattle.node.specs.Trees.{trees};
ghost use Rattle.filling.specs.Filling.{Listed, ItemOf};

use node::nodes::{Node, node_at};

// A fold over trees: an item for each, made from the items of its operands.
pub trait Fold {
    type Item: Copy;

    // the item of a tree
    ghost of: { Self → Expr → Self.Item };

    // how many inputs a table may have
    ghost over: { Self → ℕ → Type 0 };

    // The item of a node's tree, where items has those of the nodes before it.
    fn item(&self, node: Node, items: &[Self::Item]) -> Self::Item
        requires { (n : ℕ) × over self.now n × Listed (of self.now) n items.now node }
        ensures { ItemOf (of self.now) items.now node result };
}

// Stores the item of each node of a node body at the node's index, each made once.
pub fn fill<F: Fold>(fold: &F, nodes: &[u8], list: &mut [F::Item])
    requires { (n : ℕ) × F.over fold.now n × Fillable n nodes.now (length list.old) }
    ensures { list.new ≡ map (F.of fold.now) (trees (nodes_in nodes.now)) ++ drop (length nodes.now / 6) list.old }
{
    for i in 0..nodes.len() / 6 {
        list[i] = fold.item(node_at(nodes, i), &list[..i]);
    }
}

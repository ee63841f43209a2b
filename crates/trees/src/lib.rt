// Number 1, children and leaves. A configuration is lent, and not copied to look at its tree. Every public function is total and
// promises its definition of crate rules.
#![tactic(auto)]

ghost use Rattle.std.specs.Prelude.{◌≡◌, get_or};
ghost use Rattle.words.specs.Vocab.{all};
ghost use Rattle.rules.specs.Codes.{node_limit};
ghost use Rattle.rules.specs.Tree.{parent_by, parent_ok, tree_ok, child_by, is_child, is_leaf};

use loops::nodes::{all_nodes, any_node};
use rules::State;

// What stands at k, and 0 past the end. On a slice, since a lent array does not tell its length.
pub fn at(list: &[u8], k: usize) -> u8
    ensures { result ≡ get_or list.now k 0 }
{
    list.get(k).copied().unwrap_or(0)
}

pub fn parent_of(parents: &[u8; State::NODES], k: usize) -> u8
    ensures { result ≡ get_or parents.now k 0 }
{
    at(parents, k)
}

// "a parent not smaller than its node": nothing is asked of the root or beyond the last node
fn parent_by(count: u8, p: u8, k: u8) -> bool
    ensures { result ≡ parent_by count p k }
{
    (k == 0) | (count <= k) | (p < k)
}

fn parents_ok(count: u8, parents: &[u8; State::NODES]) -> bool
    ensures { result ≡ all (parent_ok count parents.now) node_limit }
{
    all_nodes(|k| parent_by(count, parents[k.at], k.number()))
}

// "node count not 2..16, or, from node 1 upward, a parent not smaller than its node". No test leaves early, which lets the
// compiler put it into its callers.
#[tactic(auto, unfolding(rules::specs::Tree::tree_ok))]
pub fn tree_ok(count: u8, parents: &[u8; State::NODES]) -> bool
    ensures { result ≡ tree_ok count parents.now }
{
    (State::LEAST <= count) & (usize::from(count) <= State::NODES) & parents_ok(count, parents)
}

// k is a node of the tree other than the root, and x is its parent p
#[tactic(auto, unfolding(rules::specs::Tree::child_by))]
pub fn child_by(count: u8, p: u8, x: u8, k: u8) -> bool
    ensures { result ≡ child_by count p x k }
{
    (k < count) & (k != 0) & (p == x)
}

pub fn is_child(s: &State, x: u8, k: u8) -> bool
    ensures { result ≡ is_child s.now x k }
{
    let p = parent_of(&s.parents, usize::from(k));
    child_by(s.count, p, x, k)
}

// "A leaf has no child."
#[tactic(auto, unfolding(rules::specs::Tree::leaf_in))]
pub fn is_leaf(s: &State, x: u8) -> bool
    ensures { result ≡ is_leaf s.now x }
{
    !any_node(|k| child_by(s.count, s.parents[k.at], x, k.number()))
}

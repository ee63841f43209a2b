// Which nodes are leaves, for all nodes at once.
ghost use Rattle.std.specs.Prelude.{◌≡◌, ◌<◌, ◌&&◌, ℕ, false, get_or, not};
ghost use Rattle.rules.specs.Codes.{node_limit};
ghost use Rattle.rules.specs.Tree.{is_child, is_leaf};

use rules::{Index, State};

// Node k is looked at: its parent is struck off the leaves.
#[tactic(auto, unfolding(rules::specs::Tree::child_by))]
fn strike(s: &State, k: Index, flags: &mut [bool; State::NODES])
    ensures { (x : ℕ) → x < node_limit → get_or flags.new x false ≡ (get_or flags.old x false && not (is_child s.now x k.at)) }
{
    let p = usize::from(s.parents[k.at]);
    if (k.at < usize::from(s.count)) & (k.at != 0) & (p < State::NODES) {
        flags[p] = false;
    }
}

// One look at each node, where `is_leaf` looks at all of them for one.
#[tactic(auto, using(words::proofs::Meeting::any_start, crate::proofs::Flags::none_more), unfolding(rules::specs::Tree::leaf_in))]
pub fn leaf_flags(s: &State) -> [bool; State::NODES]
    ensures { (x : ℕ) → x < node_limit → get_or result x false ≡ is_leaf s.now x }
{
    let mut flags = [true; State::NODES];
    for at in 0..State::NODES {
        strike(s, Index { at }, &mut flags);
    }
    flags
}

// A test at each place of the arrays: nodes of the tree, and those beyond the last.
ghost use Rattle.std.specs.Prelude.{◌≡◌, Bool, ℕ};
ghost use Rattle.words.specs.Vocab.{all, any};
ghost use Rattle.rules.specs.Codes.{node_limit};
ghost use Rattle.rules.specs.declared.Index.{Index};
ghost use Rattle.loops.specs.Tests.{IsNodeTest};

use rules::{Index, State};

// The test holds at each node.
#[tactic(auto, using(words::proofs::Meeting::scans))]
pub fn all_nodes<F: Fn(Index) -> bool>(test: F) -> bool
    requires { (x : Index) → F.pre test x }
    ensures { (p : ℕ → Bool) → IsNodeTest (F.post test) p → result ≡ all p node_limit }
{
    let mut ok = true;
    for at in 0..State::NODES {
        ok &= test(Index { at });
    }
    ok
}

// The test holds at some node.
#[tactic(auto, using(words::proofs::Meeting::scans))]
pub fn any_node<F: Fn(Index) -> bool>(test: F) -> bool
    requires { (x : Index) → F.pre test x }
    ensures { (p : ℕ → Bool) → IsNodeTest (F.post test) p → result ≡ any p node_limit }
{
    let mut some = false;
    for at in 0..State::NODES {
        some |= test(Index { at });
    }
    some
}

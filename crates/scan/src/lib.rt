// Number 2 by its subjects, as specs/Configuration of crate rules has them. A configuration is lent, and no loop leaves early: the
// compiler takes many cells at once.
#![tactic(auto)]

mod leaves;
mod link;
mod node;
mod row;

ghost use Rattle.std.specs.Prelude.{◌≡◌};
ghost use Rattle.rules.specs.Tree.{is_leaf};
ghost use Rattle.rules.specs.Configuration.{stands_at, right_at, configuration_ok};

use leaves::leaf_flags;
use link::{link_ok, slots_empty};
use loops::nodes::all_nodes;
use node::{blank, own_at};
use row::row_at;
use rules::{Index, State};

// Where x stands, with its parent. Of a node of the tree below the root nothing is asked.
#[tactic(auto, unfolding(rules::specs::Configuration::stands_ok))]
fn stands_at(s: &State, x: Index) -> bool
    ensures { result ≡ stands_at s.now x.at }
{
    let inside = x.at < usize::from(s.count);
    ((0 < x.at) & inside)
        || ((s.parents[x.at] == 0)
            & slots_empty(&s.links[x.at])
            & (inside | blank(s.rights[x.at], &s.nodes[x.at])))
}

#[tactic(auto, unfolding(rules::specs::Configuration::right_at))]
fn right_at(s: &State, leaf: bool, x: Index) -> bool
    requires { leaf ≡ is_leaf s.now x.at }
    ensures { result ≡ right_at s.now x.at }
{
    own_at(s, leaf, x) & link_ok(&s.links[x.at]) & stands_at(s, x) & row_at(s, x)
}

// No clause of the list is broken.
#[tactic(auto, unfolding(rules::specs::Configuration::configuration_ok))]
pub fn configuration_ok(s: &State) -> bool
    ensures { result ≡ configuration_ok s.now }
{
    let flags = leaf_flags(s);
    all_nodes(|x| right_at(s, flags[x.at], x))
}

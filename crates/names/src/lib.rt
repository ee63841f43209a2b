// The name of a node. Every public function is total and promises its definition of crate rules.
#![tactic(auto)]

ghost use Rattle.std.specs.Prelude.{◌≡◌};
ghost use Rattle.rules.specs.Names.{named, some_entry};

use choices::name::name_of;
use loops::nodes::any_node;
use rules::codes::Entry;
use rules::{Index, State};
use trees::at;

#[tactic(auto, unfolding(rules::specs::Names::some_in))]
fn some_in_row(s: &State, x: Index, e: u8) -> bool
    ensures { result ≡ some_entry s.now x.at e }
{
    any_node(|k| s.entries[x.cell(k)] == e)
}

// Some entry of the row of x is e; past the last row all are None.
pub fn some_entry(s: &State, x: usize, e: u8) -> bool
    ensures { result ≡ some_entry s.now x e }
{
    if x < State::NODES {
        return some_in_row(s, Index { at: x }, e);
    }
    at(&s.entries, State::CELLS) == e
}

// The name of node x; beyond the node limit it is N, as of a node with no rights.
pub fn named(s: &State, x: u8) -> u8
    ensures { result ≡ named s.now x }
{
    let i = x as usize;
    let trunks = some_entry(s, i, Entry::TRUNK);
    let branches = some_entry(s, i, Entry::BRANCH);
    name_of(at(&s.rights, i), trunks, branches)
}

// Tests on the row of a node in the entries and in the sets.
ghost use Rattle.std.specs.Prelude.{◌≡◌};
ghost use Rattle.rules.specs.Names.{no_entries, no_other_entries, member_in, sets_empty};

use loops::nodes::{all_nodes, any_node};
use rules::codes::Entry;
use rules::{Index, State};

// All entries of the row of x are None.
#[tactic(auto, unfolding(rules::specs::Names::none_in))]
pub fn no_entries(s: &State, x: Index) -> bool
    ensures { result ≡ no_entries s.now x.at }
{
    all_nodes(|k| s.entries[x.cell(k)] == Entry::NONE)
}

// The same of all but that of q.
#[tactic(auto, unfolding(rules::specs::Names::others_none_in))]
pub fn no_other_entries(s: &State, x: Index, q: Index) -> bool
    ensures { result ≡ no_other_entries s.now x.at q.at }
{
    all_nodes(|k| (k.at == q.at) | (s.entries[x.cell(k)] == Entry::NONE))
}

#[tactic(auto, unfolding(rules::specs::Names::member_in))]
fn has_member(set: &[bool; State::CELLS], x: Index) -> bool
    ensures { result ≡ member_in set.now x.at }
{
    any_node(|k| set[x.cell(k)])
}

// "both sets empty"
pub fn sets_empty(s: &State, x: Index) -> bool
    ensures { result ≡ sets_empty s.now x.at }
{
    !has_member(&s.to_probe, x) & !has_member(&s.pending, x)
}

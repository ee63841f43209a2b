// A pair of a node and a possible child, and a node's row of them.
ghost use Rattle.std.specs.Prelude.{◌≡◌};
ghost use Rattle.rules.specs.Configuration.{pair_ok, pair_at, row_at};

use loops::nodes::all_nodes;
use rules::codes::{Entry, Rights};
use rules::{Index, State};
use trees::is_child;

// "an entry, set member .. that isn't a child of that node; an entry not None at rights N; a Trunk entry at rights other than Tip"
#[tactic(auto, unfolding(rules::specs::Configuration::pair_ok, rules::specs::Configuration::member_ok, rules::specs::Configuration::entry_ok))]
fn pair_ok(r: u8, child: bool, e: u8, listed: bool, waits: bool) -> bool
    ensures { result ≡ pair_ok r child e listed waits }
{
    ((e <= Entry::TRUNK) & (child | ((e == Entry::NONE) & !listed & !waits)))
        & (((e == Entry::NONE) | (r != Rights::N)) & ((e != Entry::TRUNK) | (r == Rights::TIP)))
}

fn pair_at(s: &State, x: Index, k: Index) -> bool
    ensures { result ≡ pair_at s.now x.at k.at }
{
    let cell = x.cell(k);
    pair_ok(
        s.rights[x.at],
        is_child(s, x.number(), k.number()),
        s.entries[cell],
        s.to_probe[cell],
        s.pending[cell],
    )
}

pub fn row_at(s: &State, x: Index) -> bool
    ensures { result ≡ row_at s.now x.at }
{
    all_nodes(|k| pair_at(s, x, k))
}

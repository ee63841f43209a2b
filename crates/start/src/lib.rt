// The configuration at reset, the all-zero record of a bad tree, and refusals. Every public function is total and promises its
// definition of crate rules.
#![tactic(auto)]

ghost use Rattle.std.specs.Prelude.{◌≡◌};
ghost use Rattle.rules.specs.Refusals.{reset_said};
ghost use Rattle.rules.specs.Step.{refused, reset_of, tree_parent, tree_parents, start_of, blank_state};

use loops::row;
use rules::codes::Rights;
use rules::{Answer, Link, Node, Refusal, State};
use trees::{parent_of, tree_ok};

// An all-zero record.
pub fn blank_state() -> State
    ensures { result ≡ blank_state }
{
    State {
        count: 0,
        parents: [0; State::NODES],
        rights: [0; State::NODES],
        entries: [0; State::CELLS],
        to_probe: [false; State::CELLS],
        pending: [false; State::CELLS],
        nodes: [Node::default(); State::NODES],
        links: [Link::default(); State::NODES],
    }
}

// A parent of nodes 1 to the last is the caller's; elsewhere it is zero.
#[tactic(auto, unfolding(rules::specs::Step::tree_parent, words::specs::Vocab::choose))]
fn tree_parent(count: u8, parents: &[u8; State::NODES], k: usize) -> u8
    ensures { result ≡ tree_parent count parents.now k }
{
    if k != 0 && k < usize::from(count) {
        parent_of(parents, k)
    } else {
        0
    }
}

#[tactic(auto, unfolding(rules::specs::Step::tree_parents))]
fn tree_parents(count: u8, parents: &[u8; State::NODES]) -> [u8; State::NODES]
    ensures { result ≡ tree_parents count parents.now }
{
    row(|k| tree_parent(count, parents, k))
}

// "root Tip, clean, first value; all others N with value 0; entries None; everything idle and empty"
#[tactic(auto, unfolding(rules::specs::Step::start_of))]
fn start(count: u8, parents: &[u8; State::NODES], first: u64) -> State
    ensures { result ≡ start_of count parents.now first }
{
    let mut s = State {
        count,
        parents: tree_parents(count, parents),
        ..blank_state()
    };
    s.rights[0] = Rights::TIP;
    s.nodes[0].value = first;
    s
}

// "A refusal returns value 0 and the configuration unchanged, bad ones included."
pub fn refused(number: u8, s: State) -> Answer
    ensures { result ≡ refused number s }
{
    Answer {
        number,
        value: 0,
        state: s,
    }
}

// The configuration at reset; a bad tree has none.
#[tactic(auto, unfolding(rules::specs::Step::reset_of, words::specs::Vocab::choose))]
pub fn started(count: u8, parents: [u8; State::NODES], first: u64) -> Result<State, Refusal>
    ensures { reset_said result ≡ reset_of count parents first }
{
    if !tree_ok(count, &parents) {
        return Err(Refusal::BadTree);
    }
    Ok(start(count, &parents, first))
}

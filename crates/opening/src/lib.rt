// The first record of a trail: whether it is good, the tree in it, and reset by it.
#![tactic(auto)]

ghost use Rattle.std.specs.Prelude.{◌≡◌, ◌+◌, ◌≤◌};
ghost use Rattle.rules.specs.Codes.{node_limit};
ghost use Rattle.rules.specs.Refusals.{reset_said};
ghost use Rattle.opening.specs.Opening.{shortest, first_length, first_ok, parents_of, reset_asked, reset_by};

use loops::fill_from;
use octets::limits::{longest_first, reach};
use octets::read::{byte_at, length_at, word_at};
use rules::{Refusal, State};
use start::started;

const SHORTEST: u64 = 9;

// Where the first record starts after its length, the version before it: with the first value in 8 bytes, then the parents.
pub const START: usize = 3;

const PARENTS: usize = START + 8;

// The first record is there, has a length that the version allows, and is whole.
#[tactic(auto, unfolding(crate::specs::Opening::first_ok))]
fn first_ok(version: u8, s: &[u8]) -> bool
    ensures { result ≡ first_ok version s.now }
{
    let limit = reach(s);
    let n = length_at(s, 1);
    START <= limit && SHORTEST <= n && n <= longest_first(version) && n <= (limit - START) as u64
}

// The parents of a tree of n nodes: the root's is 0, the others stand after the first value.
#[tactic(auto, unfolding(crate::specs::Opening::parents_of))]
fn parents(s: &[u8], n: usize) -> [u8; State::NODES]
    requires some { 1 ≤ n }
    requires few { n ≤ node_limit }
    ensures { result ≡ parents_of s.now n }
{
    let mut ps = [0; State::NODES];
    fill_from(&mut ps, 1, n - 1, |k| byte_at(s, PARENTS + k));
    ps
}

// Reset, as a good first record asks for it.
#[tactic(auto, unfolding(crate::specs::Opening::reset_asked))]
fn reset_asked(s: &[u8]) -> Result<State, Refusal>
    requires low { shortest ≤ first_length s.now }
    requires high { first_length s.now ≤ node_limit + 7 }
    ensures { reset_said result ≡ reset_asked s.now }
{
    let count = length_at(s, 1) as usize - 7;
    started(count as u8, parents(s, count), word_at(s, START))
}

// Reset by the first record: one that is not good asks for no tree.
#[tactic(auto, using(crate::proofs::Opened::some_node, crate::proofs::Opened::few_nodes), unfolding(crate::specs::Opening::reset_by, words::specs::Vocab::choose))]
pub fn reset_by(version: u8, s: &[u8]) -> Result<State, Refusal>
    ensures { reset_said result ≡ reset_by version s.now }
{
    if first_ok(version, s) {
        return reset_asked(s);
    }
    started(0, [0; State::NODES], 0)
}

// Printed by tools/print from crates/rules/src/lib.rt: what bytes say, field by field, and whether their flags are flags.
ghost use Rattle.std.specs.Prelude.{◌≡◌, ◌*◌, ◌≤◌};
ghost use Rattle.records.specs.Layout.{state_size};
ghost use Rattle.records.specs.StateBytes.{node_at, link_at, state_of, node_flags_ok, flags_ok};

use crate::layout::Layout;
use loops::{all_below, row};
use octets::read::{byte_at, flag_at, flag_ok, word_at};
use rules::{Link, Node, State};

#[tactic(auto, unfolding(crate::specs::StateBytes::node_at))]
fn node_at(s: &[u8], i: usize) -> Node
    requires { i ≤ 2 * state_size }
    ensures { result ≡ node_at s.now i }
{
    Node {
        dirty: flag_at(s, i),
        value: word_at(s, i + 1),
        phase: byte_at(s, i + 9),
        purpose: byte_at(s, i + 10),
        requester: byte_at(s, i + 11),
        probe: flag_at(s, i + 12),
        cap: byte_at(s, i + 13),
        release: byte_at(s, i + 14),
    }
}

#[tactic(auto, unfolding(crate::specs::StateBytes::link_at))]
fn link_at(s: &[u8], i: usize) -> Link
    requires { i ≤ 2 * state_size }
    ensures { result ≡ link_at s.now i }
{
    Link {
        a: byte_at(s, i),
        b: byte_at(s, i + 1),
        c: byte_at(s, i + 2),
        kept: byte_at(s, i + 3),
        up: word_at(s, i + 4),
        d: byte_at(s, i + 12),
        down: word_at(s, i + 13),
        e: byte_at(s, i + 21),
    }
}

#[tactic(auto, unfolding(crate::specs::StateBytes::state_of, crate::specs::StateBytes::byte_row_at, crate::specs::StateBytes::byte_cells_at, crate::specs::StateBytes::flag_cells_at, crate::specs::StateBytes::node_row_at, crate::specs::StateBytes::link_row_at))]
pub fn state_of(s: &[u8]) -> State
    ensures { result ≡ state_of s.now }
{
    State {
        count: byte_at(s, Layout::COUNT),
        parents: row(|k| byte_at(s, Layout::PARENTS + k)),
        rights: row(|k| byte_at(s, Layout::RIGHTS + k)),
        entries: row(|k| byte_at(s, Layout::ENTRIES + k)),
        to_probe: row(|k| flag_at(s, Layout::TO_PROBE + k)),
        pending: row(|k| flag_at(s, Layout::PENDING + k)),
        nodes: row(|k| node_at(s, Layout::NODES + k * Layout::NODE)),
        links: row(|k| link_at(s, Layout::LINKS + k * Layout::LINK)),
    }
}

#[tactic(auto, unfolding(crate::specs::StateBytes::node_flags_ok))]
fn node_flags_ok(s: &[u8], i: usize) -> bool
    requires { i ≤ 2 * state_size }
    ensures { result ≡ node_flags_ok s.now i }
{
    flag_ok(s, i) & flag_ok(s, i + 12)
}

#[tactic(auto, unfolding(crate::specs::StateBytes::flags_ok, crate::specs::StateBytes::flag_cells_ok, crate::specs::StateBytes::node_row_ok))]
pub fn flags_ok(s: &[u8]) -> bool
    ensures { result ≡ flags_ok s.now }
{
    let to_probe = all_below(State::CELLS, |k| flag_ok(s, Layout::TO_PROBE + k));
    let pending = all_below(State::CELLS, |k| flag_ok(s, Layout::PENDING + k));
    let nodes = all_below(
        State::NODES,
        |k| node_flags_ok(s, Layout::NODES + k * Layout::NODE),
    );
    to_probe & pending & nodes
}

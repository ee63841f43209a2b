// One event, in place on a configuration that its owner lends. Nothing is copied.
#![tactic(auto)]

ghost use Rattle.std.specs.Prelude.{◌≡◌};
ghost use Rattle.rules.specs.Refusals.{answer_said};
ghost use Rattle.rules.specs.Scenes.{scene_of};
ghost use Rattle.rules.specs.Step.{end_of, effect_of};
ghost use Rattle.rules.specs.Table.{kind_of};
ghost use Rattle.parts.specs.Parts.{index_of, end_in, moved_of};

use crate::probes::write_row;
use crate::sets::{no_entries, no_other_entries, sets_empty};
use choices::settle::settled_phase;
use names::some_entry;
use needs::judge::judged;
use rules::codes::Entry;
use rules::kinds::{End, Row};
use rules::{Event, Index, Node, Refusal, Scene, State};
use table::rows::row_of;
use trees::is_leaf;

mod probes;
mod sets;

// An index from a byte: 0 where it is none.
#[tactic(auto, unfolding(crate::specs::Parts::index_of, words::specs::Vocab::choose))]
fn index(k: u8) -> Index
    ensures { result.at ≡ index_of k }
{
    Index::new(k).unwrap_or(Index { at: 0 })
}

// The node at which the event happens.
pub fn node_of(ev: Event) -> Index
    ensures { result.at ≡ index_of ev.node }
{
    index(ev.node)
}

// The number of the node whose link is acted on: that of x itself, or of a child that m or the event names.
#[tactic(auto, unfolding(rules::specs::Step::end_of))]
fn end_number(end: End, m: Node, x: u8, other: u8) -> u8
    ensures { result ≡ end_of end m x other }
{
    match end {
        End::Own => x,
        End::Named => other,
        End::Requester => m.requester,
        End::Noted => m.release,
    }
}

// The node whose link the event acts on; m is the node at which it happens.
#[tactic(auto, unfolding(crate::specs::Parts::end_in))]
pub fn end_of(ev: Event, m: Node) -> Index
    ensures { result.at ≡ end_in ev m }
{
    index(end_number(row_of(ev.kind).end, m, ev.node, ev.other))
}

// What a row sees at node x and on the link of j.
fn scene_at(s: &State, x: Index, j: Index) -> Scene
    ensures { result ≡ scene_of s.now x.at j.at }
{
    let cell = x.cell(j);
    Scene {
        rights: s.rights[x.at],
        node: s.nodes[x.at],
        link: s.links[j.at],
        entry: s.entries[cell],
        to_probe: s.to_probe[cell],
        pending: s.pending[cell],
        leaf: is_leaf(s, x.number()),
        still: sets_empty(s, x),
        bare: no_entries(s, x),
        trunk: some_entry(s, x.at, Entry::TRUNK),
        branch: some_entry(s, x.at, Entry::BRANCH),
        alone: no_other_entries(s, x, j),
    }
}

// The effect w of an accepted event, written at x and j; the node settles.
fn land(s: &mut State, row: Row, ev: Event, v: Scene, w: Scene, x: Index, j: Index)
    requires { row ≡ (kind_of ev.kind).row }
    ensures { s.new ≡ effect_of (kind_of ev.kind) s.old x.at j.at ev v w }
{
    let cell = x.cell(j);
    s.rights[x.at] = w.rights;
    s.pending[cell] = w.pending;
    s.to_probe[cell] = w.to_probe;
    write_row(row.probes, v, ev.other, &s.entries, x, &mut s.to_probe);
    s.entries[cell] = w.entry;
    s.links[j.at] = w.link;
    let still = sets_empty(s, x);
    let phase = settled_phase(row.settles, still, w.node, w.rights);
    s.nodes[x.at] = Node { phase, ..w.node };
}

// The event, at the node and on the link that it names; the answer value, or why it is refused.
#[tactic(auto, using(crate::proofs::Moving::acting))]
pub fn act(s: &mut State, ev: Event) -> Result<u64, Refusal>
    ensures { answer_said result s.new ≡ moved_of s.old ev }
{
    let row = row_of(ev.kind);
    let x = node_of(ev);
    let j = end_of(ev, s.nodes[x.at]);
    let v = scene_at(s, x, j);
    judged(s, row, v, x.number(), j.number(), ev)?;
    let w = table::done(v, ev);
    land(s, row, ev, v, w, x, j);
    Ok(table::said(v, ev.kind))
}

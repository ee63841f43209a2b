// The first of numbers 1, 3, 4 and 5 that applies, if one does.
ghost use Rattle.std.specs.Prelude.{◌≡◌};
ghost use Rattle.needs.specs.Judged.{event_in, turn_in, number_in};
ghost use Rattle.rules.specs.Events.{other_fits, value_fits, place_fits};
ghost use Rattle.rules.specs.Refusals.{number_said};
ghost use Rattle.rules.specs.Step.{link_there};
ghost use Rattle.rules.specs.Table.{is_kind};

use crate::needs_hold;
use rules::kinds::{End, Other, Place, Row, Value};
use rules::{Event, Refusal, Scene, State};
use trees::is_child;

// "kind not 1..19": a number that no row has.
#[tactic(auto, unfolding(rules::specs::Table::listed))]
fn is_kind(kind: u8) -> bool
    ensures { result ≡ is_kind kind }
{
    matches!(
        kind,
        Event::LOAD
            | Event::STORE
            | Event::LOAD_MISS
            | Event::STORE_MISS
            | Event::EVICT
            | Event::SEND_ACQUIRE
            | Event::TAKE_ACQUIRE
            | Event::SEND_PROBE
            | Event::TAKE_PROBE
            | Event::SEND_PROBE_ACK
            | Event::TAKE_PROBE_ACK
            | Event::TAKE_GRANT
            | Event::SEND_GRANT_ACK
            | Event::SEND_GRANT
            | Event::TAKE_GRANT_ACK
            | Event::SEND_RELEASE
            | Event::TAKE_RELEASE
            | Event::SEND_RELEASE_ACK
            | Event::TAKE_RELEASE_ACK
    )
}

// "other not as named"
#[tactic(auto, unfolding(rules::specs::Events::other_fits))]
fn other_fits(other: Other, child: bool, o: u8) -> bool
    ensures { result ≡ other_fits other child o }
{
    match other {
        Other::NoOther => o == 0,
        Other::AChild => child,
        Other::AChoice => o <= Event::SOLE,
    }
}

// "value not 0 where it must be"
#[tactic(auto, unfolding(rules::specs::Events::value_fits))]
fn value_fits(value: Value, x: u64) -> bool
    ensures { result ≡ value_fits value x }
{
    match value {
        Value::NoValue => x == 0,
        Value::AnyValue => true,
    }
}

#[tactic(auto, unfolding(rules::specs::Events::place_fits))]
fn place_fits(place: Place, leaf: bool, x: u8) -> bool
    ensures { result ≡ place_fits place leaf x }
{
    match place {
        Place::Anywhere => true,
        Place::AtLeaf => leaf,
        Place::BelowRoot => x != 0,
        Place::AboveLeaf => !leaf,
    }
}

// The link that a kind acts on is there.
#[tactic(auto, unfolding(rules::specs::Step::link_there))]
fn link_there(end: End, child: bool) -> bool
    ensures { result ≡ link_there end child }
{
    match end {
        End::Own => true,
        End::Named | End::Requester | End::Noted => child,
    }
}

// Number 3, with the row of the kind.
fn event_ok(s: &State, row: Row, ev: Event) -> bool
    ensures { result ≡ event_in s.now row ev }
{
    let child = is_child(s, ev.node, ev.other);
    is_kind(ev.kind)
        && ev.node < s.count
        && other_fits(row.other, child, ev.other)
        && value_fits(row.value, ev.value)
}

// Number 5, at the scene of node x and the link of j.
fn turn_ok(s: &State, row: Row, v: Scene, x: u8, j: u8, ev: Event) -> bool
    ensures { result ≡ turn_in s.now row v x j ev }
{
    link_there(row.end, is_child(s, x, j)) && needs_hold(v, ev)
}

// Number 1 is looked for as far as the arrays reach: a caller whose tree is good pays no more for it.
#[tactic(auto, unfolding(crate::specs::Judged::number_in, rules::specs::Step::first_of, words::specs::Vocab::choose))]
pub fn judged(s: &State, row: Row, v: Scene, x: u8, j: u8, ev: Event) -> Result<(), Refusal>
    ensures { number_said result ≡ number_in s.now row v x j ev }
{
    if usize::from(s.count) > State::NODES {
        return Err(Refusal::BadTree);
    }
    if !event_ok(s, row, ev) {
        return Err(Refusal::BadEvent);
    }
    if !place_fits(row.place, v.leaf, ev.node) {
        return Err(Refusal::WrongPlace);
    }
    if !turn_ok(s, row, v, x, j, ev) {
        return Err(Refusal::OutOfTurn);
    }
    Ok(())
}

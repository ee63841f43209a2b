// The rows of document 01's event table, computed: for each kind its row, what it does at the scene, and what it answers. When its
// needs hold is crate needs. Every public function is total and promises its definition of crate rules.
// An effect writes at the scene that it is lent: what it reads there it reads before it writes over it.
#![tactic(auto)]

ghost use Rattle.std.specs.Prelude.{◌≡◌};
ghost use Rattle.rules.specs.Table.{kind_of};

use rules::{Event, Scene};

mod acquire;
mod grant;
mod local;
mod probe;
mod release;
pub mod rows;
mod scenes;

// The scene after the event's kind; no kind leaves it as it is.
#[tactic(auto, unfolding(rules::specs::Table::numbered, words::specs::Vocab::choose))]
pub fn done(mut v: Scene, ev: Event) -> Scene
    ensures { result ≡ (kind_of ev.kind).does v ev }
{
    match ev.kind {
        Event::LOAD => {}
        Event::STORE => local::store_does(&mut v, ev.value),
        Event::LOAD_MISS => local::load_miss_does(&mut v),
        Event::STORE_MISS => local::store_miss_does(&mut v),
        Event::EVICT => local::evict_does(&mut v),
        Event::SEND_ACQUIRE => acquire::send_acquire_does(&mut v),
        Event::TAKE_ACQUIRE => acquire::take_acquire_does(&mut v, ev.other),
        Event::SEND_PROBE => probe::send_probe_does(&mut v),
        Event::TAKE_PROBE => probe::take_probe_does(&mut v),
        Event::SEND_PROBE_ACK => probe::send_probe_ack_does(&mut v),
        Event::TAKE_PROBE_ACK => probe::take_probe_ack_does(&mut v),
        Event::TAKE_GRANT => grant::take_grant_does(&mut v),
        Event::SEND_GRANT_ACK => grant::send_grant_ack_does(&mut v),
        Event::SEND_GRANT => grant::send_grant_does(&mut v, ev.other),
        Event::TAKE_GRANT_ACK => grant::take_grant_ack_does(&mut v),
        Event::SEND_RELEASE => release::send_release_does(&mut v),
        Event::TAKE_RELEASE => release::take_release_does(&mut v, ev.other),
        Event::SEND_RELEASE_ACK => release::send_release_ack_does(&mut v),
        Event::TAKE_RELEASE_ACK => release::take_release_ack_does(&mut v),
        _ => {}
    }
    v
}

// "The answer value is the load's, else 0."
#[tactic(auto, unfolding(rules::specs::Table::numbered, words::specs::Vocab::choose))]
pub fn said(v: Scene, kind: u8) -> u64
    ensures { result ≡ (kind_of kind).says v }
{
    if kind == Event::LOAD { v.node.value } else { 0 }
}

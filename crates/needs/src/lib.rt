// Whether an event may happen: when the needs of its kind hold, as the rows of document 01's event table have it, and the number of
// a refusal. Every public function is total and promises its definition.
#![tactic(auto)]

ghost use Rattle.std.specs.Prelude.{◌≡◌};
ghost use Rattle.rules.specs.Table.{kind_of};

use rules::{Event, Scene};

mod acquire;
mod grant;
pub mod judge;
mod local;
mod probe;
mod release;
mod scenes;

// The needs of the event's kind hold at the scene; no kind's never do.
#[tactic(auto, unfolding(rules::specs::Table::numbered, words::specs::Vocab::choose))]
pub fn needs_hold(v: Scene, ev: Event) -> bool
    ensures { result ≡ (kind_of ev.kind).needs v ev }
{
    match ev.kind {
        Event::LOAD => local::load_needs(v),
        Event::STORE => local::store_needs(v),
        Event::LOAD_MISS => local::load_miss_needs(v),
        Event::STORE_MISS => local::store_miss_needs(v),
        Event::EVICT => local::evict_needs(v),
        Event::SEND_ACQUIRE => acquire::send_acquire_needs(v),
        Event::TAKE_ACQUIRE => acquire::take_acquire_needs(v),
        Event::SEND_PROBE => probe::send_probe_needs(v),
        Event::TAKE_PROBE => probe::take_probe_needs(v),
        Event::SEND_PROBE_ACK => probe::send_probe_ack_needs(v),
        Event::TAKE_PROBE_ACK => probe::take_probe_ack_needs(v),
        Event::TAKE_GRANT => grant::take_grant_needs(v),
        Event::SEND_GRANT_ACK => grant::send_grant_ack_needs(v),
        Event::SEND_GRANT => grant::send_grant_needs(v, ev.other),
        Event::TAKE_GRANT_ACK => grant::take_grant_ack_needs(v),
        Event::SEND_RELEASE => release::send_release_needs(v),
        Event::TAKE_RELEASE => release::take_release_needs(v, ev.other),
        Event::SEND_RELEASE_ACK => release::send_release_ack_needs(v),
        Event::TAKE_RELEASE_ACK => release::take_release_ack_needs(v),
        _ => false,
    }
}

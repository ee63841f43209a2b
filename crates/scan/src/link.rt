// A link and its five slots.
ghost use Rattle.std.specs.Prelude.{◌≡◌};
ghost use Rattle.rules.specs.Configuration.{up_ok, down_ok, link_ok, slots_empty};

use choices::messages::{carries_down, carries_up, is_probe_ack};
use rules::Link;
use rules::codes::{Message, Rights};

// Slot C with its kept rights and its value.
#[tactic(auto, unfolding(rules::specs::Configuration::up_ok))]
fn up_ok(c: u8, kept: u8, value: u64) -> bool
    ensures { result ≡ up_ok c kept value }
{
    (c <= Message::RELEASE_DATA)
        & (kept <= Rights::B)
        & (is_probe_ack(c) | (kept == 0))
        & (carries_up(c) | (value == 0))
}

// Slot D with its value.
#[tactic(auto, unfolding(rules::specs::Configuration::down_ok))]
fn down_ok(d: u8, value: u64) -> bool
    ensures { result ≡ down_ok d value }
{
    (d <= Message::RELEASE_ACK) & (carries_down(d) | (value == 0))
}

// All that is asked of the five slots of a link.
#[tactic(auto, unfolding(rules::specs::Configuration::link_ok))]
pub fn link_ok(l: &Link) -> bool
    ensures { result ≡ link_ok l.now }
{
    (l.a <= Message::ACQUIRE_U)
        & (l.b <= Message::PROBE_N)
        & up_ok(l.c, l.kept, l.up)
        & down_ok(l.d, l.down)
        & (l.e <= Message::GRANT_ACK)
}

// "a full slot on the root or beyond the last node"
#[tactic(auto, unfolding(rules::specs::Configuration::slots_empty))]
pub fn slots_empty(l: &Link) -> bool
    ensures { result ≡ slots_empty l.now }
{
    (l.a == Message::EMPTY)
        & (l.b == Message::EMPTY)
        & (l.c == Message::EMPTY)
        & (l.d == Message::EMPTY)
        & (l.e == Message::EMPTY)
}

// Kinds 8 to 11: a Probe goes down and its ProbeAck comes up (document 01, "Events").
ghost use Rattle.std.specs.Prelude.{◌≡◌};
ghost use Rattle.rules.specs.Probe.{send_probe_ack_needs, send_probe_needs, take_probe_ack_needs, take_probe_needs};

use choices::messages::is_probe_ack;
use choices::probe::{cap_met, data_fits, serves_probes};
use rules::Scene;
use rules::codes::{Child, Message, Phase};

// 8 send Probe | child in to-probe, its B empty
#[tactic(auto, unfolding(rules::specs::Probe::send_probe_needs))]
pub fn send_probe_needs(v: Scene) -> bool
    ensures { result ≡ send_probe_needs v }
{
    v.to_probe && v.link.b == Message::EMPTY
}

// 9 take Probe | B full, probe idle, sets empty, main Idle, Wait or Leaving
#[tactic(auto, unfolding(rules::specs::Probe::take_probe_needs))]
pub fn take_probe_needs(v: Scene) -> bool
    ensures { result ≡ take_probe_needs v }
{
    v.link.b != Message::EMPTY && !v.node.probe && v.still && serves_probes(v.node.phase)
}

// 10 send ProbeAck | probe open, sets empty, release idle, main not Leaving, C empty; cap N: all entries None; cap B: none Trunk
#[tactic(auto, unfolding(rules::specs::Probe::send_probe_ack_needs))]
pub fn send_probe_ack_needs(v: Scene) -> bool
    ensures { result ≡ send_probe_ack_needs v }
{
    v.node.probe
        && v.still
        && v.node.release == Child::NONE
        && v.node.phase != Phase::LEAVING
        && v.link.c == Message::EMPTY
        && cap_met(v.node.cap, v.bare, v.trunk)
}

// 11 take ProbeAck | C holds one, child pending, kept not above entry; data only from a Trunk entry
#[tactic(auto, unfolding(rules::specs::Probe::take_probe_ack_needs))]
pub fn take_probe_ack_needs(v: Scene) -> bool
    ensures { result ≡ take_probe_ack_needs v }
{
    is_probe_ack(v.link.c) && v.pending && v.link.kept <= v.entry && data_fits(v.link.c, v.entry)
}

// Kinds 8 to 11: a Probe goes down and its ProbeAck comes up (document 01, "Events").
ghost use Rattle.std.specs.Prelude.{◌≡◌};
ghost use Rattle.rules.specs.Probe.{send_probe_ack_does, send_probe_does, take_probe_ack_does, take_probe_does};

use crate::scenes::{empties_c, takes_data, value_at};
use choices::probe::{cap_for, carried, fallen, probe_ack_for};
use rules::Scene;
use rules::codes::{Cap, Message};

// 8 send Probe | cap: the open probe's, else B for load and N otherwise; moves child to pending
#[tactic(auto, unfolding(rules::specs::Probe::send_probe_does))]
pub fn send_probe_does(v: &mut Scene)
    ensures { v.new ≡ send_probe_does v.old }
{
    v.link.b = cap_for(v.node.probe, v.node.cap, v.node.purpose);
    v.to_probe = false;
    v.pending = true;
}

// 9 take Probe | empties B, opens; to-probe: Trunk entries for cap B, all not None for cap N
#[tactic(auto, unfolding(rules::specs::Probe::take_probe_does))]
pub fn take_probe_does(v: &mut Scene)
    ensures { v.new ≡ take_probe_does v.old }
{
    v.node.probe = true;
    v.node.cap = v.link.b;
    v.link.b = Message::EMPTY;
}

// 10 send ProbeAck | rights fall to the cap if above it; kept = new rights; carries the value exactly if dirty; becomes clean; closes
#[tactic(auto, unfolding(rules::specs::Probe::send_probe_ack_does))]
pub fn send_probe_ack_does(v: &mut Scene)
    ensures { v.new ≡ send_probe_ack_does v.old }
{
    v.rights = fallen(v.node.cap, v.rights);
    v.link.c = probe_ack_for(v.node.dirty);
    v.link.kept = v.rights;
    v.link.up = carried(v.node.dirty, v.node.value);
    v.node.value = value_at(v.rights, v.node.value);
    v.node.dirty = false;
    v.node.probe = false;
    v.node.cap = Cap::NONE;
}

// 11 take ProbeAck | empties C; entry becomes kept; data: value set, dirty; leaves pending; settle
#[tactic(auto, unfolding(rules::specs::Probe::take_probe_ack_does))]
pub fn take_probe_ack_does(v: &mut Scene)
    ensures { v.new ≡ take_probe_ack_does v.old }
{
    v.entry = v.link.kept;
    takes_data(v);
    v.pending = false;
    empties_c(v);
}

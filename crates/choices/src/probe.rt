// What kinds 8 to 11 decide: who serves a Probe, whom it is passed on to, and what the ProbeAck says (document 01, "Events").
ghost use Rattle.std.specs.Prelude.{◌≡◌};
ghost use Rattle.rules.specs.Probe.{cap_for, cap_met, cap_rights, carried, data_fits, fallen, probe_ack_for, probed_by, serves_probes};

use crate::messages::from_trunk;
use rules::codes::{Cap, Entry, Message, Phase, Purpose, Rights};

// "cap: the open probe's, else B for load and N otherwise"
#[tactic(auto, unfolding(rules::specs::Probe::cap_for, words::specs::Vocab::choose))]
pub fn cap_for(opened: bool, cap: u8, purpose: u8) -> u8
    ensures { result ≡ cap_for opened cap purpose }
{
    if opened {
        cap
    } else if purpose == Purpose::LOAD {
        Cap::B
    } else {
        Cap::N
    }
}

// "main Idle, Wait or Leaving"
#[tactic(auto, unfolding(rules::specs::Probe::serves_probes, words::specs::Vocab::choose))]
pub fn serves_probes(phase: u8) -> bool
    ensures { result ≡ serves_probes phase }
{
    matches!(phase, Phase::IDLE | Phase::WAIT | Phase::LEAVING)
}

// "Trunk entries for cap B, all not None for cap N"
#[tactic(auto, unfolding(rules::specs::Probe::probed_by, words::specs::Vocab::choose))]
pub fn probed_by(cap: u8, entry: u8) -> bool
    ensures { result ≡ probed_by cap entry }
{
    match cap {
        Cap::B => entry == Entry::TRUNK,
        Cap::N => entry != Entry::NONE,
        _ => false,
    }
}

// "cap N: all entries None; cap B: none Trunk"
#[tactic(auto, unfolding(rules::specs::Probe::cap_met, words::specs::Vocab::choose))]
pub fn cap_met(cap: u8, bare: bool, some_trunk: bool) -> bool
    ensures { result ≡ cap_met cap bare some_trunk }
{
    match cap {
        Cap::N => bare,
        Cap::B => !some_trunk,
        _ => false,
    }
}

// The rights that a cap leaves at most.
#[tactic(auto, unfolding(rules::specs::Probe::cap_rights, words::specs::Vocab::choose))]
pub fn cap_rights(cap: u8) -> u8
    ensures { result ≡ cap_rights cap }
{
    if cap == Cap::B { Rights::B } else { Rights::N }
}

// "rights fall to the cap if above it"
#[tactic(auto, unfolding(rules::specs::Probe::fallen, words::specs::Vocab::choose))]
pub fn fallen(cap: u8, rights: u8) -> u8
    ensures { result ≡ fallen cap rights }
{
    rights.min(cap_rights(cap))
}

// "carries the value exactly if dirty"
#[tactic(auto, unfolding(rules::specs::Probe::carried, words::specs::Vocab::choose))]
pub fn carried(dirty: bool, value: u64) -> u64
    ensures { result ≡ carried dirty value }
{
    if dirty { value } else { 0 }
}

#[tactic(auto, unfolding(rules::specs::Probe::probe_ack_for, words::specs::Vocab::choose))]
pub fn probe_ack_for(dirty: bool) -> u8
    ensures { result ≡ probe_ack_for dirty }
{
    if dirty {
        Message::PROBE_ACK_DATA
    } else {
        Message::PROBE_ACK
    }
}

// "data only from a Trunk entry"
#[tactic(auto, unfolding(rules::specs::Probe::data_fits))]
pub fn data_fits(c: u8, entry: u8) -> bool
    ensures { result ≡ data_fits c entry }
{
    !from_trunk(c) || entry == Entry::TRUNK
}

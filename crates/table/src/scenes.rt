// What several rows do at a scene, as specs/Scenes of crate rules has it.
ghost use Rattle.std.specs.Prelude.{◌≡◌};
ghost use Rattle.rules.specs.Scenes.{becomes_idle, empties_c, empties_d, takes_data, value_at};

use choices::messages::installs;
use rules::Scene;
use rules::codes::{Child, Message, Phase, Purpose, Rights};

// "Idle clears purpose and requester."
pub fn becomes_idle(v: &mut Scene)
    ensures { v.new ≡ becomes_idle v.old }
{
    v.node.phase = Phase::IDLE;
    v.node.purpose = Purpose::NONE;
    v.node.requester = Child::NONE;
}

// "Rights N always set value 0 and clean."
#[tactic(auto, unfolding(rules::specs::Scenes::value_at, words::specs::Vocab::choose))]
pub fn value_at(rights: u8, value: u64) -> u64
    ensures { result ≡ value_at rights value }
{
    if rights == Rights::N { 0 } else { value }
}

// "data: value set, dirty", with what C has: it is not emptied before.
#[tactic(auto, unfolding(rules::specs::Scenes::data_taken, words::specs::Vocab::choose))]
pub fn takes_data(v: &mut Scene)
    ensures { v.new ≡ takes_data v.old.link v.old }
{
    if installs(v.link.c) {
        v.node.value = v.link.up;
        v.node.dirty = true;
    }
}

// The kept rights and the value go with the message.
pub fn empties_c(v: &mut Scene)
    ensures { v.new ≡ empties_c v.old }
{
    v.link.c = Message::EMPTY;
    v.link.kept = Rights::N;
    v.link.up = 0;
}

pub fn empties_d(v: &mut Scene)
    ensures { v.new ≡ empties_d v.old }
{
    v.link.d = Message::EMPTY;
    v.link.down = 0;
}

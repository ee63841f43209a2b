// Kinds 16 to 19: a Release goes up and its ReleaseAck comes down (document 01, "Events").
ghost use Rattle.std.specs.Prelude.{◌≡◌};
ghost use Rattle.rules.specs.Release.{send_release_ack_does, send_release_does, take_release_ack_does, take_release_does};

use crate::scenes::{becomes_idle, empties_c, empties_d, takes_data};
use choices::probe::carried;
use choices::release::release_for;
use rules::Scene;
use rules::codes::{Child, Entry, Message, Phase, Rights};

// 16 send Release | ReleaseData exactly if dirty; rights N; Leaving
#[tactic(auto, unfolding(rules::specs::Release::send_release_does, rules::specs::Scenes::value_at, rules::specs::Scenes::dirty_at, words::specs::Vocab::choose))]
pub fn send_release_does(v: &mut Scene)
    ensures { v.new ≡ send_release_does v.old }
{
    v.link.c = release_for(v.node.dirty);
    v.link.kept = Rights::N;
    v.link.up = carried(v.node.dirty, v.node.value);
    v.rights = Rights::N;
    v.node.value = 0;
    v.node.dirty = false;
    v.node.phase = Phase::LEAVING;
}

// 17 take Release | empties C; entry None; child leaves to-probe, not pending; data: value set, dirty; child noted; settle
#[tactic(auto, unfolding(rules::specs::Release::take_release_does))]
pub fn take_release_does(v: &mut Scene, child: u8)
    ensures { v.new ≡ take_release_does v.old child }
{
    v.entry = Entry::NONE;
    v.to_probe = false;
    takes_data(v);
    v.node.release = child;
    empties_c(v);
}

// 18 send ReleaseAck | closes
#[tactic(auto, unfolding(rules::specs::Release::send_release_ack_does))]
pub fn send_release_ack_does(v: &mut Scene)
    ensures { v.new ≡ send_release_ack_does v.old }
{
    v.link.d = Message::RELEASE_ACK;
    v.link.down = 0;
    v.node.release = Child::NONE;
}

// 19 take ReleaseAck | empties D; Idle
#[tactic(auto, unfolding(rules::specs::Release::take_release_ack_does))]
pub fn take_release_ack_does(v: &mut Scene)
    ensures { v.new ≡ take_release_ack_does v.old }
{
    empties_d(v);
    becomes_idle(v);
}

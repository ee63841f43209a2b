// Kinds 12 to 15: a Grant goes down and its GrantAck comes up (document 01, "Events").
ghost use Rattle.std.specs.Prelude.{◌≡◌};
ghost use Rattle.rules.specs.Grant.{send_grant_ack_does, send_grant_does, take_grant_ack_does, take_grant_does};

use crate::scenes::{becomes_idle, empties_d};
use choices::grant::{grant_for, grant_value, installed};
use choices::messages::{entry_for, granted_rights};
use rules::Scene;
use rules::codes::{Message, Phase};

// 12 take Grant | empties D; B for GrantDataB, else Tip; clean; data installed; Confirm
#[tactic(auto, unfolding(rules::specs::Grant::take_grant_does))]
pub fn take_grant_does(v: &mut Scene)
    ensures { v.new ≡ take_grant_does v.old }
{
    v.rights = granted_rights(v.link.d);
    v.node.dirty = false;
    v.node.value = installed(v.link.d, v.link.down, v.node.value);
    v.node.phase = Phase::CONFIRM;
    empties_d(v);
}

// 13 send GrantAck | a leaf goes Idle, another Give
#[tactic(auto, unfolding(rules::specs::Grant::send_grant_ack_does, rules::specs::Grant::confirmed, words::specs::Vocab::choose))]
pub fn send_grant_ack_does(v: &mut Scene)
    ensures { v.new ≡ send_grant_ack_does v.old }
{
    v.link.e = Message::GRANT_ACK;
    if v.leaf {
        becomes_idle(v);
    } else {
        v.node.phase = Phase::GIVE;
    }
}

// 14 send Grant | load 0: GrantDataB, entry Branch; load 1: GrantDataT, Trunk; store: GrantT if entry Branch, else GrantDataT, then Trunk; Await
#[tactic(auto, unfolding(rules::specs::Grant::send_grant_does))]
pub fn send_grant_does(v: &mut Scene, choice: u8)
    ensures { v.new ≡ send_grant_does v.old choice }
{
    let message = grant_for(v.node.purpose, choice, v.entry);
    v.link.d = message;
    v.link.down = grant_value(message, v.node.value);
    v.entry = entry_for(message);
    v.node.phase = Phase::AWAIT;
}

// 15 take GrantAck | empties E; Idle
#[tactic(auto, unfolding(rules::specs::Grant::take_grant_ack_does))]
pub fn take_grant_ack_does(v: &mut Scene)
    ensures { v.new ≡ take_grant_ack_does v.old }
{
    v.link.e = Message::EMPTY;
    becomes_idle(v);
}

// Kinds 12 to 15: a Grant goes down and its GrantAck comes up (document 01, "Events").
ghost use Rattle.std.specs.Prelude.{◌≡◌};
ghost use Rattle.rules.specs.Grant.{send_grant_ack_needs, send_grant_needs, take_grant_ack_needs, take_grant_needs};

use crate::scenes::name_in;
use choices::grant::{grant_fits, may_grant};
use rules::Scene;
use rules::codes::{Message, Phase};

// 12 take Grant | Wait, probe idle; load: N with GrantDataB or GrantDataT; store: B with GrantT or N with GrantDataT
#[tactic(auto, unfolding(rules::specs::Grant::take_grant_needs))]
pub fn take_grant_needs(v: Scene) -> bool
    ensures { result ≡ take_grant_needs v }
{
    v.node.phase == Phase::WAIT && !v.node.probe && grant_fits(v.node.purpose, v.rights, v.link.d)
}

// 13 send GrantAck | Confirm, E empty
#[tactic(auto, unfolding(rules::specs::Grant::send_grant_ack_needs))]
pub fn send_grant_ack_needs(v: Scene) -> bool
    ensures { result ≡ send_grant_ack_needs v }
{
    v.node.phase == Phase::CONFIRM && v.link.e == Message::EMPTY
}

// 14 send Grant | Give, requester's D empty; load 0: named B, TT, TB; load 1: TT; store 1: Tip, other entries None, the
// requester's not Trunk
#[tactic(auto, unfolding(rules::specs::Grant::send_grant_needs))]
pub fn send_grant_needs(v: Scene, choice: u8) -> bool
    ensures { result ≡ send_grant_needs v choice }
{
    let name = name_in(v);
    v.node.phase == Phase::GIVE
        && v.link.d == Message::EMPTY
        && may_grant(v.node.purpose, choice, name, v.rights, v.alone, v.entry)
}

// 15 take GrantAck | Await, requester's E full
#[tactic(auto, unfolding(rules::specs::Grant::take_grant_ack_needs))]
pub fn take_grant_ack_needs(v: Scene) -> bool
    ensures { result ≡ take_grant_ack_needs v }
{
    v.node.phase == Phase::AWAIT && v.link.e != Message::EMPTY
}

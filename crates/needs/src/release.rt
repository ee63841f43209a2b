// Kinds 16 to 19: a Release goes up and its ReleaseAck comes down (document 01, "Events").
ghost use Rattle.std.specs.Prelude.{◌≡◌};
ghost use Rattle.rules.specs.Release.{send_release_ack_needs, send_release_needs, take_release_ack_needs, take_release_needs};

use choices::messages::is_release;
use choices::probe::data_fits;
use choices::release::awaits;
use rules::Scene;
use rules::codes::{Child, Entry, Message, Phase, Rights};

// 16 send Release | LetGo, release idle, C empty, entries None, not N
#[tactic(auto, unfolding(rules::specs::Release::send_release_needs))]
pub fn send_release_needs(v: Scene) -> bool
    ensures { result ≡ send_release_needs v }
{
    v.node.phase == Phase::LET_GO
        && v.node.release == Child::NONE
        && v.link.c == Message::EMPTY
        && v.bare
        && v.rights != Rights::N
}

// 17 take Release | C holds one, release idle, entry not None, not in Await for this child; data only from Trunk
#[tactic(auto, unfolding(rules::specs::Release::take_release_needs))]
pub fn take_release_needs(v: Scene, child: u8) -> bool
    ensures { result ≡ take_release_needs v child }
{
    is_release(v.link.c)
        && v.node.release == Child::NONE
        && v.entry != Entry::NONE
        && !awaits(v.node.phase, v.node.requester, child)
        && data_fits(v.link.c, v.entry)
}

// 18 send ReleaseAck | release open, child's D empty
#[tactic(auto, unfolding(rules::specs::Release::send_release_ack_needs))]
pub fn send_release_ack_needs(v: Scene) -> bool
    ensures { result ≡ send_release_ack_needs v }
{
    v.node.release != Child::NONE && v.link.d == Message::EMPTY
}

// 19 take ReleaseAck | Leaving, D holds it
#[tactic(auto, unfolding(rules::specs::Release::take_release_ack_needs))]
pub fn take_release_ack_needs(v: Scene) -> bool
    ensures { result ≡ take_release_ack_needs v }
{
    v.node.phase == Phase::LEAVING && v.link.d == Message::RELEASE_ACK
}

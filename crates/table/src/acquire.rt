// Kinds 6 and 7: an Acquire goes up (document 01, "Events").
ghost use Rattle.std.specs.Prelude.{◌≡◌};
ghost use Rattle.rules.specs.Acquire.{send_acquire_does, take_acquire_does};

use choices::acquire::{acquire_for, purpose_for};
use rules::Scene;
use rules::codes::{Message, Phase};

// 6 send Acquire | AcquireB for load, AcquireT from N, AcquireU from B; Wait
#[tactic(auto, unfolding(rules::specs::Acquire::send_acquire_does))]
pub fn send_acquire_does(v: &mut Scene)
    ensures { v.new ≡ send_acquire_does v.old }
{
    v.link.a = acquire_for(v.node.purpose, v.rights);
    v.node.phase = Phase::WAIT;
}

// 7 take Acquire | empties A, purpose load for B, store for T/U, requester; to-probe: ..; settle
#[tactic(auto, unfolding(rules::specs::Acquire::take_acquire_does))]
pub fn take_acquire_does(v: &mut Scene, requester: u8)
    ensures { v.new ≡ take_acquire_does v.old requester }
{
    v.node.purpose = purpose_for(v.link.a);
    v.node.requester = requester;
    v.link.a = Message::EMPTY;
}

// Kinds 6 and 7: an Acquire goes up (document 01, "Events").
ghost use Rattle.std.specs.Prelude.{◌≡◌};
ghost use Rattle.rules.specs.Acquire.{send_acquire_needs, take_acquire_needs};

use choices::acquire::{acquire_fits, asks_from};
use rules::Scene;
use rules::codes::{Message, Phase};

// 6 send Acquire | Ask, A empty; load: rights N; store: N or B
#[tactic(auto, unfolding(rules::specs::Acquire::send_acquire_needs))]
pub fn send_acquire_needs(v: Scene) -> bool
    ensures { result ≡ send_acquire_needs v }
{
    v.node.phase == Phase::ASK && v.link.a == Message::EMPTY && asks_from(v.node.purpose, v.rights)
}

// 7 take Acquire | A full, main and probe idle, sets empty; AcquireB/T: child's entry None; AcquireU: not Trunk
#[tactic(auto, unfolding(rules::specs::Acquire::take_acquire_needs))]
pub fn take_acquire_needs(v: Scene) -> bool
    ensures { result ≡ take_acquire_needs v }
{
    v.link.a != Message::EMPTY
        && v.node.phase == Phase::IDLE
        && !v.node.probe
        && v.still
        && acquire_fits(v.link.a, v.entry)
}

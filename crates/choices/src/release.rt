// What kinds 16 and 17 decide: which Release goes up, and when it may be taken (document 01, "Events").
ghost use Rattle.std.specs.Prelude.{◌≡◌};
ghost use Rattle.rules.specs.Release.{awaits, release_for};

use rules::codes::{Message, Phase};

// "ReleaseData exactly if dirty"
#[tactic(auto, unfolding(rules::specs::Release::release_for, words::specs::Vocab::choose))]
pub fn release_for(dirty: bool) -> u8
    ensures { result ≡ release_for dirty }
{
    if dirty {
        Message::RELEASE_DATA
    } else {
        Message::RELEASE
    }
}

// "not in Await for this child" is this, negated.
#[tactic(auto, unfolding(rules::specs::Release::awaits))]
pub fn awaits(phase: u8, requester: u8, child: u8) -> bool
    ensures { result ≡ awaits phase requester child }
{
    phase == Phase::AWAIT && requester == child
}

// Settle (document 01, "Events").
ghost use Rattle.std.specs.Prelude.{◌≡◌};
ghost use Rattle.rules.specs.Settle.{next_phase, phase_after, settled_phase};

use rules::Node;
use rules::codes::{Phase, Purpose, Rights};
use rules::kinds::Settles;

// "load: Give unless rights are N, then Ask; store: Give at Tip, else Ask; evict: LetGo"
#[tactic(auto, unfolding(rules::specs::Settle::next_phase, words::specs::Vocab::choose))]
pub fn next_phase(purpose: u8, rights: u8) -> u8
    ensures { result ≡ next_phase purpose rights }
{
    match purpose {
        Purpose::LOAD if rights != Rights::N => Phase::GIVE,
        Purpose::LOAD => Phase::ASK,
        Purpose::STORE if rights == Rights::TIP => Phase::GIVE,
        Purpose::STORE => Phase::ASK,
        Purpose::EVICT => Phase::LET_GO,
        _ => Phase::CLEAR,
    }
}

// "if both sets are empty, and the purpose is new or main was in Clear, the phase becomes: .. A new purpose with members in
// to-probe is Clear."
#[tactic(auto, unfolding(rules::specs::Settle::phase_after, words::specs::Vocab::choose))]
pub fn phase_after(both_empty: bool, new: bool, phase: u8, purpose: u8, rights: u8) -> u8
    ensures { result ≡ phase_after both_empty new phase purpose rights }
{
    if both_empty && (new || phase == Phase::CLEAR) {
        next_phase(purpose, rights)
    } else if new {
        Phase::CLEAR
    } else {
        phase
    }
}

// The phase of a node once its kind has settled as its row says.
#[tactic(auto, unfolding(rules::specs::Settle::settled_phase))]
pub fn settled_phase(settles: Settles, both_empty: bool, m: Node, rights: u8) -> u8
    ensures { result ≡ settled_phase settles both_empty m rights }
{
    match settles {
        Settles::Never => m.phase,
        Settles::Again => phase_after(both_empty, false, m.phase, m.purpose, rights),
        Settles::Anew => phase_after(both_empty, true, m.phase, m.purpose, rights),
    }
}

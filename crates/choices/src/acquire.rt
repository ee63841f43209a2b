// What kinds 6 and 7 decide: which Acquire goes up, and what a node does with it (document 01, "Events").
ghost use Rattle.std.specs.Prelude.{◌≡◌};
ghost use Rattle.rules.specs.Acquire.{acquire_fits, acquire_for, asks_from, probed_for, purpose_for};

use rules::codes::{Entry, Message, Name, Purpose, Rights};

// "load: rights N; store: N or B"
#[tactic(auto, unfolding(rules::specs::Acquire::asks_from, words::specs::Vocab::choose))]
pub fn asks_from(purpose: u8, rights: u8) -> bool
    ensures { result ≡ asks_from purpose rights }
{
    match purpose {
        Purpose::LOAD => rights == Rights::N,
        Purpose::STORE => matches!(rights, Rights::N | Rights::B),
        _ => false,
    }
}

// "AcquireB for load, AcquireT from N, AcquireU from B"
#[tactic(auto, unfolding(rules::specs::Acquire::acquire_for, words::specs::Vocab::choose))]
pub fn acquire_for(purpose: u8, rights: u8) -> u8
    ensures { result ≡ acquire_for purpose rights }
{
    match purpose {
        Purpose::LOAD => Message::ACQUIRE_B,
        Purpose::STORE if rights == Rights::N => Message::ACQUIRE_T,
        Purpose::STORE => Message::ACQUIRE_U,
        _ => Message::EMPTY,
    }
}

// "AcquireB/T: child's entry None; AcquireU: not Trunk"
#[tactic(auto, unfolding(rules::specs::Acquire::acquire_fits, words::specs::Vocab::choose))]
pub fn acquire_fits(a: u8, entry: u8) -> bool
    ensures { result ≡ acquire_fits a entry }
{
    match a {
        Message::ACQUIRE_B | Message::ACQUIRE_T => entry == Entry::NONE,
        Message::ACQUIRE_U => entry != Entry::TRUNK,
        _ => false,
    }
}

// "purpose load for B, store for T/U"
#[tactic(auto, unfolding(rules::specs::Acquire::purpose_for, words::specs::Vocab::choose))]
pub fn purpose_for(a: u8) -> u8
    ensures { result ≡ purpose_for a }
{
    match a {
        Message::ACQUIRE_B => Purpose::LOAD,
        Message::ACQUIRE_T | Message::ACQUIRE_U => Purpose::STORE,
        _ => Purpose::NONE,
    }
}

// "load at T: Trunk entries; load otherwise: none; store: all not None but the requester"
#[tactic(auto, unfolding(rules::specs::Acquire::probed_for, words::specs::Vocab::choose))]
pub fn probed_for(purpose: u8, name: u8, requester: u8, entry: u8, child: u8) -> bool
    ensures { result ≡ probed_for purpose name requester entry child }
{
    match purpose {
        Purpose::LOAD => name == Name::T && entry == Entry::TRUNK,
        Purpose::STORE => entry != Entry::NONE && child != requester,
        _ => false,
    }
}

// What kinds 12 to 15 decide: which Grant goes down, and which is taken (document 01, "Events").
ghost use Rattle.std.specs.Prelude.{◌≡◌};
ghost use Rattle.rules.specs.Grant.{grant_fits, grant_for, grant_value, may_grant};
ghost use Rattle.rules.specs.Scenes.{installed};

use crate::messages::carries_down;
use crate::name::readable_name;
use rules::Event;
use rules::codes::{Entry, Message, Name, Purpose, Rights};

// "load: N with GrantDataB or GrantDataT; store: B with GrantT or N with GrantDataT"
#[tactic(auto, unfolding(rules::specs::Grant::grant_fits, words::specs::Vocab::choose))]
pub fn grant_fits(purpose: u8, rights: u8, d: u8) -> bool
    ensures { result ≡ grant_fits purpose rights d }
{
    matches!(
        (purpose, rights, d),
        (
            Purpose::LOAD,
            Rights::N,
            Message::GRANT_DATA_B | Message::GRANT_DATA_T
        ) | (Purpose::STORE, Rights::B, Message::GRANT_T)
            | (Purpose::STORE, Rights::N, Message::GRANT_DATA_T)
    )
}

// "data installed"
#[tactic(auto, unfolding(rules::specs::Scenes::installed, words::specs::Vocab::choose))]
pub fn installed(d: u8, down: u64, value: u64) -> u64
    ensures { result ≡ installed d down value }
{
    if carries_down(d) { down } else { value }
}

// "load 0: named B, TT, TB; load 1: TT; store 1: Tip, other entries None, the requester's not Trunk"
#[tactic(auto, unfolding(rules::specs::Grant::may_grant, words::specs::Vocab::choose))]
pub fn may_grant(purpose: u8, choice: u8, name: u8, rights: u8, alone: bool, entry: u8) -> bool
    ensures { result ≡ may_grant purpose choice name rights alone entry }
{
    match purpose {
        Purpose::LOAD => {
            choice == Event::SHARED && readable_name(name)
                || choice == Event::SOLE && name == Name::TT
        }
        Purpose::STORE => {
            choice == Event::SOLE && rights == Rights::TIP && alone && entry != Entry::TRUNK
        }
        _ => false,
    }
}

// "load 0: GrantDataB ..; load 1: GrantDataT ..; store: GrantT if entry Branch, else GrantDataT"
#[tactic(auto, unfolding(rules::specs::Grant::grant_for, words::specs::Vocab::choose))]
pub fn grant_for(purpose: u8, choice: u8, entry: u8) -> u8
    ensures { result ≡ grant_for purpose choice entry }
{
    match purpose {
        Purpose::LOAD if choice == Event::SHARED => Message::GRANT_DATA_B,
        Purpose::LOAD => Message::GRANT_DATA_T,
        Purpose::STORE if entry == Entry::BRANCH => Message::GRANT_T,
        Purpose::STORE => Message::GRANT_DATA_T,
        _ => Message::EMPTY,
    }
}

// GrantT carries no value.
#[tactic(auto, unfolding(rules::specs::Grant::grant_value, words::specs::Vocab::choose))]
pub fn grant_value(d: u8, value: u64) -> u64
    ensures { result ≡ grant_value d value }
{
    if carries_down(d) { value } else { 0 }
}

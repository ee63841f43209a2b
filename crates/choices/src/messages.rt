// What the messages are (document 01, "What a configuration holds").
ghost use Rattle.std.specs.Prelude.{◌≡◌};
ghost use Rattle.rules.specs.Messages.{carries_up, installs, from_trunk, is_probe_ack, is_release, carries_down, granted_rights, entry_for};

use rules::codes::{Entry, Message, Rights};

// The message in C has a value.
#[tactic(auto, unfolding(rules::specs::Messages::carries_up, words::specs::Vocab::choose))]
pub fn carries_up(c: u8) -> bool
    ensures { result ≡ carries_up c }
{
    matches!(c, Message::PROBE_ACK_DATA | Message::RELEASE_DATA)
}

// "data: value set, dirty": the parent installs the value, of each message that has one.
#[tactic(auto, unfolding(rules::specs::Messages::installs, rules::specs::Messages::carries_up))]
pub fn installs(c: u8) -> bool
    ensures { result ≡ installs c }
{
    carries_up(c)
}

// "data only from a Trunk entry"
#[tactic(auto, unfolding(rules::specs::Messages::from_trunk, rules::specs::Messages::carries_up))]
pub fn from_trunk(c: u8) -> bool
    ensures { result ≡ from_trunk c }
{
    carries_up(c)
}

#[tactic(auto, unfolding(rules::specs::Messages::is_probe_ack, words::specs::Vocab::choose))]
pub fn is_probe_ack(c: u8) -> bool
    ensures { result ≡ is_probe_ack c }
{
    matches!(c, Message::PROBE_ACK | Message::PROBE_ACK_DATA)
}

#[tactic(auto, unfolding(rules::specs::Messages::is_release, words::specs::Vocab::choose))]
pub fn is_release(c: u8) -> bool
    ensures { result ≡ is_release c }
{
    matches!(c, Message::RELEASE | Message::RELEASE_DATA)
}

// The message in D has a value.
#[tactic(auto, unfolding(rules::specs::Messages::carries_down, words::specs::Vocab::choose))]
pub fn carries_down(d: u8) -> bool
    ensures { result ≡ carries_down d }
{
    matches!(d, Message::GRANT_DATA_T | Message::GRANT_DATA_B)
}

// "B for GrantDataB, else Tip"
#[tactic(auto, unfolding(rules::specs::Messages::granted_rights, words::specs::Vocab::choose))]
pub fn granted_rights(d: u8) -> u8
    ensures { result ≡ granted_rights d }
{
    if d == Message::GRANT_DATA_B {
        Rights::B
    } else {
        Rights::TIP
    }
}

// "entry Branch", "Trunk", "then Trunk"
#[tactic(auto, unfolding(rules::specs::Messages::entry_for, words::specs::Vocab::choose))]
pub fn entry_for(d: u8) -> u8
    ensures { result ≡ entry_for d }
{
    if d == Message::GRANT_DATA_B {
        Entry::BRANCH
    } else {
        Entry::TRUNK
    }
}

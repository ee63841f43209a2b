// Names of nodes, and what is readable (document 01, "What a configuration holds").
ghost use Rattle.std.specs.Prelude.{◌≡◌};
ghost use Rattle.rules.specs.Names.{name_of, readable_name};

use rules::codes::{Name, Rights};

// "its rights, except that Tip is called T with any Trunk entry, else TB with any Branch entry, else TT"
#[tactic(auto, unfolding(rules::specs::Names::name_of, words::specs::Vocab::choose))]
pub fn name_of(rights: u8, trunks: bool, branches: bool) -> u8
    ensures { result ≡ name_of rights trunks branches }
{
    match rights {
        Rights::TIP if trunks => Name::T,
        Rights::TIP if branches => Name::TB,
        Rights::TIP => Name::TT,
        Rights::B => Name::B,
        _ => Name::N,
    }
}

// "Readable means named B, TT or TB."
pub fn readable_name(name: u8) -> bool
    ensures { result ≡ readable_name name }
{
    matches!(name, Name::B | Name::TT | Name::TB)
}

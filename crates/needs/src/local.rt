// Kinds 1 to 5: what starts at a node (document 01, "Events").
ghost use Rattle.std.specs.Prelude.{◌≡◌};
ghost use Rattle.rules.specs.Local.{evict_needs, load_miss_needs, load_needs, store_miss_needs, store_needs};

use crate::scenes::{all_idle, name_in};
use rules::Scene;
use rules::codes::{Name, Rights};

// 1 load | leaf B or TT, all three transactions idle | answers the value
#[tactic(auto, unfolding(rules::specs::Local::load_needs))]
pub fn load_needs(v: Scene) -> bool
    ensures { result ≡ load_needs v }
{
    matches!(name_in(v), Name::B | Name::TT) && all_idle(v.node)
}

// 2 store | leaf TT, all idle
#[tactic(auto, unfolding(rules::specs::Local::store_needs))]
pub fn store_needs(v: Scene) -> bool
    ensures { result ≡ store_needs v }
{
    name_in(v) == Name::TT && all_idle(v.node)
}

// 3 load miss | leaf N, all idle
#[tactic(auto, unfolding(rules::specs::Local::load_miss_needs))]
pub fn load_miss_needs(v: Scene) -> bool
    ensures { result ≡ load_miss_needs v }
{
    v.rights == Rights::N && all_idle(v.node)
}

// 4 store miss | leaf N or B, all idle
#[tactic(auto, unfolding(rules::specs::Local::store_miss_needs))]
pub fn store_miss_needs(v: Scene) -> bool
    ensures { result ≡ store_miss_needs v }
{
    matches!(v.rights, Rights::N | Rights::B) && all_idle(v.node)
}

// 5 evict | not N, all idle, both sets empty
#[tactic(auto, unfolding(rules::specs::Local::evict_needs))]
pub fn evict_needs(v: Scene) -> bool
    ensures { result ≡ evict_needs v }
{
    v.rights != Rights::N && all_idle(v.node) && v.still
}

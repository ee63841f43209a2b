// Kinds 1 to 5: what starts at a node (document 01, "Events").
ghost use Rattle.std.specs.Prelude.{◌≡◌};
ghost use Rattle.rules.specs.Local.{evict_does, load_miss_does, store_does, store_miss_does};

use rules::Scene;
use rules::codes::{Phase, Purpose};

// 2 store | sets value, dirty
#[tactic(auto, unfolding(rules::specs::Local::store_does))]
pub fn store_does(v: &mut Scene, value: u64)
    ensures { v.new ≡ store_does v.old value }
{
    v.node.value = value;
    v.node.dirty = true;
}

// 3 load miss | Ask, load
#[tactic(auto, unfolding(rules::specs::Local::load_miss_does))]
pub fn load_miss_does(v: &mut Scene)
    ensures { v.new ≡ load_miss_does v.old }
{
    v.node.phase = Phase::ASK;
    v.node.purpose = Purpose::LOAD;
}

// 4 store miss | Ask, store
#[tactic(auto, unfolding(rules::specs::Local::store_miss_does))]
pub fn store_miss_does(v: &mut Scene)
    ensures { v.new ≡ store_miss_does v.old }
{
    v.node.phase = Phase::ASK;
    v.node.purpose = Purpose::STORE;
}

// 5 evict | evict; to-probe: all entries not None; settle
#[tactic(auto, unfolding(rules::specs::Local::evict_does))]
pub fn evict_does(v: &mut Scene)
    ensures { v.new ≡ evict_does v.old }
{
    v.node.purpose = Purpose::EVICT;
}

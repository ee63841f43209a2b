// What several needs say of a node, as specs/Scenes of crate rules has it.
ghost use Rattle.std.specs.Prelude.{◌≡◌};
ghost use Rattle.rules.specs.Scenes.{all_idle, name_in};

use choices::name::name_of;
use rules::codes::{Child, Phase};
use rules::{Node, Scene};

// The name of the node.
pub fn name_in(v: Scene) -> u8
    ensures { result ≡ name_in v }
{
    name_of(v.rights, v.trunk, v.branch)
}

// "all three transactions idle"
pub fn all_idle(m: Node) -> bool
    ensures { result ≡ all_idle m }
{
    m.phase == Phase::IDLE && !m.probe && m.release == Child::NONE
}

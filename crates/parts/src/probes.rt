// The row of x in to-probe, written anew from the row of its entries as the row of the kind says.
ghost use Rattle.std.specs.Prelude.{◌≡◌};
ghost use Rattle.rules.specs.Step.{probed_in};

use choices::acquire::{probed_for, purpose_for};
use choices::name::name_of;
use choices::probe::probed_by;
use loops::fill_from;
use rules::codes::Entry;
use rules::kinds::Probes;
use rules::{Index, Scene, State};

#[tactic(auto, unfolding(rules::specs::Step::probed_in, rules::specs::Local::held))]
pub fn write_row(
    probes: Probes,
    v: Scene,
    other: u8,
    entries: &[u8; State::CELLS],
    x: Index,
    set: &mut [bool; State::CELLS],
)
    ensures { set.new ≡ probed_in probes v other entries.now x.at set.old }
{
    let base = x.at * State::NODES;
    match probes {
        Probes::Stay => {}
        Probes::Held => fill_from(
            set,
            base,
            State::NODES,
            |k| entries[base + k] != Entry::NONE,
        ),
        Probes::Asked => {
            let purpose = purpose_for(v.link.a);
            let name = name_of(v.rights, v.trunk, v.branch);
            fill_from(set, base, State::NODES, |k| {
                probed_for(purpose, name, other, entries[base + k], k as u8)
            })
        }
        Probes::Capped => fill_from(set, base, State::NODES, |k| {
            probed_by(v.link.b, entries[base + k])
        }),
    }
}

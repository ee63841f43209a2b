// The step of document 01, in place on a configuration that its owner lends: "the first number that applies is given and none
// otherwise". Every public function is total and promises its definition of crate rules.
#![tactic(auto)]

ghost use Rattle.std.specs.Prelude.{◌≡◌};
ghost use Rattle.rules.specs.Names.{named};
ghost use Rattle.rules.specs.Refusals.{answer_said};
ghost use Rattle.rules.specs.Step.{step_of, onward_of};

use parts::act;
use rules::{Event, Refusal, State};
use scan::configuration_ok;
use trees::tree_ok;

// The step: numbers 1 to 5.
#[tactic(auto, using(parts::proofs::Moving::stepping))]
pub fn stepped(s: &mut State, ev: Event) -> Result<u64, Refusal>
    ensures { answer_said result s.new ≡ step_of s.old ev }
{
    if !tree_ok(s.count, &s.parents) {
        return Err(Refusal::BadTree);
    }
    if !configuration_ok(s) {
        return Err(Refusal::NotAConfiguration);
    }
    act(s, ev)
}

// The step of a caller that holds a configuration: number 2 is not looked for.
#[tactic(auto, using(parts::proofs::Moving::stepping))]
pub fn onward(s: &mut State, ev: Event) -> Result<u64, Refusal>
    ensures { answer_said result s.new ≡ onward_of s.old ev }
{
    if !tree_ok(s.count, &s.parents) {
        return Err(Refusal::BadTree);
    }
    act(s, ev)
}

// The name of node x; beyond the node limit it is N, as of a node with no rights.
pub fn named(s: &State, x: u8) -> u8
    ensures { result ≡ named s.now x }
{
    names::named(s, x)
}

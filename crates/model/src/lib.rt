// The configuration and its step, by value: "the configuration's step takes self by value and hands back the new
// configuration with number and answer value". The work is done by crate engine.
#![tactic(auto)]

ghost use Rattle.std.specs.Prelude.{◌≡◌};
ghost use Rattle.rules.specs.Names.{named};
ghost use Rattle.rules.specs.Refusals.{answer_said};
ghost use Rattle.rules.specs.Step.{reset_of, step_of, onward_of};
ghost use Rattle.model.specs.Outcomes.{outcome_of};

use rules::{Answer, Event, Refusal, State};
use start::refused;

#[derive(Clone, Copy)]
pub struct Config {
    pub state: State,
}

#[derive(Clone, Copy)]
pub struct Outcome {
    pub number: u8,
    pub value: u64,
    pub config: Config,
}

// The definition's answer, with its configuration type.
fn outcome_of(answer: Answer) -> Outcome
    ensures { result ≡ outcome_of answer }
{
    let state = answer.state;
    Outcome {
        number: answer.number,
        value: answer.value,
        config: Config { state },
    }
}

impl Outcome {
    // What is refused is refused in one place; the state is lent, since each copy of it counts.
    fn of(answer: Result<u64, Refusal>, state: &State) -> Outcome
        ensures { result ≡ outcome_of (answer_said answer state.now) }
    {
        match answer {
            Ok(value) => Outcome {
                number: Answer::ACCEPTED,
                value,
                config: Config { state: *state },
            },
            Err(refusal) => outcome_of(refused(refusal.number(), *state)),
        }
    }
}

impl Config {
    // The configuration of a tree at reset; on a bad tree number 1 and an all-zero record.
    pub fn reset(count: u8, parents: [u8; State::NODES], first: u64) -> Outcome
        ensures { result ≡ outcome_of (reset_of count parents first) }
    {
        match start::started(count, parents, first) {
            Ok(state) => Outcome::of(Ok(0), &state),
            Err(refusal) => outcome_of(refused(refusal.number(), start::blank_state())),
        }
    }

    // The step: numbers 1 to 5, the answer value, and the configuration after it.
    pub fn step(mut self, ev: Event) -> Outcome
        ensures { result ≡ outcome_of (step_of self.state ev) }
    {
        let done = engine::stepped(&mut self.state, ev);
        Outcome::of(done, &self.state)
    }

    // The step of a caller whose configuration came from reset by accepted steps: it leaves out the scan for number 2.
    pub fn onward(mut self, ev: Event) -> Outcome
        ensures { result ≡ outcome_of (onward_of self.state ev) }
    {
        let gone = engine::onward(&mut self.state, ev);
        Outcome::of(gone, &self.state)
    }

    // The name of node x, by its code.
    pub fn name(self, x: u8) -> u8
        ensures { result ≡ named self.state x }
    {
        engine::named(&self.state, x)
    }
}

// Reads configurations with events, and resets, and writes the whole answer to each: docs/FORMAT.md, "answer".
#![tactic(auto)]

use model::{Config, Outcome};
use octets::limits::EVENT;
use records::layout::Layout;
use rules::Event;
use std::io;
use std::io::{ErrorKind, Read, Stdin, Write};

// What is asked for.
#[derive(Clone, Copy)]
enum Request {
    Reset,
    Step,
    Onward,
}

impl Request {
    // By the first byte of the request.
    fn of(code: u8) -> Option<Request> {
        match code {
            1 => Some(Request::Reset),
            2 => Some(Request::Step),
            3 => Some(Request::Onward),
            _ => None,
        }
    }
}

// The next bytes of the input; none where it ends first.
fn take<const N: usize>(input: &mut Stdin) -> io::Result<Option<[u8; N]>> {
    let mut bytes = [0; N];
    match input.read_exact(&mut bytes) {
        Ok(()) => Ok(Some(bytes)),
        Err(e) if e.kind() == ErrorKind::UnexpectedEof => Ok(None),
        Err(e) => Err(e),
    }
}

// The answer to the rest of a request; none where the input ends first, or holds no request.
fn reset_answer(input: &mut Stdin) -> io::Result<Option<Outcome>> {
    let Some(bytes) = take::<{ records::RESET }>(input)? else {
        return Ok(None);
    };
    let parents = records::parents_of(&bytes);
    let first = records::first_of(&bytes);
    Ok(Some(Config::reset(bytes[0], parents, first)))
}

// The same for a configuration and an event; `step` is what is made of them.
fn step_answer<F: FnOnce(Config, Event) -> Outcome>(
    input: &mut Stdin,
    step: F,
) -> io::Result<Option<Outcome>>
    requires { F.IsAlwaysCallable step }
{
    let Some(bytes) = take::<{ Layout::STATE }>(input)? else {
        return Ok(None);
    };
    if !records::flags_ok(&bytes) {
        return Ok(None);
    }
    let Some(tail) = take::<{ EVENT }>(input)? else {
        return Ok(None);
    };
    let state = records::state_of(&bytes);
    let ev = octets::read::event_at(&tail, 0);
    Ok(Some(step(Config { state }, ev)))
}

fn next_answer(input: &mut Stdin) -> io::Result<Option<Outcome>> {
    let Some(first) = take::<1>(input)? else {
        return Ok(None);
    };
    match Request::of(first[0]) {
        Some(Request::Reset) => reset_answer(input),
        Some(Request::Step) => step_answer(input, Config::step),
        Some(Request::Onward) => step_answer(input, Config::onward),
        None => Ok(None),
    }
}

fn main(rt: HostRuntime) -> io::Result<()> {
    let mut input = rt.stdin();
    let mut output = rt.stdout();
    // An input holds fewer requests than this.
    for _ in 0..u64::MAX {
        let Some(a) = next_answer(&mut input)? else {
            break;
        };
        output.write_all(&records::answer_bytes(a.number, a.value, a.config.state))?;
    }
    Ok(())
}

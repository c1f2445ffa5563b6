// The walk over the events of an input (document 01, "The run program"): one event at a time, each with the draws that are left.
#![tactic(auto)]

ghost use Rattle.run_walk.specs.Place.{Steps};

use hyparview::State;

// The place reached in a run: the state, and how far its events and its draws are.
#[derive(Clone, Copy)]
pub struct Runner {
    pub state: State,
    pub at: usize,
    pub used: usize,
}

// The place after an event, with the code that it got and how many draws it used.
#[derive(Clone, Copy)]
pub struct Ran {
    pub runner: Runner,
    pub code: u32,
    pub draws: usize,
}

// The event at the place reached, with the draws left and the output lent.
pub fn step(p: Runner, events: &[u8], draws: &[u32], records: &mut [u8]) -> Ran
    ensures { Steps p events draws result records }
{
    // The events from the place on, and none past the end.
    let rest = &events[p.at.min(events.len())..];
    let size = run_input::event_length(rest);
    let left = base_draws::rest_from(draws, p.used);
    let a = p.state.handle(&rest[..size], left, records);
    Ran {
        runner: Runner {
            state: a.state,
            at: p.at + size,
            used: base_draws::place_after(draws, p.used, a.draws),
        },
        code: a.code,
        draws: a.draws,
    }
}

// One history of the run program's input on standard output, in the trace form: every byte of output, and every state.
#![tactic(auto)]

ghost use Rattle.std.specs.Prelude.{◌≡◌, ◌≤◌};
ghost use Rattle.hyparview.specs.Room.{output_room};
ghost use Rattle.run_input.specs.Input.{Laid};
ghost use Rattle.trace_replay.specs.Ending.{usual_start, laid_words, ended_of};

use hyparview::State;
use hyparview_state::Layout;
use record::Refusal;
use run_input::Head;
use run_text::Page;
use run_walk::Runner;

// Space for the text of an event.
const EVENT_SPACE: usize = 32768;

// How a history ended: code 0 and the state after its last event, or the code that it was refused with as a whole and a state of zeroes. Both and no Result, since `ended_of` says the state of a refused history too.
#[derive(Clone, Copy)]
pub struct Ended {
    pub code: u32,
    pub state: State,
}

// What a history starts with beside its input: the room for output, and the counters of the new station.
#[derive(Clone, Copy)]
pub struct TraceStart {
    pub room: usize,
    pub next_neighbor_request: u64,
    pub next_join: u64,
    pub passes_alone: u32,
    pub passes_short: u32,
}

impl TraceStart {
    // The run program's: 8,192 bytes of room, and a new station's own counters.
    pub fn usual() -> TraceStart
        ensures { result ≡ usual_start }
    {
        TraceStart {
            room: hyparview::OUTPUT,
            next_neighbor_request: 0,
            next_join: 0,
            passes_alone: 0,
            passes_short: 0,
        }
    }
}

// The events of an input, with the space: the longest input has fewer than 16,384 draws, and the longest text is under 32,768 bytes.
fn walk(s: State, b: &[u8], head: Head, room: usize) -> State
    requires laid { Laid b.now head }
    requires room_le_output_room { room ≤ output_room }
    ensures { result.words ≡ laid_words room s.words head b.now }
{
    let mut drawn = [0u32; run_input::DRAWS_ROOM];
    let mut output = [0u8; hyparview::OUTPUT];
    let mut space = [0u8; EVENT_SPACE];
    run_input::read_numbers(&b[head.draws_at..], &mut drawn);
    let events = &b[Head::BYTES..head.draws_at];
    let draws = &drawn[..head.draws];
    let out = &mut output[..room];
    let mut p = Runner {
        state: s,
        at: 0,
        used: 0,
    };
    for _ in 0..head.events {
        // The event at the place reached, and its text.
        let a = run_walk::step(p, events, draws, out);
        p = a.runner;
        let mut t = Page::new(&mut space);
        trace_text::put_trace_event(&mut t, out, a.code, a.draws, &p.state.words);
        let end = t.text.at;
        // A text that did not fit is named, and not cut off.
        if t.text.full || EVENT_SPACE < end {
            io::write_all(1, b"! a text that does not fit\n");
        } else {
            io::write_all(1, &space[..end]);
        }
    }
    p.state
}

// A whole history on standard output, and how it ended. An input that is refused gets document 01's line, with the code of Refusal::Malformed, and a state of zeroes; else there is the answer of `new`, which
// without own data refuses only settings out of range, with the code of Refusal::Settings, or the events from the new station with these counters on, in the room that is asked for and no more than there is.
pub fn history(b: &[u8], start: TraceStart) -> Ended
    ensures { result ≡ ended_of start b.now }
{
    let Some(head) = run_input::read_input(b) else {
        io::write_all(1, b"= 3 0\n");
        return Ended {
            code: u32::from(Refusal::Malformed),
            state: State {
                words: [0u64; Layout::LENGTH],
            },
        };
    };
    let m = State::new(head.me, false, b"", head.config);
    if m.code != 0 {
        io::write_all(1, b"= 1 0\n");
        return Ended {
            code: m.code,
            state: m.state,
        };
    }
    let mut words = m.state.words;
    words[Layout::NEXT_NEIGHBOR_REQUEST] = start.next_neighbor_request;
    words[Layout::NEXT_JOIN] = start.next_join;
    words[Layout::PASSES_ALONE] = start.passes_alone as u64;
    words[Layout::PASSES_SHORT] = start.passes_short as u64;
    let room = start.room.min(hyparview::OUTPUT);
    Ended {
        code: 0,
        state: walk(State { words }, b, head, room),
    }
}

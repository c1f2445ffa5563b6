// The steps of one event: which step it is, by its kind and message, and what every event ends with.
#![tactic(auto)]

ghost use Rattle.record.specs.Read.{rec_of};
ghost use Rattle.spec_hyparview.specs.Budgets.{arriving};
ghost use Rattle.spec_hyparview.specs.Handle.{handle_message, dispatch, steps};
ghost use Rattle.hyparview_state.specs.Work.{Given, Meets, Makes};
ghost use Rattle.step_messages.specs.Between.{Between};
ghost use Rattle.step_dispatch.specs.Begun.{Headed, IsMessage, Opens};

use hyparview_state::{Layout, Words};
use record::{Flags, Header, Kind, Message};
use work::Work;

// One of the six messages; of a Disconnect's flags `_respond` is obsolete, kept on the wire alone, and says nothing.
fn handle_message(
    w: Work,
    st: &mut Words,
    draws: &[u32],
    out: &mut [u8],
    b: &[u8],
    h: Header,
) -> Work
    requires given { Given w st draws out }
    requires headed { Headed b.now h }
    requires message { IsMessage h }
    requires meets { Meets (Between 0 arriving 40) w st draws out }
    ensures { Makes (handle_message (rec_of b.now)) w result st draws out }
{
    let p = h.peer;
    let n = h.nodes as usize;
    // At most three of the numbers in a row: of all six a match became a table of 24 bytes in read-only memory, of jumps (02, S-4).
    match h.message {
        Message::SHUFFLE => {
            step_shuffling::on_shuffle(w, st, draws, out, p, h.second, b, n, h.ttl)
        }
        Message::SHUFFLE_REPLY => step_shuffling::on_shuffle_reply(w, st, draws, out, p, b, n),
        Message::DISCONNECT => {
            let alive = h.flags % Flags::RESPOND == Flags::ALIVE;
            step_messages::on_disconnect(w, st, draws, out, p, alive)
        }
        _ => {
            // Join, ForwardJoin and Neighbor have one node.
            let x = record::peer_info_at(b, 0);
            match h.message {
                Message::JOIN => step_messages::on_join(w, st, draws, out, p, x.data),
                Message::FORWARD_JOIN => {
                    step_messages::on_forward_join(w, st, draws, out, p, x, h.ttl)
                }
                _ => {
                    let high = h.flags == Flags::HIGH;
                    step_messages::on_neighbor(w, st, draws, out, p, x.data, high)
                }
            }
        }
    }
}

// The `match` of the Rust's `handle` (spec_hyparview/Handle `handle_kind`).
fn dispatch(w: Work, st: &mut Words, draws: &[u32], out: &mut [u8], b: &[u8], h: Header) -> Work
    requires given { Given w st draws out }
    requires headed { Headed b.now h }
    requires meets { Meets (Opens h.kind) w st draws out }
    ensures { Makes (dispatch (rec_of b.now)) w result st draws out }
{
    // At most three kinds in a row, parted by order: of all ten a match became a table of 56 bytes in read-only memory, of jumps (02, S-4).
    if h.kind == Kind::MESSAGE {
        return handle_message(w, st, draws, out, b, h);
    }
    if h.kind <= Kind::RETRY_JOIN {
        return match h.kind {
            Kind::DO_SHUFFLE => step_timers::handle_shuffle_timer(w, st, draws, out),
            Kind::DO_MAINTENANCE => {
                step_maintenance::handle_maintenance_timer(w, st, draws, out)
            }
            Kind::PENDING_NEIGHBOR_REQUEST => {
                step_timers::handle_pending_neighbor_timer(w, st, draws, out, h.peer, h.number)
            }
            _ => step_timers::retry_join(w, st, out, h.peer, h.number),
        };
    }
    match h.kind {
        Kind::PEER_DISCONNECTED => {
            step_events::handle_connection_closed(w, st, draws, out, h.peer)
        }
        Kind::REQUEST_JOIN => step_events::handle_join(w, st, out, h.peer),
        Kind::UPDATE_PEER_DATA => {
            let n = record::peer_info_at(b, 0);
            step_events::update_own_data(w, st, n.data)
        }
        // Only Quit is left of the kinds up to its own.
        _ if h.kind <= Kind::QUIT => step_events::handle_quit(w, st, draws, out),
        _ if h.kind == Kind::PIN => step_events::handle_pin(w, st, h.peer),
        // No event has another kind.
        _ => w,
    }
}

// The timers start with the first event, since `new` writes no records; S-5's forgetting comes last, when the views and requests are settled.
pub fn steps(w: Work, st: &mut Words, draws: &[u32], out: &mut [u8], b: &[u8], h: Header) -> Work
    requires given { Given w st draws out }
    requires headed { Headed b.now h }
    requires meets { Meets (Opens h.kind) w st draws out }
    ensures { Makes (steps (rec_of b.now)) w result st draws out }
{
    let mut a = dispatch(w, st, draws, out, b, h);
    // The first accepted call starts both timers.
    if (a.code == 0) & (st[Layout::TIMERS_SCHEDULED] != 1) {
        st[Layout::TIMERS_SCHEDULED] = 1;
        a = step_timers::schedule_shuffle(a, st, draws, out);
        a = step_maintenance::schedule_maintenance(a, out);
    }
    step_peers::forget_declined(a, st)
}

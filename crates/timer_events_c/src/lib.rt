// What C calls of `timer_events`, in libtimer_events.a: each function calls the one of its name, under the same clauses.
#![tactic(auto)]

ghost use Rattle.timer_map.specs.Calls.{Leaves};
ghost use Rattle.timer_events.specs.Records.{records_inserted};
ghost use Rattle.timer_events.specs.Events.{LeavesEvent, event_taken};

use timer_events::PoppedEvent;

// All timer records of an output, in order, each by its delay from this time: 0, or 2, or the first refusal (3, 12, 11), and then every word is as it was.
#[unsafe(no_mangle)]
pub extern "C" fn timer_map_insert_records(q: &mut [u64], time: u64, out: &[u8]) -> u32
    ensures { Leaves result q (records_inserted time out.now q.old) }
{
    timer_events::timer_map_insert_records(q, time, out)
}

// TimerMap::pop_before, with the entry written as the 32 bytes of its event. Code 2; 9, where the bytes do not fit: then no word changes. Without an event the lent bytes become zero.
#[unsafe(no_mangle)]
pub extern "C" fn timer_map_pop_event(q: &mut [u64], limit: u64, out: &mut [u8]) -> PoppedEvent
    ensures { LeavesEvent result q out (event_taken limit q.old out.old) }
{
    timer_events::timer_map_pop_event(q, limit, out)
}

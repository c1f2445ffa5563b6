// Document 02, S-1: what a controller without timers of its own runs by. The timers of an output are put into the queue at once, and a due timer comes out as the event that `handle` reads.
#![tactic(auto)]

ghost use Rattle.std.specs.Prelude.{◌≡◌, true, [], length, replicate, unwrap_or};
ghost use Rattle.record.specs.Read.{header_of};
ghost use Rattle.record_writer.specs.Write.{rec_in};
ghost use Rattle.timer_map.specs.Entries.{timer_ok};
ghost use Rattle.timer_map.specs.Words.{entries_of, SoundQueue};
ghost use Rattle.timer_map.specs.Calls.{Leaves, PutsIn, code_in};
ghost use Rattle.timer_events.specs.Records.{no_start, started, schedule_of, timer_of, timers_in, insert_all, insert_records, records_inserted};
ghost use Rattle.timer_events.specs.Events.{event_rec, LeavesEvent, without_event, event_popped, event_taken};

use record::{Header, Kind, Records};
use record_writer::Fields;
use timer_map::{Id, QueueRefusal, Timer, TimerMapEntry};

// A timer to be put in, and its delay.
#[derive(Clone, Copy)]
pub struct ScheduleTimer {
    pub delay: u64,
    pub item: Timer,
}

// What `timer_map_pop_event` hands back beside the event: the time at which it was due, 0 where there is none.
#[repr(C)]
#[derive(Clone, Copy, Default)]
pub struct PoppedEvent {
    pub code: u32,
    pub found: bool,
    pub time: u64,
}

// The timer that a record with this header starts.
impl From<Header> for ScheduleTimer {
    fn from(h: Header) -> ScheduleTimer
        ensures { result ≡ started h }
    {
        ScheduleTimer {
            delay: h.second,
            item: Timer {
                kind: u64::from(h.kind),
                peer: h.peer,
                number: h.number,
                id: Id::default(),
            },
        }
    }
}

// The timer that the first n bytes start; what is no record starts no timer, which the queue refuses with code 3.
fn schedule_of(b: &[u8], n: usize) -> Option<ScheduleTimer>
    ensures { unwrap_or result no_start ≡ schedule_of n b.now }
{
    let h = record::read(b.get(..n)?)?;
    Some(ScheduleTimer::from(h))
}

// The record at the front of b, whose header is h: put in where it is a timer's.
fn insert_record(q: &mut [u64], time: u64, b: &[u8], h: Header) -> Result<(), QueueRefusal>
    requires sound_queue { SoundQueue q.old }
    requires h_value { h ≡ header_of b.now }
    ensures { PutsIn (code_in result) q (insert_all time (timer_of b.now)) }
{
    if (Kind::DO_SHUFFLE <= h.kind) & (h.kind <= Kind::RETRY_JOIN) {
        let Some(x) = schedule_of(b, h.size as usize) else {
            return Err(QueueRefusal::NoTimer);
        };
        return timer_map::insert_ok(q, time, x.delay, x.item);
    }
    Ok(())
}

// The timers of an output one after the other, up to the first that is refused.
fn insert_all(q: &mut [u64], time: u64, out: &[u8]) -> Result<(), QueueRefusal>
    requires { SoundQueue q.old }
    ensures { PutsIn (code_in result) q (insert_all time (timers_in out.now)) }
{
    for (h, b) in Records::of(out) {
        insert_record(q, time, b, h)?;
    }
    Ok(())
}

// The same into a queue that keeps its rules, all or none.
fn records_ok(q: &mut [u64], time: u64, out: &[u8]) -> Result<(), QueueRefusal>
    requires { SoundQueue q.old }
    ensures { PutsIn (code_in result) q (insert_records time out.now) }
{
    let n = q[timer_map::COUNT];
    let put = insert_all(q, time, out);
    if put.is_err() {
        timer_map::truncate_entries(q, n);
    }
    put
}

// All timer records of an output, in order, each by its delay from this time: 0, or 2, or the first refusal (3, 12, 11), and then every word is as it was.
pub fn timer_map_insert_records(q: &mut [u64], time: u64, out: &[u8]) -> u32
    ensures { Leaves result q (records_inserted time out.now q.old) }
{
    if timer_map::queue_ok(q) {
        return timer_map::code(records_ok(q, time, out));
    }
    QueueRefusal::Broken as u32
}

// The fields of an entry's event.
fn fields(e: TimerMapEntry) -> Fields
    requires { timer_ok e.item ≡ true }
    ensures { rec_in result [] ≡ event_rec e }
{
    let x = e.item;
    Fields {
        kind: x.kind as u8,
        message: 0,
        flags: 0,
        peer: x.peer,
        second: 0,
        ttl: 0,
        number: x.number,
    }
}

// Without an event: none is due, or the code of a refusal. The lent bytes become zero, so that a caller that overlooks it delivers no earlier event again.
fn no_event(out: &mut [u8], code: u32) -> PoppedEvent
    ensures { (result ≡ without_event code) × (out.new ≡ replicate (length out.old) 0) }
{
    out.fill(0);
    PoppedEvent {
        code,
        ..PoppedEvent::default()
    }
}

// A due timer of a queue that keeps its rules, as an event.
fn pop_event_ok(q: &mut [u64], limit: u64, out: &mut [u8]) -> PoppedEvent
    requires { SoundQueue q.old }
    ensures { LeavesEvent result q out (event_popped limit (entries_of q.old) out.old) }
{
    let Some(due) = timer_map::find_due(q, limit) else {
        return no_event(out, 0);
    };
    if record_writer::write_bare(out, 0, fields(due.entry)).is_none() {
        return no_event(out, record::Refusal::Output as u32);
    }
    timer_map::remove_entry(q, due.place);
    PoppedEvent {
        code: 0,
        found: true,
        time: due.entry.time,
    }
}

// TimerMap::pop_before, with the entry written as the 32 bytes of its event. Code 2; 9, where the bytes do not fit: then no word changes. Without an event the lent bytes become zero.
pub fn timer_map_pop_event(q: &mut [u64], limit: u64, out: &mut [u8]) -> PoppedEvent
    ensures { LeavesEvent result q out (event_taken limit q.old out.old) }
{
    if timer_map::queue_ok(q) {
        return pop_event_ok(q, limit, out);
    }
    no_event(out, QueueRefusal::Broken as u32)
}

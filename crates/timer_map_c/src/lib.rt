// What C calls of `timer_map`, in libtimer_map.a: each function calls the one of its name, under the same clauses.
#![tactic(auto)]

ghost use Rattle.std.specs.Prelude.{◌≡◌};
ghost use Rattle.timer_map.specs.Calls.{Leaves, inserted, renewed, taken_out, first_in, count_in};

use timer_map::{First, Len, Popped, Timer};

// TimerMap::insert, by the time and a delay: 0, or 2, 3 (no timer), 12, 11, and then every word is as it was.
#[unsafe(no_mangle)]
pub extern "C" fn timer_map_insert(q: &mut [u64], time: u64, delay: u64, item: Timer) -> u32
    ensures { Leaves result q (inserted time delay item q.old) }
{
    timer_map::timer_map_insert(q, time, delay, item)
}

// TimerMap::pop_before: the first of the entries with the smallest due time, where that is at most the limit.
#[unsafe(no_mangle)]
pub extern "C" fn timer_map_pop_before(q: &mut [u64], limit: u64) -> Popped
    ensures { record { answer = result; words = q.new } ≡ taken_out limit q.old }
{
    timer_map::timer_map_pop_before(q, limit)
}

// TimerMap::first: the next due time.
#[unsafe(no_mangle)]
pub extern "C" fn timer_map_first(q: &[u64]) -> First
    ensures { result ≡ first_in q.now }
{
    timer_map::timer_map_first(q)
}

// How many timers are held.
#[unsafe(no_mangle)]
pub extern "C" fn timer_map_len(q: &[u64]) -> Len
    ensures { result ≡ count_in q.now }
{
    timer_map::timer_map_len(q)
}

// The lent words become the empty queue; code 2 where they are not as many as a queue has.
#[unsafe(no_mangle)]
pub extern "C" fn timer_map_new(q: &mut [u64]) -> u32
    ensures { Leaves result q (renewed q.old) }
{
    timer_map::timer_map_new(q)
}

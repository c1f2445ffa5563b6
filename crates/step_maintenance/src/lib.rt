// The maintenance and its timer (the definition's `Timers`).
#![tactic(auto)]

ghost use Rattle.std.specs.Prelude.{◌≤◌, length};
ghost use Rattle.base_timing.specs.Timing.{maintenance_interval};
ghost use Rattle.spec_hyparview.specs.Run.{emit, timer};
ghost use Rattle.spec_hyparview.specs.Timers.{pass_alone, maintain};
ghost use Rattle.spec_hyparview.specs.Timers.{handle_maintenance_timer};
ghost use Rattle.hyparview_state.specs.Work.{Given, Makes, Emits};

use base_timing::Timing;
use hyparview_state::{Layout, RefillLimit, Words};
use record::{Kind, Refusal};
use work::Work;

// Both views are empty: no shuffle can fill them, so Joins go out, at passes further and further apart, to the bootstrap peers
// and, as these may not be there any more, to one recent neighbor.
fn pass_alone(w: Work, st: &mut Words, draws: &[u32], out: &mut [u8]) -> Work
    requires given { Given w st draws out }
    ensures { Makes pass_alone w result st draws out }
{
    // Code 10 where the pass cannot be counted.
    let n = st[Layout::PASSES_ALONE];
    let mut a = w.require(Refusal::Counter, n < hyparview_state::TOP_PASSES);
    if a.code != 0 {
        return a;
    }
    let passes = n + 1;
    st[Layout::PASSES_ALONE] = passes;
    if base_timing::backoff_due(passes as u32) {
        // The recent neighbors that are no bootstrap peers: one of them, where there is one, gets a Join last.
        let mut recent = [0u64; base_util::WORKING_WORDS];
        let shared = &*st;
        let neighbors = &shared[Layout::RECENT..Layout::RECENT_END];
        base_util::copy_into(neighbors, Layout::RECENT_PLACES, &mut recent);
        let bootstrap = &shared[Layout::BOOTSTRAP..Layout::BOOTSTRAP_END];
        base_util::without_all(
            &mut recent,
            base_util::WORKING_PLACES,
            bootstrap,
            Layout::BOOTSTRAP_PLACES,
        );
        // Join to each bootstrap peer, in order.
        let k = base_util::count(bootstrap, Layout::BOOTSTRAP_PLACES);
        for &p in &bootstrap[..k] {
            a = step_sending::join(a, shared, out, p);
        }
        let others = base_util::count(&recent, base_util::WORKING_PLACES);
        if others == 0 {
            return a;
        }
        let c = work::draw_one_of(a, draws, others);
        let p = base_util::get_index(&recent, base_util::WORKING_PLACES, c.index);
        return step_sending::join(c.work, st, out, p);
    }
    a
}

// Alone it rejoins, without neighbors it recovers, and short it asks a few; why each so often, the definition says
// (spec_hyparview/Timers `pass_alone`, `pass_known`).
fn maintain(w: Work, st: &mut Words, draws: &[u32], out: &mut [u8]) -> Work
    requires given { Given w st draws out }
    ensures { Makes maintain w result st draws out }
{
    let alone = hyparview_state::is_alone(st);
    // Both views are empty.
    if alone & (st[Layout::PASSIVE_COUNT] == 0) {
        return pass_alone(w, st, draws, out);
    }
    // A node that knows a peer is not alone: no pass alone is counted any more, and its recovery may be over.
    if w.code == 0 {
        st[Layout::PASSES_ALONE] = 0;
    }
    let a = step_refill::end_recovery(w, st);
    // Without neighbors, every pass begins a recovery.
    if alone {
        return step_refill::start_refill(a, st, draws, out, RefillLimit::Recovery, &[]);
    }
    if hyparview_state::is_short(st) {
        // Nothing is done while a recovery runs.
        if hyparview_state::limit_of(st).is_recovery() {
            return a;
        }
        // The pass is counted (code 10 where it cannot be), and the backoff says whether it refills, with a new limit; who refused may have
        // room by then.
        let n = st[Layout::PASSES_SHORT];
        let b = a.require(Refusal::Counter, n < hyparview_state::TOP_PASSES);
        if b.code == 0 {
            st[Layout::PASSES_SHORT] = n + 1;
        }
        if base_timing::backoff_due(st[Layout::PASSES_SHORT] as u32) {
            let c = step_refill::clear_refused(b, st);
            return step_refill::start_refill(c, st, draws, out, RefillLimit::few_requests(), &[]);
        }
        return b;
    }
    step_refill::clear_refused(a, st)
}

// The interval is fixed: the backoff counts passes, and so measures time.
pub fn schedule_maintenance(w: Work, out: &mut [u8]) -> Work
    requires { w.written ≤ length out.old }
    ensures { Emits (emit (timer 2 0 maintenance_interval 0)) w result out }
{
    let delay = Timing::MAINTENANCE_INTERVAL as u64;
    work::schedule(w, out, Kind::DO_MAINTENANCE, 0, delay, 0)
}

// Who is still a neighbor becomes the newest of the recent ones, or others who come and go would push it out.
pub fn handle_maintenance_timer(w: Work, st: &mut Words, draws: &[u32], out: &mut [u8]) -> Work
    requires given { Given w st draws out }
    ensures { Makes handle_maintenance_timer w result st draws out }
{
    if w.code == 0 {
        // The neighbors become the newest of the recent ones, one after the other.
        let n = base_util::count(
            &st[Layout::ACTIVE..Layout::ACTIVE_END],
            Layout::ACTIVE_PLACES,
        );
        for i in 0..n {
            let p = base_util::get_index(
                &st[Layout::ACTIVE..Layout::ACTIVE_END],
                Layout::ACTIVE_PLACES,
                i,
            );
            base_util::renew(
                &mut st[Layout::RECENT..Layout::RECENT_END],
                Layout::RECENT_PLACES,
                Timing::MAX_RECENT_NEIGHBORS,
                p,
            );
        }
    }
    let a = maintain(w, st, draws, out);
    schedule_maintenance(a, out)
}

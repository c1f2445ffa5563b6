// What C calls of `preview`, in libpreview.a: each function calls the one of its name, under the same clauses.
#![tactic(auto)]

ghost use Rattle.std.specs.Prelude.{◌≡◌};
ghost use Rattle.spec_hyparview.specs.Sides.{side_of};
ghost use Rattle.preview.specs.Preview.{preview};

use preview::Price;

// The same for C, over memory that is read and never written.
#[unsafe(no_mangle)]
pub extern "C" fn hyparview_preview(st: &[u64], radio: bool, event: &[u8], draws: &[u32]) -> Price
    ensures { result ≡ preview st.now (side_of radio) event.now draws.now }
{
    preview::hyparview_preview(st, radio, event, draws)
}

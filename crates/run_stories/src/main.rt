// Document 02, S-13: active size, passive size and how many of all histories of at most four events end there.
#![tactic(auto)]

ghost use Rattle.std.specs.Prelude.{◌≡◌, ◌≤◌, min, length};
ghost use Rattle.base_lists.specs.Bytes.{overwrite};
ghost use Rattle.run_text.specs.Text.{Prints};
ghost use Rattle.run_stories.specs.Lines.{ends_line, ends_text};

use endings::Ends;
use run_text::Page;

fn put_line(t: &mut Page, active: u64, passive: u64, n: u32)
    ensures { Prints (ends_line active passive n) t.old t.new }
{
    t.put_field(active, b' ');
    t.put_field(passive, b' ');
    t.put_field(n as u64, b'\n');
}

fn put_ends(t: &mut Page, c: Ends)
    ensures { Prints (ends_text c) t.old t.new }
{
    put_line(t, 0, 0, c.neither);
    put_line(t, 0, 1, c.passive);
    put_line(t, 1, 0, c.active);
    put_line(t, 1, 1, c.both);
}

// The text at the front of the lent bytes, and how many of them it takes.
fn tell(out: &mut [u8], c: Ends) -> usize
    ensures value { (result ≡ min (length (ends_text c)) (length out.old)) × (result ≤ length out.old) }
    ensures out_after { out.new ≡ overwrite out.old 0 (ends_text c) }
{
    let mut t = Page::new(out);
    put_ends(&mut t, c);
    t.text.at
}

// Four lines of two digits and a count of at most ten.
const ENDS_SPACE: usize = 64;

fn main() {
    let mut text = [0u8; ENDS_SPACE];
    let n = tell(&mut text, endings::count_ends());
    io::write_all(1, &text[..n]);
}

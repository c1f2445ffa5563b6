// 01, "Random choices": the draw list together with the place reached in it.
#![tactic(auto)]

ghost use Rattle.std.specs.Prelude.{◌≡◌, drop};
ghost use Rattle.base_draws.specs.Place.{past, moved};

#[derive(Clone, Copy)]
pub struct Draws<'a> {
    pub list: &'a [u32],
    pub at: usize,
}

impl<'a> Draws<'a> {
    // What is left.
    pub fn rest(self) -> &'a [u32]
        ensures { result.now ≡ drop self.entry.at self.entry.list.now }
    {
        &self.list[self.at.min(self.list.len())..]
    }

    // What an event used is left behind, and the place is never past the end.
    pub fn skip(self, n: usize) -> Draws<'a>
        ensures { result ≡ moved self.entry n }
    {
        Draws {
            at: self.at.saturating_add(n).min(self.list.len()),
            ..self
        }
    }
}

// The draws that are left at a place, for a caller that holds the list and the place apart.
pub fn rest_from(list: &[u32], at: usize) -> &[u32]
    ensures { result.now ≡ drop at list.now }
{
    Draws { list, at }.rest()
}

// The place after n more draws, for the same caller.
pub fn place_after(list: &[u32], at: usize, n: usize) -> usize
    ensures { result ≡ past list.now at n }
{
    Draws { list, at }.skip(n).at
}

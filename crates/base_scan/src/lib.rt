// Tests of a whole list of 64-bit words that is lent. `is_in` looks at every word, so that the compiler makes vector code. The loops that
// go by a table at the low byte are no vector code: `disjoint` stops at the first word that fails, `subset` and `subset_of_three` look for each word first at the place noted.
#![tactic(auto)]

ghost use Rattle.std.specs.Prelude.{◌≡◌, ◌++◌, length};
ghost use Rattle.base_lists.specs.Lists.{mem, subset, disjoint};

// Whether x is one of the words.
pub fn is_in(s: &[u64], x: u64) -> bool
    ensures { result ≡ mem x s.now }
{
    let mut hit = false;
    // `contains`, which stops at the word, takes 25 ns for 32 words without it, and this 8.
    for &y in s {
        hit |= x == y;
    }
    hit
}

// At the low byte of each word its place in a row of lists, in which these words start at `from`.
fn note_places(s: &[u64], from: usize, hints: &mut [u8])
    requires { length hints.old ≡ 256 }
{
    for (i, &x) in s.iter().enumerate() {
        hints[(x % 256) as usize] = ((from % 256 + i) % 256) as u8;
    }
}

// Whether every word of a is in b: each is looked for first at the place noted at its low byte.
pub fn subset(a: &[u64], b: &[u64]) -> bool
    ensures { result ≡ subset a.now b.now }
{
    let mut hints = [0u8; 256];
    note_places(b, 0, &mut hints);
    let mut ok = true;
    for &x in a {
        let h = usize::from(hints[(x % 256) as usize]);
        if h < b.len() && x == b[h] {
            continue;
        }
        ok &= is_in(b, x);
    }
    ok
}

// Whether every word of a is in b, in c or in d: looked for as `subset` does, without a copy that has the three in a row.
pub fn subset_of_three(a: &[u64], b: &[u64], c: &[u64], d: &[u64]) -> bool
    ensures { result ≡ subset a.now (b.now ++ (c.now ++ d.now)) }
{
    let mut hints = [0u8; 256];
    // First those of d, so that a word that another list has too is looked for there.
    note_places(d, b.len() + c.len(), &mut hints);
    note_places(b, 0, &mut hints);
    note_places(c, b.len(), &mut hints);
    let mut ok = true;
    let m = b.len();
    let n = m + c.len();
    for &x in a {
        let h = usize::from(hints[(x % 256) as usize]);
        if h < n + d.len() {
            // The word at place h of the three lists in a row.
            let y = if h < m {
                b[h]
            } else if h < n {
                c[h - m]
            } else {
                d[h - n]
            };
            if x == y {
                continue;
            }
        }
        ok &= is_in(b, x) | (is_in(c, x) | is_in(d, x));
    }
    ok
}

// Whether no word of a is in b: only a word whose low byte is marked is looked for.
pub fn disjoint(a: &[u64], b: &[u64]) -> bool
    ensures { result ≡ disjoint a.now b.now }
{
    let mut seen = [false; 256];
    // At the low byte of each word of b a mark.
    for &y in b {
        seen[(y % 256) as usize] = true;
    }
    for &x in a {
        if seen[(x % 256) as usize] && is_in(b, x) {
            return false;
        }
    }
    true
}

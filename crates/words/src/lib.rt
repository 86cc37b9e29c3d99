// One word, handed over as the part of the list where it starts: its length and its reduction.
#![tactic(auto)]

ghost use Rattle.std.specs.Prelude.{◌≡◌, ◌<◌, ◌≤◌, length};
ghost use Rattle.theory.specs.Letters.{word_length};
ghost use Rattle.words.specs.Reduction.{Pushed, ReducedInto};

// What reducing a word says: the letters that were read, and the letters that are left.
#[derive(Clone, Copy, Debug, PartialEq, Eq)]
pub struct Reduced {
    pub read: usize,
    pub left: usize,
}

// The number of letters before the first line end, or before the end of the part.
pub fn word_length(part: &[u8]) -> usize
    ensures length { result ≡ word_length part.now }
{
    part.iter().position(|&b| b == b'\n').unwrap_or(part.len())
}

// Letter y, the i-th that is read, meets the reduced word in the first `top` cells: it goes with its
// inverse at the end, or stays behind it. Answers the new `top`; cells up to the i-th that hold no letter are 0.
fn push(work: &mut [u32], top: usize, i: usize, y: u32) -> usize
    requires { (top ≤ i) × (i < length work.old) }
    ensures pushed { Pushed work.old top i y result work.new }
{
    work[i] = 0;
    if 0 < top {
        let last = top - 1;
        if work[last] == letters::inverse(y) {
            work[last] = 0;
            return last;
        }
    }
    work[top] = y;
    top + 1
}

// Reduces the word at the start of `part` into the first cells of `work`: `work` needs a cell for each letter read.
pub fn reduce(part: &[u8], work: &mut [u32]) -> Reduced
    requires { word_length part.now ≤ length work.old }
    ensures reduced { ReducedInto part.now work.old result work.new }
{
    let read = word_length(part);
    let mut top: usize = 0;
    for (i, &b) in part[..read].iter().enumerate() {
        top = push(work, top, i, letters::letter_of(b));
    }
    Reduced { read, left: top }
}

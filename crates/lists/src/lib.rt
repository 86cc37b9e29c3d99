// Lists of words: the first refusal of a text, its counts, the walk from word to word, the shorter of two lists.
#![tactic(auto)]

ghost use Rattle.std.specs.Prelude.{◌≡◌, ◌-◌, ◌≤◌, length};
ghost use Rattle.theory.specs.Letters.{letters_in};
ghost use Rattle.theory.specs.Refusals.{is_unended, bytes_refusal, text_refusal, refused_if};
ghost use Rattle.refusals.specs.Given.{unless};
ghost use Rattle.lists.specs.Scans.{beyond_draws, drawn, last_of};
ghost use Rattle.lists.specs.Counts.{CountsOf, next_start, StartSizeOf};
ghost use Rattle.lists.specs.Shorter.{is_good, which_of, HandedBack};

use letters::Class;
use refusals::{Cause, Refusal, refuse};

// The letters of a list as written, and its words.
#[derive(Clone, Copy, Debug, PartialEq, Eq)]
pub struct Counts {
    pub letters: usize,
    pub words: usize,
}

// What is written as a list text: its words, and its bytes.
#[derive(Clone, Copy, Debug, PartialEq, Eq)]
pub struct TextSize {
    pub words: u64,
    pub bytes: u64,
}

// What a letter of generator g draws in a text over n generators: refusal 4 if it is beyond n.
fn beyond(g: u64, n: u64) -> Option<Cause>
    ensures draws { result ≡ beyond_draws g n }
{
    if g <= n { None } else { Some(Cause::Beyond) }
}

// The cause of the refusal that a byte draws, if it draws one.
fn draws(n: u64, b: u8, lines: bool) -> Option<Cause>
    ensures draws { result ≡ drawn n lines b }
{
    match letters::class_of(b) {
        Class::Lower(g) => beyond(u64::from(g), n),
        Class::Upper(g) => beyond(u64::from(g), n),
        Class::LineEnd if lines => None,
        Class::LineEnd => Some(Cause::NoLetter),
        Class::Other => Some(Cause::NoLetter),
    }
}

// The first byte that draws a refusal.
fn scan_bytes(n: u64, text: &[u8], lines: bool) -> Result<(), Refusal>
    ensures first { result ≡ unless (bytes_refusal n lines 0 text.now) tt }
{
    for (i, &b) in text.iter().enumerate() {
        if let Some(cause) = draws(n, b, lines) {
            return Err(refuse(cause, i as u64));
        }
    }
    Ok(())
}

// The text has bytes and does not end in a line end.
fn unended(text: &[u8]) -> bool
    ensures unended { result ≡ is_unended text.now }
{
    text.last().is_some_and(|&b| b != b'\n')
}

// What is left to refuse once all bytes are fine: a list that is not ended.
fn scan_end(text: &[u8], lines: bool) -> Result<(), Refusal>
    ensures last { result ≡ unless (last_of lines text.now) tt }
{
    if lines && unended(text) {
        return Err(refuse(Cause::Unended, text.len() as u64));
    }
    Ok(())
}

// The first refusal of a list (line ends allowed) or a query (none) over n generators.
pub fn scan(n: u64, text: &[u8], lines: bool) -> Result<(), Refusal>
    ensures first { result ≡ unless (text_refusal n lines text.now) tt }
{
    refusals::check_alphabet(n)?;
    if 1048576 < text.len() {
        return Err(refuse(Cause::Long, 0));
    }
    scan_bytes(n, text, lines)?;
    scan_end(text, lines)
}

// L: the letters of a text as written.
pub fn letters_in(text: &[u8]) -> usize
    ensures letters { result ≡ letters_in text.now }
{
    let mut found: usize = 0;
    for &b in text {
        if b != b'\n' {
            found += 1;
        }
    }
    found
}

// The letters and the words of a list. What is no letter is a line end, and each ends a word.
pub fn count(text: &[u8]) -> Counts
    ensures counts { CountsOf text.now result }
{
    let letters = letters_in(text);
    let ends = text.len() - letters;
    let words = if unended(text) { ends + 1 } else { ends };
    Counts { letters, words }
}

// The walk from word to word: where the word after the one that starts at `at` starts.
pub fn next_start(text: &[u8], at: usize) -> usize
    requires { at ≤ length text.now }
    ensures next { result ≡ next_start text.now at }
{
    let end = at + words::word_length(&text[at..]);
    if end < text.len() {
        end + 1
    } else {
        text.len()
    }
}

// No refusal meets the list.
pub fn is_good(n: u64, list: &[u8]) -> bool
    ensures good { result ≡ is_good n list.now }
{
    scan(n, list, true).is_ok()
}

// Which of two lists is handed back, if one is.
#[derive(Clone, Copy, Debug, PartialEq, Eq)]
pub enum Which {
    First,
    Second,
    Neither,
}

// Of two lists the one with fewer letters: the first on a tie, a good one rather than a bad one, and neither where both
// are bad or n is.
pub fn which_of(n: u64, first: &[u8], second: &[u8]) -> Which
    ensures which { result ≡ which_of n first.now second.now }
{
    if is_good(n, first) {
        if is_good(n, second) {
            if letters_in(first) <= letters_in(second) {
                return Which::First;
            }
            return Which::Second;
        }
        return Which::First;
    }
    if is_good(n, second) {
        return Which::Second;
    }
    Which::Neither
}

// That list, as the caller's own slice; the empty start of the first where it is neither.
pub fn shorter<'a>(n: u64, first: &'a [u8], second: &'a [u8]) -> &'a [u8]
    ensures shorter { HandedBack n first.entry second.entry result }
{
    match which_of(n, first, second) {
        Which::First => first,
        Which::Second => second,
        Which::Neither => &first[..0],
    }
}

// The size of the start graph: its points and its edges.
#[derive(Clone, Copy, Debug, PartialEq, Eq)]
pub struct StartSize {
    pub points: usize,
    pub edges: usize,
}

// The new points of a circle of `left` letters: one less than its letters.
pub fn new_points(left: usize) -> usize
    ensures new { result ≡ left - 1 }
{
    left.saturating_sub(1)
}

// The size of a list's start graph. The words are reduced one after the other in the lent cells, a cell for each
// letter of the list; these are 0 afterwards.
pub fn start_size(list: &[u8], work: &mut [u32]) -> StartSize
    requires { letters_in list.now ≤ length work.old }
    ensures size { StartSizeOf list.now work.old result work.new }
{
    let mut points: usize = 1;
    let mut edges: usize = 0;
    let mut at: usize = 0;
    // From word to word, each handed on where it starts: no index is counted, and no slice iterator says `next_start`.
    while at < list.len() {
        let word = words::reduce(&list[at..], work);
        points += new_points(word.left);
        edges += word.left;
        at = next_start(list, at);
    }
    cells::fill(work, letters_in(list), 0);
    StartSize { points, edges }
}

// The input of the printing program: n, the list and the queries, found in the bytes where they stand.
#![tactic(auto)]

ghost use Rattle.std.specs.Prelude.{◌≡◌, ◌+◌, ◌-◌, ◌≤◌, length, drop, [], ◌∷◌};
ghost use Rattle.inputs.specs.Inputs.{lines_of, plus_mark, alphabet_of};
ghost use Rattle.inputs.specs.declared.InputError.TheVariants.{Refused};
ghost use Rattle.inputs.specs.Parsed.{told, run_length, run_text, fronted_by, digit_from, first_number_of, moved_down, ParsedInto, query_at};

use refusals::{Cause, Refusal, refuse};

// What is wrong with an input: its lines, or its first line, which is refused.
#[derive(Clone, Copy, Debug, PartialEq, Eq)]
pub enum InputError {
    Bad,
    Refused(Refusal),
}

impl From<Refusal> for InputError {
    ghost from_gives = { λ r e. e ≡ Refused r };

    fn from(r: Refusal) -> InputError {
        InputError::Refused(r)
    }
}

// An accepted input. The list stands in its first `list` bytes now, and the lines of the queries from `queries` on.
#[derive(Clone, Copy, Debug, PartialEq, Eq)]
pub struct Accepted {
    pub n: u64,
    pub list: usize,
    pub queries: usize,
}

// A line as a query: where its text starts, its bytes, and where the next line starts.
#[derive(Clone, Copy, Debug, PartialEq, Eq)]
pub struct Query {
    pub start: usize,
    pub size: usize,
    pub next: usize,
}

// Where the run of lines with this mark ends that starts at `from`.
fn run_end(input: &[u8], from: usize, mark: u8) -> usize
    requires { from ≤ length input.now }
    ensures end { result ≡ from + run_length mark (lines_of (drop from input.now)) }
{
    let mut at = from;
    // From line to line: no index is counted.
    while at < input.len() {
        if input[at] != mark {
            return at;
        }
        at = lists::next_start(input, at);
    }
    at
}

// The number of a digit from `low` to `high`, with `tens` added, if it is one.
fn digit_from(low: u8, high: u8, tens: u64, b: u8) -> Option<u64>
    requires { (48 ≤ low) × (tens ≤ 20) }
    ensures digit { result ≡ digit_from low high tens b }
{
    if b < low || high < b {
        return None;
    }
    Some(tens + u64::from(b - 48))
}

// The number of two digits from 10 to 26, if it is one.
fn two_digits(a: u8, b: u8) -> Option<u64>
    ensures number { result ≡ told (alphabet_of 26 (a ∷ b ∷ [])) }
{
    if a == 49 {
        return digit_from(48, 57, 10, b);
    }
    if a == 50 {
        return digit_from(48, 54, 20, b);
    }
    None
}

// n of a first line: the number of 1 to 26 that it is, if it is one.
fn alphabet_of(line: &[u8]) -> Option<u64>
    ensures alphabet { result ≡ told (alphabet_of 26 line.now) }
{
    match *line {
        [b] => digit_from(49, 57, 0, b),
        [a, b] => two_digits(a, b),
        _ => None,
    }
}

// Puts the bytes from `from` to `end` to the place `to`. Answers where they end.
fn move_down(input: &mut [u8], from: usize, end: usize, to: usize) -> usize
    requires { (to ≤ from) × (from ≤ end) × (end ≤ length input.old) }
    ensures place { result ≡ to + (end - from) }
    ensures moved { input.new ≡ moved_down input.old from end to }
{
    input.copy_within(from..end, to);
    to + (end - from)
}

// Puts the texts of the '+' lines from `from` to `end` together at the front. Answers their bytes.
fn gather(input: &mut [u8], from: usize, end: usize) -> usize
    requires { (from ≤ length input.old) × (end ≡ from + run_length plus_mark (lines_of (drop from input.old))) }
    ensures size { result ≡ length (run_text (lines_of (drop from input.old))) }
    ensures text { input.new ≡ fronted_by (run_text (lines_of (drop from input.old))) input.old }
{
    let mut list: usize = 0;
    let mut at = from;
    // From line to line: no index is counted.
    while at < end {
        let next = lists::next_start(input, at);
        list = move_down(input, at + 1, next, list);
        at = next;
    }
    list
}

// n of the first line, or refusal 1.
fn first_number(input: &[u8]) -> Result<u64, Refusal>
    ensures number { result ≡ first_number_of input.now }
{
    let size = words::word_length(input);
    alphabet_of(&input[..size]).ok_or(refuse(Cause::Alphabet, 0))
}

// Finds n, the list and the queries, and puts the list in front. Bad input is found first: after the first line come
// '+' lines, then '?' lines, and nothing else.
pub fn parse(input: &mut [u8]) -> Result<Accepted, InputError>
    ensures parsed { ParsedInto input.old result input.new }
{
    let first = lists::next_start(input, 0);
    let queries = run_end(input, first, b'+');
    if run_end(input, queries, b'?') < input.len() {
        return Err(InputError::Bad);
    }
    let n = first_number(input)?;
    let list = gather(input, first, queries);
    Ok(Accepted { n, list, queries })
}

// The line that starts at `at`, as a query, if there is one.
pub fn query_at(input: &[u8], at: usize) -> Option<Query>
    ensures query { result ≡ query_at input.now at }
{
    if input.len() <= at {
        return None;
    }
    let start = at + 1;
    let next = lists::next_start(input, at);
    let size = words::word_length(&input[start..next]);
    Some(Query { start, size, next })
}

// The saved file's kinds and numbers: groups of seven bits, lowest first, the shortest form only, at most 4,294,967,295.
#![tactic(auto)]

ghost use Rattle.std.specs.Prelude.{◌≡◌, ◌+◌, ◌≤◌, length};
ghost use Rattle.theory.specs.Files.{number_bytes, number_limit};
ghost use Rattle.numbers.specs.Kinds.{kind_number, KindGiven};
ghost use Rattle.numbers.specs.Splices.{WrittenAt};
ghost use Rattle.numbers.specs.Reads.{is_needless, last_read, FoundAt, ReadAt};

use refusals::{Cause, Refusal, refuse};

// The kinds of file.
#[derive(Clone, Copy, Debug, PartialEq, Eq)]
pub enum Kind {
    Table,
    List,
}

impl Kind {
    // The number that a file of this kind begins with.
    pub fn number(self) -> u64
        ensures number { result ≡ kind_number self }
    {
        match self {
            Kind::Table => 1,
            Kind::List => 2,
        }
    }
}

// The kind of a number, or refusal 11.
impl TryFrom<u64> for Kind {
    type Error = Refusal;

    ghost try_from_gives = { KindGiven };

    fn try_from(number: u64) -> Result<Kind, Refusal> {
        match number {
            1 => Ok(Kind::Table),
            2 => Ok(Kind::List),
            _ => Err(refuse(Cause::Kind, 0)),
        }
    }
}

// A number that stands at a place of a file, and where it ends.
#[derive(Clone, Copy, Debug, PartialEq, Eq)]
pub struct Number {
    pub value: u64,
    pub next: usize,
}

// The bytes that x takes.
pub fn number_size(x: u64) -> usize
    requires { x ≤ number_limit }
    ensures size { result ≡ length (number_bytes x) }
{
    let mut rest = x;
    let mut size: usize = 1;
    // No `for`: as long as groups are left.
    while 127 < rest {
        rest = rest / 128;
        size += 1;
    }
    size
}

// Writes x from place `at` on, and answers the place behind it.
pub fn write_number(out: &mut [u8], at: usize, x: u64) -> usize
    requires { (x ≤ number_limit) × (at + length (number_bytes x) ≤ length out.old) }
    ensures written { WrittenAt at (number_bytes x) out.old result out.new }
{
    let mut rest = x;
    let mut i = at;
    // No `for`: as long as groups are left.
    while 127 < rest {
        out[i] = 128 + (rest % 128) as u8;
        rest = rest / 128;
        i += 1;
    }
    out[i] = rest as u8;
    i + 1
}

// The last group b says nothing: it is 0, behind other groups.
fn is_needless(b: u64, scale: u64) -> bool
    ensures needless { result ≡ is_needless b scale }
{
    if 0 < b {
        return false;
    }
    if scale < 2 {
        return false;
    }
    true
}

// The number whose last group is b, at `scale`, behind groups that make `value`. A last group 0 is needless behind others.
fn last_group(value: u64, scale: u64, b: u64, next: usize) -> Option<Number>
    requires { (value ≤ 1099511627776) × (scale ≤ 268435456) × (b ≤ 127) }
    ensures number { result ≡ last_read value scale b next }
{
    let x = value + scale * b;
    if is_needless(b, scale) {
        return None;
    }
    if 4294967295 < x {
        return None;
    }
    Some(Number { value: x, next })
}

// The number at place `at`, read group by group: `scale` is 128 to the number of groups behind, which make `value`. None
// where it is cut, too long or too big: a number ends five bytes on at the latest.
fn find_number(file: &[u8], at: usize) -> Option<Number>
    requires { at ≤ length file.now }
    ensures number { FoundAt file.now at result }
{
    let mut value: u64 = 0;
    let mut scale: u64 = 1;
    for (i, &byte) in file[at..].iter().take(5).enumerate() {
        let b = u64::from(byte);
        if b < 128 {
            return last_group(value, scale, b, at + i + 1);
        }
        value += scale * (b - 128);
        scale = scale * 128;
    }
    None
}

// Reads the number at place `at`, or refuses by 10 at this place.
pub fn read_number(file: &[u8], at: usize) -> Result<Number, Refusal>
    requires { at ≤ length file.now }
    ensures number { ReadAt file.now at result }
{
    find_number(file, at).ok_or(refuse(Cause::NoNumber, at as u64))
}

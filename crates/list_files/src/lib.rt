// A list in a file of kind 2, behind the kind and n: read through, then written as a text.
#![tactic(auto)]

ghost use Rattle.std.specs.Prelude.{◌≡◌, true, ◌++◌, ◌+◌, ◌*◌, ◌≤◌, length, drop};
ghost use Rattle.theory.specs.Texts.{list_text};
ghost use Rattle.theory.specs.Refusals.{is_alphabet};
ghost use Rattle.runs.specs.Runs.{numbers_at, Whole, values_of, place_of};
ghost use Rattle.list_files.specs.ListFiles.{words_at, words_in, read_for, text_for, ListOutcome};
ghost use Rattle.list_files.specs.Parts.{passed_as, AllRead, words_of, place_behind, line_of, PutAt};

use lists::TextSize;
use refusals::{Cause, Refusal, refuse};

// The place behind words that were read through, and how many bytes their text has.
#[derive(Clone, Copy, Debug, PartialEq, Eq)]
struct Passed {
    place: usize,
    bytes: usize,
}

// Where reading goes on in the file, and writing in the text.
#[derive(Clone, Copy, Debug, PartialEq, Eq)]
struct Places {
    from: usize,
    to: usize,
}

// Reads through the word at place `at`: its length, then its letters, each below 2n. Its text has a byte for each letter, and the line end.
fn skip_word(n: u64, file: &[u8], at: usize) -> Result<Passed, Refusal>
    requires { (is_alphabet n ≡ true) × (at ≤ length file.now) }
    ensures passed { result ≡ passed_as (words_at n file.now at 1) }
{
    let number = numbers::read_number(file, at)?;
    let place = runs::skip(file, number.next, number.value, 2 * n)?;
    Ok(Passed {
        place,
        bytes: number.value as usize + 1,
    })
}

// Reads through `count` words from place `at` on. Their text is never longer than they are.
fn skip_words(n: u64, file: &[u8], at: usize, count: u64) -> Result<Passed, Refusal>
    requires { (is_alphabet n ≡ true) × (at ≤ length file.now) }
    ensures passed { result ≡ passed_as (words_at n file.now at count) }
{
    let mut place = at;
    let mut bytes: usize = 0;
    for _ in 0..count {
        let word = skip_word(n, file, place)?;
        bytes += word.bytes;
        place = word.place;
    }
    Ok(Passed { place, bytes })
}

// Writes the bytes of `count` letters that were read through from place `at` of the file on, and a line end, to the text's place `to` on.
fn put_letters(n: u64, file: &[u8], at: usize, count: usize, text: &mut [u8], to: usize) -> Places
    requires { (is_alphabet n ≡ true) × (at ≤ length file.now) × (to + count + 1 ≤ length text.old) × Whole (numbers_at (2 * n) file.now at count) }
    ensures put { PutAt (place_of (numbers_at (2 * n) file.now at count)) to (line_of (values_of (numbers_at (2 * n) file.now at count))) text.old result text.new }
{
    let mut p = at;
    let end = to + count;
    for i in to..end {
        let Ok(number) = numbers::read_number(file, p) else {
            return Places { from: p, to: i };
        };
        text[i] = letters::byte_of(number.value as usize);
        p = number.next;
    }
    text[end] = b'\n';
    Places {
        from: p,
        to: end + 1,
    }
}

// Writes the line of a word that was read through at place `at` of the file to the text's place `to` on.
fn put_word(n: u64, file: &[u8], at: usize, text: &mut [u8], to: usize) -> Places
    requires { (is_alphabet n ≡ true) × (at ≤ length file.now) × (to + length (list_text (words_of (words_at n file.now at 1))) ≤ length text.old) × AllRead (words_at n file.now at 1) }
    ensures put { PutAt (place_behind (words_at n file.now at 1)) to (list_text (words_of (words_at n file.now at 1))) text.old result text.new }
{
    let Ok(number) = numbers::read_number(file, at) else {
        return Places { from: at, to };
    };
    put_letters(n, file, number.next, number.value as usize, text, to)
}

// Writes the text of `count` words that were read through from place `at` of the file on.
fn put_words(n: u64, file: &[u8], at: usize, count: u64, text: &mut [u8])
    requires { (is_alphabet n ≡ true) × (at ≤ length file.now) × (length (list_text (words_of (words_at n file.now at count))) ≤ length text.old) × AllRead (words_at n file.now at count) }
    ensures text { text.new ≡ list_text (words_of (words_at n file.now at count)) ++ drop (length (list_text (words_of (words_at n file.now at count)))) text.old }
{
    let mut places = Places { from: at, to: 0 };
    for _ in 0..count {
        places = put_word(n, file, places.from, text, places.to);
    }
}

// Reads the words of a list from place `at` on back to their text, or refuses: 10 or 4, 12, 2, 9. Nothing is written before all is read through.
fn read_words(
    n: u64,
    file: &[u8],
    at: usize,
    count: u64,
    text: &mut [u8],
) -> Result<TextSize, Refusal>
    requires { (is_alphabet n ≡ true) × (at ≤ length file.now) }
    ensures answer { result ≡ read_for (words_in (length text.old) file.now (words_at n file.now at count)) }
    ensures cells { text.new ≡ text_for text.old (words_in (length text.old) file.now (words_at n file.now at count)) }
{
    let Passed { place, bytes } = skip_words(n, file, at, count)?;
    if place < file.len() {
        return Err(refuse(Cause::Behind, place as u64));
    }
    if 1048576 < bytes {
        return Err(refuse(Cause::Long, 0));
    }
    refusals::check_room(Cause::Output, bytes as u64, text.len() as u64)?;
    put_words(n, file, at, count, text);
    Ok(TextSize {
        words: count,
        bytes: bytes as u64,
    })
}

// Reads the list that stands from place `at` on back to its text, or refuses: 10, 10 or 4, 12, 2, 9.
pub fn read_list(n: u64, file: &[u8], at: usize, text: &mut [u8]) -> Result<TextSize, Refusal>
    requires { (is_alphabet n ≡ true) × (at ≤ length file.now) }
    ensures outcome { ListOutcome n file.now at text.old result text.new }
{
    let number = numbers::read_number(file, at)?;
    read_words(n, file, number.next, number.value, text)
}

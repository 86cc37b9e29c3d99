// Saving: a canonical table as a file of kind 1, a list as a file of kind 2.
#![tactic(auto)]

ghost use Rattle.std.specs.Prelude.{◌≡◌, true, [], ◌∷◌, map, ◌+◌, ◌≤◌, length};
ghost use Rattle.std.proofs.Math.Option.{none};
ghost use Rattle.theory.specs.Files.{cell_number, numbers_bytes, number_limit, table_file, word_numbers, list_file};
ghost use Rattle.theory.specs.Letters.{word_length, first_word, words_of};
ghost use Rattle.theory.specs.Refusals.{text_limit, text_refusal};
ghost use Rattle.theory.specs.TableRefusals.{cell_refusal};
ghost use Rattle.numbers.specs.Kinds.{kind_number};
ghost use Rattle.numbers.specs.Splices.{WrittenAt};
ghost use Rattle.saves.specs.Runs.{word_run, SavableList};
ghost use Rattle.saves.specs.Saves.{SaveTableOutcome, SaveListOutcome};

use cells::ABSENT;
use numbers::Kind;
use refusals::{Cause, Refusal};
use tables::{Lent, Table};

// The number of a cell: 0 for absent, otherwise the point + 1.
fn number_of(x: u32) -> u64
    ensures number { (result ≡ cell_number x) × (result ≤ number_limit) }
{
    if x == ABSENT {
        return 0;
    }
    u64::from(x) + 1
}

// The bytes that cells take.
fn cells_size(cells: &[u32]) -> usize
    requires { length cells.now ≤ 54526004 }
    ensures size { result ≡ length (numbers_bytes (map cell_number cells.now)) }
{
    let mut size: usize = 0;
    for &x in cells {
        size += numbers::number_size(number_of(x));
    }
    size
}

// Writes the numbers of cells from place `at` on, and answers the place behind them.
fn write_cells(cells: &[u32], out: &mut [u8], at: usize) -> usize
    requires { at + length (numbers_bytes (map cell_number cells.now)) ≤ length out.old }
    ensures written { WrittenAt at (numbers_bytes (map cell_number cells.now)) out.old result out.new }
{
    let mut p = at;
    for &x in cells {
        p = numbers::write_number(out, p, number_of(x));
    }
    p
}

// The bytes that the kind, n and a count take: the first two take one each.
fn head_size(kind: Kind, n: u64, count: u64) -> usize
    requires { (n ≤ 127) × (count ≤ number_limit) }
    ensures size { result ≡ length (numbers_bytes (kind_number kind ∷ n ∷ count ∷ [])) }
{
    2 + numbers::number_size(count)
}

// Writes the kind, n and a count, and answers the place behind them.
fn write_head(out: &mut [u8], kind: Kind, n: u64, count: u64) -> usize
    requires { (n ≤ 127) × (count ≤ number_limit) × (length (numbers_bytes (kind_number kind ∷ n ∷ count ∷ [])) ≤ length out.old) }
    ensures written { WrittenAt 0 (numbers_bytes (kind_number kind ∷ n ∷ count ∷ [])) out.old result out.new }
{
    let first = numbers::write_number(out, 0, kind.number());
    let second = numbers::write_number(out, first, n);
    numbers::write_number(out, second, count)
}

// The bytes of a table's file.
fn table_size(t: &Lent) -> usize
    ensures size { result ≡ length (table_file t.now.n t.now.points t.now.cells.now) }
{
    let head = head_size(Kind::Table, t.n, t.points);
    head + cells_size(&t.cells[..t.cell_count()])
}

// Writes a table's file.
fn write_table(t: &Lent, out: &mut [u8]) -> usize
    requires room { length (table_file t.now.n t.now.points t.now.cells.now) ≤ length out.old }
    ensures written { WrittenAt 0 (table_file t.now.n t.now.points t.now.cells.now) out.old result out.new }
{
    let at = write_head(out, Kind::Table, t.n, t.points);
    write_cells(&t.cells[..t.cell_count()], out, at)
}

// Saves a canonical table, or refuses: 9. The length is known before anything is written.
fn save_checked(t: &Lent, out: &mut [u8]) -> Result<u64, Refusal>
    requires sound { cell_refusal t.now.n t.now.points t.now.cells.now ≡ none }
    ensures outcome { SaveTableOutcome t.now.n t.now.points t.now.cells.now out.old result out.new }
{
    let needed = table_size(t);
    refusals::check_room(Cause::Output, needed as u64, out.len() as u64)?;
    Ok(write_table(t, out) as u64)
}

// Saves a table handed in as a file of kind 1, or refuses: 1, 6, 8, 9.
pub fn save_table(t: &Table, out: &mut [u8]) -> Result<u64, Refusal>
    ensures outcome { SaveTableOutcome t.now.n t.now.points t.now.cells.now out.old result out.new }
{
    let lent = t.lend()?;
    lent.walk()?;
    save_checked(&lent, out)
}

// The bytes that the words of a list take: each its length's, and one for each letter.
fn words_size(list: &[u8]) -> usize
    requires { length list.now ≤ text_limit }
    ensures size { result ≡ length (numbers_bytes (word_numbers (words_of list.now))) }
{
    let mut size: usize = 0;
    let mut at: usize = 0;
    // From word to word, each handed on where it starts: no index is counted, and no slice iterator says `next_start`.
    while at < list.len() {
        let read = words::word_length(&list[at..]);
        size += numbers::number_size(read as u64) + read;
        at = lists::next_start(list, at);
    }
    size
}

// Writes the letters of the word at the start of `part` from place `at` on, and answers the place behind them.
fn write_letters(part: &[u8], read: usize, out: &mut [u8], at: usize) -> usize
    requires { (read ≡ word_length part.now) × (at + length (numbers_bytes (first_word part.now)) ≤ length out.old) }
    ensures written { WrittenAt at (numbers_bytes (first_word part.now)) out.old result out.new }
{
    let mut p = at;
    for &b in &part[..read] {
        p = numbers::write_number(out, p, u64::from(letters::letter_of(b)));
    }
    p
}

// Writes the word at the start of `part` from place `at` on, its length and then its letters, and answers the place behind it.
fn write_word(part: &[u8], out: &mut [u8], at: usize) -> usize
    requires { (length part.now ≤ text_limit) × (at + length (numbers_bytes (word_run (first_word part.now))) ≤ length out.old) }
    ensures written { WrittenAt at (numbers_bytes (word_run (first_word part.now))) out.old result out.new }
{
    let read = words::word_length(part);
    let first = numbers::write_number(out, at, read as u64);
    write_letters(part, read, out, first)
}

// Writes the words of a list from place `at` on, each where it starts in the list, and answers the place behind them.
fn write_words(list: &[u8], out: &mut [u8], at: usize) -> usize
    requires { (length list.now ≤ text_limit) × (at + length (numbers_bytes (word_numbers (words_of list.now))) ≤ length out.old) }
    ensures written { WrittenAt at (numbers_bytes (word_numbers (words_of list.now))) out.old result out.new }
{
    let mut p = at;
    let mut i: usize = 0;
    // From word to word, each handed on where it starts: no index is counted, and no slice iterator says `next_start`.
    while i < list.len() {
        p = write_word(&list[i..], out, p);
        i = lists::next_start(list, i);
    }
    p
}

// The bytes of a list's file.
fn list_size(n: u64, list: &[u8]) -> usize
    requires { SavableList n (length list.now) }
    ensures size { result ≡ length (list_file n (words_of list.now)) }
{
    let counts = lists::count(list);
    let head = head_size(Kind::List, n, counts.words as u64);
    head + words_size(list)
}

// Writes a list's file.
fn write_list(n: u64, list: &[u8], out: &mut [u8]) -> usize
    requires { SavableList n (length list.now) × (length (list_file n (words_of list.now)) ≤ length out.old) }
    ensures written { WrittenAt 0 (list_file n (words_of list.now)) out.old result out.new }
{
    let counts = lists::count(list);
    let at = write_head(out, Kind::List, n, counts.words as u64);
    write_words(list, out, at)
}

// Saves a list that no refusal meets, or refuses: 9. The length is known before anything is written.
fn save_fine(n: u64, list: &[u8], out: &mut [u8]) -> Result<u64, Refusal>
    requires { text_refusal n true list.now ≡ none }
    ensures outcome { SaveListOutcome n list.now out.old result out.new }
{
    let needed = list_size(n, list);
    refusals::check_room(Cause::Output, needed as u64, out.len() as u64)?;
    Ok(write_list(n, list, out) as u64)
}

// Saves a list text as a file of kind 2, or refuses: 1, 2, 3 or 4, 5, 9.
pub fn save_list(n: u64, list: &[u8], out: &mut [u8]) -> Result<u64, Refusal>
    ensures outcome { SaveListOutcome n list.now out.old result out.new }
{
    lists::scan(n, list, true)?;
    save_fine(n, list, out)
}

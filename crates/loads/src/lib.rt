// Loading: one loader for files of both kinds, which says which it met.
#![tactic(auto)]

ghost use Rattle.std.specs.Prelude.{◌≡◌, true, ◌≤◌, length};
ghost use Rattle.theory.specs.Refusals.{is_alphabet};
ghost use Rattle.numbers.specs.Kinds.{kind_number};
ghost use Rattle.runs.specs.Runs.{number_at};
ghost use Rattle.table_files.specs.TableFiles.{table_in, table_for};
ghost use Rattle.list_files.specs.ListFiles.{list_in, text_for};
ghost use Rattle.loads.specs.Loads.{table_met, list_met, by_kind, after_n, loaded_for, FileOutcome, LoadOutcome};

use lists::TextSize;
use numbers::Kind;
use refusals::Refusal;

// What was loaded: a table over n generators with its points, or a list over n generators with the size of its text.
#[derive(Clone, Copy, Debug, PartialEq, Eq)]
pub enum Loaded {
    Table { n: u64, points: u64 },
    List { n: u64, size: TextSize },
}

// Loads the table that stands from place `at` on.
fn load_table(n: u64, file: &[u8], at: usize, table: &mut [u32]) -> Result<Loaded, Refusal>
    requires { (is_alphabet n ≡ true) × (at ≤ length file.now) }
    ensures answer { result ≡ loaded_for (table_met n (table_in n (length table.old) file.now at)) }
    ensures cells { table.new ≡ table_for table.old (table_in n (length table.old) file.now at) }
{
    let points = table_files::read_table(n, file, at, table)?;
    Ok(Loaded::Table { n, points })
}

// Loads the list that stands from place `at` on.
fn load_list(n: u64, file: &[u8], at: usize, text: &mut [u8]) -> Result<Loaded, Refusal>
    requires { (is_alphabet n ≡ true) × (at ≤ length file.now) }
    ensures answer { result ≡ loaded_for (list_met n (list_in n (length text.old) file.now at)) }
    ensures bytes { text.new ≡ text_for text.old (list_in n (length text.old) file.now at) }
{
    let size = list_files::read_list(n, file, at, text)?;
    Ok(Loaded::List { n, size })
}

// Loads what stands behind n, by the kind.
fn load_part(
    kind: Kind,
    n: u64,
    file: &[u8],
    at: usize,
    table: &mut [u32],
    text: &mut [u8],
) -> Result<Loaded, Refusal>
    requires { (is_alphabet n ≡ true) × (at ≤ length file.now) }
    ensures outcome { FileOutcome (by_kind (length table.old) (length text.old) file.now (kind_number kind) n at) table.old text.old result table.new text.new }
{
    match kind {
        Kind::Table => load_table(n, file, at, table),
        Kind::List => load_list(n, file, at, text),
    }
}

// Loads what stands behind the kind: n (10, 1), then a table or a list.
fn load_kind(
    kind: Kind,
    file: &[u8],
    at: usize,
    table: &mut [u32],
    text: &mut [u8],
) -> Result<Loaded, Refusal>
    requires { at ≤ length file.now }
    ensures outcome { FileOutcome (after_n (length table.old) (length text.old) file.now (kind_number kind) at (number_at file.now at)) table.old text.old result table.new text.new }
{
    let n = numbers::read_number(file, at)?;
    refusals::check_alphabet(n.value)?;
    load_part(kind, n.value, file, n.next, table, text)
}

// Loads a file of either kind, or refuses: kind (10, 11), n (10, 1), points (10, 6) or the word count (10), the remaining numbers (10 or 4), 12, then 8, or 2 and 9.
pub fn load(file: &[u8], table: &mut [u32], text: &mut [u8]) -> Result<Loaded, Refusal>
    ensures outcome { LoadOutcome file.now table.old text.old result table.new text.new }
{
    let number = numbers::read_number(file, 0)?;
    let kind = Kind::try_from(number.value)?;
    load_kind(kind, file, number.next, table, text)
}

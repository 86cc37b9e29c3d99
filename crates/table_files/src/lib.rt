// A table in a file of kind 1, behind the kind and n: read through, then written, then walked.
#![tactic(auto)]

ghost use Rattle.std.specs.Prelude.{◌≡◌, true, ◌++◌, ◌*◌, ◌≤◌, length, drop};
ghost use Rattle.theory.specs.Files.{number_limit};
ghost use Rattle.theory.specs.Refusals.{is_alphabet};
ghost use Rattle.theory.specs.TableRefusals.{cell_refusal};
ghost use Rattle.tables.specs.Lent.{IsLent};
ghost use Rattle.runs.specs.Runs.{behind};
ghost use Rattle.table_files.specs.TableFiles.{number_cell, by_fault, points_in, read_for, table_for, TableOutcome};
ghost use Rattle.table_files.specs.Parts.{Whole, cells_of, run_of};
ghost use Rattle.std.proofs.Math.Option.{some};

use cells::ABSENT;
use refusals::{Cause, Refusal, refuse};
use tables::{Lent, Table};

// The cell of a number: absent for 0, else the point before it.
fn cell_of(x: u64) -> u32
    requires { x ≤ number_limit }
    ensures cell { result ≡ number_cell x }
{
    if x == 0 {
        return ABSENT;
    }
    (x - 1) as u32
}

// Writes the cells of `count` numbers that were read through, from place `at` of the file on.
fn put_cells(file: &[u8], at: usize, count: usize, table: &mut [u32])
    requires { (at ≤ length file.now) × (count ≤ length table.old) × Whole (run_of file.now at count) }
    ensures cells { table.new ≡ cells_of (run_of file.now at count) ++ drop count table.old }
{
    let mut p = at;
    for cell in &mut table[..count] {
        let Ok(number) = numbers::read_number(file, p) else {
            return;
        };
        *cell = cell_of(number.value);
        p = number.next;
    }
}

// Writes the cells of a table that were read through, and walks it: a faulty one is taken back and refused by 8.
fn fill_table(
    n: u64,
    points: u64,
    file: &[u8],
    at: usize,
    table: &mut [u32],
) -> Result<u64, Refusal>
    requires lent { IsLent n points table.old }
    requires inside { at ≤ length file.now }
    requires whole { Whole (run_of file.now at (points * (2 * n))) }
    ensures answer { result ≡ read_for (by_fault points (cells_of (run_of file.now at (points * (2 * n)))) (cell_refusal n points (cells_of (run_of file.now at (points * (2 * n)))))) }
    ensures cells { table.new ≡ table_for table.old (by_fault points (cells_of (run_of file.now at (points * (2 * n)))) (cell_refusal n points (cells_of (run_of file.now at (points * (2 * n)))))) }
{
    let cells = &*table;
    let count = Lent { n, points, cells }.cell_count();
    put_cells(file, at, count, table);
    let cells = &*table;
    if let Err(r) = (Lent { n, points, cells }).walk() {
        cells::fill(table, count, ABSENT);
        return Err(r);
    }
    Ok(points)
}

// Reads the cells of a table of so many points from place `at` on, or refuses: 6, 10, 12, 8. Nothing is written before all is read through.
fn read_cells(
    n: u64,
    points: u64,
    file: &[u8],
    from: usize,
    at: usize,
    table: &mut [u32],
) -> Result<u64, Refusal>
    requires alphabet { is_alphabet n ≡ true }
    requires inside { at ≤ length file.now }
    requires here { at ≡ behind from points }
    ensures answer { result ≡ read_for (points_in n (length table.old) file.now from (some points)) }
    ensures cells { table.new ≡ table_for table.old (points_in n (length table.old) file.now from (some points)) }
{
    let cells = &*table;
    let count = Table { n, points, cells }.lend()?.cell_count() as u64;
    let end = runs::skip(file, at, count, 4294967296)?;
    if end < file.len() {
        return Err(refuse(Cause::Behind, end as u64));
    }
    fill_table(n, points, file, at, table)
}

// Reads the table that stands from place `at` on, or refuses: 10, 6, 10, 12, 8.
pub fn read_table(n: u64, file: &[u8], at: usize, table: &mut [u32]) -> Result<u64, Refusal>
    requires { (is_alphabet n ≡ true) × (at ≤ length file.now) }
    ensures outcome { TableOutcome n file.now at table.old result table.new }
{
    let number = numbers::read_number(file, at)?;
    read_cells(n, number.value, file, at, number.next, table)
}

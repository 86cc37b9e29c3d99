// The printing program of document 01: reads n, a list and queries, and prints the figures of the list's subgroup, its
// basis, and an answer to each query. It has five buffers; the list is put together in the one of the input.
#![tactic(auto)]

ghost use Rattle.std.specs.Prelude.{◌≡◌, ◌≤◌, length, take};
ghost use Rattle.inputs.specs.Parsed.{walked_from};
ghost use Rattle.printer.specs.LentCells.{BasisRun, lent, after_query, after_queries, buffers_of, ListDone, InputDone};

use folds::FoldFigures;
use inputs::InputError;
use prints::Output;
use refusals::Refusal;
use std::io;
use tables::{Figures, Table};

// Writes a line of a name and a number.
fn print_figure(out: &mut Output, name: &[u8], x: u64) {
    prints::text(out, name);
    prints::next(out, x);
    prints::text(out, b"\n");
}

// Writes the line of the index. Not `fold_cases`': each program has its own bytes.
fn print_index(out: &mut Output, index: Option<u64>) {
    match index {
        Some(k) => print_figure(out, b"index", k),
        None => prints::text(out, b"index infinite\n"),
    }
}

// Writes the lines of the table's figures.
fn print_counts(out: &mut Output, points: u64, counts: Figures) {
    print_figure(out, b"points", points);
    print_figure(out, b"edges", counts.edges);
    print_figure(out, b"rank", counts.rank);
    print_index(out, counts.index);
}

// Writes the line that says whether the subgroup is normal.
fn print_normal(out: &mut Output, normal: Result<bool, Refusal>) {
    match normal {
        Ok(true) => prints::text(out, b"normal yes\n"),
        Ok(false) => prints::text(out, b"normal no\n"),
        Err(r) => prints::refused(out, r),
    }
}

// Writes the lines of the start graph and of the folds.
fn print_folds(out: &mut Output, f: FoldFigures) {
    prints::text(out, b"start");
    prints::next(out, f.start.points as u64);
    prints::next(out, f.start.edges as u64);
    prints::text(out, b"\nfolds");
    prints::next(out, f.merging);
    prints::next(out, f.closing);
    prints::text(out, b"\n");
}

// Writes the line of a basis word that has its line end.
fn print_word(out: &mut Output, word: &[u8]) {
    prints::text(out, b"basis ");
    prints::text(out, word);
}

// Writes a line for each word of a basis.
fn print_words(out: &mut Output, text: &[u8]) {
    let mut at: usize = 0;
    // From line to line: no index is counted.
    while at < text.len() {
        let next = lists::next_start(text, at);
        print_word(out, &text[at..next]);
        at = next;
    }
}

// Writes the lines of the basis, or its refusal in place of them.
fn print_basis(out: &mut Output, t: &Table, work: &mut [u32], basis: &mut [u8])
    ensures run { BasisRun t.now.n t.now.points t.now.cells.now work.old basis.old work.new basis.new }
{
    match bases::basis(t, work, basis) {
        Ok(size) => {
            let bytes = size.bytes as usize;
            print_words(out, &basis[..bytes]);
        }
        Err(r) => prints::refused(out, r),
    }
}

// Writes the numbers of an expression.
fn print_numbers(out: &mut Output, numbers: &[i32]) {
    for &z in numbers {
        prints::signed(out, z);
    }
}

// Writes the line of a query that is no member.
fn print_outside(out: &mut Output, query: &[u8]) {
    prints::text(out, query);
    prints::text(out, b" no\n");
}

// Writes the line of a member: the word as written, and its expression.
fn print_inside(out: &mut Output, query: &[u8], numbers: &[i32]) {
    prints::text(out, query);
    prints::text(out, b" yes");
    print_numbers(out, numbers);
    prints::text(out, b"\n");
}

// Writes the line of a query, or its refusal in place of it.
fn print_query(out: &mut Output, t: &Table, query: &[u8], work: &mut [u32], expression: &mut [i32])
    ensures cells { lent work.new expression.new ≡ after_query t.now.n t.now.points t.now.cells.now query.now (lent work.old expression.old) }
{
    match expressions::express(t, query, work, expression) {
        Ok(Some(count)) => {
            let size = count as usize;
            print_inside(out, query, &expression[..size]);
        }
        Ok(None) => print_outside(out, query),
        Err(r) => prints::refused(out, r),
    }
}

// Writes the lines of the queries that stand in the input from `from` on.
fn print_queries(
    out: &mut Output,
    t: &Table,
    input: &[u8],
    from: usize,
    work: &mut [u32],
    expression: &mut [i32],
)
    ensures cells { lent work.new expression.new ≡ after_queries t.now.n t.now.points t.now.cells.now (walked_from (length input.now) input.now from) (lent work.old expression.old) }
{
    let mut at = from;
    while let Some(query) = inputs::query_at(input, at) {
        let end = query.start + query.size;
        print_query(out, t, &input[query.start..end], work, expression);
        at = query.next;
    }
}

// Writes what is said of a list, or its refusal.
fn print_list(
    out: &mut Output,
    n: u64,
    input: &[u8],
    list: usize,
    queries: usize,
    basis: &mut [u8],
    table: &mut [u32],
    work: &mut [u32],
    expression: &mut [i32],
)
    requires { list ≤ length input.now }
    ensures done { ListDone n (take list input.now) (walked_from (length input.now) input.now queries) (buffers_of basis.old table.old work.old expression.old) (buffers_of basis.new table.new work.new expression.new) }
{
    match folds::fold(n, &input[..list], table, work) {
        Err(r) => prints::refused(out, r),
        Ok(f) => {
            let points = f.points;
            let t = Table {
                n,
                points,
                cells: &*table,
            };
            print_counts(out, points, f.counts);
            print_normal(out, normals::normal(&t, work));
            print_folds(out, f);
            print_basis(out, &t, work, basis);
            print_queries(out, &t, input, queries, work, expression);
        }
    }
}

// Writes what is said of an input.
fn print_input(
    out: &mut Output,
    input: &mut [u8],
    basis: &mut [u8],
    table: &mut [u32],
    work: &mut [u32],
    expression: &mut [i32],
)
    ensures done { InputDone input.old (buffers_of basis.old table.old work.old expression.old) input.new (buffers_of basis.new table.new work.new expression.new) }
{
    match inputs::parse(input) {
        Err(InputError::Bad) => prints::text(out, b"bad input\n"),
        Err(InputError::Refused(r)) => prints::refused(out, r),
        Ok(a) => print_list(
            out, a.n, input, a.list, a.queries, basis, table, work, expression,
        ),
    }
}

fn main(rt: HostRuntime) -> io::Result<()> {
    let mut from = rt.stdin();
    let mut out = Output::new(rt.stdout());
    let mut input = [0u8; 65536];
    let mut basis = [0u8; 65536];
    let mut table = [0u32; 16384];
    let mut work = [0u32; 16384];
    let mut expression = [0i32; 16384];
    let got = reads::read_full(&mut from, &mut input)?;
    if 65536 <= got {
        // One byte more tells whether the input goes on.
        let mut more = [0u8; 1];
        if 0 < reads::read_full(&mut from, &mut more)? {
            prints::text(&mut out, b"bad input\n");
            return out.finish();
        }
    }
    print_input(
        &mut out,
        &mut input[..got],
        &mut basis,
        &mut table,
        &mut work,
        &mut expression,
    );
    out.finish()
}

// Runs stored cases through the functions on lent tables, and prints what each says, a line a case.
// A case is sixteen bytes (op, n, V, cells, second n, V, cells, query, work, and seven that are passed over), then the
// codes of its cells, of its second table's cells, and the bytes of its query.
#![tactic(auto)]

ghost use Rattle.std.specs.Prelude.{◌≡◌, ◌≤◌, length};
ghost use Rattle.members.specs.Members.{cells_after};
ghost use Rattle.table_cases.specs.Cases.{case_of, rest_of, asked_cells, CaseRun};

use prints::Output;
use std::io;
use tables::{Figures, Table};

// Writes the counts of a table.
fn print_figures(out: &mut Output, f: Figures) {
    prints::text(out, b"counts");
    prints::next(out, f.edges);
    prints::next(out, f.rank);
    match f.index {
        Some(k) => prints::next(out, k),
        None => prints::text(out, b" infinite"),
    }
}

// A table is checked.
fn run_check(out: &mut Output, t: &Table) {
    match t.check() {
        Ok(f) => print_figures(out, f),
        Err(r) => prints::refusal(out, r),
    }
}

// A query is asked of a table; the work cells follow.
fn run_member(out: &mut Output, t: &Table, query: &[u8], work: &mut [u32])
    ensures cells { work.new ≡ cells_after t.now.n t.now.points t.now.cells.now query.now work.old }
{
    match members::member(t, query, work) {
        Ok(true) => prints::text(out, b"inside"),
        Ok(false) => prints::text(out, b"outside"),
        Err(r) => prints::refusal(out, r),
    }
    prints::text(out, b" work");
    prints::cells(out, work);
}

// Two tables are compared.
fn run_equal(out: &mut Output, a: &Table, b: &Table) {
    match equals::equal(a, b) {
        Ok(true) => prints::text(out, b"equal"),
        Ok(false) => prints::text(out, b"different"),
        Err(r) => prints::refusal(out, r),
    }
}

// The numbers of a case: what is asked, those of its table and of its second table, and how many work cells it has.
#[derive(Drop)]
struct Case {
    op: u8,
    n: u64,
    points: u64,
    count: usize,
    second_n: u64,
    second_points: u64,
    second_count: usize,
    size: usize,
}

// What is asked of the tables of a case, once its cells are there.
fn ask(out: &mut Output, c: Case, first: &[u32], second: &[u32], query: &[u8], work: &mut [u32])
    ensures asked { work.new ≡ asked_cells c first.now query.now work.old }
{
    let table = Table {
        n: c.n,
        points: c.points,
        cells: first,
    };
    // A stored case's byte, told apart here alone.
    match c.op {
        1 => run_check(out, &table),
        2 => run_member(out, &table, query, work),
        _ => {
            let other = Table {
                n: c.second_n,
                points: c.second_points,
                cells: second,
            };
            run_equal(out, &table, &other)
        }
    }
}

// One case, from its numbers and what follows its head. A case that does not fit its own numbers is passed over.
fn run_case(
    out: &mut Output,
    c: Case,
    body: &[u8],
    first: &mut [u32],
    second: &mut [u32],
    work: &mut [u32],
)
    ensures run { CaseRun c body.now first.old second.old work.old first.new second.new work.new }
{
    let count = c.count;
    let second_count = c.second_count;
    let size = c.size;
    if first.len() < count {
        return;
    }
    if second.len() < second_count {
        return;
    }
    if work.len() < size {
        return;
    }
    let end = count + second_count;
    if body.len() < end {
        return;
    }
    case_codes::cells(&body[..count], first);
    case_codes::cells(&body[count..end], second);
    cells::fill(work, size, 777);
    ask(
        out,
        c,
        &first[..count],
        &second[..second_count],
        &body[end..],
        &mut work[..size],
    );
    prints::text(out, b"\n");
}

// The numbers of a case, from its head.
fn case_of(head: &[u8]) -> Case
    requires { 16 ≤ length head.now }
    ensures numbers { result ≡ case_of head.now }
{
    Case {
        op: head[0],
        n: case_codes::number(head[1]),
        points: case_codes::number(head[2]),
        count: case_codes::size(head[3]),
        second_n: case_codes::number(head[4]),
        second_points: case_codes::number(head[5]),
        second_count: case_codes::size(head[6]),
        size: case_codes::size(head[8]),
    }
}

// How many bytes follow a head.
fn rest_of(head: &[u8]) -> usize
    requires { 16 ≤ length head.now }
    ensures rest { result ≡ rest_of head.now }
{
    case_codes::size(head[3]) + case_codes::size(head[6]) + case_codes::size(head[7])
}

fn main(rt: HostRuntime) -> io::Result<()> {
    let mut from = rt.stdin();
    let mut out = Output::new(rt.stdout());
    let mut head = [0u8; 16];
    let mut body = [0u8; 192];
    let mut first = [0u32; 64];
    let mut second = [0u32; 64];
    let mut work = [0u32; 64];
    for _ in 0..65536 {
        if reads::read_full(&mut from, &mut head)? < 16 {
            return out.finish();
        }
        let rest = rest_of(&head);
        if 192 < rest {
            return out.finish();
        }
        if reads::read_full(&mut from, &mut body[..rest])? < rest {
            return out.finish();
        }
        let c = case_of(&head);
        run_case(
            &mut out,
            c,
            &body[..rest],
            &mut first,
            &mut second,
            &mut work,
        );
    }
    out.finish()
}

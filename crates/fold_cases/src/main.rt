// Runs stored lists through folding, and prints what each says and leaves, a line a list.
// A case is twenty bytes, little-endian numbers: n (eight), the bytes of the list, the cells of table and work (four
// each); then the list. The lent cells hold 777 before. A line is a refusal, or points, edges, rank, index, start points,
// start edges, merging and closing folds; then the cells of a table of at most 64; then the check numbers of both.
#![tactic(auto)]

ghost use Rattle.std.specs.Prelude.{◌≡◌, ◌+◌, ◌≤◌, ◌<◌, length};
ghost use Rattle.fold_cases.specs.Cases.{four_of, case_of, check_of, FoldRun, CaseRun};

use folds::FoldFigures;
use prints::Output;
use refusals::Refusal;
use std::io;

// Writes the index of a subgroup, with a space before it. Not the printing program's: each has its own bytes.
fn print_index(out: &mut Output, index: Option<u64>) {
    match index {
        Some(k) => prints::next(out, k),
        None => prints::text(out, b" infinite"),
    }
}

// Writes the figures of a fold.
fn print_figures(out: &mut Output, f: FoldFigures) {
    prints::number(out, f.points);
    prints::next(out, f.counts.edges);
    prints::next(out, f.counts.rank);
    print_index(out, f.counts.index);
    prints::next(out, f.start.points as u64);
    prints::next(out, f.start.edges as u64);
    prints::next(out, f.merging);
    prints::next(out, f.closing);
}

// Writes what folding says.
fn print_outcome(out: &mut Output, o: Result<FoldFigures, Refusal>) {
    match o {
        Ok(f) => print_figures(out, f),
        Err(r) => prints::refusal(out, r),
    }
}

// A number that changes with any one cell.
fn check_of(cells: &[u32]) -> u64
    ensures check { result ≡ check_of cells.now }
{
    let mut h: u64 = 0;
    for &x in cells {
        h = (h * 31 + u64::from(x)) % 4294967291;
    }
    h
}

// Writes the line of a list: what is said, the cells of a small table, and the check numbers.
fn print_line(out: &mut Output, o: Result<FoldFigures, Refusal>, table: &[u32], work: &[u32]) {
    print_outcome(out, o);
    if table.len() <= 64 {
        prints::cells(out, table);
    }
    prints::next(out, check_of(table));
    prints::next(out, check_of(work));
    prints::text(out, b"\n");
}

// Folds a list, and writes its line.
fn run_fold(out: &mut Output, n: u64, list: &[u8], table: &mut [u32], work: &mut [u32])
    ensures run { FoldRun n list.now table.old work.old table.new work.new }
{
    let o = folds::fold(n, list, table, work);
    print_line(out, o, table, work);
}

// The numbers of a case.
#[derive(Drop)]
struct Case {
    n: u64,
    bytes: usize,
    count: usize,
    size: usize,
}

// One case. A case that does not fit into the cells is passed over.
fn run_case(out: &mut Output, c: Case, list: &[u8], table: &mut [u32], work: &mut [u32])
    ensures run { CaseRun c list.now table.old work.old table.new work.new }
{
    let count = c.count;
    let size = c.size;
    if table.len() < count {
        return;
    }
    if work.len() < size {
        return;
    }
    cells::fill(table, count, 777);
    cells::fill(work, size, 777);
    run_fold(out, c.n, list, &mut table[..count], &mut work[..size]);
}

// The number of four bytes of a head, the least first.
fn four(head: &[u8], at: usize) -> usize
    requires { at + 4 ≤ length head.now }
    ensures number { (result ≡ four_of head.now at) × (result < 4294967296) }
{
    u32::from_le_bytes([head[at], head[at + 1], head[at + 2], head[at + 3]]) as usize
}

// The numbers of a case, from its head.
fn case_of(head: &[u8]) -> Case
    requires { 20 ≤ length head.now }
    ensures numbers { result ≡ case_of head.now }
{
    Case {
        n: u64::from_le_bytes([
            head[0], head[1], head[2], head[3], head[4], head[5], head[6], head[7],
        ]),
        bytes: four(head, 8),
        count: four(head, 12),
        size: four(head, 16),
    }
}

fn main(rt: HostRuntime) -> io::Result<()> {
    let mut from = rt.stdin();
    let mut out = Output::new(rt.stdout());
    let mut head = [0u8; 20];
    let mut list = [0u8; 65600];
    let mut table = [0u32; 262144];
    let mut work = [0u32; 530000];
    for _ in 0..65536 {
        if reads::read_full(&mut from, &mut head)? < 20 {
            return out.finish();
        }
        let c = case_of(&head);
        let bytes = c.bytes;
        if 65600 < bytes {
            return out.finish();
        }
        if reads::read_full(&mut from, &mut list[..bytes])? < bytes {
            return out.finish();
        }
        run_case(&mut out, c, &list[..bytes], &mut table, &mut work);
    }
    out.finish()
}

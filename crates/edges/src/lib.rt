// Edges outside the paths: told from the table alone, and numbered from a few marks.
#![tactic(auto)]

ghost use Rattle.std.specs.Prelude.{◌≡◌, true, ◌≢◌, ◌++◌, ◌+◌, ◌*◌, ◌≤◌, ◌<◌, length, take, drop};
ghost use Rattle.theory.specs.Letters.{usual};
ghost use Rattle.theory.specs.Tables.{absent, cell};
ghost use Rattle.theory.specs.Basis.{is_edge, outside_edges, number_in};
ghost use Rattle.edges.specs.Edges.{is_outside, tally_before, mark_row, marks_of};
ghost use Rattle.edges.specs.Steps.{place_back, step_place, tally_at, run_of, left, found};

use cells::ABSENT;
use tables::Sound;

// The greatest point met, and how many edges outside the paths there are, up to some place of a table.
#[derive(Clone, Copy, Debug, PartialEq, Eq)]
struct Tally {
    met: u32,
    edges: u32,
}

// The place of the cell that leads back to x where letter z leads from it; behind all places where z leads nowhere.
fn place_back(t: &Sound, x: usize, z: usize) -> usize
    requires point { x < t.now.points }
    requires letter { z < 2 * t.now.n }
    ensures back { result ≡ place_back (cell t.now.n t.now.points t.now.cells.now) t.now.points (2 * t.now.n) x z }
{
    let w = 2 * t.n as usize;
    let u = t.cell_at(x, z);
    if u == ABSENT {
        return t.points as usize * w;
    }
    u as usize * w + letters::inverse(z as u32) as usize
}

// The place where x is first met: its own row tells all cells that lead to it. The base's path is empty.
fn step_place(t: &Sound, x: usize) -> usize
    requires point { x < t.now.points }
    ensures step { result ≡ step_place t.now.n t.now.points t.now.cells.now x }
{
    let w = 2 * t.n as usize;
    let mut least = t.points as usize * w;
    if x == 0 {
        return least;
    }
    for z in 0..w {
        least = least.min(place_back(t, x, z));
    }
    least
}

// No path uses the edge of letter y at v. Asks the row of its greater end for the place where that point is first met; a loop is on no path.
pub fn is_outside(t: &Sound, v: u32, y: u32) -> bool
    requires point { v < t.now.points }
    requires letter { y < 2 * t.now.n }
    requires there { cell t.now.n t.now.points t.now.cells.now v y ≢ absent }
    ensures outside { result ≡ is_outside (cell t.now.n t.now.points t.now.cells.now) t.now.points (usual t.now.n) v y }
{
    let from = v as usize;
    let x = t.cell_at(from, y as usize);
    if x == v {
        return true;
    }
    if x < v {
        return place_back(t, from, y as usize) != step_place(t, from);
    }
    let w = 2 * t.n as usize;
    from * w + y as usize != step_place(t, x as usize)
}

// A tally, once the cell of letter y at v is passed too. `first` is the place of the last step of v's path.
fn pass_cell(t: &Sound, v: usize, y: usize, first: usize, tally: Tally) -> Tally
    requires point { v < t.now.points }
    requires letter { y < 2 * t.now.n }
    requires first { first ≡ step_place t.now.n t.now.points t.now.cells.now v }
    requires tally { tally ≡ tally_at (cell t.now.n t.now.points t.now.cells.now) t.now.points (usual t.now.n) v y }
    ensures tally { result ≡ tally_at (cell t.now.n t.now.points t.now.cells.now) t.now.points (usual t.now.n) v (y + 1) }
{
    let x = t.cell_at(v, y);
    if x == ABSENT {
        return tally;
    }
    if tally.met < x {
        return Tally { met: x, ..tally };
    }
    if y % 2 != 0 {
        return tally;
    }
    if place_back(t, v, y) == first {
        return tally;
    }
    Tally {
        edges: tally.edges + 1,
        ..tally
    }
}

// The tally before row v, and then of its cells of letters below `upto`.
fn pass_cells(t: &Sound, v: usize, upto: usize, tally: Tally) -> Tally
    requires point { v < t.now.points }
    requires letters { upto ≤ 2 * t.now.n }
    requires tally { tally ≡ tally_before (cell t.now.n t.now.points t.now.cells.now) t.now.points (usual t.now.n) v }
    ensures tally { result ≡ tally_at (cell t.now.n t.now.points t.now.cells.now) t.now.points (usual t.now.n) v upto }
{
    let first = step_place(t, v);
    let mut sum = tally;
    for y in 0..upto {
        sum = pass_cell(t, v, y, first, sum);
    }
    sum
}

// The tally before row `from`, and then of the rows from there to `to`.
fn pass_rows(t: &Sound, from: usize, to: usize, tally: Tally) -> Tally
    requires order { from ≤ to }
    requires rows { to ≤ t.now.points }
    requires tally { tally ≡ tally_before (cell t.now.n t.now.points t.now.cells.now) t.now.points (usual t.now.n) from }
    ensures tally { result ≡ tally_before (cell t.now.n t.now.points t.now.cells.now) t.now.points (usual t.now.n) to }
{
    let mut sum = tally;
    for v in from..to {
        sum = pass_cells(t, v, 2 * t.n as usize, sum);
    }
    sum
}

// How many rows the marks leave from one to the next.
fn run_of(t: &Sound, marks: usize) -> usize
    requires few { marks ≤ 1048576 }
    ensures run { result ≡ run_of t.now.points marks }
{
    t.points as usize / (marks + 1) + 1
}

// The row of mark j.
fn mark_row(t: &Sound, marks: usize, j: usize) -> usize
    requires few { marks ≤ 1048576 }
    requires mark { j ≤ marks }
    ensures row { result ≡ mark_row t.now.points marks j }
{
    (t.points as usize).min(j * run_of(t, marks))
}

// Leaves a tally in the cells of mark j + 1.
fn leave(work: &mut [u32], j: usize, tally: Tally)
    requires few { j ≤ 1048576 }
    requires room { 2 * j + 2 ≤ length work.old }
    ensures left { work.new ≡ left work.old j tally }
{
    work[2 * j] = tally.met;
    work[2 * j + 1] = tally.edges;
}

// The tally that the cells of mark j hold; none before the first mark.
fn find(work: &[u32], j: usize) -> Tally
    requires few { j ≤ 1048576 }
    requires room { 2 * j ≤ length work.now }
    ensures found { result ≡ found work.now j }
{
    if j == 0 {
        return Tally { met: 0, edges: 0 };
    }
    Tally {
        met: work[2 * j - 2],
        edges: work[2 * j - 1],
    }
}

// Sweeps the table once and leaves `marks` marks in the first 2 × marks work cells: the tally before each mark's row.
pub fn mark(t: &Sound, work: &mut [u32], marks: usize)
    requires few { marks ≤ 1048576 }
    requires room { 2 * marks ≤ length work.old }
    ensures marked { work.new ≡ marks_of (cell t.now.n t.now.points t.now.cells.now) t.now.points (usual t.now.n) marks marks ++ drop (2 * marks) work.old }
{
    let mut tally = Tally { met: 0, edges: 0 };
    let mut row: usize = 0;
    for j in 0..marks {
        let to = mark_row(t, marks, j + 1);
        tally = pass_rows(t, row, to, tally);
        leave(work, j, tally);
        row = to;
    }
}

// The number of the edge outside the paths of lower-case letter y at v: the tally of the last mark before its row, and a sweep from there.
pub fn number_of(t: &Sound, work: &[u32], marks: usize, v: u32, y: u32) -> u32
    requires few { marks ≤ 1048576 }
    requires room { 2 * marks ≤ length work.now }
    requires marked { take (2 * marks) work.now ≡ marks_of (cell t.now.n t.now.points t.now.cells.now) t.now.points (usual t.now.n) marks marks }
    requires point { v < t.now.points }
    requires letter { y < 2 * t.now.n }
    requires edge { is_edge (cell t.now.n t.now.points t.now.cells.now) (record { point = v; letter = y }) ≡ true }
    requires outside { is_outside (cell t.now.n t.now.points t.now.cells.now) t.now.points (usual t.now.n) v y ≡ true }
    ensures number { result ≡ number_in (outside_edges (cell t.now.n t.now.points t.now.cells.now) t.now.points (usual t.now.n)) 1 v y }
    ensures some { (1 ≤ result) × (result ≤ 54526004) }
{
    let to = v as usize;
    let j = to / run_of(t, marks);
    let from = mark_row(t, marks, j);
    let before = pass_rows(t, from, to, find(work, j));
    let sum = pass_cells(t, to, y as usize, before);
    sum.edges + 1
}

// Paths of points: one pass over a canonical table notes for each point from where it is first met, and how far it is from the base.
#![tactic(auto)]

ghost use Rattle.std.specs.Prelude.{◌≡◌, ◌+◌, ◌*◌, ◌≤◌, ◌<◌, length, slice_index};
ghost use Rattle.theory.specs.Tables.{cell};
ghost use Rattle.paths.specs.Paths.{PathsOutcome};
ghost use Rattle.paths.specs.Notes.{noted, is_new, met_after, noted_after};

use cells::ABSENT;
use tables::Sound;

// Notes that x is first met at point v by letter y, at the end of a path of `depth` letters.
fn note(points: usize, work: &mut [u32], x: usize, v: u32, y: u32, depth: u32)
    requires { (x < points) × (3 * points ≤ length work.old) }
    ensures noted { work.new ≡ noted points work.old x v y depth }
{
    work[x] = v;
    work[points + x] = y;
    work[2 * points + x] = depth;
}

// The cell x leads to a point beyond all met before.
fn is_new(met: u32, x: u32) -> bool
    ensures new { result ≡ is_new met x }
{
    x != ABSENT && met < x
}

// The cell of letter y at v is passed: a new point is noted. Answers the greatest point met.
fn visit(t: &Sound, work: &mut [u32], v: usize, y: usize, met: u32) -> u32
    requires point { v < t.now.points }
    requires letter { y < 2 * t.now.n }
    requires room { 3 * t.now.points ≤ length work.old }
    requires shallow { slice_index work.old (2 * t.now.points + v) < t.now.points }
    ensures met { result ≡ met_after (cell t.now.n t.now.points t.now.cells.now) v y met }
    ensures noted { work.new ≡ noted_after (cell t.now.n t.now.points t.now.cells.now) t.now.points work.old v y met }
{
    let x = t.cell_at(v, y);
    if !is_new(met, x) {
        return met;
    }
    let points = t.points as usize;
    let depth = work[2 * points + v] + 1;
    note(points, work, x as usize, v as u32, y as u32, depth);
    x
}

// Notes the paths of all points of a canonical table: for each the point it is first met from, the letter, and its path's length.
pub fn note_paths(t: &Sound, work: &mut [u32])
    requires room { 3 * t.now.points ≤ length work.old }
    ensures paths { PathsOutcome t.now.n t.now.points t.now.cells.now work.old work.new }
{
    let points = t.points as usize;
    note(points, work, 0, 0, 0, 0);
    let mut met: u32 = 0;
    for v in 0..points {
        for y in 0..2 * t.n as usize {
            met = visit(t, work, v, y, met);
        }
    }
}

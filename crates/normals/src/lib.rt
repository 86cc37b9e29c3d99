// Whether the subgroup of a lent table is normal.
#![tactic(auto)]

ghost use Rattle.std.specs.Prelude.{◌≡◌, ◌*◌, ◌≤◌, ◌<◌, length, slice_index};
ghost use Rattle.theory.specs.Letters.{usual};
ghost use Rattle.theory.specs.Tables.{cell};
ghost use Rattle.theory.specs.Basis.{leads_back, is_normal};
ghost use Rattle.cells.specs.Filled.{filled};
ghost use Rattle.normals.specs.Maps.{carried_met, carried_cells, passes_base};
ghost use Rattle.normals.specs.Normals.{NormalOutcome};

use cells::ABSENT;
use refusals::Refusal;
use tables::{Sound, Table};

// Carries the cell of letter y at v over to the image of v. Answers the greatest point met, or none where it cannot be carried.
fn carry(t: &Sound, work: &mut [u32], v: usize, y: usize, met: u32) -> Option<u32>
    requires point { v < t.now.points }
    requires letter { y < 2 * t.now.n }
    requires room { t.now.points ≤ length work.old }
    requires image { slice_index work.old v < t.now.points }
    ensures met { result ≡ carried_met (cell t.now.n t.now.points t.now.cells.now) work.old v y met }
    ensures cells { work.new ≡ carried_cells (cell t.now.n t.now.points t.now.cells.now) work.old v y met }
{
    let x = t.cell_at(v, y);
    if x == ABSENT {
        return Some(met);
    }
    let image = t.cell_at(work[v] as usize, y);
    if image == ABSENT {
        return None;
    }
    if met < x {
        work[x as usize] = image;
        return Some(x);
    }
    if work[x as usize] != image {
        return None;
    }
    Some(met)
}

// Whether every basis word leads from p back to p: exactly if all cells of the table can be carried over from the base to p.
fn leads_back(t: &Sound, work: &mut [u32], p: u32) -> bool
    requires point { p < t.now.points }
    requires room { t.now.points ≤ length work.old }
    ensures back { result ≡ leads_back (cell t.now.n t.now.points t.now.cells.now) t.now.points (usual t.now.n) p }
    ensures cleared { work.new ≡ filled t.now.points 0 work.old }
{
    let points = t.points as usize;
    work[0] = p;
    let mut met: u32 = 0;
    for v in 0..points {
        for y in 0..2 * t.n as usize {
            let Some(next) = carry(t, work, v, y, met) else {
                cells::fill(work, points, 0);
                return false;
            };
            met = next;
        }
    }
    cells::fill(work, points, 0);
    true
}

// Whether letter y passes at the base: it is absent there, or every basis word leads from where it leads back to there. At the base all do.
fn passes(t: &Sound, work: &mut [u32], y: usize) -> bool
    requires letter { y < 2 * t.now.n }
    requires room { t.now.points ≤ length work.old }
    requires clear { filled t.now.points 0 work.old ≡ work.old }
    ensures passes { result ≡ passes_base (cell t.now.n t.now.points t.now.cells.now) t.now.points (usual t.now.n) y }
    ensures cells { work.new ≡ work.old }
{
    let p = t.cell_at(0, y);
    if p == ABSENT {
        return true;
    }
    if p == 0 {
        return true;
    }
    leads_back(t, work, p)
}

// Whether the subgroup is normal: every letter passes at the base.
fn is_normal(t: &Sound, work: &mut [u32]) -> bool
    requires room { 4 * t.now.points ≤ length work.old }
    ensures normal { result ≡ is_normal (cell t.now.n t.now.points t.now.cells.now) t.now.points (usual t.now.n) }
    ensures cleared { work.new ≡ filled (4 * t.now.points) 0 work.old }
{
    let cells = 4 * (t.points as usize);
    cells::fill(work, cells, 0);
    for letter in 0..2 * t.n as usize {
        if !passes(t, work, letter) {
            return false;
        }
    }
    true
}

// Says whether the subgroup of a table handed in is normal, or refuses: 1, 6, 7, 8.
pub fn normal(t: &Table, work: &mut [u32]) -> Result<bool, Refusal>
    ensures outcome { NormalOutcome t.now.n t.now.points t.now.cells.now work.old result work.new }
{
    let sound = bases::check_early(t, work.len())?;
    Ok(is_normal(&sound, work))
}

// Tables lent from outside: what is tested of them, the canonical walk, and the counts.
#![tactic(auto)]

ghost use Rattle.std.specs.Prelude.{◌≡◌, ◌+◌, ◌*◌, ◌≤◌, ◌<◌, ◌≢◌, length, IfOk};
ghost use Rattle.std.proofs.Math.Option.{none};
ghost use Rattle.theory.specs.Letters.{usual};
ghost use Rattle.theory.specs.Tables.{absent, cell};
ghost use Rattle.theory.specs.Canonical.{breaks_cell, faulty_cell};
ghost use Rattle.theory.specs.Refusals.{point_limit};
ghost use Rattle.theory.specs.TableRefusals.{is_lent, cell_refusal};
ghost use Rattle.refusals.specs.Given.{unless};
ghost use Rattle.tables.specs.Lent.{IsLent, lent_refusal, verdict};
ghost use Rattle.tables.specs.Walks.{walked_as};
ghost use Rattle.tables.specs.Cells.{is_thin, row_broken, broken_at, visited_as, index_for};
ghost use Rattle.tables.specs.Checks.{CheckOutcome};

use cells::ABSENT;
use refusals::{Cause, Refusal, refuse};

// A table as it is handed in: n generators, the number of points, and cells. Nothing is tested of it.
#[derive(Clone, Copy, Debug, PartialEq, Eq)]
pub struct Table<'a> {
    pub n: u64,
    pub points: u64,
    pub cells: &'a [u32],
}

// A table that is lent as it has to be: n is 1 to 26, the points are 1 to 1,048,577, and it has their cells.
#[derive(Clone, Copy, Debug)]
pub struct Lent<'a> {
    pub n: u64,
    pub points: u64,
    pub cells: &'a [u32],
    pub ghost lent: { IsLent n points cells.now },
}

// A lent table that is canonical.
#[derive(Clone, Copy, Debug)]
pub struct Sound<'a> {
    pub n: u64,
    pub points: u64,
    pub cells: &'a [u32],
    pub ghost lent: { IsLent n points cells.now },
    pub ghost sound: { faulty_cell points (usual n) (cell n points cells.now) ≡ none },
}

// The counts of a canonical table. A subgroup of infinite index has none.
#[derive(Clone, Copy, Debug, PartialEq, Eq)]
pub struct Figures {
    pub edges: u64,
    pub rank: u64,
    pub index: Option<u64>,
}

// What the canonical walk says of a table with no faulty cell: its edges, and whether no cell is absent.
#[derive(Clone, Copy, Debug, PartialEq, Eq)]
pub struct Walked {
    pub edges: u64,
    pub full: bool,
}

// What a walk has seen: the greatest point met, the edges, and whether no cell was absent.
#[derive(Clone, Copy)]
struct Seen {
    met: u32,
    edges: u64,
    full: bool,
}

// What was seen, and then the cell x of letter y.
fn visit(seen: Seen, x: u32, y: usize) -> Seen
    requires { seen.edges < 18446744073709551615 }
    ensures visited { result ≡ visited_as seen x y }
{
    if x == ABSENT {
        return Seen {
            full: false,
            ..seen
        };
    }
    let met = seen.met.max(x);
    let edges = if y % 2 == 0 {
        seen.edges + 1
    } else {
        seen.edges
    };
    Seen { met, edges, ..seen }
}

// The index of so many points, where no cell is absent or some is.
fn index_of(points: u64, full: bool) -> Option<u64>
    ensures index { result ≡ index_for points full }
{
    if full { Some(points) } else { None }
}

// How many cells a table over n generators has, of so many points.
pub fn cell_count(n: u64, points: u64) -> usize
    requires { (n ≤ 26) × (points ≤ point_limit) }
    ensures count { result ≡ points * (2 * n) }
    ensures most { result ≤ 54526004 }
{
    points as usize * (2 * n as usize)
}

impl<'a> Table<'a> {
    // The points are 1 to 1,048,577 and the table has their cells.
    #[tactic(auto, unfolding(theory::specs::TableRefusals::is_lent))]
    pub fn is_lent(&self) -> bool
        requires { self.now.n ≤ 26 }
        ensures lent { result ≡ is_lent self.now.n self.now.points (length self.now.cells.now) }
    {
        if self.points == 0 || 1048577 < self.points {
            return false;
        }
        self.points * (2 * self.n) <= self.cells.len() as u64
    }

    // The table, if it is lent as it has to be, or its first refusal: 1, 6.
    #[tactic(auto, unfolding(theory::specs::Refusals::is_alphabet, theory::specs::TableRefusals::is_lent))]
    pub fn lend(&self) -> Result<Lent<'a>, Refusal>
        ensures tested { verdict result ≡ unless (lent_refusal self.now.n self.now.points self.now.cells.now) tt }
        ensures same { IfOk result (λ t. (t.n ≡ self.now.n) × (t.points ≡ self.now.points) × (t.cells ≡ self.now.cells)) }
    {
        refusals::check_alphabet(self.n)?;
        if !self.is_lent() {
            return Err(refuse(Cause::Table, 0));
        }
        let Table { n, points, cells } = *self;
        Ok(Lent { n, points, cells })
    }

    // The counts of the table, or its first refusal: 1, 6, 8.
    pub fn check(&self) -> Result<Figures, Refusal>
        ensures outcome { CheckOutcome self.now.n self.now.points self.now.cells.now result }
    {
        let Walked { edges, full } = self.lend()?.walk()?;
        Ok(Figures {
            edges,
            rank: edges + 1 - self.points,
            index: index_of(self.points, full),
        })
    }
}

impl<'a> Lent<'a> {
    // How many cells the table has.
    pub fn cell_count(&self) -> usize
        ensures count { result ≡ self.now.points * (2 * self.now.n) }
        ensures most { result ≤ 54526004 }
    {
        cell_count(self.n, self.points)
    }

    // Where the cell of letter y at point v stands.
    fn place_of(&self, v: usize, y: usize) -> usize
        requires point { v < self.now.points }
        requires letter { y < 2 * self.now.n }
        ensures place { result ≡ v * (2 * self.now.n) + y }
        ensures inside { result < length self.now.cells.now }
    {
        v * (2 * self.n as usize) + y
    }

    // The cell of letter y at point v.
    #[tactic(auto, unfolding(theory::specs::Tables::cell))]
    pub fn cell_at(&self, v: usize, y: usize) -> u32
        requires point { v < self.now.points }
        requires letter { y < 2 * self.now.n }
        ensures cell { result ≡ cell self.now.n self.now.points self.now.cells.now v y }
    {
        self.cells[self.place_of(v, y)]
    }

    // Fewer than two cells of row v are present.
    fn is_thin(&self, v: usize) -> bool
        requires { v < self.now.points }
        ensures thin { result ≡ is_thin self.now.n self.now.points self.now.cells.now v }
    {
        let w = 2 * self.n as usize;
        let row = &self.cells[v * w..v * w + w];
        let mut found: usize = 0;
        for &x in row {
            if x != ABSENT {
                found += 1;
            }
        }
        found < 2
    }

    // Row v breaks a rule of rows: v was not met before, or the row is thin. The base's row breaks none.
    fn is_row_broken(&self, v: usize, met: u32) -> bool
        requires { v < self.now.points }
        ensures broken { result ≡ row_broken self.now.n self.now.points self.now.cells.now v met }
    {
        if v == 0 {
            return false;
        }
        if (met as usize) < v {
            return true;
        }
        self.is_thin(v)
    }

    // The cell x of letter y at v breaks a rule of cells: it is no point, or beyond the next point, or there is no way back.
    #[tactic(auto, unfolding(theory::specs::Canonical::breaks_cell, theory::specs::Words::inv))]
    fn is_cell_broken(&self, v: usize, y: usize, met: u32) -> bool
        requires point { v < self.now.points }
        requires letter { y < 2 * self.now.n }
        ensures broken { result ≡ breaks_cell self.now.points (cell self.now.n self.now.points self.now.cells.now) v y met }
    {
        let x = self.cell_at(v, y);
        if x == ABSENT {
            return false;
        }
        let to = x as usize;
        if self.points as usize <= to {
            return true;
        }
        if (met as usize) + 1 < to {
            return true;
        }
        let back = letters::inverse(y as u32) as usize;
        self.cell_at(to, back) as usize != v
    }

    // The cell of letter y at v is one of a broken rule. A row's rules stand at its first cell.
    fn is_broken(&self, v: usize, y: usize, met: u32) -> bool
        requires point { v < self.now.points }
        requires letter { y < 2 * self.now.n }
        ensures broken { result ≡ broken_at self.now.n self.now.points self.now.cells.now v y met }
    {
        if y == 0 {
            if self.is_row_broken(v, met) {
                return true;
            }
        }
        self.is_cell_broken(v, y, met)
    }

    // The canonical walk over points and letters: refused by 8 at the lowest faulty cell, or what it has counted.
    pub fn walk(&self) -> Result<Walked, Refusal>
        ensures walked { result ≡ walked_as self.now.n self.now.points self.now.cells.now }
    {
        let mut seen = Seen {
            met: 0,
            edges: 0,
            full: true,
        };
        'walk: {
            for v in 0..self.points as usize {
                for y in 0..2 * self.n as usize {
                    if self.is_broken(v, y, seen.met) {
                        let place = self.place_of(v, y) as u64;
                        break 'walk Err(refuse(Cause::Faulty, place));
                    }
                    seen = visit(seen, self.cell_at(v, y), y);
                }
            }
            Ok(Walked {
                edges: seen.edges,
                full: seen.full,
            })
        }
    }

    // The table, if the walk meets no faulty cell, or refusal 8.
    pub fn checked(&self) -> Result<Sound<'a>, Refusal>
        ensures tested { verdict result ≡ unless (cell_refusal self.now.n self.now.points self.now.cells.now) tt }
        ensures same { IfOk result (λ t. (t.n ≡ self.now.n) × (t.points ≡ self.now.points) × (t.cells ≡ self.now.cells)) }
    {
        self.walk()?;
        let Lent { n, points, cells } = *self;
        Ok(Sound { n, points, cells })
    }
}

impl<'a> From<Sound<'a>> for Lent<'a> {
    ghost from_gives = { λ s t. (t.n ≡ s.n) × (t.points ≡ s.points) × (t.cells ≡ s.cells) };

    fn from(t: Sound<'a>) -> Lent<'a> {
        let Sound { n, points, cells } = t;
        Lent { n, points, cells }
    }
}

impl<'a> Sound<'a> {
    // The cell of letter y at point v: absent, or a point.
    pub fn cell_at(&self, v: usize, y: usize) -> u32
        requires point { v < self.now.points }
        requires letter { y < 2 * self.now.n }
        ensures cell { result ≡ cell self.now.n self.now.points self.now.cells.now v y }
        ensures within { result ≢ absent → result < self.now.points }
    {
        Lent::from(*self).cell_at(v, y)
    }
}

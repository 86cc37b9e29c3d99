// Folding a list of words into the canonical table of its subgroup.
#![tactic(auto)]

ghost use Rattle.std.specs.Prelude.{◌≡◌, ◌*◌, ◌≤◌, ltb};
ghost use Rattle.theory.specs.Refusals.{point_limit, refused_if};
ghost use Rattle.refusals.specs.Given.{unless};
ghost use Rattle.rooms.specs.Rooms.{Held};
ghost use Rattle.folds.specs.Folds.{Done, FoldOutcome};
ghost use Rattle.folds.specs.Rows.{Prepared, all_in, WordsIn, Foldable, Built};

use cells::ABSENT;
use lists::StartSize;
use refusals::{Cause, Refusal, refuse};
use rooms::{Fold, Room};
use tables::{Figures, Table};

// The figures of a fold: points, edges with rank and index, the start graph's size, and the folds of each kind.
#[derive(Clone, Copy, Debug, PartialEq, Eq)]
pub struct FoldFigures {
    pub points: u64,
    pub counts: Figures,
    pub start: StartSize,
    pub merging: u64,
    pub closing: u64,
}

// What building a table says: its points, and the size of the start graph.
#[derive(Clone, Copy, Debug, PartialEq, Eq)]
pub struct BuildSize {
    pub points: usize,
    pub start: StartSize,
}

// Takes every word of the list in, each as the part of the list where it starts. Answers the size of the start graph.
fn take_words(fold: &mut Fold<'_>, list: &[u8]) -> StartSize
    requires prepared { Prepared fold.old.room list.now fold.old.table.now fold.old.work.now }
    requires settled { fold.old.pending ≡ 0 }
    ensures held { Held fold.old fold.new }
    ensures settles { fold.new.pending ≡ 0 }
    ensures made { fold.new.room.made ≡ (all_in fold.old.room list.now).made }
    ensures words { WordsIn fold.old.room list.now fold.old.table.now fold.old.work.now result fold.new.table.now fold.new.work.now }
{
    let mut points: usize = 1;
    let mut edges: usize = 0;
    let mut at: usize = 0;
    // From word to word, each handed on where it starts: no index is counted, and no slice iterator says `next_start`.
    while at < list.len() {
        let left = takes::take_in(fold, &list[at..]);
        points += lists::new_points(left);
        edges += left;
        at = lists::next_start(list, at);
    }
    StartSize { points, edges }
}

// So in lent cells with nothing pending.
fn take_list(table: &mut [u32], work: &mut [u32], room: Room, list: &[u8]) -> StartSize
    requires { Prepared room list.now table.old work.old }
    ensures words { WordsIn room list.now table.old work.old result table.new work.new }
{
    let mut fold = Fold {
        table,
        work,
        room,
        pending: 0,
    };
    take_words(&mut fold, list)
}

// Builds the table of a list in a room of L + 1 rows. The work cells are 0 afterwards.
pub fn build(n: usize, list: &[u8], table: &mut [u32], work: &mut [u32]) -> BuildSize
    requires { Foldable n list.now table.old work.old }
    ensures built { Built n list.now table.old work.old result table.new work.new }
{
    let letters = lists::letters_in(list);
    let rows = letters + 1;
    cells::fill(table, rows * (2 * n), ABSENT);
    cells::fill(work, 1, 0);
    let start = take_list(table, work, Room { n, rows, made: 1 }, list);
    let points = numbering::number(table, n, rows);
    cells::fill(work, 8 * rows, 0);
    BuildSize { points, start }
}

// Refuses by 6 a table of fewer cells than so many rows of room have.
pub fn check_rows(n: u64, rows: usize, cells: usize) -> Result<(), Refusal>
    requires { (n ≤ 26) × (rows ≤ point_limit) }
    ensures checked { result ≡ unless (refused_if (ltb cells (rows * (2 * n))) 6 0) tt }
{
    if cells < rows * (2 * (n as usize)) {
        return Err(refuse(Cause::Table, 0));
    }
    Ok(())
}

// What is said of a list where nothing is refused.
fn fold_lent(
    n: u64,
    list: &[u8],
    table: &mut [u32],
    work: &mut [u32],
) -> Result<FoldFigures, Refusal>
    requires { Foldable n list.now table.old work.old }
    ensures outcome { FoldOutcome n list.now table.old work.old result table.new work.new }
{
    let BuildSize { points, start } = build(n as usize, list, table, work);
    let points = points as u64;
    let cells = &*table;
    let counts = Table { n, points, cells }.check()?;
    Ok(FoldFigures {
        points,
        counts,
        start,
        merging: start.points as u64 - points,
        closing: start.edges as u64 + 1 - start.points as u64 - counts.rank,
    })
}

// Folds a list of words over n generators into the canonical table of its subgroup, or refuses: 1, 2, 3/4, 5, 6, 7.
pub fn fold(
    n: u64,
    list: &[u8],
    table: &mut [u32],
    work: &mut [u32],
) -> Result<FoldFigures, Refusal>
    ensures outcome { FoldOutcome n list.now table.old work.old result table.new work.new }
{
    lists::scan(n, list, true)?;
    let rows = lists::letters_in(list) + 1;
    check_rows(n, rows, table.len())?;
    refusals::check_room(Cause::Work, (8 * rows) as u64, work.len() as u64)?;
    fold_lent(n, list, table, work)
}

// Edges in a lent table: joined, taken away, moved from a point to another.
#![tactic(auto)]

ghost use Rattle.std.specs.Prelude.{◌≡◌, ◌<◌};
ghost use Rattle.theory.specs.Tables.{cell};
ghost use Rattle.engine.specs.Cells.{put, linked, unlinked};
ghost use Rattle.engine.specs.Engine.{united, joined, moved, far_end};
ghost use Rattle.engine.specs.Work.{Holds};
ghost use Rattle.rooms.specs.Rooms.{Kept, UsableIn, AfterIn};
ghost use Rattle.rooms.specs.WorkCells.{united_work, joined_work, moved_work};
ghost use Rattle.links.specs.Links.{InTable, Edge, Ends};

use cells::ABSENT;
use rooms::{Fold, Room};

// The cell of letter y at point v. Not `tables::Lent`'s: this table is being written, and has the rows of a room.
pub fn cell_at(table: &[u32], room: Room, v: u32, y: u32) -> u32
    requires { InTable room table.now v y }
    ensures leads { result ≡ cell room.n room.rows table.now v y }
{
    let w = 2 * room.n;
    let row = (v as usize) * w;
    table[row + y as usize]
}

// Puts x into the cell of letter y at point v.
pub fn put_at(table: &mut [u32], room: Room, v: u32, y: u32, x: u32)
    requires { InTable room table.old v y }
    ensures put { Holds room.n room.rows table.old (put (cell room.n room.rows table.old) v y x) table.new }
{
    rooms::put(table, 2 * room.n, v as usize, y as usize, x);
}

// Writes both cells of the edge that letter y reads from a to b.
fn put_edge(table: &mut [u32], room: Room, a: u32, y: u32, b: u32)
    requires from { InTable room table.old a y }
    requires b_lt_rows { b < room.rows }
    ensures linked { Holds room.n room.rows table.old (linked (cell room.n room.rows table.old) a y b) table.new }
{
    put_at(table, room, a, y, b);
    put_at(table, room, b, letters::inverse(y), a);
}

// Takes the edge at (v, y) away, both its cells.
fn unlink(table: &mut [u32], room: Room, v: u32, y: u32)
    requires { Edge room table.old v y }
    ensures unlinked { Holds room.n room.rows table.old (unlinked (cell room.n room.rows table.old) v y) table.new }
{
    let q = cell_at(table, room, v, y);
    put_at(table, room, q, letters::inverse(y), ABSENT);
    put_at(table, room, v, y, ABSENT);
}

// The cell of letter y at point v in what is folded.
pub fn edge_at(fold: &Fold<'_>, v: u32, y: u32) -> u32
    requires { InTable fold.now.room fold.now.table.now v y }
    ensures leads { result ≡ cell fold.now.room.n fold.now.room.rows fold.now.table.now v y }
{
    cell_at(fold.table, fold.room, v, y)
}

// Makes the points of p and q one.
pub fn unite(fold: &mut Fold<'_>, p: u32, q: u32)
    requires usable { UsableIn fold.old }
    requires p_lt_made { (p < fold.old.room.made) × (q < fold.old.room.made) }
    ensures kept { Kept fold.old fold.new }
    ensures united { AfterIn (λ s. united s p q) (λ s w. united_work fold.old.room.rows s w p q) fold.old fold.new }
{
    let room = fold.room;
    fold.pending = rooms::unite(fold.work, room.made, room.rows, fold.pending, p, q);
}

// Joins a to b by letter y. Where a cell is taken the edge is dropped, and two points are made one.
pub fn link(fold: &mut Fold<'_>, a: u32, y: u32, b: u32)
    requires usable { UsableIn fold.old }
    requires ends { Ends fold.old.room a y b }
    ensures kept { Kept fold.old fold.new }
    ensures joined { AfterIn (λ s. joined s a y b) (λ s w. joined_work fold.old.room.rows s w a y b) fold.old fold.new }
{
    let ahead = edge_at(fold, a, y);
    if ahead != ABSENT {
        unite(fold, ahead, b);
        return;
    }
    let back = edge_at(fold, b, letters::inverse(y));
    if back != ABSENT {
        unite(fold, back, a);
        return;
    }
    let room = fold.room;
    put_edge(fold.table, room, a, y, b);
}

// The far end of an edge of v that moves to u: u itself for a loop.
fn far_end(v: u32, u: u32, q: u32) -> u32
    ensures far { result ≡ far_end v u q }
{
    if q == v { u } else { q }
}

// Moves the edge at (v, y), if there is one, to u.
pub fn move_edge(fold: &mut Fold<'_>, v: u32, u: u32, y: u32)
    requires usable { UsableIn fold.old }
    requires ends { Ends fold.old.room v y u }
    ensures kept { Kept fold.old fold.new }
    ensures moved { AfterIn (λ s. moved s v u y) (λ s w. moved_work fold.old.room.rows s w v u y) fold.old fold.new }
{
    let q = edge_at(fold, v, y);
    if q == ABSENT {
        return;
    }
    let room = fold.room;
    unlink(fold.table, room, v, y);
    link(fold, u, y, far_end(v, u, q));
}

// Numbering in place: points get their final names in the order in which they are met.
#![tactic(auto)]

ghost use Rattle.std.specs.Prelude.{◌≡◌, ◌*◌, ◌<◌, ◌≤◌, length, get_or};
ghost use Rattle.theory.specs.Letters.{usual};
ghost use Rattle.theory.specs.Tables.{cell};
ghost use Rattle.engine.specs.Cells.{transposed, exchanged, mended, traded_at};
ghost use Rattle.engine.specs.Work.{Holds};
ghost use Rattle.engine.specs.Numbering.{Ready, named_at, named_to};
ghost use Rattle.numbering.specs.Numbered.{Roomed, NumberedIn};
ghost use Rattle.links.specs.Links.{InTable};
ghost use Rattle.numbering.specs.Steps.{IsCell, ends_traded, Tradable, naming_of, Scanned, NamedIn};

use cells::ABSENT;
use rooms::Room;

// The letter that is scanned at step i of a row.
fn letter_at(n: usize, i: usize) -> usize
    requires { i < 2 * n }
    ensures letter { (result ≡ get_or (usual n) i 0) × (result < 2 * n) }
{
    i
}

// The name of point v once k and p have exchanged their names.
fn renamed(v: u32, k: u32, p: u32) -> u32
    ensures renamed { result ≡ transposed k p v }
{
    if v == k {
        return p;
    }
    if v == p {
        return k;
    }
    v
}

// Where q is a point other than k and p, its cell back by letter y gets x.
fn mend(table: &mut [u32], room: Room, k: u32, p: u32, q: u32, y: u32, x: u32)
    requires inside { InTable room table.old k y }
    requires cell { IsCell room.rows q }
    ensures mended { Holds room.n room.rows table.old (mended (cell room.n room.rows table.old) k p q y x) table.new }
{
    if q == ABSENT {
        return;
    }
    if q == k {
        return;
    }
    if q == p {
        return;
    }
    links::put_at(table, room, q, letters::inverse(y), x);
}

// Rows k and p trade their cells of letter y, which hold a and b, under the new names.
fn trade_ends(table: &mut [u32], room: Room, k: u32, p: u32, y: u32, a: u32, b: u32)
    requires { InTable room table.old k y × InTable room table.old p y }
    ensures traded { Holds room.n room.rows table.old (ends_traded (cell room.n room.rows table.old) k p y a b) table.new }
{
    links::put_at(table, room, k, y, renamed(b, k, p));
    links::put_at(table, room, p, y, renamed(a, k, p));
}

// One turn of an exchange: rows k and p trade their cells of letter y, and the far ends are mended.
fn trade(table: &mut [u32], room: Room, k: u32, p: u32, y: u32)
    requires { Tradable room table.old k p y }
    ensures traded { Holds room.n room.rows table.old (traded_at (cell room.n room.rows table.old) k p y) table.new }
{
    let a = links::cell_at(table, room, k, y);
    let b = links::cell_at(table, room, p, y);
    trade_ends(table, room, k, p, y, a, b);
    mend(table, room, k, p, a, y, p);
    mend(table, room, k, p, b, y, k);
}

// Exchanges the names k and p in a table of n generators with room for `room` rows.
pub fn exchange(table: &mut [u32], n: usize, room: usize, k: u32, p: u32)
    requires roomed { Roomed n room table.old }
    requires k_lt_room { (k < room) × (p < room) }
    ensures exchanged { Holds n room table.old (exchanged (cell n room table.old) k p) table.new }
{
    if k == p {
        return;
    }
    let room = Room {
        n,
        rows: room,
        made: room,
    };
    for y in 0..2 * n {
        trade(table, room, k, p, y as u32);
    }
}

// One turn, at the cell of letter y at v: a point first met there takes the next name. Answers the points met.
fn number_cell(table: &mut [u32], n: usize, room: usize, v: usize, y: usize, met: usize) -> usize
    requires scanned { Scanned n room table.old met }
    requires v_lt_met { (v < met) × (y < 2 * n) }
    ensures named { NamedIn n room table.old (named_at (naming_of n room table.old met) v y) result table.new }
{
    let u = links::cell_at(
        table,
        Room {
            n,
            rows: room,
            made: met,
        },
        v as u32,
        y as u32,
    );
    if u == ABSENT {
        return met;
    }
    if (u as usize) < met {
        return met;
    }
    exchange(table, n, room, u, met as u32);
    met + 1
}

// A turn for each letter of row v.
fn number_row(table: &mut [u32], n: usize, room: usize, v: usize, met: usize) -> usize
    requires scanned { Scanned n room table.old met }
    requires v_lt_met { v < met }
    ensures named { NamedIn n room table.old (named_to (usual n) (naming_of n room table.old met) v (length (usual n))) result table.new }
{
    let mut found = met;
    for i in 0..2 * n {
        found = number_cell(table, n, room, v, letter_at(n, i), found);
    }
    found
}

// Numbers the points of a table in place, and answers how many there are.
pub fn number(table: &mut [u32], n: usize, room: usize) -> usize
    requires ready { Ready (usual n) room (cell n room table.old) }
    requires roomed { Roomed n room table.old }
    requires le_room { 1 ≤ room }
    ensures numbered { NumberedIn n room table.old result table.new }
{
    let mut met: usize = 1;
    let mut v: usize = 0;
    // No `for` fits: a row may meet points, so the bound grows.
    while v < met {
        met = number_row(table, n, room, v, met);
        v += 1;
    }
    met
}

// A member of the subgroup of a lent table, expressed by the signed numbers of basis words.
#![tactic(auto)]

ghost use Rattle.std.specs.Prelude.{◌≡◌, true, ◌≢◌, map, ◌+◌, ◌*◌, ◌≤◌, ◌<◌, length, take};
ghost use Rattle.std.proofs.Math.Option.{none};
ghost use Rattle.std.proofs.lemmas.List.Edits.{sets};
ghost use Rattle.theory.specs.Letters.{usual};
ghost use Rattle.theory.specs.Tables.{absent, cell};
ghost use Rattle.theory.specs.TableRefusals.{member_refusal};
ghost use Rattle.edges.specs.Edges.{marks_of};
ghost use Rattle.expressions.specs.Expressions.{ExpressOutcome};
ghost use Rattle.expressions.specs.Places.{signed_by, place_of, placed, places_of, numbered, AtEdge, AllAtEdge};
ghost use Rattle.expressions.specs.Parts.{is_home, notes_of, in_front, marked_work, WordOutcome};

use refusals::{Cause, Refusal};
use tables::{Sound, Table};

// The number k, or its inverse for an edge read backwards.
fn signed(k: u32, back: bool) -> i32
    requires { k ≤ 54526004 }
    ensures signed { result ≡ signed_by back k }
{
    let z = k as i32;
    if back { -z } else { z }
}

// The signed place of the edge that letter y reads from v to x: the place of its lower-case cell, from 1; minus for a capital.
fn place_of(t: &Sound, v: u32, y: u32, x: u32) -> i32
    requires point { v < t.now.points }
    requires letter { y < 2 * t.now.n }
    requires end { x < t.now.points }
    ensures place { result ≡ place_of t.now.n v y x }
{
    let w = 2 * t.n as u32;
    if y % 2 == 0 {
        return signed(v * w + y + 1, false);
    }
    signed(x * w + letters::inverse(y) + 1, true)
}

// The number of edges outside the paths that a word crosses.
fn count_crossings(t: &Sound, word: &[u32]) -> usize
    requires { is_home t.now.n t.now.points t.now.cells.now word.now ≡ true }
    ensures crossings { result ≡ length (places_of t.now.n t.now.points t.now.cells.now word.now) }
{
    let mut v: u32 = 0;
    let mut found: usize = 0;
    for &y in word {
        let crossed = edges::is_outside(t, v, y);
        v = t.cell_at(v as usize, y as usize);
        if crossed {
            found += 1;
        }
    }
    found
}

// Writes the signed place of the edge that letter y reads from v to x, if no path uses it. Answers where the next goes.
fn write_place(t: &Sound, v: u32, y: u32, x: u32, out: &mut [i32], at: usize) -> usize
    requires point { v < t.now.points }
    requires letter { y < 2 * t.now.n }
    requires leads { x ≡ cell t.now.n t.now.points t.now.cells.now v y }
    requires there { x ≢ absent }
    requires end { x < t.now.points }
    requires room { at + length (placed t.now.n t.now.points t.now.cells.now v y) ≤ length out.old }
    ensures next { result ≡ at + length (placed t.now.n t.now.points t.now.cells.now v y) }
    ensures written { out.new ≡ sets out.old at (placed t.now.n t.now.points t.now.cells.now v y) }
{
    if !edges::is_outside(t, v, y) {
        return at;
    }
    out[at] = place_of(t, v, y, x);
    at + 1
}

// Writes the signed places of the edges outside the paths that a word crosses, in reading order.
fn write_places(t: &Sound, word: &[u32], out: &mut [i32])
    requires home { is_home t.now.n t.now.points t.now.cells.now word.now ≡ true }
    requires room { length (places_of t.now.n t.now.points t.now.cells.now word.now) ≤ length out.old }
    ensures written { out.new ≡ in_front (places_of t.now.n t.now.points t.now.cells.now word.now) out.old }
{
    let mut v: u32 = 0;
    let mut at: usize = 0;
    for &y in word {
        let x = t.cell_at(v as usize, y as usize);
        at = write_place(t, v, y, x, out, at);
        v = x;
    }
}

// The signed number of the edge at a signed place.
fn number_at(t: &Sound, work: &[u32], marks: usize, z: i32) -> i32
    requires few { marks ≤ 1048576 }
    requires room { 2 * marks ≤ length work.now }
    requires marked { take (2 * marks) work.now ≡ marks_of (cell t.now.n t.now.points t.now.cells.now) t.now.points (usual t.now.n) marks marks }
    requires place { AtEdge t.now.n t.now.points t.now.cells.now z }
    ensures number { result ≡ numbered t.now.n t.now.points t.now.cells.now z }
{
    let w = 2 * t.n as u32;
    let place = z.unsigned_abs() - 1;
    let k = edges::number_of(t, work, marks, place / w, place % w);
    signed(k, z < 0)
}

// Puts the signed number of each signed place in its stead.
fn number_places(t: &Sound, work: &[u32], marks: usize, places: &mut [i32])
    requires few { marks ≤ 1048576 }
    requires room { 2 * marks ≤ length work.now }
    requires marked { take (2 * marks) work.now ≡ marks_of (cell t.now.n t.now.points t.now.cells.now) t.now.points (usual t.now.n) marks marks }
    requires places { AllAtEdge t.now.n t.now.points t.now.cells.now places.old }
    ensures numbered { places.new ≡ map (numbered t.now.n t.now.points t.now.cells.now) places.old }
{
    for z in places {
        *z = number_at(t, work, marks, *z);
    }
}

// A word leads from the base to the base.
fn is_home(t: &Sound, word: &[u32]) -> bool
    ensures home { result ≡ is_home t.now.n t.now.points t.now.cells.now word.now }
{
    members::is_at_base(members::read(t, word))
}

// Writes the numbers of the word in the first `left` work cells: its places first, then, the word's cells taken for marks, their numbers.
fn write_numbers(
    t: &Sound,
    left: usize,
    crossed: usize,
    work: &mut [u32],
    marks: usize,
    out: &mut [i32],
)
    requires left_in_bounds { left ≤ length work.old }
    requires home { is_home t.now.n t.now.points t.now.cells.now (take left work.old) ≡ true }
    requires few { marks ≤ 1048576 }
    requires marks_in_bounds { 2 * marks ≤ length work.old }
    requires crossed { crossed ≡ length (places_of t.now.n t.now.points t.now.cells.now (take left work.old)) }
    requires room { crossed ≤ length out.old }
    ensures numbers { out.new ≡ in_front (notes_of t.now.n t.now.points t.now.cells.now (take left work.old)) out.old }
    ensures marked { work.new ≡ marked_work t.now.n t.now.points t.now.cells.now marks work.old }
{
    write_places(t, &work[..left], out);
    edges::mark(t, work, marks);
    number_places(t, work, marks, &mut out[..crossed]);
}

// Expresses the word in the first `left` work cells: how many numbers are written, or none where it is outside; or refuses by 9.
fn express_word(
    t: &Sound,
    left: usize,
    work: &mut [u32],
    marks: usize,
    out: &mut [i32],
) -> Result<Option<u64>, Refusal>
    requires left_in_bounds { left ≤ length work.old }
    requires few { marks ≤ 1048576 }
    requires marks_in_bounds { 2 * marks ≤ length work.old }
    ensures outcome { WordOutcome t.now.n t.now.points t.now.cells.now (take left work.old) marks work.old out.old result work.new out.new }
{
    if !is_home(t, &work[..left]) {
        return Ok(None);
    }
    let crossed = count_crossings(t, &work[..left]);
    refusals::check_room(Cause::Output, crossed as u64, out.len() as u64)?;
    write_numbers(t, left, crossed, work, marks, out);
    Ok(Some(crossed as u64))
}

// The answer where none of 1 to 8 applies. The query is reduced into the work cells, which are 0 afterwards.
fn decide(
    t: &Sound,
    query: &[u8],
    work: &mut [u32],
    out: &mut [i32],
) -> Result<Option<u64>, Refusal>
    requires { member_refusal t.now.n t.now.points t.now.cells.now query.now (length work.old) ≡ none }
    ensures outcome { ExpressOutcome t.now.n t.now.points t.now.cells.now query.now work.old out.old result work.new out.new }
{
    let left = words::reduce(query, work).left;
    let answer = express_word(t, left, work, query.len() / 2, out);
    cells::fill(work, query.len(), 0);
    answer
}

// Expresses a query in the basis of a table handed in, and answers how many numbers are written, or none where it is outside,
// or refuses: 1, 2, 3/4, 6, 7, 8, 9.
pub fn express(
    t: &Table,
    query: &[u8],
    work: &mut [u32],
    out: &mut [i32],
) -> Result<Option<u64>, Refusal>
    ensures outcome { ExpressOutcome t.now.n t.now.points t.now.cells.now query.now work.old out.old result work.new out.new }
{
    let sound = members::check_query(t, query, work.len())?;
    decide(&sound, query, work, out)
}

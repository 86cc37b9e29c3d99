// A basis of the subgroup of a lent table, written as a list text.
#![tactic(auto)]

ghost use Rattle.std.specs.Prelude.{◌≡◌, true, [], ◌∷◌, ◌+◌, ◌*◌, ◌≤◌, ◌<◌, length, get_or, IfOk};
ghost use Rattle.std.proofs.Math.Option.{none};
ghost use Rattle.std.proofs.lemmas.List.Edits.{sets};
ghost use Rattle.theory.specs.Words.{inv};
ghost use Rattle.theory.specs.Letters.{usual, byte_of};
ghost use Rattle.theory.specs.Tables.{cell};
ghost use Rattle.theory.specs.Basis.{spots_of, scan};
ghost use Rattle.refusals.specs.Given.{unless};
ghost use Rattle.tables.specs.Lent.{verdict};
ghost use Rattle.paths.specs.Paths.{PathCells};
ghost use Rattle.bases.specs.Chains.{is_noted_step, depth_of, path_bytes, back_bytes, loop_bytes};
ghost use Rattle.bases.specs.Words.{is_outside, text_of, grown, size_in, Small};
ghost use Rattle.bases.specs.Bases.{early_refusal, BasisOutcome};

use cells::ABSENT;
use lists::TextSize;
use refusals::{Cause, Refusal, refuse};
use tables::{Sound, Table};

// A canonical table, and the paths of its points, noted in lent cells.
#[derive(Clone, Copy)]
struct Pathed<'a> {
    table: Sound<'a>,
    notes: &'a [u32],
    ghost room: { 3 * table.points ≤ length notes.now },
    ghost paths: { PathCells table.n table.points table.cells.now notes.now },
}

impl Pathed<'_> {
    // The path of x ends with letter y from v, as the notes say.
    fn is_step(&self, v: u32, y: u32, x: usize) -> bool
        requires point { x < self.now.table.points }
        ensures step { result ≡ is_noted_step self.now.table.points self.now.notes.now v y x }
    {
        let points = self.table.points as usize;
        x != 0 && self.notes[x] == v && self.notes[points + x] == y
    }

    // The edge of letter y at v gives a basis word: y is lower-case, leads somewhere, and no path uses the edge, either way.
    fn is_outside(&self, v: usize, y: usize) -> bool
        requires point { v < self.now.table.points }
        requires letter { y < 2 * self.now.table.n }
        ensures outside { result ≡ is_outside (cell self.now.table.n self.now.table.points self.now.table.cells.now) self.now.table.points (usual self.now.table.n) (record { point = v; letter = y }) }
    {
        if y % 2 != 0 {
            return false;
        }
        let x = self.table.cell_at(v, y);
        if x == ABSENT {
            return false;
        }
        if self.is_step(v as u32, y as u32, x as usize) {
            return false;
        }
        !self.is_step(x, letters::inverse(y as u32), v)
    }

    // The length of the path of x.
    fn depth(&self, x: usize) -> u32
        requires point { x < self.now.table.points }
        ensures depth { result ≡ depth_of self.now.table.points self.now.notes.now x }
    {
        self.notes[2 * self.table.points as usize + x]
    }

    // A size, and what the edge of letter y at v adds to it: a word, and the bytes of its line.
    fn add_word(&self, v: usize, y: usize, size: TextSize) -> TextSize
        requires point { v < self.now.table.points }
        requires letter { y < 2 * self.now.table.n }
        requires small { (size.words ≤ 200000000) × (size.bytes ≤ 200000000000000) }
        ensures size { result ≡ grown size (size_in (cell self.now.table.n self.now.table.points self.now.table.cells.now) self.now.table.points (usual self.now.table.n) (record { point = v; letter = y } ∷ [])) }
    {
        if !self.is_outside(v, y) {
            return size;
        }
        let x = self.table.cell_at(v, y) as usize;
        let line = self.depth(v) as u64 + self.depth(x) as u64 + 2;
        TextSize {
            words: size.words + 1,
            bytes: size.bytes + line,
        }
    }

    // A size, and what row v adds to it.
    fn add_row(&self, v: usize, size: TextSize) -> TextSize
        requires point { v < self.now.table.points }
        requires small { Small size v }
        ensures size { result ≡ grown size (size_in (cell self.now.table.n self.now.table.points self.now.table.cells.now) self.now.table.points (usual self.now.table.n) (spots_of (usual self.now.table.n) v)) }
    {
        let mut sum = size;
        for y in 0..2 * self.table.n as usize {
            sum = self.add_word(v, y, sum);
        }
        sum
    }

    // The size of the basis: its words, and the bytes of its text.
    fn measure(&self) -> TextSize
        ensures size { result ≡ size_in (cell self.now.table.n self.now.table.points self.now.table.cells.now) self.now.table.points (usual self.now.table.n) (scan self.now.table.points (usual self.now.table.n)) }
    {
        let mut size = TextSize { words: 0, bytes: 0 };
        for v in 0..self.table.points as usize {
            size = self.add_row(v, size);
        }
        size
    }

    // The letter by which p was first met.
    fn letter_to(&self, p: u32) -> u32
        requires point { p < self.now.table.points }
        ensures letter { result ≡ get_or self.now.notes.now (self.now.table.points + p) 0 }
        ensures small { result < 52 }
    {
        self.notes[self.table.points as usize + p as usize]
    }

    // The byte of the letter by which p was first met.
    fn byte_to(&self, p: u32) -> u8
        requires point { p < self.now.table.points }
        ensures byte { result ≡ byte_of (get_or self.now.notes.now (self.now.table.points + p) 0) }
    {
        letters::byte_of(self.letter_to(p) as usize)
    }

    // The byte of the letter that leads back from p.
    fn byte_back(&self, p: u32) -> u8
        requires point { p < self.now.table.points }
        ensures byte { result ≡ byte_of (inv (get_or self.now.notes.now (self.now.table.points + p) 0)) }
    {
        letters::byte_of(letters::inverse(self.letter_to(p)) as usize)
    }

    // Writes the path of v from byte `at` on: backwards, from its last letter up to the base.
    fn write_path(&self, v: u32, out: &mut [u8], at: usize)
        requires point { v < self.now.table.points }
        requires room { at + depth_of self.now.table.points self.now.notes.now v ≤ length out.old }
        ensures path { out.new ≡ sets out.old at (path_bytes self.now.table.points self.now.notes.now v) }
    {
        let mut p = v;
        let end = at + self.depth(v as usize) as usize;
        for i in (at..end).rev() {
            out[i] = self.byte_to(p);
            p = self.notes[p as usize];
        }
    }

    // Writes the inverse of the path of x from byte `at` on: the inverse letters from its last one up to the base. Answers the place behind.
    fn write_back(&self, x: u32, out: &mut [u8], at: usize) -> usize
        requires point { x < self.now.table.points }
        requires room { at + depth_of self.now.table.points self.now.notes.now x ≤ length out.old }
        ensures back { out.new ≡ sets out.old at (back_bytes self.now.table.points self.now.notes.now x) }
        ensures end { result ≡ at + depth_of self.now.table.points self.now.notes.now x }
    {
        let mut p = x;
        let end = at + self.depth(x as usize) as usize;
        for cell in &mut out[at..end] {
            *cell = self.byte_back(p);
            p = self.notes[p as usize];
        }
        end
    }

    // Writes the line of the basis word of letter y from v to x from byte `at` on. Answers the place behind it.
    fn write_line(&self, v: u32, y: usize, x: u32, out: &mut [u8], at: usize) -> usize
        requires from { v < self.now.table.points }
        requires letter { y < 2 * self.now.table.n }
        requires to { x < self.now.table.points }
        requires room { at + depth_of self.now.table.points self.now.notes.now v + depth_of self.now.table.points self.now.notes.now x + 2 ≤ length out.old }
        ensures line { out.new ≡ sets out.old at (loop_bytes self.now.table.points self.now.notes.now v y x) }
        ensures end { result ≡ at + depth_of self.now.table.points self.now.notes.now v + depth_of self.now.table.points self.now.notes.now x + 2 }
    {
        self.write_path(v, out, at);
        let mid = at + self.depth(v as usize) as usize;
        out[mid] = letters::byte_of(y);
        let end = self.write_back(x, out, mid + 1);
        out[end] = 10;
        end + 1
    }

    // Writes what the edge of letter y at v gives, from byte `at` on: its line, or nothing. Answers the place behind it.
    fn write_word(&self, v: usize, y: usize, out: &mut [u8], at: usize) -> usize
        requires point { v < self.now.table.points }
        requires letter { y < 2 * self.now.table.n }
        requires room { at + length (text_of (cell self.now.table.n self.now.table.points self.now.table.cells.now) self.now.table.points (usual self.now.table.n) (record { point = v; letter = y } ∷ [])) ≤ length out.old }
        ensures text { out.new ≡ sets out.old at (text_of (cell self.now.table.n self.now.table.points self.now.table.cells.now) self.now.table.points (usual self.now.table.n) (record { point = v; letter = y } ∷ [])) }
        ensures end { result ≡ at + length (text_of (cell self.now.table.n self.now.table.points self.now.table.cells.now) self.now.table.points (usual self.now.table.n) (record { point = v; letter = y } ∷ [])) }
    {
        if !self.is_outside(v, y) {
            return at;
        }
        let x = self.table.cell_at(v, y);
        self.write_line(v as u32, y, x, out, at)
    }

    // Writes the lines of row v from byte `at` on. Answers the place behind them.
    fn write_row(&self, v: usize, out: &mut [u8], at: usize) -> usize
        requires point { v < self.now.table.points }
        requires room { at + length (text_of (cell self.now.table.n self.now.table.points self.now.table.cells.now) self.now.table.points (usual self.now.table.n) (spots_of (usual self.now.table.n) v)) ≤ length out.old }
        ensures text { out.new ≡ sets out.old at (text_of (cell self.now.table.n self.now.table.points self.now.table.cells.now) self.now.table.points (usual self.now.table.n) (spots_of (usual self.now.table.n) v)) }
        ensures end { result ≡ at + length (text_of (cell self.now.table.n self.now.table.points self.now.table.cells.now) self.now.table.points (usual self.now.table.n) (spots_of (usual self.now.table.n) v)) }
    {
        let mut to = at;
        for y in 0..2 * self.table.n as usize {
            to = self.write_word(v, y, out, to);
        }
        to
    }

    // Writes the text of the basis.
    fn write_words(&self, out: &mut [u8])
        requires room { length (text_of (cell self.now.table.n self.now.table.points self.now.table.cells.now) self.now.table.points (usual self.now.table.n) (scan self.now.table.points (usual self.now.table.n))) ≤ length out.old }
        ensures text { out.new ≡ sets out.old 0 (text_of (cell self.now.table.n self.now.table.points self.now.table.cells.now) self.now.table.points (usual self.now.table.n) (scan self.now.table.points (usual self.now.table.n))) }
    {
        let mut at: usize = 0;
        for v in 0..self.table.points as usize {
            at = self.write_row(v, out, at);
        }
    }
}

// The table, canonical and with so many work cells enough, or the first of its refusals 1, 6, 7 and 8.
pub fn check_early<'a>(t: &Table<'a>, room: usize) -> Result<Sound<'a>, Refusal>
    ensures tested { verdict result ≡ unless (early_refusal t.now.n t.now.points t.now.cells.now room none) tt }
    ensures same { IfOk result (λ s. (s.n ≡ t.now.n) × (s.points ≡ t.now.points) × (s.cells ≡ t.now.cells)) }
{
    let lent = t.lend()?;
    let needed = 4 * lent.points;
    refusals::check_room(Cause::Work, needed, room as u64)?;
    lent.checked()
}

// Writes the basis where 1, 6, 7 and 8 do not apply: notes the paths, sums the size, and refuses by 9 or writes.
fn write_basis(t: &Sound, work: &mut [u32], out: &mut [u8]) -> Result<TextSize, Refusal>
    requires room { 4 * t.now.points ≤ length work.old }
    ensures outcome { BasisOutcome t.now.n t.now.points t.now.cells.now work.old out.old result work.new out.new }
{
    let cells = 4 * (t.points as usize);
    paths::note_paths(t, work);
    let pathed = Pathed {
        table: *t,
        notes: &*work,
    };
    let size = pathed.measure();
    if (out.len() as u64) < size.bytes {
        cells::fill(work, cells, 0);
        return Err(refuse(Cause::Output, size.bytes));
    }
    pathed.write_words(out);
    cells::fill(work, cells, 0);
    Ok(size)
}

// Writes the basis of the subgroup of a table handed in as a list text, or refuses: 1, 6, 7, 8, 9.
pub fn basis(t: &Table, work: &mut [u32], out: &mut [u8]) -> Result<TextSize, Refusal>
    ensures outcome { BasisOutcome t.now.n t.now.points t.now.cells.now work.old out.old result work.new out.new }
{
    let sound = check_early(t, work.len())?;
    write_basis(&sound, work, out)
}

// Membership on a lent table: reading a reduced query from the base.
#![tactic(auto)]

ghost use Rattle.std.specs.Prelude.{◌≡◌, true, ◌<◌, ◌≢◌, length, IfOk};
ghost use Rattle.std.proofs.Math.Option.{none};
ghost use Rattle.std.specs.declared.result.Result.TheVariants.{Ok};
ghost use Rattle.theory.specs.Refusals.{is_alphabet};
ghost use Rattle.theory.specs.TableRefusals.{member_refusal};
ghost use Rattle.theory.specs.Tables.{absent, cell};
ghost use Rattle.refusals.specs.Given.{unless};
ghost use Rattle.tables.specs.Lent.{verdict};
ghost use Rattle.members.specs.Readings.{reading_as};
ghost use Rattle.members.specs.Members.{MemberOutcome};
ghost use Rattle.members.specs.Stages.{is_at_base, table_refusal};

use cells::ABSENT;
use refusals::{Cause, Refusal};
use tables::{Sound, Table};

// Where a reading stopped: after `count` letters at `point`, for want of `letter`.
#[derive(Clone, Copy, Debug, PartialEq, Eq)]
pub struct Stop {
    pub count: usize,
    pub point: u32,
    pub letter: u32,
}

// The cell of letter y at point v. A letter beyond the row has none.
#[tactic(auto, unfolding(theory::specs::Tables::cell))]
fn step(t: &Sound, v: u32, y: u32) -> u32
    requires { v < t.now.points }
    ensures leads { result ≡ cell t.now.n t.now.points t.now.cells.now v y }
    ensures within { result ≢ absent → result < t.now.points }
{
    let letter = y as usize;
    if 2 * t.n as usize <= letter {
        return ABSENT;
    }
    t.cell_at(v as usize, letter)
}

// Reads a word from the base of a canonical table, and answers the point where it ends, or where it stopped.
pub fn read(t: &Sound, word: &[u32]) -> Result<u32, Stop>
    ensures reading { result ≡ reading_as t.now.n t.now.points t.now.cells.now word.now }
{
    let mut v: u32 = 0;
    for (i, &y) in word.iter().enumerate() {
        let x = step(t, v, y);
        if x == ABSENT {
            return Err(Stop {
                count: i,
                point: v,
                letter: y,
            });
        }
        v = x;
    }
    Ok(v)
}

// A reading ended at the base.
pub fn is_at_base(reading: Result<u32, Stop>) -> bool
    ensures base { result ≡ is_at_base reading }
{
    reading == Ok(0)
}

// Whether the query is a member, where nothing is refused. It is reduced into the work cells and read there; they are 0 afterwards.
fn decide(t: &Sound, query: &[u8], work: &mut [u32]) -> bool
    requires { member_refusal t.now.n t.now.points t.now.cells.now query.now (length work.old) ≡ none }
    ensures outcome { MemberOutcome t.now.n t.now.points t.now.cells.now query.now work.old (Ok result) work.new }
{
    let left = words::reduce(query, work).left;
    let reading = read(t, &work[..left]);
    cells::fill(work, query.len(), 0);
    is_at_base(reading)
}

// The table, or its refusal with so many work cells, by the first of 6, 7 and 8 that applies.
fn check_table<'a>(t: &Table<'a>, needed: usize, room: usize) -> Result<Sound<'a>, Refusal>
    requires { is_alphabet t.now.n ≡ true }
    ensures tested { verdict result ≡ unless (table_refusal t.now.n t.now.points t.now.cells.now needed room) tt }
    ensures same { IfOk result (λ s. (s.n ≡ t.now.n) × (s.points ≡ t.now.points) × (s.cells ≡ t.now.cells)) }
{
    let lent = t.lend()?;
    refusals::check_room(Cause::Work, needed as u64, room as u64)?;
    lent.checked()
}

// The table handed in, or the refusal of a query on it, with so many work cells, by the first cause that applies: 1, 2, 3/4, 6, 7, 8.
pub fn check_query<'a>(t: &Table<'a>, query: &[u8], room: usize) -> Result<Sound<'a>, Refusal>
    ensures tested { verdict result ≡ unless (member_refusal t.now.n t.now.points t.now.cells.now query.now room) tt }
    ensures same { IfOk result (λ s. (s.n ≡ t.now.n) × (s.points ≡ t.now.points) × (s.cells ≡ t.now.cells)) }
{
    lists::scan(t.n, query, false)?;
    check_table(t, query.len(), room)
}

// Says whether a query is a member of the subgroup of a table handed in, or refuses: 1, 2, 3/4, 6, 7, 8.
pub fn member(t: &Table, query: &[u8], work: &mut [u32]) -> Result<bool, Refusal>
    ensures outcome { MemberOutcome t.now.n t.now.points t.now.cells.now query.now work.old result work.new }
{
    let sound = check_query(t, query, work.len())?;
    Ok(decide(&sound, query, work))
}

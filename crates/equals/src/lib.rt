// Equality of two lent tables.
#![tactic(auto)]

ghost use Rattle.std.specs.Prelude.{◌≡◌, ◌≤◌, length, take};
ghost use Rattle.equals.specs.Equals.{EqualOutcome, is_same, same_cells};

use refusals::{Cause, Refusal, refuse};
use tables::{Lent, Sound, Table};

// The first `count` cells of two tables are the same.
fn same_cells(first: &[u32], second: &[u32], count: usize) -> bool
    requires { (count ≤ length first.now) × (count ≤ length second.now) }
    ensures same { result ≡ same_cells (take count first.now) (take count second.now) }
{
    first[..count] == second[..count]
}

// Whether two tables over one alphabet are the same: V, then the cells.
fn compare(a: &Sound, b: &Sound) -> bool
    requires alphabet { b.now.n ≡ a.now.n }
    ensures same { result ≡ is_same a.now.n a.now.points a.now.cells.now b.now.points b.now.cells.now }
{
    if a.points != b.points {
        return false;
    }
    same_cells(a.cells, b.cells, Lent::from(*a).cell_count())
}

// Says whether two tables handed in are equal: same V, same cells; or refuses: 1, 6 of the first, 6 of the second, 8, 8.
pub fn equal(a: &Table, b: &Table) -> Result<bool, Refusal>
    ensures outcome { EqualOutcome a.now.n a.now.points a.now.cells.now b.now.n b.now.points b.now.cells.now result }
{
    refusals::check_alphabet(a.n)?;
    if b.n != a.n {
        return Err(refuse(Cause::Alphabet, 0));
    }
    let first = a.lend()?;
    let second = b.lend()?;
    Ok(compare(&first.checked()?, &second.checked()?))
}

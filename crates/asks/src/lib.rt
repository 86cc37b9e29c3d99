// A list and a query in one call: the list is folded, and the query answered on its table.
#![tactic(auto)]

ghost use Rattle.std.specs.Prelude.{◌≡◌};
ghost use Rattle.theory.specs.Refusals.{turn};
ghost use Rattle.refusals.specs.Given.{number_of, unless};
ghost use Rattle.asks.specs.Causes.{texts_refusal};
ghost use Rattle.asks.specs.Asks.{Askable, AskOutcome};

use refusals::{Cause, Refusal};
use tables::Table;

// Where a cause stands in the order: by number, 3 and 4 as one.
fn place_in_order(cause: Cause) -> u64
    ensures place { result ≡ turn (number_of cause) }
{
    match cause {
        Cause::Beyond => Cause::NoLetter.number(),
        _ => cause.number(),
    }
}

// The first refusal of a list and a query: the list's, unless the query's stands before it in the order.
fn scan_both(n: u64, list: &[u8], query: &[u8]) -> Result<(), Refusal>
    ensures first { result ≡ unless (texts_refusal n list.now query.now) tt }
{
    let second = lists::scan(n, query, false);
    let Err(a) = lists::scan(n, list, true) else {
        return second;
    };
    match second {
        Err(b) if place_in_order(b.cause) < place_in_order(a.cause) => Err(b),
        _ => Err(a),
    }
}

// The answer where nothing is refused: the list is folded, and the query read on its table.
fn ask_lent(
    n: u64,
    list: &[u8],
    query: &[u8],
    table: &mut [u32],
    work: &mut [u32],
) -> Result<bool, Refusal>
    requires { Askable n list.now query.now table.old work.old }
    ensures outcome { AskOutcome n list.now query.now table.old work.old result table.new work.new }
{
    let points = folds::build(n as usize, list, table, work).points as u64;
    let cells = &*table;
    members::member(&Table { n, points, cells }, query, work)
}

// Says whether a query is a member of the subgroup of a list of words over n generators, and leaves the list's table, or refuses:
// 1, 2, 3/4, 5, 6, 7, of a list and a query that meet the same place in the order the list's.
pub fn ask(
    n: u64,
    list: &[u8],
    query: &[u8],
    table: &mut [u32],
    work: &mut [u32],
) -> Result<bool, Refusal>
    ensures outcome { AskOutcome n list.now query.now table.old work.old result table.new work.new }
{
    scan_both(n, list, query)?;
    let rows = lists::letters_in(list) + 1;
    folds::check_rows(n, rows, table.len())?;
    let needed = (8 * rows).max(query.len());
    refusals::check_room(Cause::Work, needed as u64, work.len() as u64)?;
    ask_lent(n, list, query, table, work)
}

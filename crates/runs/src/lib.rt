// Runs of numbers in a file: read through before anything is written.
#![tactic(auto)]

ghost use Rattle.std.specs.Prelude.{◌≡◌, ◌≤◌, length};
ghost use Rattle.runs.specs.Runs.{numbers_at, skipped_as};

use refusals::{Cause, Refusal, refuse};

// Reads through `count` numbers from place `at` on, each below the limit, and answers the place behind them, or refuses:
// 10 or 4, whichever comes first.
pub fn skip(file: &[u8], at: usize, count: u64, limit: u64) -> Result<usize, Refusal>
    requires { at ≤ length file.now }
    ensures skipped { result ≡ skipped_as (numbers_at limit file.now at count) }
{
    let mut p = at;
    for _ in 0..count {
        let number = numbers::read_number(file, p)?;
        if limit <= number.value {
            return Err(refuse(Cause::Beyond, p as u64));
        }
        p = number.next;
    }
    Ok(p)
}

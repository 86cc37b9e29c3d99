// Lent cells: the absent mark, and filling a run of them with one value.
#![tactic(auto)]

ghost use Rattle.std.specs.Prelude.{◌≡◌, ◌≤◌, length};
ghost use Rattle.cells.specs.Filled.{filled};

// The mark of a table's cell that leads nowhere: a number among the cells, as document 01's table and file have it.
pub const ABSENT: u32 = u32::MAX;

// Puts `value` into the first `count` cells.
pub fn fill(cells: &mut [u32], count: usize, value: u32)
    requires { count ≤ length cells.old }
    ensures filled { cells.new ≡ filled count value cells.old }
{
    cells[..count].fill(value);
}

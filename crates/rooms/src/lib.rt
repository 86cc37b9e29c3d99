// The engine's leaves on lent cells.
#![tactic(auto)]

ghost use Rattle.std.specs.Prelude.{◌≡◌, ◌+◌, ◌*◌, ◌<◌, ◌≤◌, length, set};
ghost use Rattle.engine.specs.Roots.{Falls};
ghost use Rattle.engine.specs.Work.{forward_of};
ghost use Rattle.rooms.specs.Finding.{Found};
ghost use Rattle.rooms.specs.Uniting.{sent, United};

// What the engine knows of lent cells: n generators, `rows` rows of room, `made` points made.
#[derive(Clone, Copy, Debug, PartialEq, Eq)]
pub struct Room {
    pub n: usize,
    pub rows: usize,
    pub made: usize,
}

// What is folded: the lent cells, what is known of them, and how many points are pending.
#[derive(Drop)]
pub struct Fold<'a> {
    pub table: &'a mut [u32],
    pub work: &'a mut [u32],
    pub room: Room,
    pub pending: usize,
}

// Puts x into cell y of a row.
pub fn put_cell(row: &mut [u32], y: usize, x: u32)
    requires { y < length row.old }
    ensures put { row.new ≡ set row.old y x }
{
    row[y] = x;
}

// Puts x into cell y of row v, in a table whose rows have w cells.
pub fn put(table: &mut [u32], w: usize, v: usize, y: usize, x: u32)
    requires { (w ≤ 52) × (y < w) × (v * w + w ≤ length table.old) }
    ensures put { table.new ≡ set table.old (v * w + y) x }
{
    let at = v * w;
    put_cell(&mut table[at..], y, x);
}

// The root of v by the forward cells, the first n of `work`. Each name on the way is sent two steps on.
pub fn find(work: &mut [u32], n: usize, v: u32) -> u32
    requires falls { Falls (forward_of work.old n) }
    requires v_lt_n { (v < n) × (n ≤ length work.old) }
    ensures found { Found work.old n v result work.new }
{
    let mut at = v;
    let mut next = work[at as usize];
    // No `for` fits: the walk goes from name to name, and nothing says how many there are.
    while next != at {
        let far = work[next as usize];
        work[at as usize] = far;
        at = far;
        next = work[at as usize];
    }
    at
}

// Sends hi to lo, and notes hi in the cell `at`.
fn send(work: &mut [u32], lo: u32, hi: u32, at: usize)
    requires { (hi < length work.old) × (at < length work.old) }
    ensures sent { work.new ≡ sent work.old lo hi at }
{
    work[hi as usize] = lo;
    work[at] = hi;
}

// Makes the points of p and q one: the greater root is sent to the smaller and goes behind the `count` pending
// points, whose cells stand from `room` on. Answers their new number.
pub fn unite(work: &mut [u32], n: usize, room: usize, count: usize, p: u32, q: u32) -> usize
    requires falls { Falls (forward_of work.old n) }
    requires p_lt_n { (p < n) × (q < n) × (n ≤ room) × (room + count < length work.old) }
    ensures united { United work.old n room count p q result work.new }
{
    let at = room + count;
    let a = find(work, n, p);
    let b = find(work, n, q);
    if a < b {
        send(work, a, b, at);
        return count + 1;
    }
    if b < a {
        send(work, b, a, at);
        return count + 1;
    }
    count
}

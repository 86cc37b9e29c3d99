// Draining: the edges of merged points move to their roots until nothing is pending.
#![tactic(auto)]

ghost use Rattle.std.specs.Prelude.{[], ◌≡◌, ◌<◌};
ghost use Rattle.theory.specs.Letters.{usual};
ghost use Rattle.engine.specs.Engine.{cleared, turned, drained};
ghost use Rattle.rooms.specs.Rooms.{Kept, FitIn, AfterIn};
ghost use Rattle.rooms.specs.WorkCells.{cleared_work, turned_work, drained_work};
ghost use Rattle.drains.specs.Hands.{InHand};

use rooms::Fold;

// Moves every edge of the point v, which is in hand, to u.
fn clear_row(fold: &mut Fold<'_>, v: u32, u: u32)
    requires { InHand fold.old.room fold.old.table.now fold.old.work.now fold.old.pending v u }
    ensures kept { Kept fold.old fold.new }
    ensures cleared { AfterIn (λ s. cleared s v u (usual fold.old.room.n)) (λ s w. cleared_work fold.old.room.rows s w v u (usual fold.old.room.n)) fold.old fold.new }
{
    let w = 2 * (fold.room.n as u32);
    for y in 0..w {
        links::move_edge(fold, v, u, y);
    }
}

// One turn: the newest pending point is taken off, its root is looked up now, and its edges move there.
fn turn(fold: &mut Fold<'_>)
    requires fit { FitIn [] fold.old }
    requires count_nonzero { 0 < fold.old.pending }
    ensures kept { Kept fold.old fold.new }
    ensures turned { AfterIn (turned (usual fold.old.room.n)) (turned_work fold.old.room.rows (usual fold.old.room.n)) fold.old fold.new }
{
    fold.pending -= 1;
    let room = fold.room;
    let v = fold.work[room.rows + fold.pending];
    let u = rooms::find(fold.work, room.made, v);
    clear_row(fold, v, u);
}

// Turns until nothing is pending.
pub fn drain(fold: &mut Fold<'_>)
    requires { FitIn [] fold.old }
    ensures kept { Kept fold.old fold.new }
    ensures drained { AfterIn (drained (usual fold.old.room.n)) (drained_work fold.old.room.rows (usual fold.old.room.n)) fold.old fold.new }
    ensures pending { fold.new.pending ≡ 0 }
{
    // No `for` fits: a turn may add pending points.
    while 0 < fold.pending {
        turn(fold);
    }
}

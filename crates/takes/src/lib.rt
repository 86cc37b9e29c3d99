// Taking one word in: it is reduced, read from the base as far as cells exist, and its middle is chained.
#![tactic(auto)]

ghost use Rattle.std.specs.Prelude.{◌≡◌, ◌+◌, ◌-◌, ◌≤◌, length, take, drop};
ghost use Rattle.rooms.specs.Rooms.{Kept, Held};
ghost use Rattle.theory.specs.Tables.{cell};
ghost use Rattle.takes.specs.Readings.{Readable, FrontOf, BackOf};
ghost use Rattle.takes.specs.Chains.{Growing, GrownIn, ChainFits, Chained, ClosedIn};
ghost use Rattle.takes.specs.Takes.{Takeable, CircleOf, TakenIn};

use cells::ABSENT;
use rooms::{Fold, Room};

// Where a reading stopped: the point, and the place in the word.
#[derive(Clone, Copy, Debug, PartialEq, Eq)]
pub struct Stop {
    pub point: u32,
    pub count: usize,
}

// Reads `word` forward from the base as far as cells exist.
fn read_front(table: &[u32], word: &[u32], room: Room) -> Stop
    requires { Readable room table.now word.now }
    ensures front { FrontOf (cell room.n room.rows table.now) word.now result }
{
    let mut v: u32 = 0;
    for (i, &y) in word.iter().enumerate() {
        let x = links::cell_at(table, room, v, y);
        if x == ABSENT {
            return Stop { point: v, count: i };
        }
        v = x;
    }
    Stop {
        point: v,
        count: word.len(),
    }
}

// Reads `word` backward, by inverses, from the base as far as cells exist.
fn read_back(table: &[u32], word: &[u32], room: Room) -> Stop
    requires { Readable room table.now word.now }
    ensures back { BackOf (cell room.n room.rows table.now) word.now result }
{
    let mut v: u32 = 0;
    for (i, &y) in word.iter().enumerate().rev() {
        let x = links::cell_at(table, room, v, letters::inverse(y));
        if x == ABSENT {
            return Stop {
                point: v,
                count: i + 1,
            };
        }
        v = x;
    }
    Stop { point: v, count: 0 }
}

// Makes a point, and joins `at` to it by the i-th letter of the word.
fn grow(fold: &mut Fold<'_>, at: u32, i: usize) -> u32
    requires { Growing fold.old.room fold.old.table.now fold.old.work.now fold.old.pending at i }
    ensures held { Held fold.old fold.new }
    ensures made { fold.new.room.made ≡ fold.old.room.made + 1 }
    ensures point { result ≡ fold.old.room.made }
    ensures grown { GrownIn fold.old.room fold.old.table.now fold.old.work.now fold.old.pending at i fold.new.table.now fold.new.work.now fold.new.pending }
{
    let made = fold.room.made;
    let new = made as u32;
    fold.work[made] = new;
    fold.room.made = made + 1;
    let y = fold.work[2 * fold.room.rows + i];
    links::link(fold, at, y, new);
    new
}

// The end of a chain: its last letter, the i-th, joins `at` to b; where no letter is left they are made one.
fn close(fold: &mut Fold<'_>, at: u32, b: u32, i: usize, end: usize)
    requires fits { ChainFits fold.old.room fold.old.table.now fold.old.work.now fold.old.pending at b i end }
    requires end_bound { end ≤ i + 1 }
    ensures kept { Kept fold.old fold.new }
    ensures closed { ClosedIn fold.old.room fold.old.table.now fold.old.work.now fold.old.pending at b i end fold.new.table.now fold.new.work.now fold.new.pending }
{
    if i == end {
        links::unite(fold, at, b);
        return;
    }
    let y = fold.work[2 * fold.room.rows + i];
    links::link(fold, at, y, b);
}

// Chains the letters first .. end - 1 of the word from a to b, with new points between them.
fn chain(fold: &mut Fold<'_>, a: u32, b: u32, first: usize, end: usize)
    requires fits { ChainFits fold.old.room fold.old.table.now fold.old.work.now fold.old.pending a b first end }
    requires settled { fold.old.pending ≡ 0 }
    ensures held { Held fold.old fold.new }
    ensures chained { Chained fold.old.room fold.old.table.now fold.old.work.now 0 a b first end fold.new.room.made fold.new.pending fold.new.table.now fold.new.work.now }
{
    // The place of the last letter, or `end` where there is no letter.
    let last = if first < end { end - 1 } else { end };
    let mut at = a;
    for i in first..last {
        at = grow(fold, at, i);
    }
    close(fold, at, b, last, end);
}

// How far the word in the work cells first .. end - 1 is read.
fn front_of(fold: &Fold<'_>, first: usize, end: usize) -> Stop
    requires inside { (first ≤ end) × (end ≤ length fold.now.work.now) }
    requires readable { Readable fold.now.room fold.now.table.now (take (end - first) (drop first fold.now.work.now)) }
    ensures front { FrontOf (cell fold.now.room.n fold.now.room.rows fold.now.table.now) (take (end - first) (drop first fold.now.work.now)) result }
{
    read_front(fold.table, &fold.work[first..end], fold.room)
}

// How far it is read backward.
fn back_of(fold: &Fold<'_>, first: usize, end: usize) -> Stop
    requires inside { (first ≤ end) × (end ≤ length fold.now.work.now) }
    requires readable { Readable fold.now.room fold.now.table.now (take (end - first) (drop first fold.now.work.now)) }
    ensures back { BackOf (cell fold.now.room.n fold.now.room.rows fold.now.table.now) (take (end - first) (drop first fold.now.work.now)) result }
{
    read_back(fold.table, &fold.work[first..end], fold.room)
}

// Builds the circle of the word at the start of `part`, as far as it is not there. Answers the reduced word's letters.
fn circle(fold: &mut Fold<'_>, part: &[u8]) -> usize
    requires takeable { Takeable fold.old.room part.now fold.old.table.now fold.old.work.now }
    requires settled { fold.old.pending ≡ 0 }
    ensures held { Held fold.old fold.new }
    ensures circle { CircleOf fold.old.room part.now fold.old.table.now fold.old.work.now fold.new.room.made fold.new.pending result fold.new.table.now fold.new.work.now }
{
    let at = 2 * fold.room.rows;
    let word = words::reduce(part, &mut fold.work[at..]);
    let end = at + word.left;
    let front = front_of(fold, at, end);
    let first = front.count;
    let back = back_of(fold, at + first, end);
    chain(fold, front.point, back.point, first, first + back.count);
    word.left
}

// Takes the word at the start of `part` in, with nothing pending before and after. Answers the reduced word's letters.
pub fn take_in(fold: &mut Fold<'_>, part: &[u8]) -> usize
    requires takeable { Takeable fold.old.room part.now fold.old.table.now fold.old.work.now }
    requires settled { fold.old.pending ≡ 0 }
    ensures held { Held fold.old fold.new }
    ensures settles { fold.new.pending ≡ 0 }
    ensures taken { TakenIn fold.old.room part.now fold.old.table.now fold.old.work.now fold.new.room.made result fold.new.table.now fold.new.work.now }
{
    let left = circle(fold, part);
    drains::drain(fold);
    left
}

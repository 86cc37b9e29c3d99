// The library that C and Rust programs link: each function answers a struct of plain numbers, laid out as in C.
#![tactic(auto)]

ghost use Rattle.std.specs.Prelude.{◌≡◌};
ghost use Rattle.subgroups.specs.Replies.{reply_of, checked_reply, yes_reply, expressed_reply, basis_reply, saved_reply, loaded_reply, handed_reply};
ghost use Rattle.subgroups.specs.Outcomes.{FoldReplied, AskReplied, CheckReplied, MemberReplied, EqualReplied, NormalReplied, ExpressReplied, BasisReplied, SaveTableReplied, SaveListReplied, LoadReplied, ShorterReplied};

use folds::FoldFigures;
use lists::{TextSize, Which};
use loads::Loaded;
use refusals::Refusal;
use tables::{Figures, Table};

// What folding answers: a refusal (number 0 if there is none), or the figures of the table. What does not apply is 0.
#[repr(C)]
#[derive(Clone, Copy, Debug, Default, PartialEq, Eq)]
pub struct FoldReply {
    pub number: u64,
    pub place: u64,
    pub points: u64,
    pub edges: u64,
    pub rank: u64,
    pub finite: u64,
    pub index: u64,
    pub start_points: u64,
    pub start_edges: u64,
    pub merging: u64,
    pub closing: u64,
}

impl From<Result<FoldFigures, Refusal>> for FoldReply {
    ghost from_gives = { λ o r. r ≡ reply_of o };

    fn from(outcome: Result<FoldFigures, Refusal>) -> FoldReply {
        match outcome {
            Err(r) => FoldReply {
                number: r.cause.number(),
                place: r.place,
                ..FoldReply::default()
            },
            Ok(f) => FoldReply {
                points: f.points,
                edges: f.counts.edges,
                rank: f.counts.rank,
                finite: u64::from(f.counts.index.is_some()),
                index: f.counts.index.unwrap_or(0),
                start_points: f.start.points as u64,
                start_edges: f.start.edges as u64,
                merging: f.merging,
                closing: f.closing,
                ..FoldReply::default()
            },
        }
    }
}

// Folds a list of words over n generators into the canonical table of its subgroup, or refuses.
#[unsafe(no_mangle)]
pub extern "C" fn subgroups_fold(
    n: u64,
    list: &[u8],
    table: &mut [u32],
    work: &mut [u32],
) -> FoldReply
    ensures outcome { FoldReplied n list.now table.old work.old result table.new work.new }
{
    folds::fold(n, list, table, work).into()
}

// What a question answers: a refusal (number 0 if there is none), or 1 for yes and 0 for no.
#[repr(C)]
#[derive(Clone, Copy, Debug, Default, PartialEq, Eq)]
pub struct YesReply {
    pub number: u64,
    pub place: u64,
    pub yes: u64,
}

impl From<Result<bool, Refusal>> for YesReply {
    ghost from_gives = { λ a r. r ≡ yes_reply a };

    fn from(answer: Result<bool, Refusal>) -> YesReply {
        match answer {
            Err(r) => YesReply {
                number: r.cause.number(),
                place: r.place,
                ..YesReply::default()
            },
            Ok(yes) => YesReply {
                yes: u64::from(yes),
                ..YesReply::default()
            },
        }
    }
}

// Says whether a query is a member of the subgroup of a list of words over n generators, or refuses.
#[unsafe(no_mangle)]
pub extern "C" fn subgroups_ask(
    n: u64,
    list: &[u8],
    query: &[u8],
    table: &mut [u32],
    work: &mut [u32],
) -> YesReply
    ensures outcome { AskReplied n list.now query.now table.old work.old result table.new work.new }
{
    asks::ask(n, list, query, table, work).into()
}

// Says whether a query is a member of the subgroup of a lent table, or refuses.
#[unsafe(no_mangle)]
pub extern "C" fn subgroups_member(
    n: u64,
    points: u64,
    table: &[u32],
    query: &[u8],
    work: &mut [u32],
) -> YesReply
    ensures outcome { MemberReplied n points table.now query.now work.old result work.new }
{
    members::member(
        &Table {
            n,
            points,
            cells: table,
        },
        query,
        work,
    )
    .into()
}

// Says whether two lent tables are equal, or refuses.
#[unsafe(no_mangle)]
pub extern "C" fn subgroups_equal(
    n: u64,
    points: u64,
    table: &[u32],
    other_n: u64,
    other_points: u64,
    other: &[u32],
) -> YesReply
    ensures outcome { EqualReplied n points table.now other_n other_points other.now result }
{
    let first = Table {
        n,
        points,
        cells: table,
    };
    let second = Table {
        n: other_n,
        points: other_points,
        cells: other,
    };
    equals::equal(&first, &second).into()
}

// Says whether the subgroup of a lent table is normal, or refuses.
#[unsafe(no_mangle)]
pub extern "C" fn subgroups_normal(n: u64, points: u64, table: &[u32], work: &mut [u32]) -> YesReply
    ensures outcome { NormalReplied n points table.now work.old result work.new }
{
    normals::normal(
        &Table {
            n,
            points,
            cells: table,
        },
        work,
    )
    .into()
}

// What expressing answers: a refusal (number 0 if there is none), or 1 for a member and how many numbers were written, or 0.
#[repr(C)]
#[derive(Clone, Copy, Debug, Default, PartialEq, Eq)]
pub struct ExpressReply {
    pub number: u64,
    pub place: u64,
    pub yes: u64,
    pub count: u64,
}

impl From<Result<Option<u64>, Refusal>> for ExpressReply {
    ghost from_gives = { λ e r. r ≡ expressed_reply e };

    fn from(expressed: Result<Option<u64>, Refusal>) -> ExpressReply {
        match expressed {
            Err(r) => ExpressReply {
                number: r.cause.number(),
                place: r.place,
                ..ExpressReply::default()
            },
            Ok(numbers) => ExpressReply {
                yes: u64::from(numbers.is_some()),
                count: numbers.unwrap_or(0),
                ..ExpressReply::default()
            },
        }
    }
}

// Writes a member of the subgroup of a lent table as signed numbers of basis words, says that it is outside, or refuses.
#[unsafe(no_mangle)]
pub extern "C" fn subgroups_express(
    n: u64,
    points: u64,
    table: &[u32],
    query: &[u8],
    work: &mut [u32],
    out: &mut [i32],
) -> ExpressReply
    ensures outcome { ExpressReplied n points table.now query.now work.old out.old result work.new out.new }
{
    expressions::express(
        &Table {
            n,
            points,
            cells: table,
        },
        query,
        work,
        out,
    )
    .into()
}

// What checking a table answers: a refusal (number 0 if there is none), or its counts. What does not apply is 0.
#[repr(C)]
#[derive(Clone, Copy, Debug, Default, PartialEq, Eq)]
pub struct CheckReply {
    pub number: u64,
    pub place: u64,
    pub edges: u64,
    pub rank: u64,
    pub finite: u64,
    pub index: u64,
}

impl From<Result<Figures, Refusal>> for CheckReply {
    ghost from_gives = { λ c r. r ≡ checked_reply c };

    fn from(checked: Result<Figures, Refusal>) -> CheckReply {
        match checked {
            Err(r) => CheckReply {
                number: r.cause.number(),
                place: r.place,
                ..CheckReply::default()
            },
            Ok(f) => CheckReply {
                edges: f.edges,
                rank: f.rank,
                finite: u64::from(f.index.is_some()),
                index: f.index.unwrap_or(0),
                ..CheckReply::default()
            },
        }
    }
}

// Counts edges, rank and index of a lent table, or refuses.
#[unsafe(no_mangle)]
pub extern "C" fn subgroups_check(n: u64, points: u64, table: &[u32]) -> CheckReply
    ensures outcome { CheckReplied n points table.now result }
{
    Table {
        n,
        points,
        cells: table,
    }
    .check()
    .into()
}

// What writing answers: a refusal (number 0 if there is none), or how many words (0 where words are not told) and bytes.
#[repr(C)]
#[derive(Clone, Copy, Debug, Default, PartialEq, Eq)]
pub struct WrittenReply {
    pub number: u64,
    pub place: u64,
    pub words: u64,
    pub bytes: u64,
}

impl From<Result<TextSize, Refusal>> for WrittenReply {
    ghost from_gives = { λ a r. r ≡ basis_reply a };

    fn from(written: Result<TextSize, Refusal>) -> WrittenReply {
        match written {
            Err(r) => WrittenReply {
                number: r.cause.number(),
                place: r.place,
                ..WrittenReply::default()
            },
            Ok(size) => WrittenReply {
                words: size.words,
                bytes: size.bytes,
                ..WrittenReply::default()
            },
        }
    }
}

impl From<Result<u64, Refusal>> for WrittenReply {
    ghost from_gives = { λ s r. r ≡ saved_reply s };

    fn from(saved: Result<u64, Refusal>) -> WrittenReply {
        saved.map(|bytes| TextSize { words: 0, bytes }).into()
    }
}

// Writes the basis of the subgroup of a lent table as a list text, or refuses.
#[unsafe(no_mangle)]
pub extern "C" fn subgroups_basis(
    n: u64,
    points: u64,
    table: &[u32],
    work: &mut [u32],
    out: &mut [u8],
) -> WrittenReply
    ensures outcome { BasisReplied n points table.now work.old out.old result work.new out.new }
{
    bases::basis(
        &Table {
            n,
            points,
            cells: table,
        },
        work,
        out,
    )
    .into()
}

// Saves a lent table as a file of kind 1, or refuses.
#[unsafe(no_mangle)]
pub extern "C" fn subgroups_save_table(
    n: u64,
    points: u64,
    table: &[u32],
    out: &mut [u8],
) -> WrittenReply
    ensures outcome { SaveTableReplied n points table.now out.old result out.new }
{
    saves::save_table(
        &Table {
            n,
            points,
            cells: table,
        },
        out,
    )
    .into()
}

// Saves a list as a file of kind 2, or refuses.
#[unsafe(no_mangle)]
pub extern "C" fn subgroups_save_list(n: u64, list: &[u8], out: &mut [u8]) -> WrittenReply
    ensures outcome { SaveListReplied n list.now out.old result out.new }
{
    saves::save_list(n, list, out).into()
}

// What loading answers: a refusal and kind 0; or a table, kind 1, with n and its points; or a list, kind 2, with n and how many words and bytes its text has.
#[repr(C)]
#[derive(Clone, Copy, Debug, Default, PartialEq, Eq)]
pub struct LoadReply {
    pub number: u64,
    pub place: u64,
    pub kind: u64,
    pub n: u64,
    pub points: u64,
    pub words: u64,
    pub bytes: u64,
}

impl From<Result<Loaded, Refusal>> for LoadReply {
    ghost from_gives = { λ l r. r ≡ loaded_reply l };

    fn from(loaded: Result<Loaded, Refusal>) -> LoadReply {
        match loaded {
            Err(r) => LoadReply {
                number: r.cause.number(),
                place: r.place,
                ..LoadReply::default()
            },
            Ok(Loaded::Table { n, points }) => LoadReply {
                kind: 1,
                n,
                points,
                ..LoadReply::default()
            },
            Ok(Loaded::List { n, size }) => LoadReply {
                kind: 2,
                n,
                words: size.words,
                bytes: size.bytes,
                ..LoadReply::default()
            },
        }
    }
}

// Loads a file of either kind into the lent table or the lent text, or refuses.
#[unsafe(no_mangle)]
pub extern "C" fn subgroups_load(file: &[u8], table: &mut [u32], text: &mut [u8]) -> LoadReply
    ensures outcome { LoadReplied file.now table.old text.old result table.new text.new }
{
    loads::load(file, table, text).into()
}

// Which of two lists is handed back (1 the first, 2 the second, 0 neither), and how many of its bytes.
#[repr(C)]
#[derive(Clone, Copy, Debug, Default, PartialEq, Eq)]
pub struct PartReply {
    pub which: u64,
    pub bytes: u64,
}

// Says which of two lists is the one that `lists::shorter` hands back: a slice does not cross.
#[unsafe(no_mangle)]
pub extern "C" fn subgroups_shorter(n: u64, first: &[u8], second: &[u8]) -> PartReply
    ensures outcome { ShorterReplied n first.now second.now result }
{
    match lists::which_of(n, first, second) {
        Which::First => PartReply {
            which: 1,
            bytes: first.len() as u64,
        },
        Which::Second => PartReply {
            which: 2,
            bytes: second.len() as u64,
        },
        Which::Neither => PartReply::default(),
    }
}

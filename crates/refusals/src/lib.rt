// A refusal: its cause in document 01's table, and its place. Every function that refuses answers it as its error.
#![tactic(auto)]

ghost use Rattle.std.specs.Prelude.{◌≡◌, true, not, ltb};
ghost use Rattle.theory.specs.Refusals.{is_alphabet, refused_if};
ghost use Rattle.refusals.specs.Given.{number_of, refusal_at, unless, unless_short};

// The causes of document 01's table, in its order.
#[derive(Clone, Copy, Debug, PartialEq, Eq)]
pub enum Cause {
    // 1: n is not 1 to 26, or of two tables the second's n is not the first's.
    Alphabet,
    // 2: a list, a query or a list text over 1,048,576 bytes.
    Long,
    // 3: a byte that is no letter (nor, in a list, a line end).
    NoLetter,
    // 4: a letter beyond n.
    Beyond,
    // 5: a list with bytes that does not end in a line end.
    Unended,
    // 6: a table of no points, of too many, or with too few cells.
    Table,
    // 7: work cells too few.
    Work,
    // 8: a table that is not canonical.
    Faulty,
    // 9: an output too short.
    Output,
    // 10: no number stands in a file where one has to.
    NoNumber,
    // 11: a file's kind that is not 1 or 2.
    Kind,
    // 12: bytes behind the end of a file.
    Behind,
}

impl Cause {
    // The number of the cause in document 01's table.
    pub fn number(self) -> u64
        ensures number { result ≡ number_of self }
    {
        match self {
            Cause::Alphabet => 1,
            Cause::Long => 2,
            Cause::NoLetter => 3,
            Cause::Beyond => 4,
            Cause::Unended => 5,
            Cause::Table => 6,
            Cause::Work => 7,
            Cause::Faulty => 8,
            Cause::Output => 9,
            Cause::NoNumber => 10,
            Cause::Kind => 11,
            Cause::Behind => 12,
        }
    }
}

#[derive(Clone, Copy, Debug, PartialEq, Eq)]
pub struct Refusal {
    pub cause: Cause,
    pub place: u64,
}

// The refusal for this cause at this place.
pub fn refuse(cause: Cause, place: u64) -> Refusal
    ensures made { result ≡ refusal_at cause place }
{
    Refusal { cause, place }
}

// Refuses by 1 an n that is not 1 to 26.
pub fn check_alphabet(n: u64) -> Result<(), Refusal>
    ensures checked { result ≡ unless (refused_if (not (is_alphabet n)) 1 0) tt }
{
    if n < 1 || 26 < n {
        return Err(refuse(Cause::Alphabet, 0));
    }
    Ok(())
}

// Refuses a buffer of fewer cells or bytes than are needed, by the cause that is given.
pub fn check_room(cause: Cause, needed: u64, room: u64) -> Result<(), Refusal>
    ensures checked { result ≡ unless_short cause needed room }
{
    if room < needed {
        return Err(refuse(cause, needed));
    }
    Ok(())
}

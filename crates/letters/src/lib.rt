// Letters and their bytes: the letter order, the class of a byte, the inverse letter.
#![tactic(auto)]

ghost use Rattle.std.specs.Prelude.{◌≡◌, ◌<◌};
ghost use Rattle.theory.specs.Words.{inv};
ghost use Rattle.theory.specs.Letters.{byte_of, letter_of};
ghost use Rattle.letters.specs.Class.{class_of};

// The letter order a, A, b, B, .., z, Z: letter number to byte. Neighbours are inverse letters.
const LETTERS: [u8; 52] = [
    97, 65, 98, 66, 99, 67, 100, 68, 101, 69, 102, 70, 103, 71, 104, 72, 105, 73, 106, 74, 107, 75,
    108, 76, 109, 77, 110, 78, 111, 79, 112, 80, 113, 81, 114, 82, 115, 83, 116, 84, 117, 85, 118,
    86, 119, 87, 120, 88, 121, 89, 122, 90,
];

// What a byte of a text is. A letter carries the number of its generator, from 1.
#[derive(Clone, Copy, Debug, PartialEq, Eq)]
pub enum Class {
    Lower(u8),
    Upper(u8),
    LineEnd,
    Other,
}

// The class of a byte, by the ranges a to z, A to Z, line end, others.
pub fn class_of(b: u8) -> Class
    ensures class { result ≡ class_of b }
{
    match b {
        97..=122 => Class::Lower(b - 96),
        65..=90 => Class::Upper(b - 64),
        10 => Class::LineEnd,
        _ => Class::Other,
    }
}

// The number of the letter with this byte; 52 for a byte that is no letter, as theory's `letter_of` has it.
pub fn letter_of(b: u8) -> u32
    ensures letter { result ≡ letter_of b }
{
    match class_of(b) {
        Class::Lower(g) => 2 * (g as u32) - 2,
        Class::Upper(g) => 2 * (g as u32) - 1,
        Class::LineEnd => 52,
        Class::Other => 52,
    }
}

// The byte of a letter.
pub fn byte_of(y: usize) -> u8
    requires { y < 52 }
    ensures byte { result ≡ byte_of y }
{
    LETTERS[y]
}

// The inverse letter: the neighbour in the letter order.
pub fn inverse(y: u32) -> u32
    ensures inverse { result ≡ inv y }
{
    if y % 2 == 0 { y + 1 } else { y - 1 }
}

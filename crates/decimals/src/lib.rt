// Numbers in decimal, for output: the digits of a number as bytes, the most significant first.
#![tactic(auto)]

ghost use Rattle.std.specs.Prelude.{◌≡◌, ◌++◌, ◌≤◌, length, drop};
ghost use Rattle.decimals.specs.Decimal.{decimal_of, Decimal};

// The number of digits of x.
fn count_digits(x: u64) -> usize
    ensures count { result ≡ length (decimal_of x) }
{
    let mut rest = x;
    let mut n: usize = 1;
    // No `for`: how often ten divides is what is asked.
    while 9 < rest {
        rest = rest / 10;
        n += 1;
    }
    n
}

// Writes the `size` digits of x into the first cells of `out`, from the last digit to the first.
fn write_digits(x: u64, size: usize, out: &mut [u8])
    requires { (size ≡ length (decimal_of x)) × (size ≤ length out.old) }
    ensures cells { out.new ≡ decimal_of x ++ drop size out.old }
{
    let mut rest = x;
    for i in (0..size).rev() {
        out[i] = b'0' + (rest % 10) as u8;
        rest = rest / 10;
    }
}

// Writes x in decimal into the first cells of `out`, of which 20 hold every x, and answers the number of its digits.
pub fn write_decimal(x: u64, out: &mut [u8]) -> usize
    requires { 20 ≤ length out.old }
    ensures decimal { Decimal x out.old result out.new }
{
    let size = count_digits(x);
    write_digits(x, size, out);
    size
}

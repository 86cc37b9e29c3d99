// How stored cases are coded: a byte for a number or a cell, with codes for those beyond a byte.
#![tactic(auto)]

ghost use Rattle.std.specs.Prelude.{◌≡◌, ◌≤◌, length};
ghost use Rattle.case_codes.specs.Codes.{number_of, cell_of, cells_of};

// A number of a case.
pub fn number(code: u8) -> u64
    ensures number { result ≡ number_of code }
{
    match code {
        253 => 258,
        254 => 1048578,
        255 => 4294967297,
        _ => u64::from(code),
    }
}

// A size of a case: the byte itself.
pub fn size(code: u8) -> usize
    ensures size { (result ≡ code) × (result ≤ 255) }
{
    usize::from(code)
}

// A cell of a case.
pub fn cell(code: u8) -> u32
    ensures cell { result ≡ cell_of code }
{
    match code {
        254 => 4294967294,
        255 => 4294967295,
        _ => u32::from(code),
    }
}

// The cells of a case, put into the first of the lent cells.
pub fn cells(codes: &[u8], out: &mut [u32])
    requires { length codes.now ≤ length out.old }
    ensures cells { out.new ≡ cells_of codes.now out.old }
{
    for (i, &code) in codes.iter().enumerate() {
        out[i] = cell(code);
    }
}

//! Numbers in columns.

ghost use Rattle.std.specs.Prelude.{◌≡◌, ◌≤◌, ◌<◌, decimal};
ghost use Rattle.hii_bytes.specs.Texts.{right_aligned};
ghost use Rattle.form_page.specs.code.Columns as columns;

// The last decimal digit of a number, or a space for 0.
fn last_digit(n: u32) -> u8
    ensures { result ≡ columns.last_digit n }
{
    if n == 0 {
        return b' ';
    }
    b'0' + (n % 10) as u8
}

/// A number of at most three digits in three columns.
pub(crate) fn three_columns(n: u32) -> [u8; 3]
    requires { n < 1000 }
    ensures { result ≡ right_aligned 3 (decimal n) }
{
    let tens = n / 10;
    [
        last_digit(tens / 10),
        last_digit(tens),
        b'0' + (n % 10) as u8,
    ]
}

/// A number of four digits.
pub(crate) fn four_columns(n: u32) -> [u8; 4]
    requires least { 1000 ≤ n }
    requires most { n < 10000 }
    ensures { result ≡ decimal n }
{
    let tens = n / 10;
    let hundreds = tens / 10;
    [
        b'0' + (hundreds / 10) as u8,
        b'0' + (hundreds % 10) as u8,
        b'0' + (tens % 10) as u8,
        b'0' + (n % 10) as u8,
    ]
}

/// A number in five columns.
pub(crate) fn five_columns(n: u16) -> [u8; 5]
    ensures { result ≡ right_aligned 5 (decimal n) }
{
    let n = u32::from(n);
    let tens = n / 10;
    let hundreds = tens / 10;
    let thousands = hundreds / 10;
    [
        last_digit(thousands / 10),
        last_digit(thousands),
        last_digit(hundreds),
        last_digit(tens),
        b'0' + (n % 10) as u8,
    ]
}

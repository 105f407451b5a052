// Numbers in decimal digits, with no leading zero.
// Kept: the library's itoa formats into a buffer of its own, from which the digits would be copied; here they are written in place.
ghost use Rattle.std.specs.Prelude.{◌≡◌, ◌+◌, ◌%◌, ◌≤◌, length, decimal as digits};
ghost use Rattle.line.specs.Text.{over};

// How many digits `n` has.
pub(super) fn decimal_length(n: u64) -> usize
    ensures count { result ≡ length (digits n) }
    ensures bound { result ≤ 20 }
{
    if n < 10 {
        1
    } else {
        decimal_length(n / 10) + 1
    }
}

// Writes the digits of `n` at the start of `out`, and answers how many there are.
pub(super) fn put_decimal(out: &mut [u8], n: u64) -> usize
    requires { length (digits n) ≤ length out.old }
    ensures count { result ≡ length (digits n) }
    ensures bytes { out.new ≡ over (digits n) out.old }
{
    if n < 10 {
        out[0] = last_digit(n);
        return 1;
    }
    let count = put_decimal(out, n / 10);
    out[count] = last_digit(n);
    count + 1
}

fn last_digit(n: u64) -> u8
    ensures { result ≡ 48 + n % 10 }
{
    b'0' + (n % 10) as u8
}

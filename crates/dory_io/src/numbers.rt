//! Numbers as they are written.
ghost use Rattle.std.specs.Prelude.{◌≡◌, ◌≤◌, IfSome, IsTrue, option_and_then, slice_get};
ghost use Rattle.std.specs.List.{list_all};
ghost use Rattle.std.specs.Char.{is_ascii_digit};
ghost use Rattle.dory_io.specs.Numbers.{is_numeral as numeral_test, number_of, value_of};

fn all_digits(bytes: &[u8]) -> bool
    ensures { result ≡ list_all is_ascii_digit bytes.now }
{
    bytes.iter().all(|b| b.is_ascii_digit())
}

/// Whether the bytes are digits with no 0 in front, except 0 itself.
fn is_numeral(bytes: &[u8]) -> bool
    ensures { result ≡ numeral_test bytes.now }
{
    !bytes.is_empty() && all_digits(bytes) && (bytes.len() == 1 || bytes[0] != b'0')
}

/// The value of digits, where it is below 2^64.
fn value(digits: &[u8]) -> Option<u64>
    requires { IsTrue (list_all is_ascii_digit digits.now) }
    ensures { result ≡ value_of digits.now }
{
    let mut n: u64 = 0;
    for digit in digits {
        n = n.checked_mul(10)?.checked_add(u64::from(digit - b'0'))?;
    }
    Some(n)
}

/// The number that the bytes write, from `least` to `most`.
pub fn number_in_bytes(bytes: &[u8], least: u64, most: u64) -> Option<u64>
    ensures value { result ≡ number_of least most bytes.now }
    ensures range { IfSome result (λ n. (least ≤ n) × (n ≤ most)) }
{
    if !is_numeral(bytes) {
        return None;
    }
    let n = value(bytes)?;
    if least <= n && n <= most {
        Some(n)
    } else {
        None
    }
}

/// The number that the text writes, from `least` to `most`.
pub fn number(text: &str, least: u64, most: u64) -> Option<u64>
    ensures value { result ≡ number_of least most text.now }
    ensures range { IfSome result (λ n. (least ≤ n) × (n ≤ most)) }
{
    number_in_bytes(text.as_bytes(), least, most)
}

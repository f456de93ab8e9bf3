//! Numbers that decimal digits write.
ghost use Rattle.std.specs.Prelude.{◌≡◌, ◌+◌, ◌*◌, true};
ghost use Rattle.std.specs.Char.{digit_value, is_ascii_digit};
ghost use Rattle.std.specs.List.{list_all};
ghost use Rattle.std.specs.Str.Parse.{digits_value};
ghost use Rattle.sgl_values.specs.Digits.{is_digits, within};

/// The number that the digits write, where it is at most `most`. Leading zeros are accepted, however many.
pub fn digits_within(digits: &[u8], most: u64) -> Option<u64>
    requires { is_digits digits.now ≡ true }
    ensures { result ≡ within most (digits_value 10 digits.now) }
{
    let mut value = 0;
    for digit in digits {
        match with_digit(value, *digit, most) {
            Some(more) => value = more,
            None => return None,
        }
    }
    within(value, most)
}

/// Whether the bytes are one or more decimal digits and nothing else.
#[tactic(auto, using(std::proofs::lemmas::Bool::Decides::nat_tests))]
pub fn are_digits(digits: &[u8]) -> bool
    ensures { result ≡ is_digits digits.now }
{
    !digits.is_empty() && has_digits_alone(digits)
}

fn has_digits_alone(bytes: &[u8]) -> bool
    ensures { result ≡ list_all is_ascii_digit bytes.now }
{
    bytes.iter().all(|byte| byte.is_ascii_digit())
}

// A number with one digit more behind it.
fn with_digit(value: u64, digit: u8, most: u64) -> Option<u64>
    requires { is_ascii_digit digit ≡ true }
    ensures { result ≡ within most (value * 10 + digit_value digit) }
{
    match value.checked_mul(10) {
        Some(tens) => match tens.checked_add(u64::from(digit - b'0')) {
            Some(more) => within(more, most),
            None => None,
        },
        None => None,
    }
}

fn within(value: u64, most: u64) -> Option<u64>
    ensures { result ≡ within most value }
{
    if value <= most { Some(value) } else { None }
}

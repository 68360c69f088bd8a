//! Decimal numbers and single bytes at the front of a text.

ghost use Rattle.std.specs.Prelude.{◌≡◌, ℕ, ◌<◌, ◌≤◌, ◌^◌, List, length, ◌≢◌, ◌∷◌, IfSome, IfNone};
ghost use Rattle.std.specs.List.{prefix_len};
ghost use Rattle.std.specs.Option.{SomeIff};
ghost use Rattle.std.specs.Char.{is_ascii_digit};
ghost use Rattle.std.specs.Fmt.{decimal};
ghost use Rattle.ds_names.specs.Decimal.{leading_number};
ghost use Rattle.ds_names.specs.Run.{Begins};

// Returns the number that the leading digits write, and the count of digits. `None` if it is 2^64 or more.
fn number_of(bytes: &[u8]) -> Option<(u64, usize)>
    ensures { SomeIff result (leading_number bytes.now < 2 ^ 64) (leading_number bytes.now, prefix_len is_ascii_digit bytes.now) }
{
    // 10^19 < 2^64, so no 19 digits overflow.
    let front = &bytes[..bytes.len().min(19)];
    let mut number: u64 = 0;
    for (at, b) in front.iter().enumerate() {
        if !b.is_ascii_digit() {
            return Some((number, at));
        }
        number = number * 10 + u64::from(*b - b'0');
    }
    if bytes.len() > 19 {
        long_number_of(bytes)
    } else {
        Some((number, bytes.len()))
    }
}

// Like `number_of`, for any count of digits. Checks each step for overflow.
fn long_number_of(bytes: &[u8]) -> Option<(u64, usize)>
    ensures { SomeIff result (leading_number bytes.now < 2 ^ 64) (leading_number bytes.now, prefix_len is_ascii_digit bytes.now) }
{
    let mut number: u64 = 0;
    for (at, b) in bytes.iter().enumerate() {
        if !b.is_ascii_digit() {
            return Some((number, at));
        }
        number = number.checked_mul(10)?.checked_add(u64::from(*b - b'0'))?;
    }
    Some((number, bytes.len()))
}

// Returns the number at the front, below 2^64 and without leading zeros, and the bytes after its digits.
fn any_decimal(bytes: &[u8]) -> Option<(u64, &[u8])>
    ensures found { IfSome result (λ r. Begins is_ascii_digit bytes.now (decimal r.0) r.1.now) }
    ensures limit { IfSome result (λ r. r.0 < 2 ^ 64) }
    ensures none { IfNone result ((n : ℕ) (rest : List ℕ) → n < 2 ^ 64 → ¬ Begins is_ascii_digit bytes.now (decimal n) rest) }
{
    let (number, len) = number_of(bytes)?;
    let (digits, rest) = bytes.split_at(len);
    if digits.is_empty() || (digits[0] == b'0' && digits.len() > 1) {
        return None;
    }
    Some((number, rest))
}

/// Reads the decimal number at the front, and returns it with the bytes after it.
///
/// The number is the longest run of digits. Returns `None` if there is no digit, if the number has leading zeros, or if
/// it is above `most`.
pub fn read_decimal(bytes: &[u8], most: u64) -> Option<(u64, &[u8])>
    ensures found { IfSome result (λ r. Begins is_ascii_digit bytes.now (decimal r.0) r.1.now) }
    ensures limit { IfSome result (λ r. r.0 ≤ most) }
    ensures none { IfNone result ((n : ℕ) (rest : List ℕ) → n ≤ most → ¬ Begins is_ascii_digit bytes.now (decimal n) rest) }
{
    let (number, rest) = any_decimal(bytes)?;
    if number > most {
        return None;
    }
    Some((number, rest))
}

/// Reads the given byte at the front, and returns the bytes after it. `None` if they begin with another one or are empty.
pub fn read_byte(bytes: &[u8], byte: u8) -> Option<&[u8]>
    ensures found { IfSome result (λ rest. bytes.now ≡ byte ∷ rest.now) }
    ensures none { IfNone result ((rest : List ℕ) → bytes.now ≢ byte ∷ rest) }
{
    let (first, rest) = bytes.split_first()?;
    if *first == byte { Some(rest) } else { None }
}

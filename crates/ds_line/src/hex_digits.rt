//! Hex digits, and the bytes that they write.

ghost use Rattle.std.specs.Prelude.{◌≡◌, ◌≢◌, ◌++◌, ◌∷◌, [], ◌<◌, ◌↔◌, ℕ, List, IfSome, OnSome, IfNone, IsTrue, slice_index};
ghost use Rattle.hex.specs.Hex.{IsBytes, encode_lower, lower_digits};
ghost use Rattle.ds_names.specs.Run.{Ends};
ghost use Rattle.ds_line.specs.Part.{is_hex_byte};
ghost use Rattle.ds_line.specs.Numbers.{AreNumbersOf};

// Returns the number of a digit, below 16, or 255 for any other byte. Uses no table, so that the compiler can vectorize
// it.
#[inline(always)]
#[tactic(auto, using(crate::proofs::SixteenLemmas::digit_number, crate::proofs::SixteenLemmas::letter_number))]
fn number_of(byte: u8) -> u8
    ensures digit { IsTrue (is_hex_byte byte) ↔ (result < 16) }
    ensures number { result < 16 → slice_index lower_digits result ≡ byte }
{
    if byte.is_ascii_digit() {
        byte - b'0'
    } else if b'a' <= byte && byte <= b'f' {
        byte - b'a' + 10
    } else {
        255
    }
}

/// Reads two hex digits at the front, and returns their byte, high half first, with the bytes after them. `None` if the
/// bytes don't begin with two digits.
#[inline]
pub fn pair_at(bytes: &[u8]) -> Option<(u8, &[u8])>
    ensures found { IfSome result (λ r. bytes.now ≡ encode_lower (r.0 ∷ []) ++ r.1.now) }
    ensures byte { IfSome result (λ r. r.0 < 256) }
    ensures none { IfNone result ((b : ℕ) (rest : List ℕ) → b < 256 → bytes.now ≢ encode_lower (b ∷ []) ++ rest) }
{
    let (high, rest) = bytes.split_first()?;
    let (low, rest) = rest.split_first()?;
    let (high, low) = (number_of(*high), number_of(*low));
    if high > 15 || low > 15 {
        return None;
    }
    Some((high * 16 + low, rest))
}

// Returns the numbers of 32 hex digits. `None` if one of the bytes isn't a digit.
#[inline(always)]
fn numbers_of(digits: &[u8; 32]) -> Option<[u8; 32]>
    ensures { IfSome result (λ numbers. AreNumbersOf digits.now 32 numbers) }
{
    let mut numbers = [0u8; 32];
    let mut digits_alone = true;
    for at in 0..32usize {
        let number = number_of(digits[at]);
        digits_alone = digits_alone & (number < 16);
        numbers[at] = number;
    }
    if digits_alone { Some(numbers) } else { None }
}

/// Reads 32 hex digits at the front, stores their 16 bytes in the block, and returns the bytes after the digits. `None`
/// if the bytes don't begin with 32 digits.
#[inline(always)]
pub fn sixteen_at<'a>(bytes: &'a [u8], block: &mut [u8; 16]) -> Option<&'a [u8]>
    ensures found { IfSome result (λ rest. bytes.now ≡ encode_lower block.new ++ rest.now) }
    ensures each { OnSome result (IsBytes block.new) }
{
    let (digits, rest) = bytes.split_first_chunk::<32>()?;
    let numbers = numbers_of(digits)?;
    for at in 0..16usize {
        block[at] = numbers[2 * at] * 16 + numbers[2 * at + 1];
    }
    Some(rest)
}

/// Returns whether the bytes don't begin with a hex digit.
#[inline]
pub fn ends_digits(bytes: &[u8]) -> bool
    ensures { IsTrue result ↔ Ends is_hex_byte bytes.now }
{
    match bytes.first() {
        Some(byte) => number_of(*byte) > 15,
        None => true,
    }
}

// Returns the digit of a number below 16.
#[inline(always)]
#[tactic(auto, using(crate::proofs::SixteenLemmas::low_digit, crate::proofs::SixteenLemmas::high_digit))]
fn digit_of(number: u8) -> u8
    requires { number < 16 }
    ensures { result ≡ slice_index lower_digits number }
{
    if number < 10 {
        b'0' + number
    } else {
        b'a' - 10 + number
    }
}

/// Returns the 32 hex digits of 16 bytes.
#[inline(always)]
pub fn digits_of(bytes: &[u8; 16]) -> [u8; 32]
    ensures { result ≡ encode_lower bytes.now }
{
    let mut digits = [0u8; 32];
    for at in 0..16usize {
        digits[2 * at] = digit_of(bytes[at] / 16);
        digits[2 * at + 1] = digit_of(bytes[at] % 16);
    }
    digits
}

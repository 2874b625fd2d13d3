//! Text as bytes: what several formats are made of.
ghost use Rattle.std.specs.Prelude.{◌≡◌, ◌≢◌, ◌++◌, ◌<◌, ◌≤◌, ◌^◌, ℕ, List, Some, IfSome, MatchOption, length};
ghost use Rattle.std.specs.Fmt.{decimal};
ghost use Rattle.std.specs.List.{position};
ghost use Rattle.apd_base.specs.Addr.{hex_digit};
ghost use Rattle.apd_base.specs.Text.{decimal_number, is_blank};

/// What stands behind a word at the front.
pub fn behind<'a>(text: &'a [u8], word: &[u8]) -> Option<&'a [u8]>
    ensures { MatchOption result ((rest : List ℕ)
        → text.now ≢ word.now ++ rest) (λ rest. text.now ≡ word.now ++ rest.now) }
{
    text.strip_prefix(word)
}

/// The place of the first blank.
pub fn first_blank(text: &[u8]) -> Option<usize>
    ensures { result ≡ position is_blank text.now }
{
    text.iter().position(|byte| *byte == b' ')
}

/// The number that 1 to `most` decimal digits write, where it is at most `greatest`.
#[tactic(auto, unfolding(crate::specs::Text::decimal_number))]
pub fn decimal_number(digits: &[u8], most: usize, greatest: u64) -> Option<u64>
    ensures value { result ≡ decimal_number most greatest digits.now }
    ensures small { IfSome result (λ n. n ≤ greatest) }
{
    if digits.is_empty() || digits.len() > most {
        return None;
    }
    let mut number: u64 = 0;
    for digit in digits {
        if !digit.is_ascii_digit() {
            return None;
        }
        let digit = (*digit - b'0') as u64;
        number = number.checked_mul(10)?.checked_add(digit)?;
    }
    if number <= greatest {
        Some(number)
    } else {
        None
    }
}

/// The number from 0 to 65535 that 1 to 5 decimal digits write.
pub fn decimal_u16(digits: &[u8]) -> Option<u16>
    ensures { result ≡ decimal_number 5 65535 digits.now }
{
    let number = decimal_number(digits, 5, 65535)?;
    Some(number as u16)
}

/// A number below 16 as a hexadecimal digit in lower case.
pub fn hex_digit(value: u8) -> u8
    requires { value < 16 }
    ensures { result ≡ hex_digit value }
{
    if value < 10 {
        b'0' + value
    } else {
        b'a' - 10 + value
    }
}

/// The digits that are printed of a number are read as it, where there are not too many and it is not
/// too great.
pub fn decimal_law()
    ensures { (most greatest n : ℕ) → n < 2 ^ 64 → length (decimal n) ≤ most → n ≤ greatest
        → decimal_number most greatest (decimal n) ≡ Some n }
{}

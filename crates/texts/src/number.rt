// Numbers and fields that a text begins with; each function answers what it read with the bytes behind it.
ghost use Rattle.std.specs.Prelude.{◌≡◌, ◌↔◌, ◌∷◌, IsTrue, length, take_while};
ghost use Rattle.std.specs.Char.{is_ascii_digit};
ghost use Rattle.std.specs.Option.{SomeIff};
ghost use Rattle.std.specs.Str.Parse.{AllDigits, digits_value};
ghost use Rattle.texts.specs.Fields.{Field, IsSpelled, Number, Reads};

// How many digits the text begins with.
fn digits_len(text: &[u8]) -> usize
    ensures { result ≡ length (take_while is_ascii_digit text.now) }
{
    text.iter().take_while(|byte| byte.is_ascii_digit()).count()
}

// Whether these digits write a number: one to ten of them, and no 0 in front of others.
fn is_spelled(digits: &[u8]) -> bool
    ensures { IsTrue result ↔ IsSpelled digits.now }
{
    !digits.is_empty() && digits.len() <= 10 && (digits[0] != b'0' || digits.len() == 1)
}

// The number that these digits write, if they write one. Ten digits fit, so nothing wraps. No `parse`, which would look at each digit
// twice more: every number of a text comes here.
fn value_of(digits: &[u8]) -> Option<u64>
    requires { AllDigits 10 digits.now }
    ensures { SomeIff result (IsSpelled digits.now) (digits_value 10 digits.now) }
{
    if !is_spelled(digits) {
        return None;
    }
    let number = digits.iter().fold(0u64, |number, digit| {
        number
            .wrapping_mul(10)
            .wrapping_add(u64::from(digit.wrapping_sub(b'0')))
    });
    Some(number)
}

// The number that the text begins with.
fn number(text: &[u8]) -> Option<(u64, &[u8])>
    ensures { Reads (Number text.now) result }
{
    let (digits, rest) = text.split_at(digits_len(text));
    Some((value_of(digits)?, rest))
}

// The number behind this key.
pub(crate) fn field<'a>(text: &'a [u8], key: &[u8]) -> Option<(u64, &'a [u8])>
    ensures { Reads (Field text.now key.now) result }
{
    number(text.strip_prefix(key)?)
}

// The number behind the last key of a line, up to the line's end.
pub(crate) fn last_field<'a>(text: &'a [u8], key: &[u8]) -> Option<(u64, &'a [u8])>
    ensures { Reads (λ n rest. Field text.now key.now n (10 ∷ rest)) result }
{
    let (number, rest) = field(text, key)?;
    Some((number, rest.strip_prefix(b"\n")?))
}

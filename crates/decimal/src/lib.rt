// Decimal numbers as ASCII text: digits, or digits, a point and digits. `specs/Decimal.antt` says what each text gives.
#![tactic(auto)]

ghost use Rattle.std.specs.Prelude.{◌≡◌, ◌==◌, ◌≤◌, IfSome};
ghost use Rattle.std.specs.List.{position};
ghost use Rattle.decimal.specs.Decimal.{digits_from, whole_of, places_from, decimal_of, quotient, value_of};

// A number may have this many digits, leading zeros not counted, so that an f64 holds it exactly.
const MOST_DIGITS: usize = 15;

// Below this a number may take one digit more.
const LIMIT: u64 = 100_000_000_000_000;

// A decimal number: its digits without the point, and how many of them stand behind the point.
#[derive(Clone, Copy, Debug, PartialEq, Eq)]
pub struct Decimal {
    pub digits: u64,
    pub places: usize,
}

impl Decimal {
    // The digits over ten to the power of the places: the f64 nearest to it, and of that the nearest f32.
    #[tactic(auto, unfolding(crate::specs::Decimal::quotient))]
    fn divide(self) -> f32
        requires { self.places ≤ 15 }
        ensures { result ≡ quotient self.digits self.places }
    {
        let above = std::num::nearest_u64_to_f64(self.digits);
        let below = std::num::nearest_u64_to_f64(10u64.pow(self.places as u32));
        floats::casts::f64_to_f32(above / below)
    }
}

// The number of the text's digits behind those of `before`. Not `parse`: that takes a sign and more than 15 digits, and
// begins anew behind a point.
fn read_digits(before: u64, text: &[u8]) -> Option<u64>
    ensures { result ≡ digits_from before text.now }
{
    let mut n = before;
    for &b in text {
        if !b.is_ascii_digit() || n >= LIMIT {
            return None;
        }
        n = n * 10 + (b - b'0') as u64;
    }
    Some(n)
}

// A whole number: one digit or more.
#[tactic(auto, unfolding(crate::specs::Decimal::whole_of))]
pub fn read_whole(text: &[u8]) -> Option<u64>
    ensures { result ≡ whole_of text.now }
{
    if text.is_empty() {
        return None;
    }
    read_digits(0, text)
}

// The digits behind a point, and the number of all digits.
#[tactic(auto, unfolding(crate::specs::Decimal::places_from))]
fn read_places(whole: u64, text: &[u8]) -> Option<Decimal>
    ensures value { result ≡ places_from whole text.now }
    ensures few_places { IfSome result (λ d. d.places ≤ 15) }
{
    let places = text.len();
    if places == 0 || places > MOST_DIGITS {
        return None;
    }
    let digits = read_digits(whole, text)?;
    Some(Decimal { digits, places })
}

// The place of the first such byte.
fn find(text: &[u8], byte: u8) -> Option<usize>
    ensures { result ≡ position (λ b. b == byte) text.now }
{
    text.iter().position(|b| *b == byte)
}

// A decimal number.
#[tactic(auto, unfolding(crate::specs::Decimal::decimal_of))]
pub fn read_decimal(text: &[u8]) -> Option<Decimal>
    ensures value { result ≡ decimal_of text.now }
    ensures few_places { IfSome result (λ d. d.places ≤ 15) }
{
    match find(text, b'.') {
        None => {
            let digits = read_whole(text)?;
            Some(Decimal { digits, places: 0 })
        }
        Some(point) => {
            let whole = read_whole(&text[..point])?;
            read_places(whole, &text[point + 1..])
        }
    }
}

// A decimal number as an f32.
#[tactic(auto, unfolding(crate::specs::Decimal::value_of))]
pub fn read_value(text: &[u8]) -> Option<f32>
    ensures { result ≡ value_of text.now }
{
    let number = read_decimal(text)?;
    Some(number.divide())
}

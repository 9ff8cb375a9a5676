// Lines of text and bytes in hexadecimal: how the test programs read their vectors.
#![tactic(auto)]

ghost use Rattle.std.specs.Prelude.{◌≡◌, ◌+◌, ◌*◌, ◌/◌, ◌<◌, ◌≤◌, length, get_or};
ghost use Rattle.hexadecimal.specs.Digits.{digit_of, Unhexed};
ghost use Rattle.hexadecimal.specs.Lines.{Stands};

#[tactic(auto, unfolding(crate::specs::Digits::digit_of))]
fn digit(c: u8) -> u8
    ensures { (result ≡ digit_of c) × (result < 16) }
{
    match c {
        b'0'..=b'9' => c - b'0',
        b'a'..=b'f' => c - b'a' + 10,
        _ => 0,
    }
}

// The byte that pair k of the digits stands for.
fn pair(digits: &[u8], k: usize) -> u8
    requires { k < length digits.now / 2 }
    ensures { result ≡ 16 * digit_of (get_or digits.now (2 * k) 0) + digit_of (get_or digits.now (2 * k + 1) 0) }
{
    16 * digit(digits[2 * k]) + digit(digits[2 * k + 1])
}

// Puts the bytes that the digits stand for at the start of out, as many as it has room for, and answers how many they are.
pub fn unhex(digits: &[u8], out: &mut [u8]) -> usize
    ensures { Unhexed digits.now out.old out.new result }
{
    let n = (digits.len() / 2).min(out.len());
    for k in 0..n {
        out[k] = pair(digits, k);
    }
    n
}

// The first place from `from` on at which c stands, or the end.
pub fn place_of(text: &[u8], c: u8, from: usize) -> usize
    requires { from ≤ length text.now }
    ensures { Stands c text.now from result }
{
    for i in from..text.len() {
        if text[i] == c {
            return i;
        }
    }
    text.len()
}

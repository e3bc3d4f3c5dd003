// Reads a line as a call. The first letter names the call, and for each of its numbers there follow one space and
// one to three decimal digits. Nothing else may stand in the line.
ghost use Rattle.std.specs.Prelude.{◌≡◌};
ghost use Rattle.commands.specs.Parsing.{three_digits, number_in, one_in, two_in, alone_in, call_by, call_of};
ghost use Rattle.commands.specs.Writing.{Reads};

use crate::find::place_of;
use subject::call::Call;

const SPACE: u8 = b' ';

// The number that three digits write.
fn three_digits(a: u8, b: u8, c: u8) -> Option<usize>
    ensures { result ≡ three_digits a b c }
{
    let all_digits = a.is_ascii_digit() && b.is_ascii_digit() && c.is_ascii_digit();
    all_digits.then(|| {
        let hundreds = usize::from(a - b'0');
        let tens = usize::from(b - b'0');
        let ones = usize::from(c - b'0');
        100 * hundreds + (10 * tens + ones)
    })
}

// The number that one to three digits write. Where there are fewer, noughts stand before them.
fn number(digits: &[u8]) -> Option<usize>
    ensures { result ≡ number_in digits.now }
{
    match digits {
        [a] => three_digits(b'0', b'0', *a),
        [a, b] => three_digits(b'0', *a, *b),
        [a, b, c] => three_digits(*a, *b, *c),
        _ => None,
    }
}

// The number behind a space.
fn one_number(fields: &[u8]) -> Option<usize>
    ensures { result ≡ one_in fields.now }
{
    match fields {
        [SPACE, digits @ ..] => number(digits),
        _ => None,
    }
}

// Two numbers, each behind a space.
fn two_numbers(fields: &[u8]) -> Option<(usize, usize)>
    ensures { result ≡ two_in fields.now }
{
    if fields.is_empty() {
        return None;
    }
    let second = 1 + place_of(SPACE, &fields[1..]);
    let slot = one_number(&fields[0..second])?;
    let option = one_number(&fields[second..])?;
    Some((slot, option))
}

// A call that has no number, where nothing stands behind its letter.
fn alone(call: Call, fields: &[u8]) -> Option<Call>
    ensures { result ≡ alone_in call fields.now }
{
    fields.is_empty().then_some(call)
}

// The call that a letter names, with the numbers behind it.
fn call_by(letter: u8, fields: &[u8]) -> Option<Call>
    ensures { result ≡ call_by letter fields.now }
{
    // The letter is matched against character literals: a rule of the project names this form.
    match letter as char {
        't' => {
            let (slot, option) = two_numbers(fields)?;
            Some(Call::Try(slot, option))
        }
        's' => {
            let (slot, option) = two_numbers(fields)?;
            Some(Call::Strike(slot, option))
        }
        'b' => alone(Call::Back, fields),
        'l' => one_number(fields).map(Call::Look),
        'w' => alone(Call::Begin, fields),
        'n' => alone(Call::Next, fields),
        'e' => alone(Call::End, fields),
        _ => None,
    }
}

// The call that a line writes.
pub fn parse(line: &[u8]) -> Option<Call>
    ensures is { result ≡ call_of line.now }
    ensures law { Reads line.now result }
{
    match line {
        [letter, fields @ ..] => call_by(*letter, fields),
        [] => None,
    }
}

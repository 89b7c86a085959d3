// Text in a lent buffer: each function puts its text at a place and answers the place after it. What they require is
// room for it, which the caller knows: it sizes the buffer.
#![tactic(auto)]

ghost use Rattle.std.specs.Prelude.{[], ◌∷◌, ◌++◌, ◌+◌, ◌*◌, ◌<◌, ◌≤◌, length};
ghost use Rattle.text.specs.Text.{decimal_of, numbers_text};
ghost use Rattle.text.specs.Appends.{number_bytes, Spells, Appends};

const SPACE: u8 = 32;

const LINE_FEED: u8 = 10;

// What `io::decimal` asks for.
const DIGITS: usize = 20;

// These bytes as they are.
pub fn put_bytes(out: &mut [u8], at: usize, bytes: &[u8]) -> usize
    requires { at + length bytes.now ≤ length out.old }
    ensures { Appends (length bytes.now) bytes.now out.old at out.new result }
{
    let end = at + bytes.len();
    out[at..end].copy_from_slice(bytes);
    end
}

// The digits of a number in base ten, of which there are at most 5.
fn spell(n: u16, digits: &mut [u8; DIGITS]) -> usize
    ensures { Spells n digits.new result }
{
    io::decimal(n as u64, digits)
}

// A number in base ten, and a byte after it.
pub fn put_number(out: &mut [u8], at: usize, n: u16, after: u8) -> usize
    requires { at + number_bytes ≤ length out.old }
    ensures { Appends number_bytes (decimal_of n ++ (after ∷ [])) out.old at out.new result }
{
    let mut digits = [0u8; DIGITS];
    let k = spell(n, &mut digits);
    let end = put_bytes(out, at, &digits[..k]);
    out[end] = after;
    end + 1
}

// One or more numbers, parted by spaces, and a line feed.
pub fn put_numbers(out: &mut [u8], at: usize, numbers: &[u16]) -> usize
    requires { (0 < length numbers.now) × (at + number_bytes * length numbers.now ≤ length out.old) }
    ensures { Appends (number_bytes * length numbers.now) (numbers_text numbers.now) out.old at out.new result }
{
    let last = numbers.len() - 1;
    let mut end = at;
    // By index: the last number, which has another byte after it, is taken out of the same slice.
    for i in 0..last {
        end = put_number(out, end, numbers[i], SPACE);
    }
    put_number(out, end, numbers[last], LINE_FEED)
}

// A line that begins with a word, which has a space after it.
pub fn put_line(out: &mut [u8], at: usize, word: &[u8], numbers: &[u16]) -> usize
    requires { (0 < length numbers.now) × (at + (length word.now + number_bytes * length numbers.now) ≤ length out.old) }
    ensures { Appends (length word.now + number_bytes * length numbers.now) (word.now ++ numbers_text numbers.now) out.old at out.new result }
{
    let end = put_bytes(out, at, word);
    put_numbers(out, end, numbers)
}

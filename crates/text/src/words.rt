// The words and numbers of a text. Each function puts bytes from a place on, and answers the place after them.
ghost use Rattle.std.specs.Prelude.{[], ◌∷◌, ◌+◌, ◌≤◌, ◌<◌, length};
ghost use Rattle.store.specs.Put.{Put};
ghost use Rattle.text.specs.Printed.{decimal, head_text};

pub fn put_byte(byte: u8, text: &mut [u8], at: usize) -> usize
    requires { at < length text.old }
    ensures { Put text.old text.new at (byte ∷ []) result }
{
    text[at] = byte;
    at + 1
}

pub fn put_word(word: &[u8], text: &mut [u8], at: usize) -> usize
    requires { at + length word.now ≤ length text.old }
    ensures { Put text.old text.new at word.now result }
{
    let end = at + word.len();
    text[at..end].copy_from_slice(word);
    end
}

// A number in base ten: the digits of its tenth, if it is not below ten, and then its last digit. At most ten calls deep.
// By hand, since the library's text of fixed length doesn't promise that a number that fits isn't cut.
pub fn put_decimal(n: u32, text: &mut [u8], at: usize) -> usize
    requires { at + length (decimal n) ≤ length text.old }
    ensures { Put text.old text.new at (decimal n) result }
{
    if n < 10 {
        return put_byte(b'0' + n as u8, text, at);
    }
    let last = put_decimal(n / 10, text, at);
    put_byte(b'0' + (n % 10) as u8, text, last)
}

// The first line: a word, with its blank, and two numbers.
pub fn put_head(word: &[u8], a: u32, b: u32, text: &mut [u8], at: usize) -> usize
    requires { at + length (head_text word.now a b) ≤ length text.old }
    ensures { Put text.old text.new at (head_text word.now a b) result }
{
    let first = put_word(word, text, at);
    let blank = put_decimal(a, text, first);
    let second = put_byte(b' ', text, blank);
    let end = put_decimal(b, text, second);
    put_byte(b'\n', text, end)
}

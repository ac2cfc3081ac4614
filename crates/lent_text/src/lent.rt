// The lent text and a position in it alone, without the token and the codes that a `Reader` keeps; and what is left after the position, in an array.
ghost use Rattle.std.specs.Prelude.{◌≡◌, drop};
ghost use Rattle.lent_text.specs.Copied.{copied};

use model::MAX_TEXT;

#[derive(Clone, Copy)]
pub struct Lent<'a> {
    pub text: &'a [u8],
    pub at: usize,
}

// The bytes of a text from a position on, in an array.
pub fn copy_from(text: &[u8], at: usize) -> [u8; 2048]
    ensures { result ≡ copied (drop at text.now) }
{
    let rest = &text[at.min(text.len())..];
    let n = MAX_TEXT.min(rest.len());
    let mut bytes = [0; 2048];
    bytes[..n].copy_from_slice(&rest[..n]);
    bytes
}

// The start of a text.
pub fn reader_of<'a>(text: &'a [u8]) -> Lent<'a>
    ensures { (result.text ≡ text.entry) × (result.at ≡ 0) }
{
    Lent { text, at: 0 }
}

// What is left of a text.
pub fn rest_of<'a>(lent: Lent<'a>) -> [u8; 2048]
    ensures { result ≡ copied (drop lent.entry.at lent.entry.text.now) }
{
    copy_from(lent.text, lent.at)
}

// The whole of a text.
pub fn text_of(text: &[u8]) -> [u8; 2048]
    ensures { result ≡ copied text.now }
{
    rest_of(reader_of(text))
}

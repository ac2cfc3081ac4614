// The symbols that the grammar's rules ask for, and which of them a word is.
ghost use Rattle.std.specs.Prelude.{◌≡◌};
ghost use Rattle.std.specs.Str.{bytes_eq};
ghost use Rattle.grammar.specs.Symbols.{keywords, number_among};
ghost use Rattle.scanner.specs.Symbols.{first_spelled, named};

// What a token is to the rules, as in grammar/specs/Symbols.antt.
#[derive(Clone, Copy, PartialEq, Eq)]
pub enum Symbol {
    Ftor,
    Ftand,
    Ftnot,
    Not,
    In,
    // the words that begin a filter
    Ordered,
    Window,
    Distance,
    Same,
    Different,
    At,
    Entire,
    // the words inside a filter
    Start,
    End,
    Sentence,
    Paragraph,
    Content,
    // the word that begins a phrase's times, and those of a range
    Occurs,
    Exactly,
    From,
    To,
    Least,
    Most,
    Words,
    Times,
    // every other word
    OtherWord,
    // the end of the text
    NoMore,
    Quote,
    Opening,
    Closing,
    Number,
    // any other byte
    OtherSign,
}

// The keywords, by how long they are: so that a word is held against those of its length alone.
const TWO: [(&[u8], Symbol); 3] = [
    (b"in", Symbol::In),
    (b"at", Symbol::At),
    (b"to", Symbol::To),
];

const THREE: [(&[u8], Symbol); 2] = [(b"not", Symbol::Not), (b"end", Symbol::End)];

const FOUR: [(&[u8], Symbol); 4] = [
    (b"ftor", Symbol::Ftor),
    (b"same", Symbol::Same),
    (b"from", Symbol::From),
    (b"most", Symbol::Most),
];

const FIVE: [(&[u8], Symbol); 6] = [
    (b"ftand", Symbol::Ftand),
    (b"ftnot", Symbol::Ftnot),
    (b"start", Symbol::Start),
    (b"least", Symbol::Least),
    (b"words", Symbol::Words),
    (b"times", Symbol::Times),
];

const SIX: [(&[u8], Symbol); 3] = [
    (b"window", Symbol::Window),
    (b"entire", Symbol::Entire),
    (b"occurs", Symbol::Occurs),
];

const SEVEN: [(&[u8], Symbol); 3] = [
    (b"ordered", Symbol::Ordered),
    (b"content", Symbol::Content),
    (b"exactly", Symbol::Exactly),
];

const EIGHT: [(&[u8], Symbol); 2] = [
    (b"distance", Symbol::Distance),
    (b"sentence", Symbol::Sentence),
];

const NINE: [(&[u8], Symbol); 2] = [
    (b"different", Symbol::Different),
    (b"paragraph", Symbol::Paragraph),
];

// Is a word this one? Byte by byte: against a word of a table that is a few tests of single bytes, and no call.
#[inline(always)]
fn spells(word: &[u8], keyword: &[u8]) -> bool
    ensures { result ≡ bytes_eq word.now keyword.now }
{
    word.len() == keyword.len() && word.iter().zip(keyword).all(|(a, b)| a == b)
}

// The symbol of the first of some keywords that a word is.
#[inline(always)]
#[tactic(auto, unfolding(crate::specs::Symbols::first_spelled))]
fn spelled(keywords: &[(&[u8], Symbol)], word: &[u8]) -> Symbol
    ensures { result ≡ first_spelled word.now keywords.now }
{
    for (keyword, symbol) in keywords {
        if spells(word, keyword) {
            return *symbol;
        }
    }
    Symbol::OtherWord
}

// The symbol of a word.
pub fn word_symbol(word: &[u8]) -> Symbol
    ensures { result ≡ named (number_among 1 keywords word.now) }
{
    match word.len() {
        2 => spelled(&TWO, word),
        3 => spelled(&THREE, word),
        4 => spelled(&FOUR, word),
        5 => spelled(&FIVE, word),
        6 => spelled(&SIX, word),
        7 => spelled(&SEVEN, word),
        8 => spelled(&EIGHT, word),
        9 => spelled(&NINE, word),
        _ => Symbol::OtherWord,
    }
}

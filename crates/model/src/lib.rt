// The types that the meaning of sections, selections and answers speaks of. Document 01's terms; what each means is in specs/.

#![tactic(auto)]

ghost use Rattle.std.specs.Prelude.{◌≡◌, MatchOption, Ok, Err};
ghost use Rattle.std.specs.Bool.{MatchBool};
ghost use Rattle.model.specs.Checks.{number_of, refusal};

// "A section is n (0 to 4,096)"
pub const MAX_TOKENS: u32 = 4096;
// "A selection is m (1 to 64)"
pub const MAX_CODES: u32 = 64;
// "Kind 0 needs p < 8", "Kind 1 needs p = k and w < 8": loose words and lists that may wait
pub const MAX_WAITING: u32 = 8;
// "N, 1 to 4,096"
pub const MAX_WINDOW: u32 = 4096;
// "a ≤ b ≤ 4,095"
pub const MAX_DISTANCE: u32 = 4095;
// Document 02, F-3: "occurs at least a (0 to 4,095)"
pub const MAX_TIMES: u32 = 4095;
// "its list has over 256 matches or 512 strings"
pub const MAX_MATCHES: u32 = 256;

pub const MAX_STRINGS: u32 = 512;
// "working memory (at least 12,800 u32) and a listing buffer (at least 1,282 u32)"
pub const WORK_LENGTH: usize = 12800;

pub const BUFFER_LENGTH: usize = 1282;
// "A place is paragraph × 65,536 + sentence"; a span and the operands of kinds 8 and 16 hold two numbers in the same way
pub const RADIX: u32 = 65536;
// Document 02, F-6: "a size of at most 2,048"
pub const MAX_ENTRIES: u32 = 2048;
// Document 02, F-1: "text of at most 2,048 bytes"
pub const MAX_TEXT: usize = 2048;
// "A phrase is one to eight word numbers"
pub const MAX_WORDS: u32 = 8;
// "a word number over 4,294,967,295 or another number over 4,096"
pub const MAX_WORD: u64 = 4294967295;

pub const MAX_NUMBER: u64 = 4096;
// "Length is 1 + 2m": the longest selection's
pub const SELECTION_LENGTH: usize = 129;

// Three countings, none of which stands for another.
#[derive(Clone, Copy, PartialEq, Eq, PartialOrd, Ord)]
pub struct Position(pub u32);

#[derive(Clone, Copy, PartialEq, Eq, PartialOrd, Ord)]
pub struct Sentence(pub u32);

#[derive(Clone, Copy, PartialEq, Eq, PartialOrd, Ord)]
pub struct Paragraph(pub u32);

// A combination of the last two lists: kinds 2, 3 and 5.
#[derive(Clone, Copy, PartialEq, Eq)]
pub enum Pair {
    Or,
    And,
    MildNot,
}

// Kinds 6 to 15, window and distance with their numbers.
#[derive(Clone, Copy, PartialEq, Eq)]
pub enum Filter {
    Ordered,
    Window(u32),
    Distance { least: u32, most: u32 },
    SameSentence,
    SameParagraph,
    DifferentSentence,
    DifferentParagraph,
    AtStart,
    AtEnd,
    EntireContent,
}

// F-3: how often a phrase occurs: kinds 16 and 17, with their numbers.
#[derive(Clone, Copy, PartialEq, Eq)]
pub enum Times {
    FromTo { least: u32, most: u32 },
    AtLeast(u32),
}

// One code of a selection.
#[derive(Clone, Copy, PartialEq, Eq)]
pub enum Code {
    // kind 0: a word of a phrase
    Word(u32),
    // kind 1: the phrase of so many words just before it
    Phrase(u32),
    // kinds 2, 3 and 5
    Combine(Pair),
    // kind 4
    Not,
    // kinds 6 to 15
    Filter(Filter),
    // kinds 16 and 17
    Occurs(Times),
}

// What a call is asked of: a section, a family table and a selection, each lent.
#[derive(Clone, Copy)]
pub struct Inputs<'a> {
    pub section: &'a [u32],
    pub families: &'a [u32],
    pub selection: &'a [u32],
}

// Why a call refuses, by the papers' number in that order: `number_of`, in specs/Checks.antt.
#[derive(Clone, Copy, PartialEq, Eq)]
pub enum Reason {
    WrongSection,
    FaultyPosition,
    WrongSelection,
    UnknownKind,
    WrongOperand,
    WrongShape,
    NotUnderMildNot,
    ShortMemory,
    LongList,
    UnexpectedToken,
    OverLimit,
    NotOverPhrase,
    WrongFamilies,
}

impl From<Reason> for u32 {
    ghost from_gives = { λ reason number. number ≡ number_of reason };

    fn from(reason: Reason) -> u32 {
        match reason {
            Reason::WrongSection => 1,
            Reason::FaultyPosition => 2,
            Reason::WrongSelection => 3,
            Reason::UnknownKind => 4,
            Reason::WrongOperand => 5,
            Reason::WrongShape => 6,
            Reason::NotUnderMildNot => 7,
            Reason::ShortMemory => 8,
            Reason::LongList => 9,
            Reason::UnexpectedToken => 10,
            Reason::OverLimit => 11,
            Reason::NotOverPhrase => 12,
            Reason::WrongFamilies => 13,
        }
    }
}

// A refusal: why, and at which place. Every call's error; what the checks of lent slices answer in its stead is the size of what was checked, a section's n
// or a selection's m.
#[derive(Clone, Copy, PartialEq, Eq)]
pub struct Refusal {
    pub reason: Reason,
    pub place: u32,
}

impl Reason {
    // What a check answers that goes on where it finds no place, and refuses at the place that it finds.
    pub fn refuse_at(self, found: Option<u32>) -> Result<(), Refusal>
        ensures { MatchOption found (result ≡ Ok tt) (λ place. result ≡ Err (refusal self place)) }
    {
        match found {
            None => Ok(()),
            Some(place) => Err(Refusal {
                reason: self,
                place,
            }),
        }
    }

    // What a check answers that refuses the whole of what it is given, at place 0, unless it is right.
    pub fn refuse_unless(self, right: bool) -> Result<(), Refusal>
        ensures { MatchBool right (result ≡ Ok tt) (result ≡ Err (refusal self 0)) }
    {
        self.refuse_at((!right).then_some(0))
    }
}

// What the full listing answers: "M, S and yes or no, or a refusal with its place". An enum of its own, the form that document 01 names.
#[derive(Clone, Copy, PartialEq, Eq)]
pub enum Listing {
    Listed {
        matches: u32,
        strings: u32,
        yes: bool,
    },
    Refused(Refusal),
}

// What the quick answer is, with how many codes of kind 1 to 17 were walked or built.
#[derive(Clone, Copy, PartialEq, Eq)]
pub struct Answered {
    pub yes: bool,
    pub codes: u32,
}

pub type Quick = Result<Answered, Refusal>;

// What the reader answers: how many codes a typed search has.
pub type Reading = Result<u32, Refusal>;

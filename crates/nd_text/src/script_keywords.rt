//! The words that name calls, steps, questions and acts in a script.

ghost use Rattle.std.specs.Prelude.{◌≡◌, ◌<◌, ◌≤◌, length};
ghost use Rattle.nd_text.specs.KeywordSpelling.{keyword_of, keyword_among, long_keywords, is_step};

/// The call, step, question or act that a word names.
#[derive(Clone, Copy, Debug, PartialEq, Eq)]
pub enum Keyword {
    Start,
    Keep,
    Ask,
    Write,
    Split,
    Slash,
    Cut,
    Slice,
    Collapse,
    Index,
    Permute,
    Reverse,
    SwapAxes,
    Invert,
    Insert,
    Remove,
    Squeeze,
    Diag,
    Broadcast,
    Part,
    Coordinate,
    New,
    Shape,
    Elements,
    Get,
    First,
    Last,
    Equal,
    Count,
    Select,
    RemoveIndex,
    Reshape,
    Append,
    Push,
    Reserve,
    Concat,
    Stack,
    Row,
    Column,
    Fill,
    Assign,
    Set,
    Swap,
    /// Any other word.
    Other,
}

impl Keyword {
    /// Returns the keyword that `word` names, or `Other`. It compares the length first, and then the bytes in turn.
    #[tactic(auto, unfolding(crate::specs::KeywordSpelling::keyword_of))]
    pub fn of(word: &[u8]) -> Keyword
        ensures { result ≡ keyword_of word.now }
    {
        match word.len() {
            0..=3 => Keyword::of_short(word),
            4 => Keyword::of_four(word),
            5 => Keyword::of_five(word),
            6 => Keyword::of_six(word),
            7 => Keyword::of_seven(word),
            _ => Keyword::of_long(word),
        }
    }

    /// Returns the keyword that `word`, of at most three bytes, names.
    #[tactic(auto, unfolding(crate::specs::KeywordSpelling::keyword_of))]
    fn of_short(word: &[u8]) -> Keyword
        requires { length word.now ≤ 3 }
        ensures { result ≡ keyword_of word.now }
    {
        match word {
            b"ask" => Keyword::Ask,
            b"/" => Keyword::Slash,
            b"cut" => Keyword::Cut,
            b"s" => Keyword::Part,
            b"i" => Keyword::Coordinate,
            b"n" => Keyword::New,
            b"get" => Keyword::Get,
            b"row" => Keyword::Row,
            b"col" => Keyword::Column,
            b"set" => Keyword::Set,
            _ => Keyword::Other,
        }
    }

    /// Returns the keyword that `word`, of four bytes, names.
    #[tactic(auto, unfolding(crate::specs::KeywordSpelling::keyword_of))]
    fn of_four(word: &[u8]) -> Keyword
        requires { length word.now ≡ 4 }
        ensures { result ≡ keyword_of word.now }
    {
        match word {
            b"keep" => Keyword::Keep,
            b"diag" => Keyword::Diag,
            b"last" => Keyword::Last,
            b"push" => Keyword::Push,
            b"fill" => Keyword::Fill,
            b"swap" => Keyword::Swap,
            _ => Keyword::Other,
        }
    }

    /// Returns the keyword that `word`, of five bytes, names.
    #[tactic(auto, unfolding(crate::specs::KeywordSpelling::keyword_of))]
    fn of_five(word: &[u8]) -> Keyword
        requires { length word.now ≡ 5 }
        ensures { result ≡ keyword_of word.now }
    {
        match word {
            b"start" => Keyword::Start,
            b"write" => Keyword::Write,
            b"split" => Keyword::Split,
            b"slice" => Keyword::Slice,
            b"index" => Keyword::Index,
            b"shape" => Keyword::Shape,
            b"first" => Keyword::First,
            b"equal" => Keyword::Equal,
            b"count" => Keyword::Count,
            b"stack" => Keyword::Stack,
            _ => Keyword::Other,
        }
    }

    /// Returns the keyword that `word`, of six bytes, names.
    #[tactic(auto, unfolding(crate::specs::KeywordSpelling::keyword_of))]
    fn of_six(word: &[u8]) -> Keyword
        requires { length word.now ≡ 6 }
        ensures { result ≡ keyword_of word.now }
    {
        match word {
            b"invert" => Keyword::Invert,
            b"insert" => Keyword::Insert,
            b"remove" => Keyword::Remove,
            b"select" => Keyword::Select,
            b"append" => Keyword::Append,
            b"concat" => Keyword::Concat,
            b"assign" => Keyword::Assign,
            _ => Keyword::Other,
        }
    }

    /// Returns the keyword that `word`, of seven bytes, names.
    #[tactic(auto, unfolding(crate::specs::KeywordSpelling::keyword_of))]
    fn of_seven(word: &[u8]) -> Keyword
        requires { length word.now ≡ 7 }
        ensures { result ≡ keyword_of word.now }
    {
        match word {
            b"permute" => Keyword::Permute,
            b"reverse" => Keyword::Reverse,
            b"squeeze" => Keyword::Squeeze,
            b"reshape" => Keyword::Reshape,
            b"reserve" => Keyword::Reserve,
            _ => Keyword::Other,
        }
    }

    /// Returns the keyword of more than seven bytes that `word` names, or `Other`.
    fn of_long(word: &[u8]) -> Keyword
        ensures { result ≡ keyword_among long_keywords word.now }
    {
        if word == b"collapse".as_slice() {
            Keyword::Collapse
        } else if word == b"swapaxes".as_slice() {
            Keyword::SwapAxes
        } else if word == b"elements".as_slice() {
            Keyword::Elements
        } else if word == b"broadcast".as_slice() {
            Keyword::Broadcast
        } else if word == b"removeindex".as_slice() {
            Keyword::RemoveIndex
        } else {
            Keyword::Other
        }
    }

    /// Returns whether a step of a script begins with this word.
    pub fn is_step(self) -> bool
        ensures { result ≡ is_step self }
    {
        matches!(
            self,
            Keyword::Cut
                | Keyword::Slice
                | Keyword::Collapse
                | Keyword::Index
                | Keyword::Permute
                | Keyword::Reverse
                | Keyword::SwapAxes
                | Keyword::Invert
                | Keyword::Insert
                | Keyword::Remove
                | Keyword::Squeeze
                | Keyword::Diag
                | Keyword::Broadcast
        )
    }
}

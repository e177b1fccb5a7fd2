//! The keywords of the query language.

ghost use Rattle.std.specs.Prelude.{◌≡◌, ◌↔◌, Some, is_some};
ghost use Rattle.std.specs.Str.{str_eq_ignore_ascii_case};
ghost use Rattle.arr_core.specs.Keywords.{keyword_text, IsWritten, is_keyword};
ghost use Rattle.arr_core.specs.declared.keyword.Keyword.{Keyword};

/// A keyword of the query language. A query writes it in any ASCII case, and it is no name.
#[derive(Clone, Copy, PartialEq, Eq)]
pub enum Keyword {
    For,
    In,
    Where,
    Return,
    Encode,
    Csv,
    Coverage,
    Over,
    Values,
    Value,
    List,
    Condense,
    Using,
    And,
    Or,
    Xor,
    Not,
    Abs,
    Bit,
    True,
    False,
    Count,
    Some,
    All,
    Add,
    Avg,
    Min,
    Max,
    ImageCrsDomain,
}

/// The keywords, each once.
const KEYWORDS: [Keyword; 29] = [
    Keyword::For,
    Keyword::In,
    Keyword::Where,
    Keyword::Return,
    Keyword::Encode,
    Keyword::Csv,
    Keyword::Coverage,
    Keyword::Over,
    Keyword::Values,
    Keyword::Value,
    Keyword::List,
    Keyword::Condense,
    Keyword::Using,
    Keyword::And,
    Keyword::Or,
    Keyword::Xor,
    Keyword::Not,
    Keyword::Abs,
    Keyword::Bit,
    Keyword::True,
    Keyword::False,
    Keyword::Count,
    Keyword::Some,
    Keyword::All,
    Keyword::Add,
    Keyword::Avg,
    Keyword::Min,
    Keyword::Max,
    Keyword::ImageCrsDomain,
];

impl Keyword {
    /// How the keyword is usually written.
    pub fn text(self) -> &'static str
        ensures { result.now ≡ keyword_text self }
    {
        match self {
            Keyword::For => "for",
            Keyword::In => "in",
            Keyword::Where => "where",
            Keyword::Return => "return",
            Keyword::Encode => "encode",
            Keyword::Csv => "csv",
            Keyword::Coverage => "coverage",
            Keyword::Over => "over",
            Keyword::Values => "values",
            Keyword::Value => "value",
            Keyword::List => "list",
            Keyword::Condense => "condense",
            Keyword::Using => "using",
            Keyword::And => "and",
            Keyword::Or => "or",
            Keyword::Xor => "xor",
            Keyword::Not => "not",
            Keyword::Abs => "abs",
            Keyword::Bit => "bit",
            Keyword::True => "true",
            Keyword::False => "false",
            Keyword::Count => "count",
            Keyword::Some => "some",
            Keyword::All => "all",
            Keyword::Add => "add",
            Keyword::Avg => "avg",
            Keyword::Min => "min",
            Keyword::Max => "max",
            Keyword::ImageCrsDomain => "imageCrsDomain",
        }
    }
}

/// The keyword that a text is, whatever the case of its ASCII letters.
pub fn keyword_of(text: &[u8]) -> Option<Keyword>
    ensures written { (k : Keyword) → result ≡ Some k ↔ IsWritten k text.now }
    ensures some { is_some result ≡ is_keyword text.now }
{
    KEYWORDS
        .iter()
        .copied()
        .find(|keyword| is_written(*keyword, text))
}

/// Whether a text is a keyword, whatever the case of its ASCII letters.
fn is_written(keyword: Keyword, text: &[u8]) -> bool
    ensures { result ≡ str_eq_ignore_ascii_case text.now (keyword_text keyword) }
{
    text.eq_ignore_ascii_case(keyword.text().as_bytes())
}

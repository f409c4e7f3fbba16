//! Tags that the code knows by themselves.

ghost use Rattle.std.specs.Prelude.{◌≡◌, ◌≢◌, Some, IfSome, IfNone};
ghost use Rattle.lol_base.specs.LocalNames.{name_code};
ghost use Rattle.lol_base.specs.Names as names;

// The codes of the names, five bits for each letter.
const A: u64 = 0b00110;

const AREA: u64 = 0b00110_10111_01010_00110;

const BASE: u64 = 0b00111_00110_11000_01010;

const BASEFONT: u64 = 0b00111_00110_11000_01010_01011_10100_10011_11001;

const BGSOUND: u64 = 0b00111_01100_11000_10100_11010_10011_01001;

const BR: u64 = 0b00111_10111;

const COL: u64 = 0b01000_10100_10001;

const DIV: u64 = 0b01001_01110_11011;

const EMBED: u64 = 0b01010_10010_00111_01010_01001;

const HR: u64 = 0b01101_10111;

const IMG: u64 = 0b01110_10010_01100;

const INPUT: u64 = 0b01110_10011_10101_11010_11001;

const KEYGEN: u64 = 0b10000_01010_11110_01100_01010_10011;

const LI: u64 = 0b10001_01110;

const LINK: u64 = 0b10001_01110_10011_10000;

const META: u64 = 0b10010_01010_11001_00110;

const PARAM: u64 = 0b10101_00110_10111_00110_10010;

const SOURCE: u64 = 0b11000_10100_11010_10111_01000_01010;

const SPAN: u64 = 0b11000_10101_00110_10011;

const TRACK: u64 = 0b11001_10111_00110_01000_10000;

const WBR: u64 = 0b11100_00111_10111;

/// Tags that have a meaning of their own to the selector machine or its callers: the 17 names of void elements (HTML Standard, "Elements",
/// 13.1.2, with the obsolete ones of 13.2.6.4.7), and four common ones.
#[derive(Debug, Clone, Copy, PartialEq, Eq)]
pub enum Tag {
    A,
    Area,
    Base,
    Basefont,
    Bgsound,
    Br,
    Col,
    Div,
    Embed,
    Hr,
    Img,
    Input,
    Keygen,
    Li,
    Link,
    Meta,
    Param,
    Source,
    Span,
    Track,
    Wbr,
}

impl Tag {
    ghost use Rattle.lol_base.specs.Tags.{tag_name};

    /// The code of the tag's name.
    #[inline]
    #[tactic(auto, unfolding(crate::specs::LocalNames::name_code))]
    pub(crate) fn code(self) -> u64
        ensures { name_code (tag_name self) ≡ Some result }
    {
        match self {
            Tag::A => A,
            Tag::Area => AREA,
            Tag::Base => BASE,
            Tag::Basefont => BASEFONT,
            Tag::Bgsound => BGSOUND,
            Tag::Br => BR,
            Tag::Col => COL,
            Tag::Div => DIV,
            Tag::Embed => EMBED,
            Tag::Hr => HR,
            Tag::Img => IMG,
            Tag::Input => INPUT,
            Tag::Keygen => KEYGEN,
            Tag::Li => LI,
            Tag::Link => LINK,
            Tag::Meta => META,
            Tag::Param => PARAM,
            Tag::Source => SOURCE,
            Tag::Span => SPAN,
            Tag::Track => TRACK,
            Tag::Wbr => WBR,
        }
    }

    /// The tag whose name has this code, if it is one of these.
    #[inline]
    #[tactic(auto, unfolding(crate::specs::LocalNames::name_code))]
    pub(crate) fn of_code(code: u64) -> Option<Tag>
        ensures some { IfSome result (λ tag. name_code (tag_name tag) ≡ Some code) }
        ensures none { IfNone result ((tag : Tag) → name_code (tag_name tag) ≢ Some code) }
    {
        Some(match code {
            A => Tag::A,
            AREA => Tag::Area,
            BASE => Tag::Base,
            BASEFONT => Tag::Basefont,
            BGSOUND => Tag::Bgsound,
            BR => Tag::Br,
            COL => Tag::Col,
            DIV => Tag::Div,
            EMBED => Tag::Embed,
            HR => Tag::Hr,
            IMG => Tag::Img,
            INPUT => Tag::Input,
            KEYGEN => Tag::Keygen,
            LI => Tag::Li,
            LINK => Tag::Link,
            META => Tag::Meta,
            PARAM => Tag::Param,
            SOURCE => Tag::Source,
            SPAN => Tag::Span,
            TRACK => Tag::Track,
            WBR => Tag::Wbr,
            _ => return None,
        })
    }

    /// Whether an HTML element of this name never has content.
    #[inline]
    #[tactic(auto, unfolding(crate::specs::Names::void_names))]
    pub fn is_void(self) -> bool
        ensures { result ≡ names.is_void (tag_name self) }
    {
        !matches!(self, Tag::A | Tag::Div | Tag::Li | Tag::Span)
    }
}

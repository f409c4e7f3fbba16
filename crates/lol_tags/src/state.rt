//! The states of the tokenizer that decide where tags stand.

ghost use Rattle.std.specs.Prelude.{◌≡◌};
ghost use Rattle.lol_tags.specs.States.{next_in_script, next, is_in_tag, is_self_closing};
ghost use Rattle.lol_tags.specs.Reading.{may_be_tag};
ghost use Rattle.lol_tags.specs.Idling.{stop};

use crate::transitions::{
    after_attribute_name, attribute_name, before_attribute_name, before_attribute_value,
    bogus_comment, cdata_section, cdata_section_bracket, cdata_section_end, comment, comment_end,
    comment_end_bang, comment_end_dash, comment_start, comment_start_dash, double_escape_end,
    double_escape_start, double_escaped, double_escaped_dash, double_escaped_dash_dash,
    double_escaped_less_than_sign, double_quoted, end_tag_open, escape_start, escape_start_dash,
    escaped, escaped_dash, escaped_dash_dash, escaped_end_tag_name, escaped_end_tag_open,
    escaped_less_than_sign, expected, markup_dash, markup_declaration_open, raw_text,
    raw_text_end_tag_name, raw_text_end_tag_open, raw_text_less_than_sign, single_quoted, tag_name,
    tag_open, text, unquoted,
};

/// A state, by the name that the HTML Standard gives it (13.2.5). States that differ in errors, in characters, in the texts of comments or
/// in DOCTYPEs alone are one.
#[derive(Clone, Copy, Debug)]
pub enum State {
    Data,
    TagOpen,
    EndTagOpen,
    TagName,
    /// Also after a quoted value.
    BeforeAttributeName,
    AttributeName,
    AfterAttributeName,
    BeforeAttributeValue,
    AttributeValueDoubleQuoted,
    AttributeValueSingleQuoted,
    AttributeValueUnquoted,
    SelfClosingStartTag,
    /// Also a DOCTYPE.
    BogusComment,
    MarkupDeclarationOpen,
    /// After `<!-`.
    MarkupDash,
    /// After `<![`.
    MarkupBracket,
    MarkupC,
    MarkupCd,
    MarkupCda,
    MarkupCdat,
    MarkupCdata,
    CommentStart,
    CommentStartDash,
    Comment,
    CommentEndDash,
    CommentEnd,
    CommentEndBang,
    CdataSection,
    CdataSectionBracket,
    CdataSectionEnd,
    /// RCDATA, RAWTEXT and script data.
    RawText,
    RawTextLessThanSign,
    RawTextEndTagOpen,
    RawTextEndTagName,
    ScriptDataEscapeStart,
    ScriptDataEscapeStartDash,
    ScriptDataEscaped,
    ScriptDataEscapedDash,
    ScriptDataEscapedDashDash,
    ScriptDataEscapedLessThanSign,
    ScriptDataEscapedEndTagOpen,
    ScriptDataEscapedEndTagName,
    ScriptDataDoubleEscapeStart,
    ScriptDataDoubleEscaped,
    ScriptDataDoubleEscapedDash,
    ScriptDataDoubleEscapedDashDash,
    ScriptDataDoubleEscapedLessThanSign,
    ScriptDataDoubleEscapeEnd,
    Plaintext,
}

impl State {
    // The state after a byte. `named` says that the name that is read is the one that ends the text, `is_script` that the text is a
    // script's, `foreign` that the current node isn't an HTML element.
    #[inline(always)]
    #[tactic(auto, unfolding(crate::specs::States::next))]
    pub(crate) fn next(self, b: u8, named: bool, is_script: bool, foreign: bool) -> State
        ensures { result ≡ next self b named is_script foreign }
    {
        match self {
            State::Data => text(b),
            State::TagOpen => tag_open(b),
            State::EndTagOpen => end_tag_open(b),
            State::TagName => tag_name(b),
            State::BeforeAttributeName => before_attribute_name(b),
            State::AttributeName => attribute_name(b),
            State::AfterAttributeName => after_attribute_name(b),
            State::BeforeAttributeValue => before_attribute_value(b),
            State::AttributeValueDoubleQuoted => double_quoted(b),
            State::AttributeValueSingleQuoted => single_quoted(b),
            State::AttributeValueUnquoted => unquoted(b),
            State::SelfClosingStartTag => before_attribute_name(b),
            State::BogusComment => bogus_comment(b),
            State::MarkupDeclarationOpen => markup_declaration_open(b, foreign),
            State::MarkupDash => markup_dash(b),
            State::MarkupBracket => expected(b'C', State::MarkupC, b),
            State::MarkupC => expected(b'D', State::MarkupCd, b),
            State::MarkupCd => expected(b'A', State::MarkupCda, b),
            State::MarkupCda => expected(b'T', State::MarkupCdat, b),
            State::MarkupCdat => expected(b'A', State::MarkupCdata, b),
            State::MarkupCdata => expected(b'[', State::CdataSection, b),
            State::CommentStart => comment_start(b),
            State::CommentStartDash => comment_start_dash(b),
            State::Comment => comment(b),
            State::CommentEndDash => comment_end_dash(b),
            State::CommentEnd => comment_end(b),
            State::CommentEndBang => comment_end_bang(b),
            State::CdataSection => cdata_section(b),
            State::CdataSectionBracket => cdata_section_bracket(b),
            State::CdataSectionEnd => cdata_section_end(b),
            State::RawText => raw_text(b),
            State::RawTextLessThanSign => raw_text_less_than_sign(b, is_script),
            State::RawTextEndTagOpen => raw_text_end_tag_open(b),
            State::RawTextEndTagName => raw_text_end_tag_name(b, named),
            _ => self.next_in_script(b, named),
        }
    }

    // The same in a script behind `<!`, and in PLAINTEXT, which nothing ends.
    #[inline(always)]
    #[tactic(auto, unfolding(crate::specs::States::next_in_script))]
    fn next_in_script(self, b: u8, named: bool) -> State
        ensures { result ≡ next_in_script self b named }
    {
        match self {
            State::ScriptDataEscapeStart => escape_start(b),
            State::ScriptDataEscapeStartDash => escape_start_dash(b),
            State::ScriptDataEscaped => escaped(b),
            State::ScriptDataEscapedDash => escaped_dash(b),
            State::ScriptDataEscapedDashDash => escaped_dash_dash(b),
            State::ScriptDataEscapedLessThanSign => escaped_less_than_sign(b),
            State::ScriptDataEscapedEndTagOpen => escaped_end_tag_open(b),
            State::ScriptDataEscapedEndTagName => escaped_end_tag_name(b, named),
            State::ScriptDataDoubleEscapeStart => double_escape_start(b, named),
            State::ScriptDataDoubleEscaped => double_escaped(b),
            State::ScriptDataDoubleEscapedDash => double_escaped_dash(b),
            State::ScriptDataDoubleEscapedDashDash => double_escaped_dash_dash(b),
            State::ScriptDataDoubleEscapedLessThanSign => double_escaped_less_than_sign(b),
            State::ScriptDataDoubleEscapeEnd => double_escape_end(b, named),
            _ => State::Plaintext,
        }
    }

    // Whether a `>` ends a tag.
    #[inline(always)]
    #[tactic(auto, unfolding(crate::specs::States::is_in_tag))]
    pub(crate) fn is_in_tag(self, named: bool) -> bool
        ensures { result ≡ is_in_tag self named }
    {
        match self {
            State::TagName => true,
            State::BeforeAttributeName => true,
            State::AttributeName => true,
            State::AfterAttributeName => true,
            State::BeforeAttributeValue => true,
            State::AttributeValueUnquoted => true,
            State::SelfClosingStartTag => true,
            State::RawTextEndTagName => named,
            State::ScriptDataEscapedEndTagName => named,
            _ => false,
        }
    }

    // Whether a tag that ends here closes itself.
    #[inline(always)]
    #[tactic(auto, unfolding(crate::specs::States::is_self_closing))]
    pub(crate) fn is_self_closing(self) -> bool
        ensures { result ≡ is_self_closing self }
    {
        match self {
            State::SelfClosingStartTag => true,
            _ => false,
        }
    }

    // Whether the last `<` may still begin a tag.
    #[inline(always)]
    #[tactic(auto, unfolding(crate::specs::Reading::may_be_tag))]
    pub(crate) fn may_be_tag(self) -> bool
        ensures { result ≡ may_be_tag self }
    {
        match self {
            State::TagOpen => true,
            State::EndTagOpen => true,
            State::TagName => true,
            State::BeforeAttributeName => true,
            State::AttributeName => true,
            State::AfterAttributeName => true,
            State::BeforeAttributeValue => true,
            State::AttributeValueDoubleQuoted => true,
            State::AttributeValueSingleQuoted => true,
            State::AttributeValueUnquoted => true,
            State::SelfClosingStartTag => true,
            State::RawTextLessThanSign => true,
            State::RawTextEndTagOpen => true,
            State::RawTextEndTagName => true,
            State::ScriptDataEscapedLessThanSign => true,
            State::ScriptDataEscapedEndTagOpen => true,
            State::ScriptDataEscapedEndTagName => true,
            _ => false,
        }
    }

    // The one byte that leads away from this state, where there is one alone.
    #[inline(always)]
    #[tactic(auto, unfolding(crate::specs::Idling::stop))]
    pub(crate) fn stop(self) -> Option<u8>
        ensures { result ≡ stop self }
    {
        match self {
            State::Data => Some(b'<'),
            State::RawText => Some(b'<'),
            State::AttributeValueDoubleQuoted => Some(b'"'),
            State::AttributeValueSingleQuoted => Some(b'\''),
            State::Comment => Some(b'-'),
            State::BogusComment => Some(b'>'),
            State::CdataSection => Some(b']'),
            _ => None,
        }
    }
}

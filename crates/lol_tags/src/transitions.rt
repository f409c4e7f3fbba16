//! What a byte does to each state of the tokenizer.

ghost use Rattle.std.specs.Prelude.{◌≡◌};
ghost use Rattle.lol_tags.specs.States.{is_space, is_letter, ends_name, text, bogus_comment, tag_open, end_tag_open, tag_name, before_attribute_name, attribute_name, after_attribute_name, before_attribute_value, double_quoted, single_quoted, unquoted, markup_declaration_open, markup_dash, expected, comment_start, comment_start_dash, comment, comment_end_dash, comment_end, comment_end_bang, cdata_section, cdata_section_bracket, cdata_section_end, raw_text, raw_text_less_than_sign, raw_text_end_tag_open, raw_text_end_tag_name, escape_start, escape_start_dash, escaped, escaped_dash, escaped_dash_dash, escaped_less_than_sign, escaped_end_tag_open, escaped_end_tag_name, double_escape_start, double_escaped, double_escaped_dash, double_escaped_dash_dash, double_escaped_less_than_sign, double_escape_end};

use crate::state::State;

#[inline(always)]
pub(crate) fn is_space(b: u8) -> bool
    ensures { result ≡ is_space b }
{
    b == b' ' || b == b'\n' || b == b'\t' || b == b'\r' || b == 12
}

#[inline(always)]
pub(crate) fn is_letter(b: u8) -> bool
    ensures { result ≡ is_letter b }
{
    (b >= b'a' && b <= b'z') || (b >= b'A' && b <= b'Z')
}

#[inline(always)]
fn ends_name(b: u8) -> bool
    ensures { result ≡ ends_name b }
{
    is_space(b) || b == b'/' || b == b'>'
}

#[inline(always)]
pub(crate) fn text(b: u8) -> State
    ensures { result ≡ text b }
{
    if b == b'<' {
        State::TagOpen
    } else {
        State::Data
    }
}

#[inline(always)]
pub(crate) fn bogus_comment(b: u8) -> State
    ensures { result ≡ bogus_comment b }
{
    if b == b'>' {
        State::Data
    } else {
        State::BogusComment
    }
}

#[inline(always)]
pub(crate) fn tag_open(b: u8) -> State
    ensures { result ≡ tag_open b }
{
    if is_letter(b) {
        State::TagName
    } else if b == b'/' {
        State::EndTagOpen
    } else if b == b'!' {
        State::MarkupDeclarationOpen
    } else if b == b'?' {
        State::BogusComment
    } else {
        text(b)
    }
}

#[inline(always)]
pub(crate) fn end_tag_open(b: u8) -> State
    ensures { result ≡ end_tag_open b }
{
    if is_letter(b) {
        State::TagName
    } else {
        bogus_comment(b)
    }
}

#[inline(always)]
pub(crate) fn tag_name(b: u8) -> State
    ensures { result ≡ tag_name b }
{
    if is_space(b) {
        State::BeforeAttributeName
    } else if b == b'/' {
        State::SelfClosingStartTag
    } else if b == b'>' {
        State::Data
    } else {
        State::TagName
    }
}

#[inline(always)]
pub(crate) fn before_attribute_name(b: u8) -> State
    ensures { result ≡ before_attribute_name b }
{
    if is_space(b) {
        State::BeforeAttributeName
    } else if b == b'/' {
        State::SelfClosingStartTag
    } else if b == b'>' {
        State::Data
    } else {
        State::AttributeName
    }
}

#[inline(always)]
pub(crate) fn attribute_name(b: u8) -> State
    ensures { result ≡ attribute_name b }
{
    if b == b'=' {
        State::BeforeAttributeValue
    } else if is_space(b) {
        State::AfterAttributeName
    } else if b == b'/' {
        State::SelfClosingStartTag
    } else if b == b'>' {
        State::Data
    } else {
        State::AttributeName
    }
}

#[inline(always)]
pub(crate) fn after_attribute_name(b: u8) -> State
    ensures { result ≡ after_attribute_name b }
{
    if b == b'=' {
        State::BeforeAttributeValue
    } else if is_space(b) {
        State::AfterAttributeName
    } else {
        before_attribute_name(b)
    }
}

#[inline(always)]
pub(crate) fn before_attribute_value(b: u8) -> State
    ensures { result ≡ before_attribute_value b }
{
    if is_space(b) {
        State::BeforeAttributeValue
    } else if b == b'"' {
        State::AttributeValueDoubleQuoted
    } else if b == b'\'' {
        State::AttributeValueSingleQuoted
    } else if b == b'>' {
        State::Data
    } else {
        State::AttributeValueUnquoted
    }
}

#[inline(always)]
pub(crate) fn double_quoted(b: u8) -> State
    ensures { result ≡ double_quoted b }
{
    if b == b'"' {
        State::BeforeAttributeName
    } else {
        State::AttributeValueDoubleQuoted
    }
}

#[inline(always)]
pub(crate) fn single_quoted(b: u8) -> State
    ensures { result ≡ single_quoted b }
{
    if b == b'\'' {
        State::BeforeAttributeName
    } else {
        State::AttributeValueSingleQuoted
    }
}

#[inline(always)]
pub(crate) fn unquoted(b: u8) -> State
    ensures { result ≡ unquoted b }
{
    if is_space(b) {
        State::BeforeAttributeName
    } else if b == b'>' {
        State::Data
    } else {
        State::AttributeValueUnquoted
    }
}

#[inline(always)]
pub(crate) fn markup_declaration_open(b: u8, foreign: bool) -> State
    ensures { result ≡ markup_declaration_open b foreign }
{
    if b == b'-' {
        State::MarkupDash
    } else if foreign && b == b'[' {
        State::MarkupBracket
    } else {
        bogus_comment(b)
    }
}

#[inline(always)]
pub(crate) fn markup_dash(b: u8) -> State
    ensures { result ≡ markup_dash b }
{
    if b == b'-' {
        State::CommentStart
    } else {
        bogus_comment(b)
    }
}

#[inline(always)]
pub(crate) fn expected(wanted: u8, next: State, b: u8) -> State
    ensures { result ≡ expected wanted next b }
{
    if b == wanted { next } else { bogus_comment(b) }
}

#[inline(always)]
pub(crate) fn comment_start(b: u8) -> State
    ensures { result ≡ comment_start b }
{
    if b == b'-' {
        State::CommentStartDash
    } else if b == b'>' {
        State::Data
    } else {
        State::Comment
    }
}

#[inline(always)]
pub(crate) fn comment_start_dash(b: u8) -> State
    ensures { result ≡ comment_start_dash b }
{
    if b == b'-' {
        State::CommentEnd
    } else if b == b'>' {
        State::Data
    } else {
        State::Comment
    }
}

#[inline(always)]
pub(crate) fn comment(b: u8) -> State
    ensures { result ≡ comment b }
{
    if b == b'-' {
        State::CommentEndDash
    } else {
        State::Comment
    }
}

#[inline(always)]
pub(crate) fn comment_end_dash(b: u8) -> State
    ensures { result ≡ comment_end_dash b }
{
    if b == b'-' {
        State::CommentEnd
    } else {
        State::Comment
    }
}

#[inline(always)]
pub(crate) fn comment_end(b: u8) -> State
    ensures { result ≡ comment_end b }
{
    if b == b'>' {
        State::Data
    } else if b == b'!' {
        State::CommentEndBang
    } else if b == b'-' {
        State::CommentEnd
    } else {
        State::Comment
    }
}

#[inline(always)]
pub(crate) fn comment_end_bang(b: u8) -> State
    ensures { result ≡ comment_end_bang b }
{
    if b == b'-' {
        State::CommentEndDash
    } else if b == b'>' {
        State::Data
    } else {
        State::Comment
    }
}

#[inline(always)]
pub(crate) fn cdata_section(b: u8) -> State
    ensures { result ≡ cdata_section b }
{
    if b == b']' {
        State::CdataSectionBracket
    } else {
        State::CdataSection
    }
}

#[inline(always)]
pub(crate) fn cdata_section_bracket(b: u8) -> State
    ensures { result ≡ cdata_section_bracket b }
{
    if b == b']' {
        State::CdataSectionEnd
    } else {
        State::CdataSection
    }
}

#[inline(always)]
pub(crate) fn cdata_section_end(b: u8) -> State
    ensures { result ≡ cdata_section_end b }
{
    if b == b']' {
        State::CdataSectionEnd
    } else if b == b'>' {
        State::Data
    } else {
        State::CdataSection
    }
}

#[inline(always)]
pub(crate) fn raw_text(b: u8) -> State
    ensures { result ≡ raw_text b }
{
    if b == b'<' {
        State::RawTextLessThanSign
    } else {
        State::RawText
    }
}

#[inline(always)]
pub(crate) fn raw_text_less_than_sign(b: u8, is_script: bool) -> State
    ensures { result ≡ raw_text_less_than_sign b is_script }
{
    if b == b'/' {
        State::RawTextEndTagOpen
    } else if is_script && b == b'!' {
        State::ScriptDataEscapeStart
    } else {
        raw_text(b)
    }
}

#[inline(always)]
pub(crate) fn raw_text_end_tag_open(b: u8) -> State
    ensures { result ≡ raw_text_end_tag_open b }
{
    if is_letter(b) {
        State::RawTextEndTagName
    } else {
        raw_text(b)
    }
}

#[inline(always)]
pub(crate) fn raw_text_end_tag_name(b: u8, named: bool) -> State
    ensures { result ≡ raw_text_end_tag_name b named }
{
    if is_letter(b) {
        State::RawTextEndTagName
    } else if named && ends_name(b) {
        tag_name(b)
    } else {
        raw_text(b)
    }
}

#[inline(always)]
pub(crate) fn escape_start(b: u8) -> State
    ensures { result ≡ escape_start b }
{
    if b == b'-' {
        State::ScriptDataEscapeStartDash
    } else {
        raw_text(b)
    }
}

#[inline(always)]
pub(crate) fn escape_start_dash(b: u8) -> State
    ensures { result ≡ escape_start_dash b }
{
    if b == b'-' {
        State::ScriptDataEscapedDashDash
    } else {
        raw_text(b)
    }
}

#[inline(always)]
pub(crate) fn escaped(b: u8) -> State
    ensures { result ≡ escaped b }
{
    if b == b'-' {
        State::ScriptDataEscapedDash
    } else if b == b'<' {
        State::ScriptDataEscapedLessThanSign
    } else {
        State::ScriptDataEscaped
    }
}

#[inline(always)]
pub(crate) fn escaped_dash(b: u8) -> State
    ensures { result ≡ escaped_dash b }
{
    if b == b'-' {
        State::ScriptDataEscapedDashDash
    } else {
        escaped(b)
    }
}

#[inline(always)]
pub(crate) fn escaped_dash_dash(b: u8) -> State
    ensures { result ≡ escaped_dash_dash b }
{
    if b == b'-' {
        State::ScriptDataEscapedDashDash
    } else if b == b'>' {
        State::RawText
    } else {
        escaped(b)
    }
}

#[inline(always)]
pub(crate) fn escaped_less_than_sign(b: u8) -> State
    ensures { result ≡ escaped_less_than_sign b }
{
    if b == b'/' {
        State::ScriptDataEscapedEndTagOpen
    } else if is_letter(b) {
        State::ScriptDataDoubleEscapeStart
    } else {
        escaped(b)
    }
}

#[inline(always)]
pub(crate) fn escaped_end_tag_open(b: u8) -> State
    ensures { result ≡ escaped_end_tag_open b }
{
    if is_letter(b) {
        State::ScriptDataEscapedEndTagName
    } else {
        escaped(b)
    }
}

#[inline(always)]
pub(crate) fn escaped_end_tag_name(b: u8, named: bool) -> State
    ensures { result ≡ escaped_end_tag_name b named }
{
    if is_letter(b) {
        State::ScriptDataEscapedEndTagName
    } else if named && ends_name(b) {
        tag_name(b)
    } else {
        escaped(b)
    }
}

#[inline(always)]
pub(crate) fn double_escape_start(b: u8, named: bool) -> State
    ensures { result ≡ double_escape_start b named }
{
    if is_letter(b) {
        State::ScriptDataDoubleEscapeStart
    } else if named && ends_name(b) {
        State::ScriptDataDoubleEscaped
    } else if ends_name(b) {
        State::ScriptDataEscaped
    } else {
        escaped(b)
    }
}

#[inline(always)]
pub(crate) fn double_escaped(b: u8) -> State
    ensures { result ≡ double_escaped b }
{
    if b == b'-' {
        State::ScriptDataDoubleEscapedDash
    } else if b == b'<' {
        State::ScriptDataDoubleEscapedLessThanSign
    } else {
        State::ScriptDataDoubleEscaped
    }
}

#[inline(always)]
pub(crate) fn double_escaped_dash(b: u8) -> State
    ensures { result ≡ double_escaped_dash b }
{
    if b == b'-' {
        State::ScriptDataDoubleEscapedDashDash
    } else {
        double_escaped(b)
    }
}

#[inline(always)]
pub(crate) fn double_escaped_dash_dash(b: u8) -> State
    ensures { result ≡ double_escaped_dash_dash b }
{
    if b == b'-' {
        State::ScriptDataDoubleEscapedDashDash
    } else if b == b'>' {
        State::RawText
    } else {
        double_escaped(b)
    }
}

#[inline(always)]
pub(crate) fn double_escaped_less_than_sign(b: u8) -> State
    ensures { result ≡ double_escaped_less_than_sign b }
{
    if b == b'/' {
        State::ScriptDataDoubleEscapeEnd
    } else {
        double_escaped(b)
    }
}

#[inline(always)]
pub(crate) fn double_escape_end(b: u8, named: bool) -> State
    ensures { result ≡ double_escape_end b named }
{
    if is_letter(b) {
        State::ScriptDataDoubleEscapeEnd
    } else if named && ends_name(b) {
        State::ScriptDataEscaped
    } else if ends_name(b) {
        State::ScriptDataDoubleEscaped
    } else {
        double_escaped(b)
    }
}

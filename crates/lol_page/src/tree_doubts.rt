//! Start tags behind which a browser's tree decides how text is read.

ghost use Rattle.std.specs.Prelude.{◌≡◌, ◌∷◌, [], true, Some, codes};
ghost use Rattle.lol_base.specs.LocalNames.{local_name};
ghost use Rattle.lol_page.specs.Ambiguity as ambiguity;
ghost use Rattle.lol_page.specs.Namespaces.{is_among};

use crate::namespaces::{are_among, is_named};

const TEXT_TAGS: [&str; 11] = [
    "textarea",
    "title",
    "style",
    "xmp",
    "iframe",
    "noembed",
    "noframes",
    "script",
    "plaintext",
    "svg",
    "math",
];

// What a browser's tree may hold, by the names of the tags so far: how many templates; one that has a `col` or stands in a `select`; a `select`;
// and a `frameset`.
#[derive(Clone, Copy)]
pub(crate) struct TreeDoubts {
    pub(crate) scripting: bool,
    pub(crate) templates: u64,
    pub(crate) in_odd_template: bool,
    pub(crate) in_select: bool,
    pub(crate) has_frameset: bool,
}

impl TreeDoubts {
    // What is known at the start of a page, if doubts are to be refused.
    pub(crate) fn first(strict: bool, scripting: bool) -> Option<Self>
        ensures { result ≡ ambiguity.first_doubts strict scripting }
    {
        strict.then_some(TreeDoubts {
            scripting,
            templates: 0,
            in_odd_template: false,
            in_select: false,
            has_frameset: false,
        })
    }

    // Whether a start tag of that name changes how text is read, and a browser's tree may leave it out.
    fn is_unclear(self, name: &[u8]) -> bool
        ensures { result ≡ ambiguity.is_unclear self (local_name name.now) }
    {
        changes_text(self.scripting, name) && self.may_leave_out(name)
    }

    fn may_leave_out(self, name: &[u8]) -> bool
        ensures { result ≡ ambiguity.may_leave_out self (local_name name.now) }
    {
        self.in_odd_template
            || (self.in_select && !are_among(name, &["script", "textarea"]))
            || (self.has_frameset && !is_named(name, b"noframes"))
    }

    fn behind_start(self, name: &[u8]) -> Self
        ensures { result ≡ ambiguity.behind_start self (local_name name.now) }
    {
        let mut behind = self;
        if is_named(name, b"template") {
            behind.templates = self.templates.saturating_add(1);
            behind.in_odd_template = self.in_odd_template || self.in_select;
        } else if is_named(name, b"col") {
            behind.in_odd_template = self.in_odd_template || self.templates > 0;
        } else if is_named(name, b"select") {
            behind.in_select = true;
        } else if are_among(name, &["input", "keygen", "textarea"]) {
            behind.in_select = self.in_select && self.in_odd_template;
        } else if is_named(name, b"frameset") {
            behind.has_frameset = true;
        }
        behind
    }

    fn behind_end(self, name: &[u8]) -> Self
        ensures { result ≡ ambiguity.behind_end self (local_name name.now) }
    {
        let mut behind = self;
        if is_named(name, b"template") {
            behind.templates = self.templates.saturating_sub(1);
            behind.in_odd_template = self.in_odd_template && self.templates > 1;
        } else if is_named(name, b"select") {
            behind.in_select = self.in_select && self.in_odd_template;
        }
        behind
    }
}

fn changes_text(scripting: bool, name: &[u8]) -> bool
    ensures { result ≡ ambiguity.changes_text scripting (local_name name.now) }
{
    is_text_tag(name) || (scripting && is_named(name, b"noscript"))
}

#[tactic(auto, unfolding(crate::specs::Ambiguity::text_tags))]
fn is_text_tag(name: &[u8]) -> bool
    ensures { result ≡ is_among (local_name name.now) ambiguity.text_tags }
{
    are_among(name, &TEXT_TAGS)
}

// Notes a tag: whether it is ambiguous.
pub(crate) fn note_tag(doubts: &mut Option<TreeDoubts>, name: &[u8], is_end: bool) -> bool
    ensures ambiguous { result ≡ ambiguity.is_ambiguous doubts.old name.now is_end }
    ensures noted { doubts.new ≡ ambiguity.doubts_behind doubts.old name.now is_end }
{
    let Some(before) = *doubts else {
        return false;
    };
    if is_end {
        *doubts = Some(before.behind_end(name));
        false
    } else {
        *doubts = Some(before.behind_start(name));
        before.is_unclear(name)
    }
}

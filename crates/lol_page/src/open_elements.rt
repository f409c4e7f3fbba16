//! The open elements.

ghost use Rattle.std.specs.Prelude.{◌≡◌, ◌≢◌, ◌+◌, ◌-◌, ◌<◌, ◌∷◌, [], Some, None, if◌then◌else◌, length, drop, reverse, OnOk, IfOk, IsTrue, option_copied};
ghost use Rattle.lol_stack.specs.NameMaps.{value_of, IsPutAt};
ghost use Rattle.lol_page.specs.Elements.{IsSound, elements_of, first_of, innermost_holds_html, depth_by, shield_depth, html_element, point_element};
ghost use Rattle.lol_page.specs.Namespaces as names;

use crate::namespaces::{entered, is_html, is_point, takes_html};
use lol_base::{LocalName, Namespace};
use lol_stack::NameMap;
use std::alloc::{AllocError, Global};

// The innermost open element of a name: how many elements are open up to it, and whether it is one of HTML.
#[derive(Clone, Copy)]
pub(crate) struct Found {
    pub(crate) depth: usize,
    pub(crate) is_html: bool,
}

// An open element; the one of its name around it; and how many elements are open up to the innermost of HTML, and to the innermost that no end
// tag of HTML passes.
#[derive(Drop)]
pub(crate) struct OpenItem {
    pub(crate) name: LocalName<'static>,
    pub(crate) namespace: Namespace,
    pub(crate) holds_html: bool,
    pub(crate) before: Option<Found>,
    pub(crate) html_depth: usize,
    pub(crate) point_depth: usize,
}

// The open elements, the innermost last, and the innermost of each name: so an end tag costs no more than what it closes.
#[derive(Drop)]
pub(crate) struct OpenElements {
    pub(crate) items: Vec<OpenItem>,
    pub(crate) names: NameMap<Found>,
    pub(crate) alloc: Global,
}

// The depth of the innermost element that is such: a new one or one around it.
fn deepest(is_such: bool, depth: usize, around: usize) -> usize
    ensures { result ≡ (if is_such then depth else around) }
{
    if is_such { depth } else { around }
}

impl OpenElements {
    pub(crate) fn new(alloc: Global) -> Self
        ensures sound { IsSound result }
        ensures none { elements_of result ≡ [] }
    {
        OpenElements {
            items: Vec::new(alloc),
            names: NameMap::new(alloc),
            alloc,
        }
    }

    fn innermost(&self) -> Option<&OpenItem>
        ensures { option_copied result ≡ first_of (reverse self.now.items.items) }
    {
        self.items.last()
    }

    // Whether the innermost element isn't one of HTML.
    pub(crate) fn is_foreign(&self) -> bool
        ensures { result ≡ names.is_foreign (elements_of self.now) }
    {
        match self.innermost() {
            Some(item) => item.namespace != Namespace::Html,
            None => false,
        }
    }

    // The namespace of a start tag of that name.
    pub(crate) fn namespace_of(&self, name: &LocalName<'_>) -> Namespace
        ensures { result ≡ names.namespace_in (elements_of self.now) name.now }
    {
        match self.innermost() {
            None => entered(name),
            Some(item) => {
                if takes_html(item, name) {
                    entered(name)
                } else {
                    item.namespace
                }
            }
        }
    }

    pub(crate) fn holds_html(&self) -> bool
        ensures { result ≡ innermost_holds_html (elements_of self.now) }
    {
        match self.innermost() {
            Some(item) => item.holds_html,
            None => true,
        }
    }

    fn html_depth(&self) -> usize
        requires { IsSound self.now }
        ensures { result ≡ depth_by html_element (elements_of self.now) }
    {
        match self.innermost() {
            Some(item) => item.html_depth,
            None => 0,
        }
    }

    fn point_depth(&self) -> usize
        requires { IsSound self.now }
        ensures { result ≡ depth_by point_element (elements_of self.now) }
    {
        match self.innermost() {
            Some(item) => item.point_depth,
            None => 0,
        }
    }

    // How many elements are open up to the innermost that shields an element of HTML, or another one.
    fn shield_depth(&self, is_html: bool) -> usize
        requires { IsSound self.now }
        ensures { result ≡ shield_depth is_html (elements_of self.now) }
    {
        if is_html {
            self.point_depth()
        } else {
            self.html_depth()
        }
    }

    // Opens an element.
    pub(crate) fn open(
        &mut self,
        name: LocalName<'static>,
        namespace: Namespace,
        holds_html: bool,
    ) -> Result<(), AllocError>
        requires { IsSound self.old }
        ensures sound { OnOk result (IsSound self.new) }
        ensures opened { OnOk result (elements_of self.new
            ≡ record { name = name.entry; namespace = namespace; holds_html = holds_html } ∷ elements_of self.old) }
    {
        let depth = self.items.len() + 1;
        let is_html = is_html(namespace);
        let html_depth = deepest(is_html, depth, self.html_depth());
        let point_depth = deepest(is_point(namespace, &name), depth, self.point_depth());
        let before = self.note(&name, Found { depth, is_html })?;
        self.items.push(OpenItem {
            name,
            namespace,
            holds_html,
            before,
            html_depth,
            point_depth,
        })?;
        Ok(())
    }

    // Notes the innermost element of a name: the one before it.
    fn note(&mut self, name: &LocalName<'static>, found: Found) -> Result<Option<Found>, AllocError>
        ensures before { IfOk result (λ before. before ≡ value_of self.old.names name.now) }
        ensures noted { OnOk result (IsPutAt name.now (Some found) self.old.names self.new.names) }
        ensures items { self.new.items ≡ self.old.items }
    {
        match self.names.search(name) {
            Ok(place) => Ok(Some(self.names.replace(place, found))),
            Err(place) => {
                let key = name.try_clone(self.alloc)?;
                self.names.insert(place, key, found)?;
                Ok(None)
            }
        }
    }

    // Takes the note of the innermost element of a name back.
    fn take_back(&mut self, name: &LocalName<'static>, before: Option<Found>)
        requires { value_of self.old.names name.now ≢ None }
        ensures noted { IsPutAt name.now before self.old.names self.new.names }
        ensures items { self.new.items ≡ self.old.items }
    {
        if let Ok(place) = self.names.search(name) {
            match before {
                Some(found) => {
                    self.names.replace(place, found);
                }
                None => self.names.remove(place),
            }
        }
    }

    // Closes the innermost element.
    fn pop(&mut self)
        requires { IsSound self.old }
        ensures sound { IsSound self.new }
        ensures closed { elements_of self.new ≡ drop 1 (elements_of self.old) }
        ensures len { length self.new.items.items ≡ length self.old.items.items - 1 }
    {
        if let Some(item) = self.items.pop() {
            self.take_back(&item.name, item.before);
        }
    }

    // Leaves the elements that hold no HTML.
    pub(crate) fn leave_to_html(&mut self)
        requires { IsSound self.old }
        ensures sound { IsSound self.new }
        ensures left { elements_of self.new ≡ names.html_part (elements_of self.old) }
    {
        while !self.holds_html() {
            self.pop();
        }
    }

    // Whether the innermost element has that name: mostly so, where an end tag comes.
    fn is_innermost(&self, name: &LocalName<'_>) -> bool
        ensures { IsTrue result → names.closed_by name.now (elements_of self.now) ≡ drop 1 (elements_of self.now) }
    {
        match self.innermost() {
            Some(item) => item.name == *name,
            None => false,
        }
    }

    // Closes the innermost element of a name and all inside it, if none of those shields it.
    pub(crate) fn close(&mut self, name: &LocalName<'_>)
        requires { IsSound self.old }
        ensures sound { IsSound self.new }
        ensures closed { elements_of self.new ≡ names.closed_by name.now (elements_of self.old) }
    {
        if self.is_innermost(name) {
            self.pop();
        } else {
            self.close_around(name);
        }
    }

    fn close_around(&mut self, name: &LocalName<'_>)
        requires { IsSound self.old }
        ensures sound { IsSound self.new }
        ensures closed { elements_of self.new ≡ names.closed_by name.now (elements_of self.old) }
    {
        if let Some(found) = self.names.get(name).copied() {
            if self.shield_depth(found.is_html) <= found.depth {
                self.leave_from(found.depth);
            }
        }
    }

    // Closes the elements from that depth on, which is counted from 1.
    fn leave_from(&mut self, depth: usize)
        requires sound { IsSound self.old }
        requires some { 0 < depth }
        ensures sound { IsSound self.new }
        ensures left { elements_of self.new
            ≡ drop (length (elements_of self.old) + 1 - depth) (elements_of self.old) }
    {
        while self.items.len() >= depth {
            self.pop();
        }
    }
}

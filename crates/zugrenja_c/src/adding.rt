//! Selectors and settings of which a matcher will be made.

ghost use Rattle.std.specs.Prelude.{◌≡◌, ◌≢◌, ◌<◌, ◌+◌, ◌↔◌, None, false, IfErr, IfOk, IsErrOf, IsSomeAnd, OnOk, OnErr, Err, Bool, is_some, length};
ghost use Rattle.lol_matcher.specs.Building.{IsRefused};
ghost use Rattle.lol_matcher.specs.declared.error.AddError.{AddError};
ghost use Rattle.lol_reasons.specs.Explanations.{added_by};
ghost use Rattle.lol_reasons.specs.Numbered.{texts_in};
ghost use Rattle.zugrenja_c.specs.Numbers.{is_flag};
ghost use Rattle.zugrenja_c.specs.Sessions.{HasRowsFrom, IsBuiltFrom, IsFresh, TextComes, TextIsLeft};

use crate::running::Running;
use lol_matcher::{
    AddError, MatchId, Matcher, MatcherBuilder, NumberingError, Texts, read_selector,
};
use std::alloc::Global;

/// Selectors and settings and, if the matcher will explain, its texts.
#[derive(Drop)]
pub struct Adding {
    pub(crate) settings: MatcherBuilder,
    pub(crate) texts: Option<Texts>,
}

impl Adding {
    /// No selectors.
    pub(crate) fn new(
        alloc: Global,
        explains: bool,
        max_memory: usize,
        element_bytes: usize,
        esi: u32,
    ) -> Self
        ensures { IsFresh explains max_memory element_bytes esi result }
    {
        let mut settings = Matcher::builder(alloc);
        settings.max_memory = max_memory;
        settings.element_bytes = element_bytes.max(1);
        settings.enable_esi_tags = esi != 0;
        let texts = if explains {
            Some(Texts::new(alloc))
        } else {
            None
        };
        Adding { settings, texts }
    }

    /// Adds the selectors of a text under an id.
    pub(crate) fn add(&mut self, alloc: Global, id: MatchId, text: &str) -> Result<(), AddError>
        ensures added { OnOk result (TextComes id text.now self.old.texts self.old self.new) }
        ensures memory { result ≡ Err AddError.Memory
            → TextIsLeft id text.now self.old.texts self.old self.new }
        ensures refused { IfErr result (λ error. IsRefused text.now error) }
        ensures unchanged { OnErr result (result ≢ Err AddError.Memory → self.new ≡ self.old) }
    {
        let Some(texts) = &mut self.texts else {
            return self.settings.add(id, text);
        };
        let selector = read_selector(alloc, text)?;
        match texts.add(id, selector) {
            Ok(()) => Ok(()),
            Err(_) => Err(AddError::Memory),
        }
    }

    /// The matcher.
    pub(crate) fn build(self, alloc: Global) -> Result<Running, NumberingError>
        ensures built { IfOk result (λ running. IsBuiltFrom self running) }
        ensures too_many { IsErrOf result NumberingError.TooManyItems
            → IsSomeAnd self.texts (λ texts. u32.MAX + 1 < length (added_by (texts_in texts))) }
    {
        let Adding {
            mut settings,
            texts,
        } = self;
        let Some(texts) = texts else {
            return Ok(Running::plain(settings.build()?));
        };
        let numbering = texts.number_items()?;
        settings.ast = numbering.ast;
        let matcher = settings.build()?;
        Running::explaining(alloc, matcher, texts, numbering.explainer)
    }
}

//! The attributes of a start tag, as they are told.

ghost use Rattle.std.specs.Prelude.{◌≡◌, All, OnOk};
ghost use Rattle.lol_base.specs.StartTags.{OutlineIsInside, RangesAreInside, attributes_of};
ghost use Rattle.lol_page.specs.Pages.{attributes_read};
ghost use Rattle.lol_page.specs.HeldAttributes.{held};

use lol_base::{AttributeBuffer, Attributes, AuxStartTagInfo, Bytes};
use lol_references::{has_ampersand, read_decoded};
use lol_tags::push_outlines;
use std::alloc::{AllocError, Global};

// Where the attributes of a tag stand in its bytes; and themselves with their values decoded, if there is anything to decode.
#[derive(Drop)]
pub(crate) struct TagAttributes {
    outlines: AttributeBuffer,
    values: Attributes,
    are_decoded: bool,
}

impl TagAttributes {
    pub(crate) fn new(alloc: Global) -> Self {
        TagAttributes {
            outlines: Vec::new(alloc),
            values: Attributes::new(alloc),
            are_decoded: false,
        }
    }

    // Reads those of a tag with these bytes, in place of those that were read before.
    pub(crate) fn read(
        &mut self,
        text: &[u8],
        name_end: usize,
        decoded: bool,
    ) -> Result<(), AllocError>
        ensures read { OnOk result (held self.new text.now ≡ attributes_read decoded text.now name_end) }
        ensures inside { OnOk result (All (OutlineIsInside text.now) self.new.outlines.items) }
    {
        self.are_decoded = false;
        self.outlines.clear();
        push_outlines(text, name_end, &mut self.outlines)?;
        if decoded && has_ampersand(text) {
            let alloc = *self.outlines.allocator();
            read_decoded(alloc, text, &self.outlines, &mut self.values)?;
            self.are_decoded = true;
        }
        Ok(())
    }

    // As the machine takes them, with the bytes of their tag.
    pub(crate) fn aux_info<'t>(&'t self, text: &'t [u8], self_closing: bool) -> AuxStartTagInfo<'t>
        requires { All (OutlineIsInside text.now) self.now.outlines.items }
        ensures attributes { attributes_of result ≡ held self.now text.now }
        ensures self_closing { result.self_closing ≡ self_closing }
        ensures inside { RangesAreInside result }
    {
        if self.are_decoded {
            return self.values.aux_info(self_closing);
        }
        AuxStartTagInfo {
            input: Bytes::new(text),
            attr_buffer: &self.outlines,
            self_closing,
        }
    }
}

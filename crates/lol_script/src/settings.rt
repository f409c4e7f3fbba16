//! The settings of a script, which stand before its tags.

ghost use Rattle.std.specs.Prelude.{◌≡◌, ◌<◌, ◌∷◌, [], None, false, IfOk, IfErr, IfSome, OnOk, length};
ghost use Rattle.std.specs.Bool.{MatchBool};
ghost use Rattle.lol_css.specs.Accepting.{accept};
ghost use Rattle.lol_program.specs.Asts.{is_with_rows, nodes_of};
ghost use Rattle.lol_machine.specs.Views.{selectors};
ghost use Rattle.lol_script.specs.Devices.{ReadsToEnd, failures_of};
ghost use Rattle.lol_script.specs.Lines.{set_by};
ghost use Rattle.lol_script.specs.ReadLines.{no_lines};
ghost use Rattle.lol_script.specs.Readings.{AddsSelectors, ForReading, IsReading, IsReadTo, IsStop, IsTagLine, ReadsScript, Stops};
ghost use Rattle.lol_script.specs.Script.{line_at};
ghost use Rattle.lol_script.specs.Scripts as scripts;
ghost use Rattle.lol_script.specs.Scripts.{empty_script, makes_rows, output, with_bytes, with_line, with_selector};
ghost use Rattle.lol_script.specs.declared.program.Status.TheVariants.{Good};

use crate::bad_line::{BadLine, Cause};
use crate::device::{Counted, RunFault};
use crate::line_reader::LineReader;
use crate::lines::{Line, Setting, line_of};
use crate::select_lines::SelectLines;
use lol_base::AttributeBuffer;
use lol_css::{Selector, SelectorError};
use lol_program::Ast;
use std::alloc::Global;
use std::io::Read;

/// What holds for all tags of a script.
#[derive(Drop)]
pub struct Settings {
    /// The greatest usage, in bytes.
    pub limit: u64,
    pub esi: bool,
    pub shows_tries: bool,
    pub explains: bool,
    /// From how many nodes on the machine is made with rows, if any are asked for. The tree is without them.
    pub rows_from: Option<u64>,
    pub ast: Ast,
    /// The lines of the selectors. They are read again if reasons are shown.
    pub selects: SelectLines,
}

/// Why the reading of a script stops.
#[derive(Clone, Copy, Debug, PartialEq, Eq)]
pub enum Stop {
    Fault(RunFault),
    Bad(BadLine),
}

impl Settings {
    fn new(alloc: Global) -> Self
        ensures { IsReading result empty_script }
    {
        Settings {
            limit: u64::MAX,
            esi: false,
            shows_tries: false,
            explains: false,
            rows_from: None,
            ast: Ast::new(alloc),
            selects: SelectLines::new(alloc),
        }
    }

    /// Takes a line; returns false where it is that of a tag, and is left.
    fn take_line(
        &mut self,
        alloc: Global,
        number: u128,
        line: &[u8],
        outlines: &mut AttributeBuffer,
    ) -> Result<bool, Stop>
        ensures taken { IfOk result (λ taken. ForReading self.old (λ s.
            MatchBool taken (ReadsScript self.new (with_bytes number s line.now))
            ((self.new ≡ self.old) × IsTagLine (line_at line.now)))) }
        ensures stop { IfErr result (λ stop. ForReading self.old (λ s. Stops stop (with_bytes number s line.now))) }
    {
        if line.is_empty() {
            return Ok(true);
        }
        match line_of(line, outlines) {
            Err(_) => Err(Stop::Fault(RunFault::Memory)),
            Ok(None) => Err(malformed(number)),
            Ok(Some(Line::Setting(setting))) => {
                self.take(alloc, number, setting)?;
                Ok(true)
            }
            Ok(Some(Line::Start(_))) | Ok(Some(Line::End { .. })) => Ok(false),
        }
    }

    fn take(&mut self, alloc: Global, number: u128, setting: Setting<'_>) -> Result<(), Stop>
        ensures taken { OnOk result (ForReading self.old (λ s.
            ReadsScript self.new (with_line number s (set_by setting.entry)))) }
        ensures stop { IfErr result (λ stop. ForReading self.old (λ s.
            Stops stop (with_line number s (set_by setting.entry)))) }
    {
        match setting {
            Setting::Limit { maximum } => self.limit = maximum,
            Setting::Esi => self.esi = true,
            Setting::Tries => self.shows_tries = true,
            Setting::Explain => self.explains = true,
            Setting::Rows { fewest } => self.rows_from = Some(fewest),
            Setting::Select { id, text } => {
                take_selector(alloc, &mut self.ast, number, id, text)?;
                let Ok(()) = self.selects.push(number, id, text) else {
                    return Err(Stop::Fault(RunFault::Memory));
                };
            }
        }
        Ok(())
    }
}

/// The tree that a machine is made of, with rows where it has so many nodes, by one without them.
pub fn with_rows_from(ast: Ast, fewest: Option<u64>) -> Ast
    ensures { is_with_rows ast ≡ false → selectors result
        ≡ record (selectors ast) { by_keys = makes_rows fewest (length (nodes_of ast)) } }
{
    match fewest {
        Some(fewest) => ast.with_rows_from(fewest as usize),
        None => ast,
    }
}

/// The same with rows or without.
pub fn with_rows_if(ast: Ast, has_rows: bool) -> Ast
    ensures { is_with_rows ast ≡ false → selectors result ≡ record (selectors ast) { by_keys = has_rows } }
{
    if has_rows { ast.with_rows() } else { ast }
}

/// A line that has none of the forms, or stands where it can't.
pub fn malformed(number: u128) -> Stop
    ensures { result ≡ Stop.Bad (record { number = number; cause = Cause.Form }) }
{
    Stop::Bad(BadLine {
        number,
        cause: Cause::Form,
    })
}

fn take_selector(
    alloc: Global,
    ast: &mut Ast,
    number: u128,
    id: u32,
    text: &str,
) -> Result<(), Stop>
    ensures added { OnOk result (AddsSelectors text.now id ast.old ast.new) }
    ensures stop { IfErr result (λ stop. (s : scripts.Script)
        → Stops stop (with_selector number s id (accept text.now))) }
{
    match Selector::from_str(alloc, text) {
        Err(SelectorError::Memory) => Err(Stop::Fault(RunFault::Memory)),
        Err(error) => Err(Stop::Bad(BadLine {
            number,
            cause: Cause::Selector(error),
        })),
        Ok(selector) => match ast.add_selector(&selector, id) {
            Ok(()) => Ok(()),
            Err(_) => Err(Stop::Fault(RunFault::Memory)),
        },
    }
}

/// Reads settings up to the first tag line, which the reader then stands at; nothing where no tag comes.
pub fn read_settings<R: Read>(
    alloc: Global,
    reader: &mut Counted<R>,
    lines: &mut LineReader,
) -> Result<Option<Settings>, Stop>
    requires failures { failures_of reader.old < u64.MAX }
    requires new { lines.old ≡ no_lines }
    ensures tags { IfOk result (λ found. IfSome found (λ settings. (s : scripts.Script) × IsReading settings s
        × IsReadTo R.remaining reader.old reader.new lines.new lines.new.number s (lines.new.line ∷ [])
        × IsTagLine (line_at lines.new.line))) }
    ensures none { IfOk result (λ found. found ≡ None → ReadsToEnd R.remaining reader.old reader.new (λ script.
        output script ≡ record { text = []; status = Good })) }
    ensures stop { IfErr result (λ stop. IsStop R.remaining reader.old reader.new lines.new stop) }
    ensures unchanged { OnOk result (failures_of reader.new ≡ failures_of reader.old) }
{
    let mut settings = Settings::new(alloc);
    let mut outlines = AttributeBuffer::new(alloc);
    loop {
        if let Err(fault) = lines.advance(reader) {
            return Err(Stop::Fault(fault));
        }
        if !settings.take_line(alloc, lines.number(), lines.line(), &mut outlines)? {
            return Ok(Some(settings));
        }
        if lines.is_last() {
            return Ok(None);
        }
    }
}

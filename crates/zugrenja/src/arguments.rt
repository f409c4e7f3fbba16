//! The arguments of the program.

use std::alloc::{AllocError, AllocFailed, Global};
use std::env::Args;
use thiserror::Error;

/// What is written of a page's matches.
#[derive(Debug, PartialEq, Eq, Drop)]
pub enum Output {
    /// The bytes of each start tag.
    Tags,
    /// The numbers of the selectors that match each.
    Ids,
    /// The selectors that match each, one a line.
    Names,
    /// How many there are.
    Count,
    /// A JSON object for each.
    Json,
    /// The value of the attribute of this name of each that has it.
    Attribute(String),
}

/// What is searched, and for what.
#[derive(Drop)]
pub struct Settings {
    pub output: Output,
    /// Whether the values of attributes are decoded.
    pub decoded: bool,
    /// Whether ambiguous pages are refused.
    pub strict: bool,
    /// The files of selectors, by name.
    pub files: Vec<String>,
    pub selectors: Vec<String>,
    /// The pages, by name, at least one; `-` is standard input.
    pub pages: Vec<String>,
}

/// What a user asks for.
#[derive(Drop)]
pub enum Asked {
    Help,
    Search(Settings),
}

/// Why arguments are refused.
#[derive(Debug, PartialEq, Eq, Drop, Error)]
pub enum ArgumentError {
    #[error("no selector is given")]
    NoSelector,
    #[error("{0} stands without a value")]
    NoValue(&'static str),
    #[error("there is no option {0}")]
    Unknown(String),
    #[error("this version hasn't got {0}")]
    NotYet(String),
    #[error("{0} comes after another form of output")]
    TwoOutputs(String),
    #[error("out of memory")]
    Memory,
}

impl From<AllocError> for ArgumentError {
    fn from(_error: AllocError) -> ArgumentError {
        ArgumentError::Memory
    }
}

impl<T: Drop> From<AllocFailed<T>> for ArgumentError {
    fn from(_failed: AllocFailed<T>) -> ArgumentError {
        ArgumentError::Memory
    }
}

/// Where the next argument belongs.
#[derive(Clone, Copy)]
enum Wanted {
    OptionOrSelector,
    AttributeName,
    SelectorFile,
    Page,
}

/// The arguments so far.
#[derive(Drop)]
struct Arguments {
    alloc: Global,
    settings: Settings,
    wanted: Wanted,
    help: bool,
}

/// Reads the arguments, without the program's name. Selectors stand before `--` and pages behind it.
///
/// # Errors
/// The first argument that is refused; what is missing at their end; or memory is out.
pub fn read_arguments(alloc: Global, arguments: Args) -> Result<Asked, ArgumentError> {
    let mut read = Arguments::new(alloc);
    for argument in arguments {
        read.take(argument)?;
    }
    read.finish()
}

impl Arguments {
    fn new(alloc: Global) -> Self {
        Arguments {
            alloc,
            settings: Settings {
                output: Output::Tags,
                decoded: true,
                strict: false,
                files: Vec::new(alloc),
                selectors: Vec::new(alloc),
                pages: Vec::new(alloc),
            },
            wanted: Wanted::OptionOrSelector,
            help: false,
        }
    }

    fn take(&mut self, argument: String) -> Result<(), ArgumentError> {
        match self.wanted {
            Wanted::OptionOrSelector => return self.take_option(argument),
            Wanted::AttributeName => self.settings.output = Output::Attribute(argument),
            Wanted::SelectorFile => self.settings.files.push(argument)?,
            Wanted::Page => return Ok(self.settings.pages.push(argument)?),
        }
        self.wanted = Wanted::OptionOrSelector;
        Ok(())
    }

    fn take_option(&mut self, argument: String) -> Result<(), ArgumentError> {
        match argument.as_str() {
            "--" => self.wanted = Wanted::Page,
            "-h" | "--help" => self.help = true,
            "--as-written" => {}
            "--raw" => self.settings.decoded = false,
            "--strict" => self.settings.strict = true,
            "--ids" => return self.set_output(Output::Ids, argument),
            "--names" => return self.set_output(Output::Names, argument),
            "--count" => return self.set_output(Output::Count, argument),
            "--json" => return self.set_output(Output::Json, argument),
            "--attr" => {
                self.wanted = Wanted::AttributeName;
                return self.set_output(Output::Tags, argument);
            }
            "-f" => self.wanted = Wanted::SelectorFile,
            "--tree" | "--text" | "--why" => {
                return Err(ArgumentError::NotYet(argument));
            }
            option if option.starts_with('-') => return Err(ArgumentError::Unknown(argument)),
            _ => self.settings.selectors.push(argument)?,
        }
        Ok(())
    }

    fn set_output(&mut self, output: Output, option: String) -> Result<(), ArgumentError> {
        if self.settings.output != Output::Tags {
            return Err(ArgumentError::TwoOutputs(option));
        }
        self.settings.output = output;
        Ok(())
    }

    fn finish(self) -> Result<Asked, ArgumentError> {
        let Arguments {
            alloc,
            mut settings,
            wanted,
            help,
        } = self;
        if help {
            return Ok(Asked::Help);
        }
        match wanted {
            Wanted::AttributeName => return Err(ArgumentError::NoValue("--attr")),
            Wanted::SelectorFile => return Err(ArgumentError::NoValue("-f")),
            Wanted::OptionOrSelector | Wanted::Page => {}
        }
        if settings.selectors.is_empty() && settings.files.is_empty() {
            return Err(ArgumentError::NoSelector);
        }
        if settings.pages.is_empty() {
            settings.pages.push(String::from_str(alloc, "-")?)?;
        }
        Ok(Asked::Search(settings))
    }
}

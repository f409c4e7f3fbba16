//! Pages, searched for selectors.

ghost use Rattle.std.specs.Prelude.{◌≡◌, if◌then◌else◌};

use crate::arguments::Settings;
use crate::lines::Style;
use crate::pages::{PageFault, write_page};
use crate::selectors::{Refused, build_matcher, read_selectors};
use lol_page::PageError;
use std::rt::Files;
use std::{fs, io};

/// Searches pages and tells of what fails on standard error: the exit status, as grep has it. It is 0 where something matched, 1 where nothing
/// did, and 2 where something failed.
pub fn search<R: Files + Input + Print + Eprint + AllocGlobal>(rt: &R, settings: Settings) -> u8 {
    let Settings {
        output,
        decoded,
        strict,
        files,
        selectors: given,
        pages,
    } = settings;
    let Some(selectors) = all_selectors(rt, &files, given) else {
        return 2;
    };
    let mut style = Style {
        output,
        decoded,
        strict,
        numbered: selectors.len() > 1,
        named: pages.len() > 1,
        page: None,
        selectors,
    };
    let mut matched = false;
    let mut failed = false;
    for page in pages {
        style.page = if page.as_str() == "-" {
            None
        } else {
            Some(page)
        };
        match search_page(rt, &style) {
            Ok(count) => matched |= count > 0,
            Err(fault) => {
                failed = true;
                tell_fault(rt, &style, &fault);
                if let PageFault::Write(_) = fault {
                    break;
                }
            }
        }
    }
    status(matched, failed)
}

fn status(matched: bool, failed: bool) -> u8
    ensures { result ≡ (if failed then 2 else (if matched then 0 else 1)) }
{
    if failed {
        2
    } else if matched {
        0
    } else {
        1
    }
}

/// The selectors of the files, and behind them those of the arguments, if all are accepted.
fn all_selectors<R: Files + Eprint + AllocGlobal>(
    rt: &R,
    files: &[String],
    given: Vec<String>,
) -> Option<Vec<String>> {
    let mut selectors = Vec::new(rt.alloc());
    for file in files {
        if let Err(error) = read_selectors(rt, file.as_str(), &mut selectors) {
            let file = file.as_str();
            let _ = eprintln!(rt; "zugrenja: {file}: {error}");
            return None;
        }
    }
    for selector in given {
        if selectors.push(selector).is_err() {
            let _ = eprintln!(rt; "zugrenja: out of memory");
            return None;
        }
    }
    match build_matcher(rt.alloc(), &selectors) {
        Ok(_) => Some(selectors),
        Err(refused) => {
            tell_refused(rt, &selectors, refused);
            None
        }
    }
}

fn search_page<R: Files + Input + Print + AllocGlobal>(
    rt: &R,
    style: &Style,
) -> Result<u64, PageFault> {
    let Ok(matcher) = build_matcher(rt.alloc(), &style.selectors) else {
        return Err(PageFault::Page(PageError::Memory));
    };
    let mut writer = io::writer(rt);
    let Some(page) = &style.page else {
        return write_page(rt.alloc(), matcher, style, &mut rt.reader(), &mut writer);
    };
    match fs::open(rt, page.as_str()) {
        Ok(mut file) => write_page(rt.alloc(), matcher, style, &mut file, &mut writer),
        Err(error) => Err(PageFault::Read(error)),
    }
}

fn tell_fault(rt: &impl Eprint, style: &Style, fault: &PageFault) {
    let page = match (&style.page, fault) {
        (_, PageFault::Write(_)) => "(standard output)",
        (Some(page), _) => page.as_str(),
        (None, _) => "(standard input)",
    };
    let _ = eprintln!(rt; "zugrenja: {page}: {fault}");
}

fn tell_refused(rt: &impl Eprint, selectors: &[String], refused: Refused) {
    let Refused { number, error } = refused;
    let selector = selectors.get((number as usize).saturating_sub(1));
    let _ = match selector.and_then(|selector| error.message(selector.as_str())) {
        Some(message) => eprintln!(rt; "zugrenja: selector {number}: {message}"),
        None => eprintln!(rt; "zugrenja: {error}"),
    };
}

//! Reads files of cases, line by line.

use crate::case::{Case, Compared, Slot, slot_named, status_named};
use crate::fault::{Fault, Wrong};
use crate::marked::{Draft, is_marked};
use std::alloc::Global;

/// A text with its name.
#[derive(Drop)]
struct Named {
    name: String,
    text: Vec<u8>,
}

/// Where the text goes whose lines come.
#[derive(Drop)]
enum Target {
    /// Under this name to those that cases of this file take.
    Own(String),
    /// Under this name to those that cases of this file and of later ones take.
    Shared(String),
    /// To the last case.
    Slot(Slot),
}

/// Reads files in which cases and texts stand.
#[derive(Drop)]
pub struct Reader {
    /// The texts of this file alone.
    own: Vec<Named>,
    /// Those of this file and of earlier ones that all later ones have.
    shared: Vec<Named>,
    cases: Vec<Case>,
    draft: Option<(Target, Draft)>,
}

/// The key of a line, and what follows its blank.
fn key_of(line: &str) -> (&str, &str) {
    line.split_once(" ").unwrap_or((line, ""))
}

/// A number.
fn number(text: &str) -> Result<u64, Fault> {
    match text.parse::<u64>() {
        Ok(number) => Ok(number),
        Err(_) => Err(Wrong::Value.into()),
    }
}

/// Sets the number of a call that fails, as `out 3`, or that each put of out does, as `out each`.
fn set_failing(case: &mut Case, value: &str) -> Result<(), Fault> {
    match value.split_once(" ") {
        Some(("out", "each")) => case.each_put_fails = true,
        Some(("shelf", call)) => case.shelf_fails = number(call)?,
        Some(("out", call)) => case.out_fails = number(call)?,
        Some(("err", call)) => case.err_fails = number(call)?,
        _ => return Err(Wrong::Value.into()),
    }
    Ok(())
}

/// Adds the words of a call.
fn add_words(alloc: Global, case: &mut Case, value: &str) -> Result<(), Fault> {
    for word in value.split(" ") {
        if !word.is_empty() {
            case.words.push(String::from_str(alloc, word)?)?;
        }
    }
    Ok(())
}

/// Adds numbers of bytes that a part has.
fn add_parts(case: &mut Case, value: &str) -> Result<(), Fault> {
    for part in value.split(" ") {
        case.parts.push(number(part)? as usize)?;
    }
    Ok(())
}

/// Takes a line of a case that begins with this key, and doesn't begin a text.
fn set(alloc: Global, case: &mut Case, key: &str, value: &str) -> Result<(), Fault> {
    match key {
        "words" => add_words(alloc, case, value),
        "word" => {
            case.words.push(String::from_str(alloc, value)?)?;
            Ok(())
        }
        "part" => add_parts(case, value),
        "fails" => set_failing(case, value),
        "picks" => {
            case.picked = String::from_str(alloc, value)?;
            case.compared = Compared::Picked;
            Ok(())
        }
        "status" => match status_named(value) {
            Some(status) => {
                case.status = status;
                Ok(())
            }
            None => Err(Wrong::Value.into()),
        },
        _ => Err(Wrong::Key.into()),
    }
}

/// The text of a name among these.
fn text_named<'a>(texts: &'a [Named], name: &str) -> Option<&'a [u8]> {
    for text in texts {
        if text.name.as_str() == name {
            return Some(text.text.as_slice());
        }
    }
    None
}

/// Fails where there is no name, or one of these texts has it.
fn is_new(texts: &[Named], name: &str) -> Result<(), Fault> {
    if name.is_empty() {
        return Err(Wrong::Value.into());
    }
    if text_named(texts, name).is_some() {
        return Err(Wrong::SameName.into());
    }
    Ok(())
}

impl Reader {
    /// A reader that has read no file.
    pub fn new(alloc: Global) -> Reader {
        Reader {
            own: Vec::new(alloc),
            shared: Vec::new(alloc),
            cases: Vec::new(alloc),
            draft: None,
        }
    }

    /// Reads a file and gives its cases.
    pub fn read(&mut self, alloc: Global, text: &str) -> Result<Vec<Case>, Fault> {
        self.own = Vec::new(alloc);
        self.cases = Vec::new(alloc);
        let mut number = 0u64;
        for line in text.lines() {
            number = number.saturating_add(1);
            self.take(alloc, line).map_err(|fault| fault.at(number))?;
        }
        self.close(alloc).map_err(|fault| fault.at(number))?;
        Ok(std::mem::replace(&mut self.cases, Vec::new(alloc)))
    }

    /// Takes a line. One that is empty, and one that begins with `#`, says nothing.
    fn take(&mut self, alloc: Global, line: &str) -> Result<(), Fault> {
        if line.is_empty() || line.starts_with("#") {
            return Ok(());
        }
        if is_marked(line) {
            return self.add(alloc, line);
        }
        let (key, value) = key_of(line);
        match key {
            "old" | "new" | "line" => self.change(alloc, key, value),
            _ => {
                self.close(alloc)?;
                self.begin(alloc, key, value)
            }
        }
    }

    /// Adds a marked line to the text that is open.
    fn add(&mut self, alloc: Global, line: &str) -> Result<(), Fault> {
        match &mut self.draft {
            Some((_target, draft)) => draft.add(alloc, line),
            None => Err(Wrong::Key.into()),
        }
    }

    /// Takes a line that begins a change of the text that is open.
    fn change(&mut self, alloc: Global, key: &str, value: &str) -> Result<(), Fault> {
        let Some((_target, draft)) = &mut self.draft else {
            return Err(Wrong::Key.into());
        };
        let mut first = value;
        match key {
            "old" => draft.open_old(alloc)?,
            "new" => draft.open_new()?,
            _ => {
                let (line, rest) = key_of(value);
                draft.open_line(alloc, number(line)?)?;
                first = rest;
            }
        }
        if first.is_empty() {
            return Ok(());
        }
        if is_marked(first) {
            return draft.add(alloc, first);
        }
        Err(Wrong::Value.into())
    }

    /// Takes a line that begins a case, a text, or a part of the last case.
    fn begin(&mut self, alloc: Global, key: &str, value: &str) -> Result<(), Fault> {
        match key {
            "case" => {
                let name = String::from_str(alloc, value)?;
                self.cases.push(Case::new(alloc, name))?;
                Ok(())
            }
            "text" => {
                let (name, rest) = key_of(value);
                is_new(&self.own, name)?;
                let target = Target::Own(String::from_str(alloc, name)?);
                self.open(alloc, target, rest)
            }
            "shared" => {
                let (name, rest) = key_of(value);
                is_new(&self.shared, name)?;
                let target = Target::Shared(String::from_str(alloc, name)?);
                self.open(alloc, target, rest)
            }
            _ => self.begin_part(alloc, key, value),
        }
    }

    /// Takes a line that begins a part of the last case.
    fn begin_part(&mut self, alloc: Global, key: &str, value: &str) -> Result<(), Fault> {
        let Some(case) = self.cases.last_mut() else {
            return Err(Wrong::Key.into());
        };
        match slot_named(key) {
            Some(slot) => {
                if key == "holds" {
                    case.compared = Compared::Held;
                }
                self.open(alloc, Target::Slot(slot), value)
            }
            None => set(alloc, case, key, value),
        }
    }

    /// Begins a text by what follows its key: nothing, its first line, a name, or a number of blanks.
    fn open(&mut self, alloc: Global, target: Target, value: &str) -> Result<(), Fault> {
        let (word, rest) = key_of(value);
        let mut draft = if value.is_empty() || is_marked(value) {
            Draft::new(alloc, Vec::new(alloc))
        } else if word == "blanks" {
            Draft::new(alloc, vec![in alloc; 32; number(rest)? as usize]?)
        } else {
            Draft::new(alloc, self.named(alloc, value)?)
        };
        if is_marked(value) {
            draft.add(alloc, value)?;
        }
        self.draft = Some((target, draft));
        Ok(())
    }

    /// Puts the text that is open where it belongs.
    fn close(&mut self, alloc: Global) -> Result<(), Fault> {
        let Some((target, draft)) = self.draft.take() else {
            return Ok(());
        };
        let text = draft.finish(alloc)?;
        match target {
            Target::Own(name) => self.own.push(Named { name, text })?,
            Target::Shared(name) => self.shared.push(Named { name, text })?,
            Target::Slot(slot) => match self.cases.last_mut() {
                Some(case) => case.put(slot, text),
                None => return Err(Wrong::Key.into()),
            },
        }
        Ok(())
    }

    /// The text of a name. One of this file alone hides one that is shared.
    fn named(&self, alloc: Global, name: &str) -> Result<Vec<u8>, Fault> {
        match text_named(&self.own, name).or(text_named(&self.shared, name)) {
            Some(text) => Ok(Vec::from_slice(alloc, text)?),
            None => Err(Wrong::Name.into()),
        }
    }
}

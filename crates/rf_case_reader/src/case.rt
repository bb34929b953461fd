//! What a case says: the words, the files, how the ends of the run behave, and what it is to leave.

use anyhow::Result;
use rf_text::Text;
use std::alloc::{AllocError, Global};
use std::fmt;

/// How the folder and the two outputs behave in a run.
#[derive(Clone, Copy, Debug)]
pub struct Setting {
    /// The most bytes that a read or a write moves.
    pub step: u64,
    /// The number from 0 of the read, the write of the output and the write of the error output that
    /// fails.
    pub failing_read: Option<u64>,
    pub failing_out: Option<u64>,
    pub failing_err: Option<u64>,
    /// The most bytes that the output and the error output take.
    pub out_room: u64,
    pub err_room: u64,
}

/// One part of a setting.
#[derive(Clone, Copy, Debug)]
pub(crate) enum Part {
    Step,
    FailingRead,
    FailingOut,
    FailingErr,
    OutRoom,
    ErrRoom,
}

impl Setting {
    /// Nothing fails, and everything fits.
    pub(crate) fn smooth() -> Setting {
        Setting {
            step: 1000,
            failing_read: None,
            failing_out: None,
            failing_err: None,
            out_room: 1000,
            err_room: 1000,
        }
    }

    /// The same but for one part.
    pub(crate) fn with(self, part: Part, number: u64) -> Setting {
        let mut setting = self;
        match part {
            Part::Step => setting.step = number,
            Part::FailingRead => setting.failing_read = Some(number),
            Part::FailingOut => setting.failing_out = Some(number),
            Part::FailingErr => setting.failing_err = Some(number),
            Part::OutRoom => setting.out_room = number,
            Part::ErrRoom => setting.err_room = number,
        }
        setting
    }
}

/// What a run leaves. There is no status where a case names none.
#[derive(Debug, PartialEq, Eq, Drop)]
pub struct Outcome {
    pub status: Option<u8>,
    pub out: Vec<u8>,
    pub err: Vec<u8>,
}

impl fmt::Display for Outcome {
    fn fmt<W: fmt::Write>(&self, f: &mut fmt::Formatter<W>) -> fmt::Result {
        match self.status {
            Some(status) => write!(f, "status {status}")?,
            None => write!(f, "no status")?,
        }
        let out = self.out.escape_ascii();
        let err = self.err.escape_ascii();
        write!(f, ", output \"{out}\", error output \"{err}\"")
    }
}

/// Reads of a run: those of a whole file, to its end, or so many.
#[derive(Debug, Drop)]
pub(crate) enum Reads {
    File(Text),
    Count(u64),
}

/// A case: it is run in each of its settings, and where it says which reads it makes, with each call
/// failing in turn.
#[derive(Debug, Drop)]
pub struct Case {
    pub title: String,
    pub words: Vec<Text>,
    pub files: Vec<(Text, Vec<u8>)>,
    pub(crate) settings: Vec<Setting>,
    pub(crate) reads: Option<Vec<Reads>>,
    pub(crate) wanted: Outcome,
}

impl Case {
    /// `check p g` over two empty files.
    pub(crate) fn new(alloc: Global, title: &str) -> Result<Case, AllocError> {
        let mut words = Vec::new(alloc);
        for word in ["check", "p", "g"] {
            words.push(Text::from_str(alloc, word)?)?;
        }
        let mut files = Vec::new(alloc);
        for name in ["p", "g"] {
            files.push((Text::from_str(alloc, name)?, Vec::new(alloc)))?;
        }
        let mut settings = Vec::new(alloc);
        settings.push(Setting::smooth())?;
        Ok(Case {
            title: String::from_str(alloc, title)?,
            words,
            files,
            settings,
            reads: None,
            wanted: Outcome {
                status: None,
                out: Vec::new(alloc),
                err: Vec::new(alloc),
            },
        })
    }

    /// The bytes of the file of this name, made where there is none.
    pub(crate) fn file(&mut self, alloc: Global, name: &str) -> Result<&mut Vec<u8>, AllocError> {
        let place = match self.files.iter().position(|file| file.0.as_str() == name) {
            Some(place) => place,
            None => {
                self.files
                    .push((Text::from_str(alloc, name)?, Vec::new(alloc)))?;
                self.files.len() - 1
            }
        };
        Ok(&mut self.files[place].1)
    }

    /// Runs each setting once for each number, which stands in this part of it.
    pub(crate) fn vary(
        &mut self,
        alloc: Global,
        part: Part,
        numbers: &[u64],
    ) -> Result<(), AllocError> {
        let mut settings = Vec::new(alloc);
        for setting in self.settings.iter() {
            for number in numbers {
                settings.push(setting.with(part, *number))?;
            }
        }
        self.settings = settings;
        Ok(())
    }
}

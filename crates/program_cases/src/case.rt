// Cases: command lines with files and a world in memory, and calls that fail.
use crate::gated::{Held, Hold};
use crate::named::{Named, push_bytes};
use crate::words::{cut, number_or};
use site_base::{Blob, OutOfMemory, Row, Text, Texts};
use site_edge::{MemFiles, MemSink, MemWorld};
use site_text::{ScriptError, read_script};
use std::alloc::Global;
use std::mem;

/// What follows the expression of a value: two functions and the least number, which it may name.
const NAMES: &[u8] = b"
}
const f = () => null
const g = () => null
const least = -9223372036854775.807 - 0.001
";

/// A command line, the files and the world that it is run over, and the numbers of the calls that fail, from 1.
#[derive(Drop)]
pub(crate) struct Case {
    pub(crate) alloc: Global,
    pub(crate) words: Texts,
    files: Row<(Text, Blob)>,
    /// Calls that read a file or list a folder.
    reads: Row<u64>,
    /// Calls that write.
    puts: Row<u64>,
    /// Calls on the world.
    turns: Row<u64>,
    /// The script of the turns that the world gives.
    world: Blob,
    /// Which workers are held up, and until when.
    pub(crate) held: Held,
    /// Outputs of which one has to be written.
    pub(crate) either: Row<Blob>,
    /// Whether what is remarked of the site is a part of the answer.
    pub(crate) remarks: bool,
    /// Whether only what is written is told, and no status that is expected.
    pub(crate) is_short: bool,
}

impl Case {
    /// A case without words and files.
    pub(crate) fn new(alloc: Global) -> Case {
        Case {
            alloc,
            words: Texts::new(alloc),
            files: Row::new(alloc),
            reads: Row::new(alloc),
            puts: Row::new(alloc),
            turns: Row::new(alloc),
            world: Blob::new(alloc),
            held: Held::new(alloc),
            either: Row::new(alloc),
            remarks: false,
            is_short: false,
        }
    }

    /// Reads a row that begins with this word: `WORD WORD .. ‖ FILE: TEXT ‖ .. ‖ world: SCRIPT ‖ read 2 fails ‖ ..`, or a short one,
    /// which has a text or an expression in place of the words.
    pub(crate) fn read(&mut self, named: &Named, word: &str, row: &str) -> Result<(), OutOfMemory> {
        let (front, parts) = cut(row, '‖');
        self.take_front(named, word, front.trim())?;
        self.take_parts(named, parts)
    }

    fn take_front(&mut self, named: &Named, word: &str, front: &str) -> Result<(), OutOfMemory> {
        match word {
            "check" => self.take_short(named, "check r", front),
            "objects" => self.take_short(named, "objects r", front),
            "replay" => self.take_short(named, "replay r s", front),
            "value" => self.take_value(named, front),
            _ => self.add_words(front),
        }
    }

    /// Takes these words over a file `r` of this text.
    fn take_short(&mut self, named: &Named, words: &str, text: &str) -> Result<(), OutOfMemory> {
        self.is_short = true;
        self.add_words(words)?;
        let text = named.whole(self.alloc, text)?;
        self.add_file("r", text)
    }

    /// Takes `EXPRESSION`, or `STATEMENTS ▸ EXPRESSION`: the listing of an object whose attribute `r` is the expression, after the
    /// statements.
    fn take_value(&mut self, named: &Named, value: &str) -> Result<(), OutOfMemory> {
        self.is_short = true;
        self.add_words("objects r")?;
        let text = file_of_value(self.alloc, named, value)?;
        self.add_file("r", text)
    }

    /// Takes what follows each `‖`.
    fn take_parts(&mut self, named: &Named, parts: &str) -> Result<(), OutOfMemory> {
        for part in parts.split('‖') {
            self.take_part(named, part)?;
        }
        Ok(())
    }

    fn take_part(&mut self, named: &Named, part: &str) -> Result<(), OutOfMemory> {
        match part.split_once(':') {
            Some((name, text)) => {
                let text = named.whole(self.alloc, text.trim())?;
                self.add_text(name.trim(), text)
            }
            None => self.add_failing(part.trim()),
        }
    }

    /// Adds the words of a command line.
    fn add_words(&mut self, text: &str) -> Result<(), OutOfMemory> {
        for word in text.split_whitespace() {
            self.add_word(word)?;
        }
        Ok(())
    }

    /// Adds a word; `""` is the empty one.
    fn add_word(&mut self, word: &str) -> Result<(), OutOfMemory> {
        let word = if word == "\"\"" { "" } else { word };
        self.words.push(Text::copy_of(self.alloc, word)?)
    }

    /// Adds a file, takes the script of the world, or adds one of the outputs that may be written.
    fn add_text(&mut self, name: &str, bytes: Blob) -> Result<(), OutOfMemory> {
        match name {
            "world" => {
                self.world = bytes;
                Ok(())
            }
            "either" => self.either.push(bytes),
            _ => self.add_file(name, bytes),
        }
    }

    fn add_file(&mut self, name: &str, bytes: Blob) -> Result<(), OutOfMemory> {
        let name = Text::copy_of(self.alloc, name)?;
        self.files.push((name, bytes))
    }

    /// Adds a call that fails, `read 2 fails`, `put 2 fails` or `turn 2 fails`, or a worker that is held up; or, by `remarks`, that they
    /// are a part of the answer.
    fn add_failing(&mut self, text: &str) -> Result<(), OutOfMemory> {
        let (call, rest) = cut(text, ' ');
        match call {
            "read" => self.reads.push(number_of(rest)),
            "put" => self.puts.push(number_of(rest)),
            "turn" => self.turns.push(number_of(rest)),
            "worker" => self.held.push(Hold::read(rest)),
            "remarks" => {
                self.remarks = true;
                Ok(())
            }
            _ => Ok(()),
        }
    }

    /// The files of the case, which it has no longer then.
    pub(crate) fn mem_files(&mut self) -> MemFiles {
        let files = mem::replace(&mut self.files, Row::new(self.alloc));
        MemFiles::new(self.alloc, files, taken(self.alloc, &mut self.reads))
    }

    /// What is written to, with the calls that fail.
    pub(crate) fn mem_sink(&mut self) -> MemSink {
        MemSink::new(self.alloc, taken(self.alloc, &mut self.puts))
    }

    /// The world of the case; `None` if its script is none.
    pub(crate) fn mem_world(&mut self) -> Result<Option<MemWorld>, OutOfMemory> {
        match read_script(self.alloc, self.world.as_slice()) {
            Ok(script) => {
                let failing = taken(self.alloc, &mut self.turns);
                Ok(Some(MemWorld::new(self.alloc, script, failing)))
            }
            Err(ScriptError::BadScript { .. }) => Ok(None),
            Err(ScriptError::OutOfMemory) => Err(OutOfMemory),
        }
    }
}

/// The number of a call, before further words.
fn number_of(text: &str) -> u64 {
    number_or(cut(text, ' ').0, 0)
}

/// The numbers, which are no longer where they were then.
fn taken(alloc: Global, numbers: &mut Row<u64>) -> Row<u64> {
    mem::replace(numbers, Row::new(alloc))
}

/// The text of a file whose object `value` has an expression as its attribute `r`.
fn file_of_value(alloc: Global, named: &Named, value: &str) -> Result<Blob, OutOfMemory> {
    let mut text = Blob::new(alloc);
    match value.split_once('▸') {
        Some((statements, expression)) => {
            push_object(
                named,
                &mut text,
                statements.trim(),
                expression.trim(),
                b"\n}\n",
            )?
        }
        None => push_object(named, &mut text, "", value, NAMES)?,
    }
    Ok(text)
}

fn push_object(
    named: &Named,
    out: &mut Blob,
    statements: &str,
    expression: &str,
    end: &[u8],
) -> Result<(), OutOfMemory> {
    named.push_whole(out, statements)?;
    push_bytes(out, b"\nobject Zone \"value\" { r =\n")?;
    named.push_whole(out, expression)?;
    push_bytes(out, end)
}

//! What a user at a terminal sees beside the answers, on standard error: a greeting, a prompt, and help on request.

ghost use Rattle.std.specs.Prelude.{◌≡◌, ◌≤◌, length};

use crate::help::LINES;
use crate::help_short::COMMONEST;
use crate::help_word::explain_word;
use crate::input::Input;
use crate::refusals::{Topic, explain_refusals};
use std::cell::Cell;
use std::io::{self, Read, Write};
use std::rt::Runtime;
use typed_text::respell;

/// What a greeting is about.
#[derive(Clone, Copy)]
pub enum Greeting {
    /// A script that continues at a bad line.
    Script,
    /// A script that ends at a bad line.
    ScriptToStop,
    /// A settings text.
    Settings,
    /// A trace.
    Trace,
    /// Commands to record.
    Commands,
}

impl Greeting {
    fn text(self) -> &'static str {
        match self {
            Greeting::Script => "dsctl: `help` shows the lines, ^D ends. Bad lines are skipped",
            Greeting::ScriptToStop => { "dsctl: `help` shows the lines, ^D or a bad line ends" }
            Greeting::Settings => "dsctl: a TOML text, as in dsctl settings --help, ^D ends",
            Greeting::Trace => "dsctl: a trace, as in dsctl verify --help, ^D ends",
            Greeting::Commands => {
                "dsctl: a command a line, as in dsctl record --help, ^D or a bad line ends"
            },
        }
    }
}

/// Which of the streams are terminals.
#[derive(Clone, Copy)]
pub struct Terminals {
    pub input: bool,
    pub error: bool,
}

impl Terminals {
    /// Returns these where this is the input: a named file isn't a terminal.
    pub fn at<R: Runtime>(self, input: &Input<R>) -> Terminals {
        Terminals {
            input: self.input && input.is_standard(),
            error: self.error,
        }
    }

    /// Whether a user types the input and sees standard error.
    pub fn are_both(&self) -> bool {
        self.input && self.error
    }
}

/// Writes a greeting to standard error, if a user types the input.
pub fn greet(rt: &impl Runtime, terminals: Terminals, greeting: Greeting) {
    if terminals.are_both() {
        let text = greeting.text();
        let _ = rt.eprintln(text);
    }
}

/// What the line is about that a user typed last.
#[derive(Drop)]
pub struct LastLine {
    topic: Cell<Topic>,
}

impl LastLine {
    /// Returns one before the first line.
    pub fn new() -> LastLine {
        LastLine {
            topic: Cell::new(Topic::Store),
        }
    }
}

/// An input, with a prompt before each line if a user types it.
///
/// At the prompt, an empty line, a comment, `help`, `help all`, `help WORD`, `?`, `quit`, `exit`, and a line that ^C ends
/// are handled here, and aren't lines of the script. Any other line that comes whole is delivered in the spelling of scripts, by
/// `respell`. Once the input has ended it isn't read again: a terminal would wait for another ^D.
#[derive(Drop)]
pub struct Typed<'a, R: Runtime> {
    rt: &'a R,
    reader: Input<R>,
    last: Option<&'a LastLine>,
    prompts: bool,
    begins_line: bool,
    ended: bool,
}

impl<'a, R: Runtime> Typed<'a, R> {
    /// Returns the input, with a prompt if a user types it. Tells `last` what each line is about.
    pub fn prompted(
        rt: &'a R,
        reader: Input<R>,
        terminals: Terminals,
        last: &'a LastLine,
    ) -> Typed<'a, R> {
        let mut typed = Typed::unprompted(rt, reader);
        typed.prompts = terminals.are_both();
        typed.last = Some(last);
        typed
    }

    /// Returns the input without a prompt.
    pub fn unprompted(rt: &'a R, reader: Input<R>) -> Typed<'a, R> {
        Typed {
            rt,
            reader,
            last: None,
            prompts: false,
            begins_line: true,
            ended: false,
        }
    }

    // Prompts, if a user types and a line begins.
    fn prompt(&self) {
        if self.prompts && self.begins_line {
            let _ = self.rt.eprint("> ");
        }
    }

    // Returns what the bytes mean. Shows help if they ask for it.
    fn meaning(&mut self, read: &[u8]) -> Meaning {
        if !self.prompts {
            return if read.is_empty() {
                Meaning::End
            } else {
                Meaning::Piece
            };
        }
        let began_line = self.begins_line;
        if began_line && read.last().copied() == Some(TAKEN_BACK) {
            let _ = self.rt.eprintln("");
            return Meaning::Nothing;
        }
        self.begins_line = read.last().copied() == Some(b'\n');
        if read.is_empty() {
            let _ = self.rt.eprintln("");
            return Meaning::End;
        }
        if !began_line || !self.begins_line {
            return Meaning::Piece;
        }
        let line = read.trim_ascii();
        let meaning = meaning_of(line);
        if let Meaning::Help = meaning {
            self.help(line);
        }
        meaning
    }

    // Notes what a line is about.
    fn note(&self, line: &[u8]) {
        if let Some(last) = self.last {
            let (word, _) = first_word(line);
            last.topic.set(Topic::of(word));
        }
    }

    // Writes the help that a line asks for: the commonest lines, all lines, or what the word after `help` means.
    fn help(&self, line: &[u8]) {
        let (_, rest) = first_word(line);
        let word = word_asked(rest);
        if word.is_empty() || is_own(word) {
            let _ = self.rt.eprintln(COMMONEST);
        } else if word.eq_ignore_ascii_case(b"all") {
            let _ = eprintln!(self.rt; "{LINES}\n\n{AT_THE_PROMPT}");
        } else {
            explain_word(self.rt, word);
        }
    }
}

/// The byte of ^C, where a terminal has it end a line.
const TAKEN_BACK: u8 = 3;

// What a line means to the prompt.
#[derive(Clone, Copy)]
enum Meaning {
    // A line of the script.
    Line,
    // A piece of a line, or bytes that nobody typed.
    Piece,
    Nothing,
    Help,
    End,
}

const AT_THE_PROMPT: &str = "\
At the prompt: help or ? shows the commonest lines, help all shows these, help
WORD explains a line, an answer, a refusal or a kind, quit or exit or ^D ends.
A line may begin with capitals there, and end with spaces.";

// Puts the first `count` bytes, a line and its newline, into the spelling of scripts. Returns how many bytes that takes.
fn spelled(buf: &mut [u8], count: usize) -> usize
    requires { count ≤ length buf.old }
    ensures few { result ≤ count }
    ensures same { length buf.new ≡ length buf.old }
{
    if count == 0 {
        return 0;
    }
    let length = respell(&mut buf[..count - 1]);
    buf[length] = b'\n';
    length + 1
}

fn meaning_of(line: &[u8]) -> Meaning {
    let (word, _) = first_word(line);
    if word.is_empty() || word.starts_with(b"#") {
        Meaning::Nothing
    } else if asks_for_help(word) {
        Meaning::Help
    } else if asks_to_end(word) {
        Meaning::End
    } else {
        Meaning::Line
    }
}

// Returns the first word of a line, and what comes after it and its spaces.
fn first_word(line: &[u8]) -> (&[u8], &[u8]) {
    let count = line
        .iter()
        .take_while(|byte| !byte.is_ascii_whitespace())
        .count();
    let (word, rest) = line.split_at(count);
    (word, rest.trim_ascii())
}

// Returns the word that help is requested for. An answer `refused WORD` may be typed as printed.
fn word_asked(rest: &[u8]) -> &[u8] {
    let (first, more) = first_word(rest);
    if first == b"refused".as_slice() && !more.is_empty() {
        let (word, _) = first_word(more);
        word
    } else {
        first
    }
}

fn asks_for_help(word: &[u8]) -> bool {
    word.eq_ignore_ascii_case(b"help") || word == b"?".as_slice()
}

fn asks_to_end(word: &[u8]) -> bool {
    word.eq_ignore_ascii_case(b"quit") || word.eq_ignore_ascii_case(b"exit")
}

// Whether a word is one of the prompt's own.
fn is_own(word: &[u8]) -> bool {
    asks_for_help(word) || asks_to_end(word)
}

/// Standard output. At a prompt, each refusal is followed by its meaning on standard error.
#[derive(Drop)]
pub struct Answers<'a, R: Runtime, W> {
    rt: &'a R,
    writer: W,
    last: Option<&'a LastLine>,
}

impl<'a, R: Runtime, W: Write> Answers<'a, R, W> {
    /// Returns an output over a writer, without explanations.
    pub fn new(rt: &'a R, writer: W) -> Answers<'a, R, W> {
        Answers {
            rt,
            writer,
            last: None,
        }
    }

    /// Like `new`, but the output explains each refusal if a user types the lines.
    pub fn explained(
        rt: &'a R,
        writer: W,
        terminals: Terminals,
        last: &'a LastLine,
    ) -> Answers<'a, R, W> {
        let mut answers = Answers::new(rt, writer);
        if terminals.are_both() {
            answers.last = Some(last);
        }
        answers
    }
}

impl<R: Runtime, W: Write> Write for Answers<'_, R, W> {
    fn write(&mut self, buf: &[u8]) -> io::Result<usize> {
        let written = self.writer.write(buf);
        if let (Ok(count), Some(last)) = (&written, self.last) {
            let taken = buf.get(..*count).unwrap_or(buf);
            explain_refusals(self.rt, last.topic.get(), taken);
        }
        written
    }

    fn flush(&mut self) -> io::Result<()> {
        self.writer.flush()
    }
}

impl<R: Runtime> Read for Typed<'_, R> {
    fn read(&mut self, buf: &mut [u8]) -> io::Result<usize> {
        if self.ended {
            return Ok(0);
        }
        for _asked in 0..u64::MAX {
            self.prompt();
            let count = self.reader.read(buf)?;
            match self.meaning(&buf[..count]) {
                Meaning::Line => {
                    let count = spelled(buf, count);
                    self.note(&buf[..count]);
                    return Ok(count);
                }
                Meaning::Piece => return Ok(count),
                Meaning::End => {
                    self.ended = true;
                    return Ok(0);
                }
                Meaning::Nothing | Meaning::Help => {}
            }
        }
        Ok(0)
    }
}

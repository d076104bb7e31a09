//! Lines of the printer's job language after a universal exit. Those that are known to leave pages as they are are listed.

use crate::doubts::Doubt;
use crate::printers::Printers;
use pcl_base::Operation;
use pcl_page::SeenCommand;

/// What printers make of lines of the job language.
#[derive(Default, Drop)]
pub struct JobLines {
    /// Whether the last command was a universal exit, or a CR after one.
    is_exit: bool,
    /// Whether a line has set another paper than Letter, A4 or Legal.
    pub sets_paper: bool,
    /// Whether a line has set the default font, or its pitch.
    pub sets_font: bool,
}

/// What a line of the job language does to pages.
enum Line<'a> {
    /// Nothing that is known.
    Safe,
    /// It sets a setting to a value.
    Sets(&'a [u8], &'a [u8]),
    /// Nobody knows.
    Open,
}

impl Printers {
    /// Looks at a line feed after a universal exit: it may be an empty line of the job language, so that the cursor stays.
    pub fn see_feed(&mut self, operation: Operation) {
        if self.lines.is_exit && operation == Operation::LineFeed {
            self.cursor.row = Some(Doubt::JobLine);
        }
        self.lines.is_exit &= operation == Operation::CarriageReturn;
        self.lines.is_exit |= operation == Operation::UniversalExit;
    }

    /// Looks at the lines of the job language after a universal exit.
    pub fn see_lines(&mut self, command: &SeenCommand<'_>) {
        if command.operation == Operation::UniversalExit {
            let is_open = may_end_early(command.bytes) || may_set_pages(command.bytes);
            self.note_if(is_open, Doubt::JobLine);
            for line in command.bytes.split(|byte| *byte == b'\n') {
                self.see_line_of_job(line);
            }
        }
        self.see_default_font(command.operation);
    }

    /// Looks at a line of the job language.
    fn see_line_of_job(&mut self, line: &[u8]) {
        match line_of(line) {
            Line::Safe => {}
            Line::Sets(name, value) => self.see_setting(name, value),
            Line::Open => self.note(Doubt::JobLine),
        }
    }

    /// Looks at a setting of the job language.
    fn see_setting(&mut self, name: &[u8], value: &[u8]) {
        if is_one_of(name, &DEFAULT_FONT) {
            self.lines.sets_font = true;
        } else if name.eq_ignore_ascii_case(b"PAPER") {
            self.lines.sets_paper |= !is_one_of(value, &SHARED_PAPERS);
        } else {
            let is_portrait = name.eq_ignore_ascii_case(b"ORIENTATION")
                && value.eq_ignore_ascii_case(b"PORTRAIT");
            let is_safe = is_portrait || is_one_of(name, &SAFE_SETTINGS);
            self.note_if(!is_safe, Doubt::JobLine);
        }
    }

    /// Looks at a reset, after a line that has set the default font: the column width is its pitch.
    fn see_default_font(&mut self, operation: Operation) {
        let is_reset = matches!(operation, Operation::Reset | Operation::UniversalExit);
        if is_reset && self.lines.sets_font {
            self.width.open();
        }
    }
}

/// What begins a line.
const PREFIX: &[u8] = b"@PJL";

/// Lines that say or ask something, and set nothing that counts for pages.
const SAFE_COMMANDS: [&[u8]; 11] = [
    b"COMMENT",
    b"JOB",
    b"EOJ",
    b"ENTER",
    b"ECHO",
    b"INFO",
    b"INQUIRE",
    b"DINQUIRE",
    b"USTATUS",
    b"USTATUSOFF",
    b"RDYMSG",
];

/// Settings of which no value moves a mark, or the cursor.
const SAFE_SETTINGS: [&[u8]; 36] = [
    b"AUTOCONT",
    b"BINDING",
    b"BITSPERPIXEL",
    b"CLEARABLEWARNINGS",
    b"COLORSPACE",
    b"COPIES",
    b"DENSITY",
    b"DUPLEX",
    b"ECONOMODE",
    b"HOLD",
    b"HOLDKEY",
    b"HOLDTYPE",
    b"JOBATTR",
    b"JOBNAME",
    b"JOBOFFSET",
    b"LANG",
    b"MANUALFEED",
    b"MEDIASOURCE",
    b"MEDIATYPE",
    b"OUTBIN",
    b"PAGEPROTECT",
    b"PLANESINUSE",
    b"POWERSAVE",
    b"PRINTQUALITY",
    b"PROCESSINGTYPE",
    b"QTY",
    b"RAS1200MODE",
    b"RENDERMODE",
    b"RESOLUTION",
    b"RET",
    b"SOURCETRAY",
    b"STRINGCODESET",
    b"SYMSET",
    b"TIMEOUT",
    b"USERID",
    b"USERNAME",
];

/// Papers that a job may get that says no size.
const SHARED_PAPERS: [&[u8]; 3] = [b"A4", b"LEGAL", b"LETTER"];

/// Settings of the font that is there by default, whose pitch is the column width.
const DEFAULT_FONT: [&[u8]; 4] = [b"FONTNUMBER", b"FONTSOURCE", b"PITCH", b"PTSIZE"];

/// What a line does.
fn line_of(line: &[u8]) -> Line<'_> {
    let line = line.trim_ascii();
    if line.is_empty() {
        return Line::Safe;
    }
    let Some(rest) = line.strip_prefix(PREFIX) else {
        return Line::Open;
    };
    if !rest.first().is_none_or(u8::is_ascii_whitespace) {
        return Line::Open;
    }
    let (command, rest) = first_word(rest.trim_ascii());
    if command.is_empty() || is_one_of(command, &SAFE_COMMANDS) {
        Line::Safe
    } else if command.eq_ignore_ascii_case(b"SET") {
        setting_of(rest)
    } else {
        Line::Open
    }
}

/// What a line sets, by what follows its first word.
fn setting_of(words: &[u8]) -> Line<'_> {
    let mut parts = words.splitn(2, |byte| *byte == b'=');
    match (parts.next(), parts.next()) {
        (Some(name), Some(value)) => {
            Line::Sets(without_language(name.trim_ascii()), value.trim_ascii())
        }
        _ => Line::Open,
    }
}

/// The name of a setting without the language that it is of, `LPARM:PCL`.
fn without_language(name: &[u8]) -> &[u8] {
    let (first, rest) = first_word(name);
    if first.eq_ignore_ascii_case(b"LPARM:PCL") {
        rest
    } else {
        name
    }
}

/// The first word of a line, and what follows it.
fn first_word(words: &[u8]) -> (&[u8], &[u8]) {
    let len = words
        .iter()
        .position(|byte| byte.is_ascii_whitespace())
        .unwrap_or(words.len());
    let (first, rest) = words.split_at(len.min(words.len()));
    (first, rest.trim_ascii())
}

/// Whether a word is one of these, in letters of either case.
fn is_one_of(word: &[u8], words: &[&[u8]]) -> bool {
    words.iter().any(|each| word.eq_ignore_ascii_case(each))
}

/// Whether lines of the job language have a control code, but HT, LF, VT, FF and CR: it may end its line.
fn may_end_early(lines: &[u8]) -> bool {
    lines.iter().any(|byte| matches!(byte, 0..=8 | 14..=31))
}

/// Whether lines of the job language may turn pages, set how many lines they have, or take what follows as a file.
fn may_set_pages(lines: &[u8]) -> bool {
    has_word(lines, b"LANDSCAPE")
        || has_word(lines, b"FORMLINES")
        || has_word(lines, b"FSDOWNLOAD")
        || has_word(lines, b"FSAPPEND")
}

/// Whether bytes have a word in them, in letters of either case.
fn has_word(bytes: &[u8], word: &[u8]) -> bool {
    (0..bytes.len()).any(|start| {
        bytes
            .get(start..start.saturating_add(word.len()))
            .is_some_and(|part| part.eq_ignore_ascii_case(word))
    })
}

// Runs texts of cases: each line of a text changes a file, runs a command or checks its result.
//
// A line that begins with four blanks belongs to the line above it; a lone `.` there is an empty
// line. The other lines are:
//
// - `# ..`: a remark.
// - `case ..`: begins a case, without files.
// - `failing N`: begins a case without files, in which call N on the files fails, counted from 0.
// - `bytes NAME`, `text NAME`: names a piece, the hex digits or the lines below.
// - `replace NAME PIECE`: names a copy of a piece, in which the second line below replaces the
//   first one.
// - `join NAME PIECE..`: names pieces, one after another; `PIECE*N` is N times a piece.
// - `put FILE PIECE EDIT..`: writes a piece to a file. The edit `AT=BYTE` (hex digits) changes a
//   byte, and `..LENGTH` (a decimal number) cuts the bytes off there.
// - `run STATUS WORD..`: runs a command, which must end so and print the lines below. STATUS is
//   `done`, `refused`, `bad-input`, `fault`, `no-memory` or `bad-words`. In a WORD `_` is a blank,
//   and `''` is the empty word.
// - `prints PIECE WORD..`: the same of a command that must end with `done` and print the piece.
// - `unprinted WORD..`: runs a command with an output that fails, which must end in a fault.
// - `holds FILE PIECE EDIT..`, `begins FILE PIECE`, `length FILE N`, `none FILE`: checks a file.
use crate::samples::SAMPLES;
use std::alloc::{AllocGlobal, Global};
use std::process::Abort;
use std::test::Fail;
use tcd_base::{MemFiles, MemSink};
use tcd_driver::tool;
use tcd_reading::Status;

// The named pieces, the files of the case, the output of the last command, and the number of
// commands.
#[derive(Drop)]
struct Stage {
    alloc: Global,
    pieces: MemFiles,
    files: MemFiles,
    printed: Vec<u8>,
    count: u64,
}

fn digit_of(c: u8) -> Option<u8> {
    match c {
        b'0'..=b'9' => Some(c - b'0'),
        b'a'..=b'f' => Some(c - b'a' + 10),
        _ => None,
    }
}

// The number that hex digits spell.
fn hex_number(digits: &str) -> Result<usize, Fail> {
    let mut value = 0usize;
    for c in digits.bytes() {
        let Some(digit) = digit_of(c) else {
            return Err("no hex digit".into());
        };
        value = value.wrapping_mul(16).wrapping_add(usize::from(digit));
    }
    Ok(value)
}

// The bytes that pairs of hex digits spell. Blanks and line feeds are skipped.
fn hex_bytes(alloc: Global, digits: &str) -> Result<Vec<u8>, Fail> {
    let mut bytes = Vec::new(alloc);
    let mut high = None;
    for c in digits.bytes() {
        match (digit_of(c), high) {
            (None, _) if c == b' ' || c == b'\n' => {}
            (None, _) => return Err("no hex digit".into()),
            (Some(digit), None) => high = Some(digit),
            (Some(digit), Some(first)) => {
                bytes.push(first % 16 * 16 + digit % 16)?;
                high = None;
            }
        }
    }
    if high.is_some() {
        return Err("half a byte".into());
    }
    Ok(bytes)
}

// A text with all occurrences of the first line replaced by the second.
fn replace_text(alloc: Global, text: &[u8], lines: &str) -> Result<String, Fail> {
    let text = std::str::from_utf8(text).ok().ok_or("no text")?;
    let (from, to) = lines.split_once('\n').ok_or("no text to replace")?;
    if !text.contains(from) {
        return Err("no such text".into());
    }
    Ok(text.replace(alloc, from, to.strip_suffix("\n").unwrap_or(to))?)
}

// A copy of the bytes after these edits.
fn edit_bytes(alloc: Global, bytes: &[u8], edits: &[&str]) -> Result<Vec<u8>, Fail> {
    let mut out = Vec::from_slice(alloc, bytes)?;
    for edit in edits {
        match edit.split_once('=') {
            Some((at, byte)) => {
                let place = hex_number(at)?;
                if place >= out.len() {
                    return Err("no such byte".into());
                }
                out[place] = (hex_number(byte)? % 256) as u8;
            }
            None => {
                let length = edit.strip_prefix("..").ok_or("no edit")?;
                let length = length.parse::<usize>()?;
                if length > out.len() {
                    return Err("no such byte".into());
                }
                out.truncate(length);
            }
        }
    }
    Ok(out)
}

// The arguments of a command, as a line spells them.
fn command_words(alloc: Global, words: &[&str]) -> Result<Vec<String>, Fail> {
    let mut command = Vec::new(alloc);
    for word in words {
        let plain = if *word == "''" { "" } else { *word };
        command.push(plain.replace(alloc, "_", " ")?)?;
    }
    Ok(command)
}

fn status_word(status: Status) -> &'static str {
    match status {
        Status::Done => "done",
        Status::Refused => "refused",
        Status::BadInput => "bad-input",
        Status::Fault => "fault",
        Status::NoMemory => "no-memory",
        Status::BadWords => "bad-words",
    }
}

// Whether lines may be below this one.
fn takes_lines(words: &[&str]) -> bool {
    match words {
        ["bytes" | "text" | "replace" | "run", ..] => true,
        _ => false,
    }
}

// Lines that name pieces, write files and run commands.
impl Stage {
    fn piece(&self, name: &str) -> Result<&[u8], Fail> {
        match self.pieces.get(name) {
            Some(bytes) => Ok(bytes),
            None => Err("no such piece".into()),
        }
    }

    fn name_bytes(&mut self, name: &str, digits: &str) -> Result<(), Fail> {
        let bytes = hex_bytes(self.alloc, digits)?;
        Ok(self.pieces.put(name, &bytes)?)
    }

    fn name_text(&mut self, name: &str, lines: &str) -> Result<(), Fail> {
        Ok(self.pieces.put(name, lines.as_bytes())?)
    }

    fn name_copy(&mut self, name: &str, piece: &str, lines: &str) -> Result<(), Fail> {
        let text = replace_text(self.alloc, self.piece(piece)?, lines)?;
        Ok(self.pieces.put(name, text.as_bytes())?)
    }

    fn name_joined(&mut self, name: &str, parts: &[&str]) -> Result<(), Fail> {
        let mut bytes = Vec::new(self.alloc);
        for part in parts {
            let (piece, times) = part.split_once('*').unwrap_or((*part, "1"));
            let piece = self.piece(piece)?;
            for _ in 0..times.parse::<u32>()? {
                bytes.extend_from_slice(piece)?;
            }
        }
        Ok(self.pieces.put(name, &bytes)?)
    }

    fn begin(&mut self) {
        self.files = MemFiles::sure(self.alloc);
    }

    fn begin_failing(&mut self, call: &str) -> Result<(), Fail> {
        self.files = MemFiles::failing(self.alloc, &[call.parse::<u32>()?])?;
        Ok(())
    }

    fn put(&mut self, file: &str, piece: &str, edits: &[&str]) -> Result<(), Fail> {
        let bytes = edit_bytes(self.alloc, self.piece(piece)?, edits)?;
        Ok(self.files.put(file, &bytes)?)
    }

    // Runs a command, and returns whether it ends with this status and prints this text.
    fn runs(&mut self, status: &str, words: &[&str], printed: &[u8]) -> Result<bool, Fail> {
        self.count = self.count.saturating_add(1);
        let words = command_words(self.alloc, words)?;
        let mut out = MemSink::sure(self.alloc, 40_000)?;
        let ended = tool(self.alloc, &words, &mut self.files, &mut out);
        self.printed = Vec::from_slice(self.alloc, out.text())?;
        Ok(status_word(ended) == status && out.text() == printed)
    }

    // Runs a command, and returns whether it is done and prints this piece.
    fn prints(&mut self, piece: &str, words: &[&str]) -> Result<bool, Fail> {
        let printed = Vec::from_slice(self.alloc, self.piece(piece)?)?;
        self.runs("done", words, &printed)
    }

    // Runs a command with an output that fails, and returns whether it ends in a fault.
    fn faults(&mut self, words: &[&str]) -> Result<bool, Fail> {
        self.count = self.count.saturating_add(1);
        let words = command_words(self.alloc, words)?;
        let mut out = MemSink::failing(self.alloc, 40_000, &[0])?;
        let ended = tool(self.alloc, &words, &mut self.files, &mut out);
        Ok(status_word(ended) == "fault" && out.text().is_empty())
    }
}

// Lines that check files.
impl Stage {
    fn holds(&self, file: &str, piece: &str, edits: &[&str]) -> Result<bool, Fail> {
        let wanted = edit_bytes(self.alloc, self.piece(piece)?, edits)?;
        Ok(self.files.get(file) == Some(wanted.as_slice()))
    }

    fn begins(&self, file: &str, piece: &str) -> Result<bool, Fail> {
        let wanted = self.piece(piece)?;
        Ok(match self.files.get(file) {
            Some(bytes) => bytes.starts_with(wanted),
            None => false,
        })
    }

    fn has_length(&self, file: &str, length: &str) -> Result<bool, Fail> {
        let wanted = length.parse::<usize>()?;
        Ok(match self.files.get(file) {
            Some(bytes) => bytes.len() == wanted,
            None => false,
        })
    }

    fn lacks(&self, file: &str) -> bool {
        self.files.get(file).is_none()
    }
}

// Runs the lines of a text.
impl Stage {
    // Runs a line that changes something, and returns whether it is such a line.
    fn change(&mut self, words: &[&str], below: &str) -> Result<bool, Fail> {
        match words {
            ["#", ..] | [""] => {}
            ["case", ..] => self.begin(),
            ["failing", call] => self.begin_failing(*call)?,
            ["bytes", name] => self.name_bytes(*name, below)?,
            ["text", name] => self.name_text(*name, below)?,
            ["replace", name, piece] => self.name_copy(*name, *piece, below)?,
            ["join", name, parts @ ..] => self.name_joined(*name, parts)?,
            ["put", file, piece, edits @ ..] => self.put(*file, *piece, edits)?,
            _ => return Ok(false),
        }
        Ok(true)
    }

    // Runs a line that checks something, and returns whether the check passes.
    fn check(&mut self, words: &[&str], below: &str) -> Result<bool, Fail> {
        match words {
            ["run", status, words @ ..] => self.runs(*status, words, below.as_bytes()),
            ["prints", piece, words @ ..] => self.prints(*piece, words),
            ["unprinted", words @ ..] => self.faults(words),
            ["holds", file, piece, edits @ ..] => self.holds(*file, *piece, edits),
            ["begins", file, piece] => self.begins(*file, *piece),
            ["length", file, length] => self.has_length(*file, *length),
            ["none", file] => Ok(self.lacks(*file)),
            _ => Ok(false),
        }
    }

    // Runs a line with the lines below it, and stops the test if it fails.
    fn act<R: Abort>(&mut self, rt: &R, number: u64, line: &str, below: &str) -> Result<(), Fail> {
        let words: Vec<&str> = line.split(' ').collect(self.alloc)?;
        let fits = below.is_empty() || takes_lines(&words);
        let good = fits && (self.change(&words, below)? || self.check(&words, below)?);
        let printed = std::str::from_utf8(&self.printed).unwrap_or("no text");
        assert!(rt; good, "line {number}: {line}\n{printed}");
        Ok(())
    }

    // Runs the lines of a text.
    fn play<R: Abort>(&mut self, rt: &R, text: &str) -> Result<(), Fail> {
        let (mut number, mut at) = (0u64, 0u64);
        let mut line = String::new(self.alloc);
        let mut below = String::new(self.alloc);
        for next in text.lines() {
            number = number.saturating_add(1);
            match next.strip_prefix("    ") {
                Some(more) => {
                    below.push_str(if more == "." { "" } else { more })?;
                    below.push_str("\n")?;
                }
                None => {
                    self.act(rt, at, line.as_str(), below.as_str())?;
                    at = number;
                    line.clear();
                    line.push_str(next)?;
                    below.clear();
                }
            }
        }
        self.act(rt, at, line.as_str(), below.as_str())
    }
}

/// Runs the samples, and then these cases.
pub fn play<R: Abort + AllocGlobal>(rt: &R, cases: &str) -> Result<(), Fail> {
    let alloc = rt.alloc();
    let mut stage = Stage {
        alloc,
        pieces: MemFiles::sure(alloc),
        files: MemFiles::sure(alloc),
        printed: Vec::new(alloc),
        count: 0,
    };
    stage.play(rt, SAMPLES)?;
    stage.play(rt, cases)?;
    assert!(rt; stage.count > 0, "no run");
    Ok(())
}

//! The files in reading order, each sourced file in its place.
ghost use Rattle.std.specs.Prelude.{◌≡◌, ◌<◌, ◌^◌, [], ◌∷◌, ◌++◌, length, flat_map, OnOk, IfOk};
ghost use Rattle.std.specs.Option.{option_map};
ghost use Rattle.br_path.specs.Files.{AreSmall};
ghost use Rattle.kc_syntax.specs.Events.{source_events, file_events, line_events, row_events, file_at, is_reading, config_in, all_events};
ghost use Rattle.kc_syntax.specs.Reading.{run};
ghost use Rattle.kc_syntax.specs.Shown.{seen, named};

use crate::block::Owner;
use crate::error::{KcError, KcKind, fault};
use crate::reader::Reader;
use crate::shared::SharedPath;
use br_path::{Files, Memory, Path, PathFault};
use kc_rows::{Row, row_of};
use kc_text::{Line, lines_of};
use std::alloc::Global;

/// How many source lines there may be.
const SOURCE_LIMIT: u32 = 65_536;

/// How many sources may be open at a place.
const SOURCE_DEPTH: u32 = 64;

impl Reader {
    ghost use Rattle.kc_syntax.specs.Shown.{shown, Follows};
    ghost use Rattle.kc_syntax.specs.Step as on;

    /// Reads `Config.in`, and the files that are sourced.
    pub(crate) fn read_all(&mut self, files: &Files) -> Result<(), KcError>
        requires { AreSmall files.now }
        ensures { Follows (run (all_events files.now) (shown self.old)) result (shown self.new) }
    {
        let file = config_in(self.alloc)?;
        let Some(bytes) = files.get(file.path()) else {
            return Err(fault(&file, 0, KcKind::NoFile));
        };
        let mut reading = Vec::new(self.alloc);
        self.read_sourced(files, &mut reading, file, bytes, SOURCE_DEPTH)
    }

    // Reads a file, in which so many sources may be open.
    #[cycle(reading)]
    fn read_file(
        &mut self,
        files: &Files,
        reading: &mut Vec<SharedPath>,
        file: &SharedPath,
        bytes: &[u8],
        depth: u32,
    ) -> Result<(), KcError>
        requires files { AreSmall files.now }
        requires bytes { length bytes.now < 2 ^ 31 }
        ensures follows { Follows (run (file_events (source_events depth files.now reading.old.items) file.now bytes.now) (shown self.old)) result (shown self.new) }
        ensures reading { OnOk result (reading.new.items ≡ reading.old.items) }
    {
        self.enter_file()?;
        let lines = lines_of(self.alloc, bytes)?;
        if let Err(error) = self.read_lines(files, reading, file, lines.as_slice(), depth) {
            return Err(error);
        }
        self.leave_file(file)
    }

    #[cycle(reading)]
    fn read_lines(
        &mut self,
        files: &Files,
        reading: &mut Vec<SharedPath>,
        file: &SharedPath,
        lines: &[Line],
        depth: u32,
    ) -> Result<(), KcError>
        requires { AreSmall files.now }
        ensures follows { Follows (run (flat_map (line_events (source_events depth files.now reading.old.items) file.now) lines.now) (shown self.old)) result (shown self.new) }
        ensures reading { OnOk result (reading.new.items ≡ reading.old.items) }
    {
        for line in lines {
            if let Err(error) = self.read_line(files, reading, file, line, depth) {
                return Err(error);
            }
        }
        Ok(())
    }

    #[cycle(reading)]
    fn read_line(
        &mut self,
        files: &Files,
        reading: &mut Vec<SharedPath>,
        file: &SharedPath,
        line: &Line,
        depth: u32,
    ) -> Result<(), KcError>
        requires { AreSmall files.now }
        ensures follows { Follows (run (line_events (source_events depth files.now reading.old.items) file.now line.now) (shown self.old)) result (shown self.new) }
        ensures reading { OnOk result (reading.new.items ≡ reading.old.items) }
    {
        let Some(parts) = &line.parts else {
            return Err(fault(file, line.number, KcKind::BadString));
        };
        match row_of(self.alloc, parts.items.as_slice())? {
            Some(row) => self.read_row(files, reading, file, line.number, row, depth),
            None => Err(fault(file, line.number, KcKind::BadLine)),
        }
    }

    #[cycle(reading)]
    fn read_row(
        &mut self,
        files: &Files,
        reading: &mut Vec<SharedPath>,
        file: &SharedPath,
        line: u32,
        row: Row,
        depth: u32,
    ) -> Result<(), KcError>
        requires { AreSmall files.now }
        ensures follows { Follows (run (row_events (source_events depth files.now reading.old.items) file.now line row) (shown self.old)) result (shown self.new) }
        ensures reading { OnOk result (reading.new.items ≡ reading.old.items) }
    {
        match row {
            Row::Source(path) => self.source(files, reading, file, line, path.as_slice(), depth),
            other => self.take_row(other, file, line),
        }
    }

    // Reads the file that a source line names, where so many sources more may be open.
    #[cycle(reading)]
    fn source(
        &mut self,
        files: &Files,
        reading: &mut Vec<SharedPath>,
        file: &SharedPath,
        line: u32,
        path: &[u8],
        depth: u32,
    ) -> Result<(), KcError>
        requires { AreSmall files.now }
        ensures follows { Follows (run (source_events depth files.now reading.old.items file.now line path.now) (shown self.old)) result (shown self.new) }
        ensures reading { OnOk result (reading.new.items ≡ reading.old.items) }
    {
        let Some((found, bytes)) = find_file(self.alloc, files, path)? else {
            return Err(fault(file, line, KcKind::NoFile));
        };
        if depth == 0 {
            return Err(fault(file, line, KcKind::BadLine));
        }
        if is_reading(reading.as_slice(), &found) {
            return Err(fault(file, line, KcKind::Loop));
        }
        if let Err(error) = self.count_source(file, line) {
            return Err(error);
        }
        self.read_sourced(files, reading, found, bytes, depth - 1)
    }

    // Reads a file as one of those that are being read.
    #[cycle(reading)]
    fn read_sourced(
        &mut self,
        files: &Files,
        reading: &mut Vec<SharedPath>,
        file: SharedPath,
        bytes: &[u8],
        depth: u32,
    ) -> Result<(), KcError>
        requires files { AreSmall files.now }
        requires bytes { length bytes.now < 2 ^ 31 }
        ensures follows { Follows (run (file_events (source_events depth files.now (reading.old.items ++ file ∷ [])) file bytes.now) (shown self.old)) result (shown self.new) }
        ensures reading { OnOk result (reading.new.items ≡ reading.old.items) }
    {
        reading.push(file.share()?)?;
        if let Err(error) = self.read_file(files, reading, &file, bytes, depth) {
            return Err(error);
        }
        reading.pop();
        Ok(())
    }

    // A source line is counted, and ends the attribute lines before it.
    fn count_source(&mut self, file: &SharedPath, line: u32) -> Result<(), KcError>
        ensures { Follows (on.source_step (shown self.old) file.now line) result (shown self.new) }
    {
        if self.sources >= SOURCE_LIMIT {
            return Err(fault(file, line, KcKind::TooMany));
        }
        self.sources += 1;
        self.owner = Owner::Nobody;
        Ok(())
    }
}

/// The path of the file that is read first.
fn config_in(alloc: Global) -> Result<SharedPath, Memory>
    ensures { IfOk result (λ file. file ≡ config_in) }
{
    match Path::parse(alloc, b"Config.in") {
        Ok(file) => SharedPath::new(alloc, file),
        Err(_) => Err(Memory),
    }
}

/// The file whose path a text is.
#[tactic(auto, unfolding(crate::specs::Events::file_at))]
fn find_file<'a>(
    alloc: Global,
    files: &'a Files,
    text: &[u8],
) -> Result<Option<(SharedPath, &'a [u8])>, Memory>
    ensures { IfOk result (λ found. option_map seen found ≡ option_map (named text.now) (file_at files.now text.now)) }
{
    match Path::parse(alloc, text) {
        Ok(path) => match files.get(&path) {
            Some(bytes) => Ok(Some((SharedPath::new(alloc, path)?, bytes))),
            None => Ok(None),
        },
        Err(PathFault::Memory) => Err(Memory),
        Err(_) => Ok(None),
    }
}

// Whether the file is being read.
fn is_reading(reading: &[SharedPath], file: &SharedPath) -> bool
    ensures { result ≡ is_reading reading.now file.now }
{
    reading.iter().any(|other| other.path() == file.path())
}

//! `office export --into`: languages exported into files of a folder, by one opening of the office.
ghost use Rattle.std.specs.Prelude.{◌≡◌, false};

use crate::faults::Faults;
use crate::words::Langs;
use crate::{DONE, second_output, store_fault};
use commands::{FAILED, Output, export_text};
use office::{Desk, ExportFault};
use sqlite::{Alter, Connection};
use std::fs::{self, File};
use std::io::{self, BufWriter, Write};
use store_commands::{Closed, Unopened, close_desk, open_desk};
use tables::{Lost, Tables};
use units::{Lang, Name};

/// The file of a language's text. What is written stands beside its place till it is flushed: then it is on the disk, and in its place, where
/// another file may have been.
#[derive(Drop)]
struct TextFile<'a> {
    rt: &'a HostRuntime,
    folder: &'a str,
    place: &'a str,
    beside: &'a str,
    /// What stands beside the place, once something is written.
    file: Option<File>,
}

impl TextFile<'_> {
    /// Makes the file beside the place, and its folder where it isn't there.
    fn begin(&mut self) -> io::Result<()> {
        fs::create_dir_all(self.rt, self.folder)?;
        self.file = Some(File::create(self.rt, self.beside)?);
        Ok(())
    }
}

impl Write for TextFile<'_> {
    fn write(&mut self, bytes: &[u8]) -> io::Result<usize> {
        if self.file.is_none() {
            self.begin()?;
        }
        match &mut self.file {
            Some(file) => file.write(bytes),
            None => Ok(0),
        }
    }

    fn flush(&mut self) -> io::Result<()> {
        let Some(file) = self.file.take() else {
            return Ok(());
        };
        file.sync_all()?;
        drop(file);
        fs::rename(self.rt, self.beside, self.place)
    }
}

/// Exports a language into its file. What was written of a text that isn't whole is removed. An error is want of memory, before anything is
/// exported.
fn export_file<T: Tables>(
    rt: &HostRuntime,
    desk: &mut Desk<T>,
    domain: &Name,
    lang: &Lang,
    folder: &str,
) -> io::Result<u8> {
    let place = format!(in rt.alloc(); "{folder}/{}.po", lang.as_str())?;
    let beside = format!(in rt.alloc(); "{place}.new")?;
    let file = TextFile {
        rt,
        folder,
        place: place.as_str(),
        beside: beside.as_str(),
        file: None,
    };
    let mut text = Output::new(BufWriter::new(rt.alloc(), file)?);
    let status = export_text(desk, domain, lang, &mut text, &mut second_output(rt));
    drop(text);
    if status != DONE {
        // Of a language that isn't there, and of a text that is in its place, nothing stands beside it.
        let _ = fs::remove_file(rt, beside.as_str());
    }
    Ok(status)
}

/// Tells a fault, and answers the exit status.
fn tell_export_fault(rt: &HostRuntime, fault: ExportFault) -> u8 {
    // Where it can't be told, the status tells it.
    let mut faults = Faults::new(rt);
    let _ = writeln!(faults, "export fault {}", fault.number());
    FAILED
}

/// Exports a language into its file. Its line is its code, and behind it its receipt, which is told once the file is in its place, or its
/// fault.
fn export_named<T: Tables>(
    rt: &HostRuntime,
    desk: &mut Desk<T>,
    domain: &Name,
    lang: &Lang,
    folder: &str,
) -> u8 {
    let mut faults = Faults::new(rt);
    let named = write!(faults, "{} ", lang.as_str());
    let status = match export_file(rt, desk, domain, lang, folder) {
        Ok(status) => status,
        Err(_) => tell_export_fault(rt, ExportFault::Memory),
    };
    if named.is_ok() { status } else { FAILED }
}

/// Exports the languages in this order, whatever comes of each. Answers the exit status: 0, or 1 where one of them failed.
fn export_each<T: Tables>(
    rt: &HostRuntime,
    desk: &mut Desk<T>,
    domain: &Name,
    langs: &[Lang],
    folder: &str,
) -> u8 {
    let mut status = DONE;
    for lang in langs {
        if export_named(rt, desk, domain, lang, folder) != DONE {
            status = FAILED;
        }
    }
    status
}

/// Exports the languages that a domain has, in the order of their codes.
fn export_all<T: Tables>(rt: &HostRuntime, desk: &mut Desk<T>, domain: &Name, folder: &str) -> u8 {
    match desk.languages(domain) {
        Ok(langs) if langs.is_empty() => tell_export_fault(rt, ExportFault::NoLanguage),
        Ok(langs) => export_each(rt, desk, domain, langs.as_slice(), folder),
        Err(Lost::Memory) => tell_export_fault(rt, ExportFault::Memory),
        Err(Lost::Disk) => tell_export_fault(rt, ExportFault::Disk),
        Err(Lost::Refused) => tell_export_fault(rt, ExportFault::Refused),
    }
}

/// Opens the office in a database, exports a domain's languages into files of a folder, and closes it.
pub(crate) fn export_into<S: Alter + Drop>(
    rt: &HostRuntime,
    connection: Connection<S>,
    domain: &Name,
    langs: &Langs,
    folder: &str,
) -> Closed<S>
    requires { connection.in_transaction ≡ false }
{
    match open_desk(rt.alloc(), connection) {
        Ok(mut desk) => {
            let status = match langs {
                Langs::Named(langs) => {
                    export_each(rt, &mut desk, domain, langs.as_slice(), folder)
                }
                Langs::All => export_all(rt, &mut desk, domain, folder),
            };
            close_desk(desk, status)
        }
        Err(Unopened { fault, connection }) => Closed {
            status: store_fault(rt, fault),
            stopped: false,
            connection,
        },
    }
}

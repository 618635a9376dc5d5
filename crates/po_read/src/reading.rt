//! PO text to catalogue.

ghost use Rattle.std.specs.Prelude.{◌≡◌, ◌∷◌, ◌++◌, ◌⊎◌, ◌&&◌, ◌||◌, [], List, true, false, not, None, Some, Ok, map, length, ◌<◌, ◌^◌, MatchResult, IfOk, IfErr, OnOk};
ghost use Rattle.po_lex.specs.Lines.{lines_of, blank};
ghost use Rattle.po_lex.specs.PlainTokens.{plain_line};
ghost use Rattle.po_lex.specs.declared.fault.FaultKind.TheVariants as kinds;
ghost use Rattle.po_text.specs.declared.entry.Entry.{Entry};
ghost use Rattle.po_read.specs.Spells.{Spells, IsWithin, limits};
ghost use Rattle.po_read.specs.Faults.{Lines, no_lines, fault_at, before, after, or_else, begins_entry, IsFault, line_fault, add_line, fault_at_end, fault_from};
ghost use Rattle.po_read.specs.Plain.{entry_of, entries_of, groups_of};
ghost use Rattle.po_text.specs.Texts.{is_empty};
ghost use Rattle.po_text.specs.Header.{has_charset};
ghost use Rattle.po_read.specs.Found.{has_key};
ghost use Rattle.po_text.specs.Entries.{is_header_key};
ghost use Rattle.po_read.specs.Drafts.{IsSoundLine};
ghost use Rattle.po_read.specs.ReaderAnswers.{told, ReadsOrMemory, IsMemory, PassesBefore, IsMemoryLine};

use crate::keys::Keys;
use crate::message::Message;
use crate::sink::ReadSink;
use crate::unfinished::Unfinished;
use po_lex::{FaultKind, Keyword, Line, Part, PoFault, lex};
use po_text::{Catalogue, PoString, has_charset, is_header_key};
use std::alloc::{AllocError, Global};

/// The most bytes that a text may have.
const TEXT_LIMIT: usize = 16_777_216;

/// The most entries that a catalogue may have besides the header.
const ENTRY_LIMIT: usize = 50_000;

/// What was read so far: the keys of whole entries, which a sink has taken, and the entry that may go on.
#[derive(Drop)]
pub(crate) struct Reader<'a> {
    keys: Keys,
    current: Unfinished<'a>,
    alloc: Global,
}

impl<'a> Reader<'a> {
    ghost use Rattle.po_read.specs.SoFar.{so_far, goes_on_here, Reads, HandsOn, Tells, ended_here, entries_here, key_fault_here, header_fault_here, front_fault, length_fault, order_fault_here, with_line, count_here, has_form_here, IsHanded};

    /// Nothing was read.
    fn new(alloc: Global) -> Reader<'a>
        ensures { Reads result no_lines }
    {
        Reader {
            keys: Keys::new(alloc),
            current: Unfinished::new(alloc),
            alloc,
        }
    }

    /// Reads a line, and hands on the entry that has ended in front of it.
    fn read_line<S: ReadSink>(&mut self, sink: &mut S, line: Line<'a>) -> Result<(), FaultKind>
        requires sound { IsSoundLine (plain_line line) }
        ensures ok { OnOk result ((first : S) (lines : Lines) → HandsOn S.Took first self.old sink.old lines → (line_fault limits lines (Ok (plain_line line.entry)) ≡ None) × HandsOn S.Took first self.new sink.new (add_line lines (Ok (plain_line line.entry)))) }
        ensures err { IfErr result (λ kind. (lines : Lines) → Reads self.old lines → (line_fault limits lines (Ok (plain_line line.entry)) ≡ Some kind) ⊎ (kind ≡ kinds.Memory)) }
    {
        match line {
            Line::Blank => Ok(()),
            line => self.read_more(sink, line),
        }
    }

    /// Reads a line that isn't blank.
    fn read_more<S: ReadSink>(&mut self, sink: &mut S, line: Line<'a>) -> Result<(), FaultKind>
        requires sound { IsSoundLine (plain_line line) }
        requires some { plain_line line ≡ blank → ⊥ }
        ensures ok { OnOk result ((first : S) (lines : Lines) → HandsOn S.Took first self.old sink.old lines → (fault_at limits lines (plain_line line.entry) ≡ None) × HandsOn S.Took first self.new sink.new (after lines (plain_line line.entry))) }
        ensures err { IfErr result (λ kind. (lines : Lines) → Reads self.old lines → (fault_at limits lines (plain_line line.entry) ≡ Some kind) ⊎ (kind ≡ kinds.Memory)) }
    {
        self.test_front(&line)?;
        self.close_before(sink, &line)?;
        self.test_entry(&line)?;
        self.add(line)?;
        Ok(())
    }

    /// The tests of a line before the entry ends that it follows: `Limit` for its string, and those of a string that has ended.
    fn test_front(&self, line: &Line<'a>) -> Result<(), FaultKind>
        ensures { Tells result (front_fault self.now (plain_line line.now)) }
    {
        self.current.test_length(line)?;
        if self.current.goes_on(line) {
            return Ok(());
        }
        self.test_ended(begins_entry(line))
    }

    /// Ends the entry, if it has a form and the line begins another.
    fn close_before<S: ReadSink>(&mut self, sink: &mut S, line: &Line<'a>) -> Result<(), AllocError>
        ensures reads { OnOk result ((lines : Lines) → Reads self.old lines → Reads self.new (before lines (plain_line line.now))) }
        ensures hands { OnOk result ((first : S) (lines : Lines) → HandsOn S.Took first self.old sink.old lines → HandsOn S.Took first self.new sink.new (before lines (plain_line line.now))) }
        ensures length { OnOk result (length_fault (so_far self.new.current) (plain_line line.now) ≡ length_fault (so_far self.old.current) (plain_line line.now)) }
    {
        if begins_entry(line) && self.current.message.has_form() {
            self.close(sink)?;
        }
        Ok(())
    }

    /// The tests of a line in its entry: `Order` or `Forms` if it can't follow, `Limit` for one more entry than there may be.
    fn test_entry(&self, line: &Line<'a>) -> Result<(), FaultKind>
        ensures { told result ≡ or_else (order_fault_here (so_far self.now.current) (plain_line line.now)) (entries_here self.now (plain_line line.now)) }
    {
        self.current.test_order(line)?;
        self.test_entries(line)
    }

    /// Adds a line to the entry, which can follow.
    fn add(&mut self, line: Line<'a>) -> Result<(), AllocError>
        requires sound { IsSoundLine (plain_line line) }
        requires short { length_fault (so_far self.old.current) (plain_line line) ≡ None }
        requires follows { order_fault_here (so_far self.old.current) (plain_line line) ≡ None }
        ensures added { OnOk result (so_far self.new.current ≡ with_line (so_far self.old.current) (plain_line line.entry)) }
        ensures keys { OnOk result (self.new.keys ≡ self.old.keys) }
    {
        self.current.add(self.alloc, line)
    }

    /// Ends the last entry, at the end of the text.
    fn finish<S: ReadSink>(&mut self, sink: &mut S) -> Result<(), FaultKind>
        ensures ok { OnOk result ((first : S) (lines : Lines) → HandsOn S.Took first self.old sink.old lines → (fault_at_end lines ≡ None) × S.Took first (map entry_of (groups_of lines)) sink.new) }
        ensures err { IfErr result (λ kind. (lines : Lines) → Reads self.old lines → (fault_at_end lines ≡ Some kind) ⊎ (kind ≡ kinds.Memory)) }
    {
        self.test_ended(true)?;
        self.current.test_end()?;
        if self.current.message.has_form() {
            self.close(sink)?;
        }
        Ok(())
    }

    /// The tests of a string that has ended, and with it the entry or not: `Order` or `Duplicate` for a msgid, `Charset` for the header's string.
    fn test_ended(&self, ends: bool) -> Result<(), FaultKind>
        ensures { Tells result (ended_here self.now ends) }
    {
        match &self.current.message {
            Message::Named { ctx, id } => self.test_key(ctx, id),
            Message::Single { ctx, id, form } if ends => self.test_header(ctx, id, form),
            _ => Ok(()),
        }
    }

    /// `Order` if this is the header's key and not that of the first entry, or that of an obsolete one; `Duplicate` if it was there before.
    fn test_key(&self, ctx: &Option<PoString>, id: &PoString) -> Result<(), FaultKind>
        ensures { Tells result (key_fault_here self.now ctx.now id.now) }
    {
        if self.is_misplaced(ctx, id) {
            return Err(FaultKind::Order);
        }
        if self.has_key(ctx, id)? {
            Err(FaultKind::Duplicate)
        } else {
            Ok(())
        }
    }

    /// Whether there is no whole entry.
    fn is_first(&self) -> bool
        ensures { result ≡ is_empty self.now.keys }
    {
        self.keys.is_empty()
    }

    /// Whether this is the header's key and not that of the first entry, or that of an obsolete one.
    fn is_misplaced(&self, ctx: &Option<PoString>, id: &PoString) -> bool
        ensures { result ≡ (is_header_key ctx.now id.now && (not (is_empty self.now.keys) || self.now.current.obsolete)) }
    {
        is_header_key(ctx, id) && (!self.is_first() || self.current.obsolete)
    }

    /// Whether a whole entry has this key.
    fn has_key(&self, ctx: &Option<PoString>, id: &PoString) -> Result<bool, AllocError>
        ensures { IfOk result (λ has. has ≡ has_key ctx.now id.now self.now.keys) }
    {
        self.keys.has(self.alloc, ctx, id)
    }

    /// `Charset` if this is the header, with another charset.
    fn test_header(
        &self,
        ctx: &Option<PoString>,
        id: &PoString,
        form: &PoString,
    ) -> Result<(), FaultKind>
        ensures { told result ≡ header_fault_here self.now ctx.now id.now form.now }
    {
        if self.is_foreign(ctx, id, form) {
            Err(FaultKind::Charset)
        } else {
            Ok(())
        }
    }

    /// Whether this is the header, with another charset.
    fn is_foreign(&self, ctx: &Option<PoString>, id: &PoString, form: &PoString) -> bool
        ensures { result ≡ (is_empty self.now.keys && is_header_key ctx.now id.now && not (has_charset form.now)) }
    {
        self.is_first() && is_header_key(ctx, id) && !has_charset(form.as_str())
    }

    /// `Limit` if the line begins one more entry than there may be.
    fn test_entries(&self, line: &Line<'a>) -> Result<(), FaultKind>
        ensures { told result ≡ entries_here self.now (plain_line line.now) }
    {
        match line {
            Line::Message {
                part: Part::Begins(Keyword::Msgid, _),
                ..
            } if ENTRY_LIMIT <= self.count() => Err(FaultKind::Limit),
            _ => Ok(()),
        }
    }

    /// How many whole entries there are besides the header.
    fn count(&self) -> usize
        ensures { result ≡ count_here self.now }
    {
        self.keys.count()
    }

    /// Ends the entry, which has a form, and hands it on.
    fn close<S: ReadSink>(&mut self, sink: &mut S) -> Result<(), AllocError>
        requires { has_form_here self.old ≡ true }
        ensures { OnOk result (IsHanded S.Took self.old self.new sink.old sink.new) }
    {
        let entry = self.current.take(self.alloc)?;
        self.keys.push(self.alloc, &entry.ctx, &entry.id)?;
        sink.take(entry)
    }

    /// Reads the lines of a text, and hands on the entries that they spell.
    fn read_lines<S: ReadSink>(&mut self, sink: &mut S, text: &'a str) -> Result<(), PoFault>
        requires first { Reads self.old no_lines }
        requires fits { length text.now < 2 ^ 63 }
        ensures ok { OnOk result ((fault_from limits 1 no_lines (lines_of text.now) ≡ None) × S.Took sink.old (entries_of text.now) sink.new) }
        ensures err { IfErr result (λ fault. (fault_from limits 1 no_lines (lines_of text.now) ≡ Some (fault.line, fault.kind)) ⊎ IsMemory fault) }
        ensures memory { IfErr result (λ fault. IsMemory fault → PassesBefore limits (lines_of text.now) fault.line) }
    {
        let mut lines = lex(text);
        let mut line = 1;
        while let Some(told) = lines.next() {
            let token = told?;
            if let Err(kind) = self.read_line(sink, token.line) {
                return Err(PoFault { line, kind });
            }
            line += 1;
        }
        match self.finish(sink) {
            Ok(()) => Ok(()),
            Err(kind) => Err(PoFault { line, kind }),
        }
    }
}

/// Whether the line begins an entry behind one with a form.
fn begins_entry(line: &Line<'_>) -> bool
    ensures { result ≡ begins_entry (plain_line line.now) }
{
    !matches!(
        line,
        Line::Blank
            | Line::Message {
                part: Part::Continues(_)
                    | Part::Begins(
                        Keyword::MsgidPlural | Keyword::Msgstr | Keyword::MsgstrAt(_),
                        _
                    ),
                ..
            }
    )
}

/// Hands on the entries that a text spells.
fn read_text<S: ReadSink>(alloc: Global, sink: &mut S, text: &str) -> Result<(), PoFault>
    requires { length text.now < 2 ^ 63 }
    ensures ok { OnOk result ((fault_from limits 1 no_lines (lines_of text.now) ≡ None) × S.Took sink.old (entries_of text.now) sink.new) }
    ensures err { IfErr result (λ fault. (fault_from limits 1 no_lines (lines_of text.now) ≡ Some (fault.line, fault.kind)) ⊎ IsMemory fault) }
    ensures memory { IfErr result (λ fault. IsMemory fault → PassesBefore limits (lines_of text.now) fault.line) }
{
    let mut reader = Reader::new(alloc);
    let told = reader.read_lines(sink, text);
    drop(reader);
    told
}

/// Hands on the entries of the catalogue that the bytes spell, in order and each as soon as it is whole: those that `read`
/// gathers. Of what was handed on the keys alone are kept. Where there is a fault the sink has taken some of the entries in front of
/// it, and goes.
pub fn read_each<S: ReadSink + Drop>(alloc: Global, bytes: &[u8], sink: S) -> Result<S, PoFault>
    // What is handed on is what the bytes spell, within the limits.
    ensures catalogue { IfOk result (λ full. (c : List Entry) × Spells bytes.now c × IsWithin limits bytes.now c × S.Took sink c full) }
    // What the bytes spell within the limits is handed on, unless memory ran out.
    ensures spelled { (c : List Entry) → Spells bytes.now c → IsWithin limits bytes.now c → MatchResult result (S.Took sink c) IsMemory }
    // Else the first fault is told, unless memory ran out.
    ensures fault { IfErr result (λ fault. IsFault limits bytes.now (fault.line, fault.kind) ⊎ IsMemory fault) }
    // Where memory ran out, no line before the one that is told has a fault.
    ensures memory { IfErr result (λ fault. IsMemory fault → IsMemoryLine limits bytes.now fault.line) }
{
    if bytes.len() > TEXT_LIMIT {
        return Err(PoFault {
            line: 0,
            kind: FaultKind::Limit,
        });
    }
    match str::from_utf8(bytes) {
        Ok(text) => {
            let mut full = sink;
            read_text(alloc, &mut full, text)?;
            Ok(full)
        }
        Err(_) => Err(PoFault {
            line: 0,
            kind: FaultKind::NotUtf8,
        }),
    }
}

/// The catalogue that the bytes spell, as "The Format of PO Files" of the GNU gettext manual has it, within the limits: a text of
/// 16,777,216 bytes, 50,000 entries besides the header, strings of 262,144 bytes. Else the first fault, with its line; a text that is
/// too long or isn't UTF-8 has it at line 0. A refused growth is told at the line that was read then.
pub fn read(alloc: Global, bytes: &[u8]) -> Result<Catalogue, PoFault>
    // What is read is what the bytes spell, within the limits.
    ensures catalogue { IfOk result (λ c. Spells bytes.now c × IsWithin limits bytes.now c) }
    // What the bytes spell within the limits is read, unless memory ran out.
    ensures spelled { (c : List Entry) → Spells bytes.now c → IsWithin limits bytes.now c → ReadsOrMemory result c }
    // Else the first fault is told, unless memory ran out.
    ensures fault { IfErr result (λ fault. IsFault limits bytes.now (fault.line, fault.kind) ⊎ IsMemory fault) }
    // Where memory ran out, no line before the one that is told has a fault.
    ensures memory { IfErr result (λ fault. IsMemory fault → IsMemoryLine limits bytes.now fault.line) }
{
    let entries = read_each(alloc, bytes, Vec::new(alloc))?;
    Ok(Catalogue::new(entries))
}

//! The sink of a book, and what was written to it.
ghost use Rattle.std.specs.Prelude.{◌≡◌, ◌+◌, ◌++◌, ◌≤◌, List, ℕ, [], None, Some, IsTrue, length};
ghost use Rattle.std.specs.Io.KnownBytes.{Keeps};
ghost use Rattle.sha2.specs.Hashers.{Holds256};
ghost use Rattle.audit_book.specs.Text.{end_words, entry_lines, line_of};
ghost use Rattle.live_book.specs.Writing.{Writes, sink_value};
ghost use Rattle.live_book.specs.declared.unbooked.Unbooked.TheVariants.{TooLong};

use crate::lines::{write_end, write_news};
use crate::sink::BookSink;
use crate::unbooked::Unbooked;
use hall_core::BriefHall;
use sha2::Sha256;

/// A sink to which the lines of a book are written. After a fault nothing is written any more. It
/// has no `Drop`: who has it takes it apart.
pub(crate) struct BookWriter<B> {
    pub(crate) sink: B,
    /// Room for lines; empty between calls as long as all was written.
    pub(crate) text: Vec<u8>,
    /// How many entries were written.
    pub(crate) entries: u64,
    /// It holds all that was written, as long as all was.
    pub(crate) hasher: Sha256,
    pub(crate) fault: Option<Unbooked>,
}

impl<B: BookSink> BookWriter<B> {
    /// Writes the news of the hall, if there was no fault. Where they settle an instance the sink
    /// is then told so.
    pub(crate) fn write_down(&mut self, hall: &BriefHall, settled: bool)
        requires { self.old.fault ≡ None → self.old.text.items ≡ [] }
        ensures writes { Writes self.old.fault self.new.fault
            (sink_value B.contents B.lasting B.failures self.old.sink)
            (sink_value B.contents B.lasting B.failures self.new.sink)
            (entry_lines hall.now.hall.policy hall.now.news) }
        ensures before { self.new.fault ≡ None → self.old.fault ≡ None }
        ensures text { self.new.fault ≡ None → self.new.text.items ≡ [] }
        ensures entries { self.new.fault ≡ None →
            self.new.entries ≡ self.old.entries + length hall.now.news }
        ensures holds { self.new.fault ≡ None → (before : List ℕ) →
            Holds256 self.old.hasher before → Holds256 self.new.hasher
            (before ++ entry_lines hall.now.hall.policy hall.now.news) }
        ensures lasts { IsTrue settled → self.new.fault ≡ None →
            Keeps (B.lasting self.new.sink) (B.contents self.new.sink) }
        ensures too_long { self.old.fault ≡ None → self.new.fault ≡ Some TooLong →
            18446744073709551616 ≤ self.old.entries + length hall.now.news }
    {
        if self.fault.is_some() {
            return;
        }
        let Some(count) = self.entries.checked_add(hall.news().len() as u64) else {
            self.fault = Some(Unbooked::TooLong);
            return;
        };
        match write_news(
            hall,
            settled,
            &mut self.text,
            &mut self.hasher,
            &mut self.sink,
        ) {
            Ok(()) => self.entries = count,
            Err(fault) => self.fault = Some(fault),
        }
    }

    /// Writes the last line, if there was no fault.
    pub(crate) fn write_last(&mut self)
        requires { self.old.fault ≡ None → self.old.text.items ≡ [] }
        ensures { Writes self.old.fault self.new.fault
            (sink_value B.contents B.lasting B.failures self.old.sink)
            (sink_value B.contents B.lasting B.failures self.new.sink)
            (line_of (end_words self.old.entries)) }
    {
        if self.fault.is_some() {
            return;
        }
        match write_end(
            self.entries,
            &mut self.text,
            &mut self.hasher,
            &mut self.sink,
        ) {
            Ok(()) => {}
            Err(fault) => self.fault = Some(fault),
        }
    }
}

//! Writes the lines of a book.
ghost use Rattle.std.specs.Prelude.{◌≡◌, ◌≢◌, ◌++◌, List, ℕ, [], All, IfErr, IsTrue, OnOk};
ghost use Rattle.std.specs.Io.KnownBytes.{Keeps};
ghost use Rattle.sha2.specs.Hashers.{Holds256};
ghost use Rattle.run_model.specs.Known.{IsKnownEntry};
ghost use Rattle.audit_book.specs.Text.{end_words, entry_lines, header_words, line_of};
ghost use Rattle.live_book.specs.Books.{IsUnbooked};
ghost use Rattle.live_book.specs.Writing.{TellsWritten, sink_value};
ghost use Rattle.live_book.specs.declared.unbooked.Unbooked.TheVariants.{NoMemory as LacksMemory};
ghost use Rattle.live_book.specs.declared.unbooked.Unbooked.TheVariants.{TooLong};

use crate::sink::BookSink;
use crate::unbooked::Unbooked;
use audit_book::{put_end, put_entry, put_header};
use coll_text::send;
use hall_core::BriefHall;
use run_state::Book;
use sha2::{Digest, Sha256};
use wall_policy::Policy;

// Writes the text out, and leaves none. The hasher holds it then behind what it held.
fn send_text<B: BookSink>(
    text: &mut Vec<u8>,
    hasher: &mut Sha256,
    sink: &mut B,
) -> Result<(), Unbooked>
    ensures written { TellsWritten result (sink_value B.contents B.lasting B.failures sink.old)
        (sink_value B.contents B.lasting B.failures sink.new) text.old.items }
    ensures none { OnOk result (text.new.items ≡ []) }
    ensures short { IfErr result (λ fault. fault ≢ TooLong) }
    ensures holds { (before : List ℕ) → Holds256 hasher.old before →
        Holds256 hasher.new (before ++ text.old.items) }
{
    hasher.update(text.as_slice());
    match send(text, sink) {
        Ok(()) => Ok(()),
        Err(_) => Err(Unbooked::Write),
    }
}

// Tells the sink that an instance has settled, if one has.
fn tell<B: BookSink>(settled: bool, sink: &mut B) -> Result<(), Unbooked>
    ensures went { OnOk result (B.failures sink.new ≡ B.failures sink.old) }
    ensures fault { IfErr result
        (λ fault. IsUnbooked fault (B.failures sink.old) (B.failures sink.new)) }
    ensures short { IfErr result (λ fault. fault ≢ TooLong) }
    ensures same { Keeps (B.contents sink.old) (B.contents sink.new) }
    ensures lasts { IsTrue settled →
        OnOk result (Keeps (B.lasting sink.new) (B.contents sink.new)) }
{
    if !settled {
        return Ok(());
    }
    match sink.settled() {
        Ok(()) => Ok(()),
        Err(_) => Err(Unbooked::Write),
    }
}

// Appends the lines of entries, whose processes and datasets are the policy's.
fn put_entries(policy: &Policy, news: &Book, text: &mut Vec<u8>) -> Result<(), Unbooked>
    requires { All (IsKnownEntry policy.now) news.now.list }
    ensures put { OnOk result
        (text.new.items ≡ text.old.items ++ entry_lines policy.now news.now.list) }
    ensures fault { IfErr result (λ fault. fault ≡ LacksMemory) }
{
    for at in 0..news.len() {
        put_entry(policy, news.get(at), text)?;
    }
    Ok(())
}

/// Writes the first line of a book under the policy. The hasher holds it then.
pub fn write_header<B: BookSink>(
    policy: &Policy,
    text: &mut Vec<u8>,
    hasher: &mut Sha256,
    sink: &mut B,
) -> Result<(), Unbooked>
    requires text { text.old.items ≡ [] }
    requires hasher { Holds256 hasher.old [] }
    ensures written { TellsWritten result (sink_value B.contents B.lasting B.failures sink.old)
        (sink_value B.contents B.lasting B.failures sink.new)
        (line_of (header_words policy.now.version)) }
    ensures none { OnOk result (text.new.items ≡ []) }
    ensures holds { OnOk result
        (Holds256 hasher.new (line_of (header_words policy.now.version))) }
{
    put_header(policy, text)?;
    send_text(text, hasher, sink)
}

/// Writes the lines of the news of a hall, which the hasher holds then behind what it held. Where
/// they settle an instance the sink is then told so.
#[tactic(auto, using(crate::proofs::WritingLemmas::appends_kept, crate::proofs::WritingLemmas::whole_prefix, crate::proofs::WritingLemmas::no_prefix))]
pub fn write_news<B: BookSink>(
    hall: &BriefHall,
    settled: bool,
    text: &mut Vec<u8>,
    hasher: &mut Sha256,
    sink: &mut B,
) -> Result<(), Unbooked>
    requires { text.old.items ≡ [] }
    ensures written { TellsWritten result (sink_value B.contents B.lasting B.failures sink.old)
        (sink_value B.contents B.lasting B.failures sink.new)
        (entry_lines hall.now.hall.policy hall.now.news) }
    ensures none { OnOk result (text.new.items ≡ []) }
    ensures lasts { IsTrue settled →
        OnOk result (Keeps (B.lasting sink.new) (B.contents sink.new)) }
    ensures short { IfErr result (λ fault. fault ≢ TooLong) }
    ensures holds { OnOk result ((before : List ℕ) → Holds256 hasher.old before →
        Holds256 hasher.new (before ++ entry_lines hall.now.hall.policy hall.now.news)) }
{
    put_entries(hall.policy(), hall.news(), text)?;
    send_text(text, hasher, sink)?;
    tell(settled, sink)
}

/// Writes the last line of a book of so many entries.
pub fn write_end<B: BookSink>(
    entries: u64,
    text: &mut Vec<u8>,
    hasher: &mut Sha256,
    sink: &mut B,
) -> Result<(), Unbooked>
    requires { text.old.items ≡ [] }
    ensures { TellsWritten result (sink_value B.contents B.lasting B.failures sink.old)
        (sink_value B.contents B.lasting B.failures sink.new) (line_of (end_words entries)) }
{
    put_end(entries as usize, text)?;
    send_text(text, hasher, sink)
}

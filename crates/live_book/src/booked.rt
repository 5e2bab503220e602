//! A hall whose book is written while it runs.
ghost use Rattle.std.specs.Prelude.{◌≡◌, List, [], None, IfErr, IfOk, IfSome, IsTrue};
ghost use Rattle.std.specs.Prelude.{option_map};
ghost use Rattle.std.specs.Io.KnownBytes.{Keeps};
ghost use Rattle.audit_book.specs.Text.{book_text, header_words, line_of};
ghost use Rattle.live_book.specs.Writing.{TellsWritten, WritesPrefix, sink_value};

use crate::begun::Begun;
use crate::finished::{Finished, Unopened};
use crate::lines::write_header;
use crate::receipt::{BookReceipt, copy_of};
use crate::sink::BookSink;
use crate::unbooked::Unbooked;
use crate::writer::BookWriter;
use hall_core::{BriefHall, Call, Claim, Reply};
use hall_turn::Applied;
use sha2::{Digest, Sha256};
use std::alloc::Global;
use std::marker::{Model, PhantomData};
use wall_policy::Policy;

/// A hall beside the sink to which its book is written. Contracts see what a hall keeps that has
/// its whole book, the sink as it was at the opening and as it is, how far the text has come, and
/// why nothing is written any more, if so.
pub struct BookedHall<B: BookSink, K: Begun> {
    hall: BriefHall,
    writer: BookWriter<B>,
    of: PhantomData<K>,
}

// By hand: a derived one is proved anew in each crate that drops one.
impl<B: BookSink + Drop, K: Begun> Drop for BookedHall<B, K> {
    fn drop(self) {
        let BookedHall {
            hall,
            writer,
            of: _,
        } = self;
        let BookWriter {
            sink,
            text,
            entries: _,
            hasher,
            fault: _,
        } = writer;
        drop(hall);
        drop(sink);
        drop(text);
        drop(hasher);
    }
}

impl<B: BookSink, K: Begun> Model for BookedHall<B, K> {
    ghost use Rattle.std.specs.Prelude.{◌≡◌, [], None, length};
    ghost use Rattle.std.specs.Coded.{codes};
    ghost use Rattle.wall_rules.specs.Histories.{accesses_code};
    ghost use Rattle.live_book.specs.Books.{BookedHallValue};
    ghost use Rattle.live_book.specs.Writing.{sink_value};

    ghost Value = { BookedHallValue };

    ghost coded = { Prim.hlevel (codes, accesses_code) };

    ghost view = { λ b. record {
      hall = b.hall.hall;
      begun = K.begun;
      sink = sink_value B.contents B.lasting B.failures b.writer.sink;
      extent = record { entries = b.writer.entries; hasher = b.writer.hasher };
      fault = b.writer.fault;
    } };

    ghost invariant = { λ b. record {
      news : b.hall.news ≡ [];
      text : b.writer.fault ≡ None → b.writer.text.items ≡ [];
      entries : b.writer.fault ≡ None → b.writer.entries ≡ length b.hall.gone;
    } };
}

impl<B: BookSink, K: Begun> BookedHall<B, K> {
    ghost use Rattle.wall_policy.specs.Policy.{ChineseWall};
    ghost use Rattle.run_model.specs.Runs.{Entry, effects, entry};
    ghost use Rattle.run_model.specs.Known.{HasKnownLabel};
    ghost use Rattle.hall_core.specs.Claims.{CanFinish, Claims, claim_entry, claim_reply, to_take};
    ghost use Rattle.hall_core.specs.Machines.{Carries, ForEachRun, KeepsApart, RepliesWith};
    ghost use Rattle.hall_turn.specs.Machines.{TellsWhether};
    ghost use Rattle.live_book.specs.Books.{StandsWithBook, book_of, covered, is_all_booked};
    ghost use Rattle.live_book.specs.Receipts.{covers_of};

    /// A hall that stands for the empty run, with the first line of its book written. Else the sink
    /// comes back, with a prefix of that line, and why: `NoMemory` only where a growth was refused.
    pub fn open(alloc: Global, policy: Policy, sink: B) -> Result<BookedHall<B, K>, Unopened<B>>
        requires { K.begun ≡ sink_value B.contents B.lasting B.failures sink }
        ensures stands { IfOk result (λ m. StandsWithBook policy m []) }
        ensures begun { IfOk result (λ m. m.begun ≡ K.begun) }
        ensures booked { IfOk result (λ m. IsTrue (is_all_booked m)) }
        ensures cut { IfErr result (λ unopened. WritesPrefix unopened.fault K.begun
            (sink_value B.contents B.lasting B.failures unopened.sink)
            (line_of (header_words policy.version))) }
    {
        let mut sink = sink;
        let hall = match BriefHall::open(alloc, policy) {
            Ok(hall) => hall,
            Err(refused) => {
                return Err(Unopened {
                    sink,
                    fault: Unbooked::from(refused),
                });
            }
        };
        let mut text = Vec::new(alloc);
        let mut hasher = Sha256::new();
        match write_header(hall.policy(), &mut text, &mut hasher, &mut sink) {
            Ok(()) => {
                let writer = BookWriter {
                    sink,
                    text,
                    entries: 0,
                    hasher,
                    fault: None,
                };
                Ok(BookedHall {
                    hall,
                    writer,
                    of: PhantomData,
                })
            }
            Err(fault) => {
                drop(hall);
                drop(text);
                drop(hasher);
                Err(Unopened { sink, fault })
            }
        }
    }

    /// Applies one call, as `Hall::apply` does. What it adds to the book is written before it is
    /// answered, and where the call settled an instance the sink was told so. After a fault nothing
    /// is written any more.
    pub fn apply(&mut self, call: Call) -> Applied
        requires { HasKnownLabel self.old.hall.policy call.act }
        ensures replies { RepliesWith self.old.hall self.new.hall result.reply }
        ensures carries { Carries StandsWithBook self.old self.new call result.reply }
        ensures settled { TellsWhether StandsWithBook self.old result.settled
            (entry call result.reply) }
        ensures apart { KeepsApart StandsWithBook self.old (entry call result.reply) }
        ensures begun { self.new.begun ≡ self.old.begun }
        ensures lasts { IsTrue result.settled → self.new.fault ≡ None →
            Keeps self.new.sink.lasting self.new.sink.contents }
        ensures sticks { IfSome self.old.fault
            (λ fault. (self.new.fault ≡ self.old.fault) × (self.new.sink ≡ self.old.sink)) }
    {
        let reply = self.hall.apply(call);
        let settled = self.hall.news().len() == 2;
        self.writer.write_down(&self.hall, settled);
        self.hall.forget();
        Applied { reply, settled }
    }

    /// The part of a take for which the hall is needed, as `Hall::claim`. It adds nothing to the
    /// book, and nothing is written.
    pub fn claim(&mut self, process: u32, request: u64) -> Claim
        ensures replies { RepliesWith self.old.hall self.new.hall (claim_reply result) }
        ensures carries { Carries StandsWithBook self.old self.new (to_take process request)
            (claim_reply result) }
        ensures apart { KeepsApart StandsWithBook self.old (claim_entry process request result) }
        ensures claims { ForEachRun StandsWithBook self.old (λ wall run.
            Claims wall (effects run) process request result) }
        ensures can { CanFinish result }
        ensures same { self.new ≡ record self.old { hall = self.new.hall } }
    {
        self.hall.claim(process, request)
    }

    /// The policy that the hall was opened with.
    pub fn policy(&self) -> &Policy
        ensures { result.now ≡ self.now.hall.policy }
    {
        self.hall.policy()
    }

    /// Whether all was written.
    pub fn is_booked(&self) -> bool
        ensures { result ≡ is_all_booked self.now }
    {
        self.writer.fault.is_none()
    }

    /// A receipt of the sink, which covers all that it has, and of how far the text has come, as
    /// long as all was written.
    pub fn receipt(&self) -> Option<BookReceipt<B::Receipt>>
        ensures { option_map (covers_of B.Receipt.covers) result ≡ covered self.now }
    {
        match self.writer.fault {
            None => Some(BookReceipt {
                entries: self.writer.entries,
                hasher: copy_of(&self.writer.hasher),
                sink: self.writer.sink.receipt(),
            }),
            Some(_) => None,
        }
    }

    /// Writes the last line of the book, and gives the sink back. The whole text of the run's book
    /// was written then, or a prefix of it.
    pub fn finish(self) -> Finished<B>
        ensures { (wall : ChineseWall) (run : List Entry) → StandsWithBook wall self run →
            TellsWritten result.written self.begun
            (sink_value B.contents B.lasting B.failures result.sink)
            (book_text wall (book_of wall run)) }
    {
        let BookedHall {
            hall,
            mut writer,
            of: _,
        } = self;
        // What is still kept is nothing, so that its book is as long as the entries were many.
        let _ = hall.news();
        drop(hall);
        writer.write_last();
        let BookWriter {
            sink,
            text,
            entries: _,
            hasher,
            fault,
        } = writer;
        drop(text);
        drop(hasher);
        let written = match fault {
            None => Ok(()),
            Some(fault) => Err(fault),
        };
        Finished { sink, written }
    }
}

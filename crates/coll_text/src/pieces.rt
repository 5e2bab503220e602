//! Writes a text out in pieces.
ghost use Rattle.std.specs.Prelude.{◌≡◌, ◌+◌, [], OnOk, OnErr};
ghost use Rattle.std.specs.Io.KnownBytes.{Appends};
ghost use Rattle.wall_labels.specs.Known.{AppendsPrefix};
ghost use Rattle.coll_text.specs.Writing.{Moves};

use wall_labels::{Failed, Sink, write_all};

// A text is written out once it has as many bytes.
const CHUNK: usize = 65536;

/// Writes the text out, and leaves none. Where the writer failed it has a prefix of the text.
pub fn send<W: Sink>(text: &mut Vec<u8>, sink: &mut W) -> Result<(), Failed>
    ensures went { OnOk result (W.failures sink.new ≡ W.failures sink.old) }
    ensures failed { OnErr result (W.failures sink.new ≡ W.failures sink.old + 1) }
    ensures sent { OnOk result
        (Appends (W.contents sink.old) (W.contents sink.new) text.old.items) }
    ensures none { OnOk result (text.new.items ≡ []) }
    ensures prefix { OnErr result
        (AppendsPrefix (W.contents sink.old) (W.contents sink.new) text.old.items) }
{
    write_all(sink, text)?;
    text.clear();
    Ok(())
}

/// Writes the text out where it is long. Where the writer failed it has a prefix of the text.
#[tactic(auto, using(crate::proofs::SendLemmas::moves_none, crate::proofs::SendLemmas::moves_all))]
pub fn send_long<W: Sink>(text: &mut Vec<u8>, sink: &mut W) -> Result<(), Failed>
    ensures went { OnOk result (W.failures sink.new ≡ W.failures sink.old) }
    ensures failed { OnErr result (W.failures sink.new ≡ W.failures sink.old + 1) }
    ensures moved { OnOk result
        (Moves (W.contents sink.old) (W.contents sink.new) text.old.items text.new.items) }
    ensures prefix { OnErr result
        (AppendsPrefix (W.contents sink.old) (W.contents sink.new) text.old.items) }
{
    if text.len() < CHUNK {
        return Ok(());
    }
    send(text, sink)
}

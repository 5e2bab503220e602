//! Reads a kind with its fields.
ghost use Rattle.std.specs.Prelude.{◌≡◌, ◌≢◌, true, false, IfOk, Err};
ghost use Rattle.coll_text.specs.Reading.{Takes};
ghost use Rattle.coll_routes.specs.Signatures.{kind, kind as kind_of_signature, elem_type};
ghost use Rattle.coll_text.specs.Checks.{type_stated};
ghost use Rattle.coll_routes.specs.Owns.{is_own_of};
ghost use Rattle.coll_text.specs.Fields.{colour_of, colour_at, key_at};
ghost use Rattle.coll_text.specs.Fields.{elem_type_at, op_at, block_at, folded_at, rooted_at};
ghost use Rattle.coll_text.specs.Fields.{reduced_at, gathered_at, is_plain, reduces, stated_at};
ghost use Rattle.coll_text.specs.Fields.{statement_at};

use crate::fault::LineFault;
use crate::lists::{next_flags, next_numbers};
use crate::memory::Memory;
use crate::numbers::signed32;
use crate::parts::Parts;
use crate::words::{next_number32, next_word};
use coll_routes::{Kind, Own, Signature};
use mpi_elems::ElemType;
use wall_labels::Op;

#[tactic(auto, unfolding(crate::specs::Fields::colour_of))]
fn colour_in(word: &[u8]) -> Option<Option<i32>>
    ensures { result ≡ colour_of word.now }
{
    if word == b"undefined".as_slice() {
        Some(None)
    } else {
        match signed32(word) {
            None => None,
            Some(n) => Some(Some(n)),
        }
    }
}

// Reads a type of elements.
#[tactic(auto, unfolding(crate::specs::Fields::elem_type_at))]
fn next_type(words: &mut Parts) -> Result<ElemType, LineFault>
    ensures read { Takes (λ ty. ty) result words.new (elem_type_at words.old) }
    ensures memory { result ≢ Err LineFault.NoMemory }
{
    let word = next_word(words)?;
    ElemType::named(word).ok_or(LineFault::BadType)
}

// Reads an operation.
#[tactic(auto, unfolding(crate::specs::Fields::op_at))]
fn next_op(words: &mut Parts) -> Result<Op, LineFault>
    ensures read { Takes (λ op. op) result words.new (op_at words.old) }
    ensures memory { result ≢ Err LineFault.NoMemory }
{
    let word = next_word(words)?;
    Op::named(word).ok_or(LineFault::UnknownOp)
}

// Reads a type of elements and their number.
#[tactic(auto, unfolding(crate::specs::Fields::block_at))]
fn next_block(words: &mut Parts) -> Result<(ElemType, u32), LineFault>
    ensures read { Takes (λ r. r) result words.new (block_at words.old) }
    ensures memory { result ≢ Err LineFault.NoMemory }
{
    let elem_type = next_type(words)?;
    let count = next_number32(words)?;
    Ok((elem_type, count))
}

// Reads an operation, a type of elements and their number.
#[tactic(auto, unfolding(crate::specs::Fields::folded_at))]
fn next_folded(words: &mut Parts) -> Result<(Op, ElemType, u32), LineFault>
    ensures read { Takes (λ r. r) result words.new (folded_at words.old) }
    ensures memory { result ≢ Err LineFault.NoMemory }
{
    let op = next_op(words)?;
    let (elem_type, count) = next_block(words)?;
    Ok((op, elem_type, count))
}

// Reads a rank, a type of elements and their number.
#[tactic(auto, unfolding(crate::specs::Fields::rooted_at))]
fn next_rooted(words: &mut Parts) -> Result<(u32, ElemType, u32), LineFault>
    ensures read { Takes (λ r. r) result words.new (rooted_at words.old) }
    ensures memory { result ≢ Err LineFault.NoMemory }
{
    let root = next_number32(words)?;
    let (elem_type, count) = next_block(words)?;
    Ok((root, elem_type, count))
}

// Reads a rank, an operation, a type of elements and their number.
#[tactic(auto, unfolding(crate::specs::Fields::reduced_at))]
fn next_reduced(words: &mut Parts) -> Result<(u32, Op, ElemType, u32), LineFault>
    ensures read { Takes (λ r. r) result words.new (reduced_at words.old) }
    ensures memory { result ≢ Err LineFault.NoMemory }
{
    let root = next_number32(words)?;
    let (op, elem_type, count) = next_folded(words)?;
    Ok((root, op, elem_type, count))
}

// Reads a rank and a type of elements.
#[tactic(auto, unfolding(crate::specs::Fields::gathered_at))]
fn next_gathered(words: &mut Parts) -> Result<(u32, ElemType), LineFault>
    ensures read { Takes (λ r. r) result words.new (gathered_at words.old) }
    ensures memory { result ≢ Err LineFault.NoMemory }
{
    let root = next_number32(words)?;
    let elem_type = next_type(words)?;
    Ok((root, elem_type))
}

// Reads a colour.
#[tactic(auto, unfolding(crate::specs::Fields::colour_at))]
fn next_colour(words: &mut Parts) -> Result<Option<i32>, LineFault>
    ensures read { Takes (λ colour. colour) result words.new (colour_at words.old) }
    ensures memory { result ≢ Err LineFault.NoMemory }
{
    let word = next_word(words)?;
    colour_in(word).ok_or(LineFault::BadField)
}

// Reads a key.
#[tactic(auto, unfolding(crate::specs::Fields::key_at))]
fn next_key(words: &mut Parts) -> Result<i32, LineFault>
    ensures read { Takes (λ key. key) result words.new (key_at words.old) }
    ensures memory { result ≢ Err LineFault.NoMemory }
{
    let word = next_word(words)?;
    signed32(word).ok_or(LineFault::BadField)
}

// Whether the kind's fields are no lists, no colour and no key.
fn is_plain(kind: Kind) -> bool
    ensures { result ≡ is_plain kind }
{
    match kind {
        Kind::Scatterv => false,
        Kind::Alltoallv => false,
        Kind::NeighborAlltoallv => false,
        Kind::ReduceScatter => false,
        Kind::Split => false,
        Kind::Create => false,
        Kind::CartCreate => false,
        Kind::CartSub => false,
        _ => true,
    }
}

// Reads the fields of such a kind that reduces, straight into its signature.
#[tactic(auto, unfolding(crate::specs::Fields::stated_at, crate::specs::Fields::fields_at, crate::specs::Fields::with_field, crate::specs::Table::forms_of, crate::specs::Table::own_of, coll_routes::specs::Signatures::signature_by, coll_routes::specs::Signatures::kind, crate::specs::Fields::elem_type_at, crate::specs::Fields::op_at, crate::specs::Fields::block_at, crate::specs::Fields::folded_at, crate::specs::Fields::reduced_at))]
fn next_reduction(kind: Kind, words: &mut Parts) -> Result<Signature, LineFault>
    requires { reduces kind ≡ true }
    ensures statement { Takes (λ s. (s, Own.Plain)) result words.new (stated_at kind words.old) }
    ensures form { IfOk result (λ s. is_own_of (kind_of_signature s) Own.Plain ≡ true) }
    ensures memory { result ≢ Err LineFault.NoMemory }
{
    match kind {
        Kind::Allreduce => {
            let (op, elem_type, count) = next_folded(words)?;
            Ok(Signature::Allreduce {
                op,
                elem_type,
                count,
            })
        }
        Kind::ReduceScatterBlock => {
            let (op, elem_type, count) = next_folded(words)?;
            Ok(Signature::ReduceScatterBlock {
                op,
                elem_type,
                count,
            })
        }
        Kind::Scan => {
            let (op, elem_type, count) = next_folded(words)?;
            Ok(Signature::Scan {
                op,
                elem_type,
                count,
            })
        }
        Kind::Exscan => {
            let (op, elem_type, count) = next_folded(words)?;
            Ok(Signature::Exscan {
                op,
                elem_type,
                count,
            })
        }
        Kind::Reduce => {
            let (root, op, elem_type, count) = next_reduced(words)?;
            Ok(Signature::Reduce {
                root,
                op,
                elem_type,
                count,
            })
        }
        _ => unreachable!(),
    }
}

// The signature of a plain kind, by the fields that the words in front give.
#[tactic(auto, unfolding(crate::specs::Fields::stated_at, crate::specs::Fields::fields_at, crate::specs::Fields::with_field, crate::specs::Table::forms_of, crate::specs::Table::own_of, coll_routes::specs::Signatures::signature_by, coll_routes::specs::Signatures::kind, crate::specs::Fields::elem_type_at, crate::specs::Fields::block_at, crate::specs::Fields::rooted_at, crate::specs::Fields::gathered_at))]
fn next_signature(kind: Kind, words: &mut Parts) -> Result<Signature, LineFault>
    requires { is_plain kind ≡ true }
    ensures statement { Takes (λ s. (s, Own.Plain)) result words.new (stated_at kind words.old) }
    ensures form { IfOk result (λ s. is_own_of (kind_of_signature s) Own.Plain ≡ true) }
    ensures memory { result ≢ Err LineFault.NoMemory }
{
    match kind {
        Kind::Barrier => Ok(Signature::Barrier),
        Kind::Bcast => {
            let (root, elem_type, count) = next_rooted(words)?;
            Ok(Signature::Bcast {
                root,
                elem_type,
                count,
            })
        }
        Kind::Gather => {
            let (root, elem_type, count) = next_rooted(words)?;
            Ok(Signature::Gather {
                root,
                elem_type,
                count,
            })
        }
        Kind::Scatter => {
            let (root, elem_type, count) = next_rooted(words)?;
            Ok(Signature::Scatter {
                root,
                elem_type,
                count,
            })
        }
        Kind::Allgather => {
            let (elem_type, count) = next_block(words)?;
            Ok(Signature::Allgather { elem_type, count })
        }
        Kind::Alltoall => {
            let (elem_type, count) = next_block(words)?;
            Ok(Signature::Alltoall { elem_type, count })
        }
        Kind::NeighborAllgather => {
            let (elem_type, count) = next_block(words)?;
            Ok(Signature::NeighborAllgather { elem_type, count })
        }
        Kind::NeighborAlltoall => {
            let (elem_type, count) = next_block(words)?;
            Ok(Signature::NeighborAlltoall { elem_type, count })
        }
        Kind::Gatherv => {
            let (root, elem_type) = next_gathered(words)?;
            Ok(Signature::Gatherv { root, elem_type })
        }
        Kind::Allgatherv => {
            let elem_type = next_type(words)?;
            Ok(Signature::Allgatherv { elem_type })
        }
        Kind::NeighborAllgatherv => {
            let elem_type = next_type(words)?;
            Ok(Signature::NeighborAllgatherv { elem_type })
        }
        Kind::Dup => Ok(Signature::Dup),
        Kind::Reduce | Kind::Allreduce | Kind::ReduceScatterBlock | Kind::Scan | Kind::Exscan =>
            next_reduction(kind, words),
        _ => unreachable!(),
    }
}

// Reads the fields of a kind with lists, or with a colour and a key, straight into what they make.
#[tactic(auto, unfolding(crate::specs::Fields::stated_at, crate::specs::Fields::fields_at, crate::specs::Fields::with_field, crate::specs::Table::forms_of, crate::specs::Table::own_of, coll_routes::specs::Signatures::signature_by, coll_routes::specs::Signatures::kind, coll_routes::specs::Signatures::elem_type, crate::specs::Fields::elem_type_at, crate::specs::Fields::op_at, crate::specs::Fields::gathered_at, crate::specs::Fields::numbers_at, crate::specs::Fields::flags_at, crate::specs::Fields::colour_at, crate::specs::Fields::key_at))]
fn next_listing(
    memory: &mut Memory,
    kind: Kind,
    words: &mut Parts,
) -> Result<(Signature, Own), LineFault>
    requires { is_plain kind ≡ false }
    ensures kept { memory.new ≡ false →
        Takes (λ s. s) result words.new (stated_at kind words.old) }
    ensures typed { Takes (λ s. elem_type s.0) result words.new
        (type_stated (stated_at kind words.old)) }
    ensures form { IfOk result (λ s. is_own_of (kind_of_signature s.0) s.1 ≡ true) }
    ensures stays { memory.new ≡ false → memory.old ≡ false }
    ensures memory { result ≢ Err LineFault.NoMemory }
{
    match kind {
        Kind::Scatterv => {
            let (root, elem_type) = next_gathered(words)?;
            let counts = next_numbers(memory, words)?;
            Ok((Signature::Scatterv { root, elem_type }, Own::Counts(counts)))
        }
        Kind::Alltoallv => {
            let elem_type = next_type(words)?;
            let counts = next_numbers(memory, words)?;
            Ok((Signature::Alltoallv { elem_type }, Own::Counts(counts)))
        }
        Kind::NeighborAlltoallv => {
            let elem_type = next_type(words)?;
            let counts = next_numbers(memory, words)?;
            Ok((
                Signature::NeighborAlltoallv { elem_type },
                Own::Counts(counts),
            ))
        }
        Kind::ReduceScatter => {
            let op = next_op(words)?;
            let elem_type = next_type(words)?;
            let counts = next_numbers(memory, words)?;
            let sig = Signature::ReduceScatter {
                op,
                elem_type,
                counts,
            };
            Ok((sig, Own::Plain))
        }
        Kind::Split => {
            let colour = next_colour(words)?;
            let key = next_key(words)?;
            Ok((Signature::Split, Own::Split { colour, key }))
        }
        Kind::Create => {
            let ranks = next_numbers(memory, words)?;
            Ok((Signature::Create { ranks }, Own::Plain))
        }
        Kind::CartCreate => {
            let dims = next_numbers(memory, words)?;
            let periods = next_flags(memory, words)?;
            Ok((Signature::CartCreate { dims, periods }, Own::Plain))
        }
        Kind::CartSub => {
            let keep = next_flags(memory, words)?;
            Ok((Signature::CartSub { keep }, Own::Plain))
        }
        _ => unreachable!(),
    }
}

// Reads the fields of this kind.
fn next_stated(
    memory: &mut Memory,
    kind: Kind,
    words: &mut Parts,
) -> Result<(Signature, Own), LineFault>
    ensures kept { memory.new ≡ false →
        Takes (λ s. s) result words.new (stated_at kind words.old) }
    ensures typed { Takes (λ s. elem_type s.0) result words.new
        (type_stated (stated_at kind words.old)) }
    ensures form { IfOk result (λ s. is_own_of (kind_of_signature s.0) s.1 ≡ true) }
    ensures stays { memory.new ≡ false → memory.old ≡ false }
    ensures memory { result ≢ Err LineFault.NoMemory }
{
    if is_plain(kind) {
        let sig = next_signature(kind, words)?;
        return Ok((sig, Own::Plain));
    }
    next_listing(memory, kind, words)
}

/// Reads a kind and its fields: what the members of an instance state alike, and what the poster
/// states for itself.
///
/// The words behind them are left to be read. Takes memory only for fields that are lists; where
/// it ran out the words are read to the same end, and of the statement its type of elements alone
/// is known.
/// `BadShape` where a field is empty or missing, `BadKind`, `BadType` and `UnknownOp` for a word
/// that is none, `BadField` for any other field out of its form or range.
#[tactic(auto, unfolding(crate::specs::Fields::statement_at, crate::specs::Fields::stated_at))]
pub fn next_statement(memory: &mut Memory, words: &mut Parts) -> Result<(Signature, Own), LineFault>
    ensures kept { memory.new ≡ false →
        Takes (λ s. s) result words.new (statement_at words.old) }
    ensures typed { Takes (λ s. elem_type s.0) result words.new
        (type_stated (statement_at words.old)) }
    ensures form { IfOk result (λ s. is_own_of (kind s.0) s.1 ≡ true) }
    ensures stays { memory.new ≡ false → memory.old ≡ false }
    ensures memory { result ≢ Err LineFault.NoMemory }
{
    let word = next_word(words)?;
    let kind = Kind::named(word).ok_or(LineFault::BadKind)?;
    next_stated(memory, kind, words)
}

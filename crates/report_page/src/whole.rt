//! The page of a report.
ghost use Rattle.std.specs.Prelude.{◌≡◌, ◌++◌, length, IfOk, IfErr, OnOk};
ghost use Rattle.run_model.specs.Books.{IsSound};
ghost use Rattle.run_model.specs.PostLaws.{KeepsTheWall};
ghost use Rattle.audit_book.specs.Checks.{IsFaultOf, Stands};
ghost use Rattle.book_report.specs.Held.{posts_to};
ghost use Rattle.report_page.specs.Page.{tables_text, page_text, IsPage};

use crate::bars::put_bars;
use crate::denials::put_denials;
use crate::instances::put_instances;
use crate::members::put_comms_of;
use crate::picture::put_picture;
use crate::rows::put_rows;
use crate::sanitised::put_sanitised;
use crate::waits::put_waits;
use book_report::{Book, BookFault, Report};
use coll_text::put;
use std::alloc::Global;
use wall_labels::NoMemory;
use wall_policy::Policy;

// What a page begins with: its title and styles.
const HEAD: &str = "\
<!doctype html>
<html lang=en>
<meta charset=utf-8>
<meta name=viewport content=\"width=device-width,initial-scale=1\">
<title>What a book tells</title>
<style>
body{max-width:72rem;margin:0 auto;padding:0 1rem 2rem;font:1rem/1.5 sans-serif;color:#111;\
background:#fff}
h1{font-size:1.5rem}
h2{margin:2rem 0 .5rem;font-size:1.2rem}
figure{margin:0}
.wide{overflow-x:auto}
table{border-collapse:collapse;white-space:nowrap}
th,td{padding:.2rem 1rem .2rem 0;border-bottom:1px solid #ccc;text-align:left;vertical-align:top}
td:last-child{min-width:8rem;padding-right:0;white-space:normal}
.map{display:grid;grid-template-columns:fit-content(40%) 1fr;gap:.2rem 1rem}
.names{overflow:hidden;text-overflow:ellipsis;white-space:nowrap}
svg{width:100%;font-size:1.5rem;overflow:visible;stroke-width:3px}
path{vector-effect:non-scaling-stroke}
.came{color:#036}
.kept{color:#c00}
.ends{display:flex;justify-content:space-between;grid-column:2}
</style>
";

// The tables of what was found, and of what a sound book tells besides.
fn put_tables(
    text: &mut Vec<u8>,
    policy: &Policy,
    book: &Book,
    found: &Report,
) -> Result<(), NoMemory>
    requires sound { IsSound policy.now book.now.list }
    requires at_end { Stands policy.now found.now.at_end
        (posts_to book.now.list (length book.now.list)) }
    ensures { OnOk result (text.new.items ≡ text.old.items ++ tables_text policy.now book.now.list
        found.now.rows.items found.now.sanitised.items found.now.waits.items
        found.now.bars.items found.now.denials.items) }
{
    put_rows(text, policy, book, &found.rows)?;
    put_comms_of(text, policy, &found.at_end)?;
    put_instances(text, policy, book)?;
    put_sanitised(text, policy, book, &found.sanitised)?;
    put_waits(text, policy, book, &found.waits)?;
    put_bars(text, policy, &found.bars)?;
    put_denials(text, policy, &found.denials)?;
    Ok(())
}

fn page_of(alloc: Global, policy: &Policy, book: &Book, found: &Report) -> Result<Vec<u8>, NoMemory>
    requires sound { IsSound policy.now book.now.list }
    requires at_end { Stands policy.now found.now.at_end
        (posts_to book.now.list (length book.now.list)) }
    ensures { IfOk result (λ text. text.items ≡ page_text policy.now book.now.list
        found.now.rows.items found.now.sanitised.items found.now.waits.items
        found.now.bars.items found.now.denials.items) }
{
    let mut text = Vec::new(alloc);
    put(&mut text, HEAD)?;
    put(&mut text, "<h1>What a book tells</h1>\n")?;
    put(&mut text, "<p>Entry N stands in line N + 1 of the book. ")?;
    put(
        &mut text,
        "What was held before the first entry is at entry 0.\n",
    )?;
    put_picture(&mut text, policy, book.len() as u64, found)?;
    put_tables(&mut text, policy, book, found)?;
    put(&mut text, "</html>\n")?;
    Ok(text)
}

/// A report on a book as one page of HTML: a picture of when each process came to hold a dataset
/// and when a denial named one, and as tables who holds what, by which entry and how; who is in
/// which communicator; how each instance came out, and whose results were sanitised; which
/// instances wait, and for whom; and why posts were barred and instances denied.
///
/// The book is checked first, as by `check_book`, and where it is not sound its fault is answered.
/// The page has no script and no link and names nothing outside. A number that the policy has no
/// name for is written as no word; there is none in a book that `read_book` has read.
pub fn report_page(alloc: Global, policy: &Policy, book: &Book) -> Result<Vec<u8>, BookFault>
    ensures sound { OnOk result (IsSound policy.now book.now.list) }
    ensures keeps { OnOk result (KeepsTheWall policy.now book.now.list) }
    ensures page { IfOk result (λ text. IsPage policy.now book.now.list text.items) }
    ensures fault { IfErr result (IsFaultOf policy.now book.now.list) }
{
    let found = match Report::of(alloc, policy, book) {
        Ok(found) => found,
        Err(fault) => return Err(fault),
    };
    let page = page_of(alloc, policy, book, &found);
    drop(found);
    match page {
        Ok(page) => Ok(page),
        Err(refused) => Err(BookFault::from(refused)),
    }
}

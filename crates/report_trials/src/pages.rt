//! Pages of books, worked by hand from the books, the rules and the form of a page.

use crate::reports::{OF_CONSULTANTS, OF_FOUR_BANKS};
use crate::walls::{CONSULTANTS, FOUR_BANKS, policy};
use audit_book::{BookFault, read_book};
use report_page::report_page;
use std::process::Abort;
use std::test::Fail;
use wall_policy::Policy;

// What every page begins with; its styles follow.
const FIRST: &str = "<!doctype html>\n<html lang=en>\n<meta charset=utf-8>\n<meta name=viewport ";

// What no page has that stands by itself.
const OUTSIDE: &[&str] = &["http", "<script", "href", "src=", "url(", "@import"];

// The page of a book.
fn page_of(
    rt: &(impl AllocGlobal + Abort),
    policy: &Policy,
    book: &str,
) -> Result<Vec<u8>, BookFault> {
    match read_book(rt.alloc(), policy, book.as_bytes()) {
        Ok(book) => {
            let said = report_page(rt.alloc(), policy, &book);
            drop(book);
            said
        }
        Err(_) => panic!(rt; "the book is not read"),
    }
}

// The page of this book stands by itself, and behind its styles it is this one.
fn is_shown(
    rt: &(impl AllocGlobal + Abort),
    policy: &Policy,
    book: &str,
    expected: &str,
) -> Result<(), Fail> {
    match page_of(rt, policy, book) {
        Ok(page) => is_page(rt, &page, expected),
        Err(_) => panic!(rt; "the book has no page"),
    }
}

// The same under the policy of a text.
fn is_shown_under(
    rt: &(impl AllocGlobal + Abort),
    wall: &str,
    book: &str,
    expected: &str,
) -> Result<(), Fail> {
    let policy = policy(rt, wall);
    let ended = is_shown(rt, &policy, book, expected);
    drop(policy);
    ended
}

fn is_page(rt: &(impl AllocGlobal + Abort), page: &[u8], expected: &str) -> Result<(), Fail> {
    assert!(rt; page.starts_with(FIRST.as_bytes()));
    let styles = page.len().saturating_sub(expected.len());
    assert_eq!(rt; &page[styles..], expected.as_bytes());
    assert!(rt; page[..styles].ends_with(b"</style>\n"));
    for word in OUTSIDE {
        assert!(rt; !has(page, word.as_bytes()));
    }
    Ok(())
}

// Whether the word stands somewhere in the text.
fn has(text: &[u8], word: &[u8]) -> bool {
    for at in 0..text.len() {
        if text[at..].starts_with(word) {
            return true;
        }
    }
    false
}

#[test]
fn consultants(rt: HostRuntime) -> Result<(), Fail> {
    is_shown_under(
        &rt,
        CONSULTANTS,
        OF_CONSULTANTS,
        "\
<h1>What a book tells</h1>
<p>Entry N stands in line N + 1 of the book. What was held before the first entry is at entry 0.
<h2>When datasets came in, and when denials kept them out</h2>
<figure>
<div class=map>
<div class=names>a0<br>b0<br>c0<br>consultant<br></div>
<svg role=img aria-label=\"A track for each process, entries from left to right. \
The tables tell in words what it shows.\" preserveAspectRatio=none viewBox=\"0 0 32 4\" height=4em>
<path stroke=#bbb stroke-width=1 d=\"M0 0.5h32M0 1.5h32M0 2.5h32M0 3.5h32\"/>
<path stroke=#c00 d=\"M21 3.1v.8M27 3.1v.8\"/>
<path stroke=#036 d=\"M0 0.25v.5M0 1.25v.5M0 2.25v.5M17 3.25v.5M23 3.25v.5\"/>
</svg>
<div class=ends><span>entry 0</span><span>entry 31</span></div>
</div>
<figcaption><b class=came>Blue</b>: by this entry a dataset came in.
<b class=kept>Red</b>, and longer: this entry tells a denial, which names this process.</figcaption>
</figure>
<h2>Who holds what, and by which entry</h2>
<div class=wide><table>
<tr><th>Entry<th>Process<th>Dataset<th>How it came
<tr><td>0<td>a0<td>alpha<td>its home
<tr><td>0<td>b0<td>beta<td>its home
<tr><td>0<td>c0<td>crude<td>its home
<tr><td>17<td>consultant<td>alpha<td>bcast 1 0 from a0
<tr><td>23<td>consultant<td>crude<td>bcast 3 0 from c0
</table></div>
<h2>Who is in which communicator</h2>
<div class=wide><table>
<tr><th>Communicator<th>Rank<th>Process
<tr><td>0<td>0<td>a0
<tr><td>0<td>1<td>b0
<tr><td>0<td>2<td>c0
<tr><td>0<td>3<td>consultant
<tr><td>1<td>0<td>a0
<tr><td>1<td>1<td>consultant
<tr><td>2<td>0<td>b0
<tr><td>2<td>1<td>consultant
<tr><td>3<td>0<td>c0
<tr><td>3<td>1<td>consultant
</table></div>
<h2>How each instance came out</h2>
<div class=wide><table>
<tr><th>Instance<th>Kind<th>Filled by entry<th>Outcome
<tr><td>0 0<td>create<td>4<td>made 1 1
<tr><td>0 1<td>create<td>9<td>made 2 1
<tr><td>0 2<td>create<td>14<td>made 3 1
<tr><td>1 0<td>bcast<td>17<td>granted
<tr><td>2 0<td>bcast<td>20<td>denied simple consultant beta
<tr><td>3 0<td>bcast<td>23<td>granted
<tr><td>1 1<td>bcast<td>26<td>denied star consultant alpha
<tr><td>1 2<td>bcast<td>30<td>granted
</table></div>
<h2>Whose results were sanitised</h2>
<div class=wide><table>
<tr><th>Instance<th>Kind<th>Filled by entry<th>Process
</table></div>
<h2>Which instances wait, and for whom</h2>
<div class=wide><table>
<tr><th>Instance<th>Kind<th>Process<th>Posted by entry
<tr><td>3 1<td>bcast<td>c0<td>missing
<tr><td>3 1<td>bcast<td>consultant<td>28
</table></div>
<h2>Why posts were barred</h2>
<div class=wide><table>
<tr><th>Entry<th>Process<th>May not post under<th>Since it holds
<tr><td>25<td>consultant<td>alpha<td>crude
<tr><td>28<td>consultant<td>crude<td>alpha
</table></div>
<h2>Why instances were denied</h2>
<div class=wide><table>
<tr><th>Entry<th>Instance<th>Why
<tr><td>21<td>2 0<td>consultant holds alpha; beta would come from b0 by entry 19
<tr><td>27<td>1 1<td>entry 25 was barred; consultant may not post under alpha
</table></div>
</html>
",
    )
}

#[test]
fn two_rivals_at_once(rt: HostRuntime) -> Result<(), Fail> {
    is_shown_under(
        &rt,
        FOUR_BANKS,
        OF_FOUR_BANKS,
        "\
<h1>What a book tells</h1>
<p>Entry N stands in line N + 1 of the book. What was held before the first entry is at entry 0.
<h2>When datasets came in, and when denials kept them out</h2>
<figure>
<div class=map>
<div class=names>a0<br>b0<br>g0<br>d0<br>n0<br></div>
<svg role=img aria-label=\"A track for each process, entries from left to right. \
The tables tell in words what it shows.\" preserveAspectRatio=none viewBox=\"0 0 9 5\" height=5em>
<path stroke=#bbb stroke-width=1 d=\"M0 0.5h9M0 1.5h9M0 2.5h9M0 3.5h9M0 4.5h9\"/>
<path stroke=#c00 d=\"M6 4.1v.8\"/>
<path stroke=#036 d=\"M0 0.25v.5M0 1.25v.5M0 2.25v.5M0 3.25v.5M7 4.25v.5\"/>
</svg>
<div class=ends><span>entry 0</span><span>entry 8</span></div>
</div>
<figcaption><b class=came>Blue</b>: by this entry a dataset came in.
<b class=kept>Red</b>, and longer: this entry tells a denial, which names this process.</figcaption>
</figure>
<h2>Who holds what, and by which entry</h2>
<div class=wide><table>
<tr><th>Entry<th>Process<th>Dataset<th>How it came
<tr><td>0<td>a0<td>alpha<td>its home
<tr><td>0<td>b0<td>beta<td>its home
<tr><td>0<td>g0<td>gamma<td>its home
<tr><td>0<td>d0<td>delta<td>its home
<tr><td>7<td>n0<td>alpha<td>own post
</table></div>
<h2>Who is in which communicator</h2>
<div class=wide><table>
<tr><th>Communicator<th>Rank<th>Process
<tr><td>0<td>0<td>a0
<tr><td>0<td>1<td>b0
<tr><td>0<td>2<td>g0
<tr><td>0<td>3<td>d0
<tr><td>0<td>4<td>n0
</table></div>
<h2>How each instance came out</h2>
<div class=wide><table>
<tr><th>Instance<th>Kind<th>Filled by entry<th>Outcome
<tr><td>0 0<td>gather<td>5<td>denied simple n0 beta
</table></div>
<h2>Whose results were sanitised</h2>
<div class=wide><table>
<tr><th>Instance<th>Kind<th>Filled by entry<th>Process
</table></div>
<h2>Which instances wait, and for whom</h2>
<div class=wide><table>
<tr><th>Instance<th>Kind<th>Process<th>Posted by entry
<tr><td>0 1<td>allgather<td>a0<td>missing
<tr><td>0 1<td>allgather<td>b0<td>missing
<tr><td>0 1<td>allgather<td>g0<td>missing
<tr><td>0 1<td>allgather<td>d0<td>8
<tr><td>0 1<td>allgather<td>n0<td>7
</table></div>
<h2>Why posts were barred</h2>
<div class=wide><table>
<tr><th>Entry<th>Process<th>May not post under<th>Since it holds
<tr><td>8<td>d0<td>public<td>delta
</table></div>
<h2>Why instances were denied</h2>
<div class=wide><table>
<tr><th>Entry<th>Instance<th>Why
<tr><td>6<td>0 0<td>n0 would get two rivals: alpha from a0 by entry 2, beta from b0 by entry 3
</table></div>
</html>
",
    )
}

// A book that is not sound has no page, and one without entries has.
#[test]
fn unsound_books(rt: HostRuntime) -> Result<(), Fail> {
    let policy = policy(&rt, FOUR_BANKS);
    let book = "book 2\npost 0 0 bcast 0 int32 1 gives 1 as alpha barred\nend 1\n";
    let of_barred = page_of(&rt, &policy, book);
    let of_empty = page_of(&rt, &policy, "book 2\nend 0\n");
    drop(policy);
    match of_barred {
        Ok(page) => {
            drop(page);
            panic!(&rt; "the book has a page")
        }
        Err(fault) => assert!(&rt; fault == BookFault::BadEntry(1)),
    }
    match of_empty {
        Ok(page) => {
            assert!(&rt; has(&page, b"viewBox=\"0 0 1 5\" height=5em>\n"));
            Ok(())
        }
        Err(_) => panic!(&rt; "the book has no page"),
    }
}

//! How the program is used, and its version. (Own format.)
ghost use Rattle.std.specs.Prelude.{◌≡◌, option_map};
ghost use Rattle.program_words.specs.Usage.{command_usage, usage_of};

/// The program's name and version: the date of the newest changes in `CHANGELOG.md`.
pub const VERSION: &str = "consortium 2026-12-01\n";

const PROGRAM: &str = "\
usage: consortium COMMAND WORDS

  serve POLICY DIR [--after BOOK].. [--book FILE] [--sync] [--calls N] [--times]
  serve POLICY DIR --chain CHAIN --book FILE [--sync] [--calls N] [--times]
      answers each process of a policy live, at its two named pipes in DIR
  replay POLICY SCRIPT [--after BOOK].. [--book FILE]
  replay POLICY SCRIPT --chain CHAIN [--book FILE]
      makes the calls of a script in its order, and writes the replies
  run POLICY SCRIPT [--after BOOK].. [--book FILE]
  run POLICY SCRIPT --chain CHAIN [--book FILE]
      the same with a thread for each process, whose takes wait
  audit POLICY BOOK [--after BOOK]..
      tells whether a book is what its posts give
  audit --chain CHAIN
      the same of all books of a chain, each under the policy of its own day
  seal POLICY BOOK OUT [--after BOOK]..
      makes a whole book of one that was cut, in a new file
  seal --chain CHAIN
      the same of the last run of a chain, in place of its book
  check POLICY [SCRIPT] [--book BOOK [--after BOOK]..]
      tells what a policy means, and where a policy, a script or a book is at fault
  report POLICY BOOK [--after BOOK].. [--html FILE]
      tells who came to hold what by a book, and why posts were barred and instances denied
  report --chain CHAIN [--html FILE]
      the same by the book of the last run of a chain
  usage [COMMAND]
      this text, or that of one command
  version
      the version of the program

status  0  all was done
        1  the policy is refused
        2  a script, a book or an earlier book is refused, or is not sound
        3  a file, a pipe or an output failed, or a file is too long, or is there already
        4  memory or a thread was refused
        5  the words ask for nothing that the program does

`consortium usage COMMAND` has the lines that a command writes with each status.
";

const REPLAY: &str = "\
usage: consortium replay POLICY SCRIPT [--after BOOK].. [--book FILE]
       consortium replay POLICY SCRIPT --chain CHAIN [--book FILE]

Makes the calls of SCRIPT in its order under POLICY, and writes a line for each reply to standard
output. With --book it then writes the audit book to FILE; an older FILE is replaced. With --after,
any number of times, the oldest first, it goes on after the books of earlier runs; with --chain
after all runs of the chain file CHAIN, as the next run would. CHAIN stays as it is.

status  0  all lines were answered, and the book was written if it was asked for
        1  the policy is refused                             policy: NAME
        1  the policy has not grown from the chain's last    chain: next run: policy: ..
        2  an earlier book is no book, or not sound          after PATH: ..
        2  CHAIN is no chain, or a run of it does not stand  chain: ..
        2  a line of the script is no call                   script: line N: NAME
        3  an earlier book or FILE is in use                 book in use: PATH
        3  FILE is of the chain                              book exists: FILE
        3  a file could not be read, or is too long          read fault
        3  a reply or the book could not be written          write fault
        4  memory was refused                                out of memory
        5  the words are bad                                 bad arguments
";

const RUN: &str = "\
usage: consortium run POLICY SCRIPT [--after BOOK].. [--book FILE]
       consortium run POLICY SCRIPT --chain CHAIN [--book FILE]

Gives each process the calls of SCRIPT that are its own, in a thread for each, whose takes wait.
Writes a line `rank P NAME` and the replies for each process, and the audit book to FILE with
--book; an older FILE is replaced. With --after, any number of times, the oldest first, it goes on
after the books of earlier runs; with --chain after all runs of the chain file CHAIN, as the next
run would. CHAIN stays as it is.

status  0  all lines were answered, and the book was written if it was asked for
        1  the policy is refused                             policy: NAME
        1  the policy has not grown from the chain's last    chain: next run: policy: ..
        2  an earlier book is no book, or not sound          after PATH: ..
        2  CHAIN is no chain, or a run of it does not stand  chain: ..
        2  a line of the script is no call                   script: line N: NAME
        3  an earlier book or FILE is in use                 book in use: PATH
        3  FILE is of the chain                              book exists: FILE
        3  a file could not be read, or is too long          read fault
        3  the replies or the book could not be written      write fault
        4  memory was refused                                out of memory
        4  a thread was refused                              no thread
        4  the calls were too many                           exhausted
        5  the words are bad                                 bad arguments
";

const AUDIT: &str = "\
usage: consortium audit POLICY BOOK [--after BOOK]..
       consortium audit --chain CHAIN

Tells whether BOOK is what its posts give under POLICY: `sound N`, or `unsound at entry N`. With
--after, any number of times, the oldest first, the book is one that goes on after earlier ones.
With --chain it reads all runs of the chain file CHAIN, each from its policy and its book, and tells
of how many runs and entries they are, and the head of the chain.

status  0  the book is sound                                 sound N, on standard output
        0  all runs of the chain stand                       sound R runs, N entries, head HEX
        1  the policy is refused                             policy: NAME
        2  an earlier book is no book, or not sound          after PATH: ..
        2  the book is unsound                               unsound at entry N, there too
        2  the file is no book                               book: line N, book: cut
        2  the file is no chain                              chain: line N: .., chain: cut
        2  a run of the chain does not stand                 chain: run N: ..
        2  its last run has not ended                        chain: run N has not ended
        3  a server writes the book or an earlier one        book in use: PATH
        3  a file could not be read, or is too long          read fault
        3  the line could not be written                     write fault
        4  memory was refused                                out of memory
        5  the words are bad                                 bad arguments
";

const SERVE: &str = "\
usage: consortium serve POLICY DIR [--after BOOK].. [--book FILE] [--sync] [--calls N] [--times]
       consortium serve POLICY DIR --chain CHAIN --book FILE [--sync] [--calls N] [--times]

Answers each process of POLICY live, at the two named pipes NAME.calls and NAME.replies in DIR,
until all have left. With --book the audit book is written to FILE, a new file, while it runs; with
--sync its data is on the disk before a post is answered that settled an instance. With --after, any
number of times, the oldest first, it goes on after the books of earlier runs; with --chain it is
the next run of the chain file CHAIN, which gets a line when it begins and one when it has ended.
With --calls a session that has made N calls, from 1 to 2^62, is answered `exhausted` at the next,
and ends. With --times the line of each event begins with its time, in UTC. The operator's own pair
of pipes in DIR, if there is one, takes `status`, `dismiss NAME` and `end`.

status  0  all have left, and the book was written if it was asked for
        1  the policy is refused                             policy: NAME
        1  the policy has not grown from the chain's last    chain: next run: policy: ..
        2  an earlier book is no book, or not sound          after PATH: ..
        2  CHAIN is no chain, or a run of it does not stand  chain: ..
        3  a pipe is missing, or open to others              no pipe: NAME, open to others: NAME
        3  a process's pipes could not be opened             not opened: NAME
        3  another server is at DIR or CHAIN                 in use: DIR, in use: CHAIN
        3  the pipes have served a run already               pipes used: DIR
        3  there is a file at FILE already                   book exists: FILE
        3  another server writes an earlier book             book in use: PATH
        3  a file could not be read, or is too long          read fault
        3  the events or the book could not be written       write fault
        4  memory was refused                                out of memory
        4  a thread was refused                              no thread
        4  a session asked for more calls than it may make   exhausted
        5  the words are bad                                 bad arguments
";

const SEAL: &str = "\
usage: consortium seal POLICY BOOK OUT [--after BOOK]..
       consortium seal --chain CHAIN

Makes a whole book of BOOK, which was cut, in the new file OUT: a line that is not finished goes,
the verdict that the last post settles is added if it is missing, and the end line. With --after,
any number of times, the oldest first, the book is one that goes on after earlier ones. With --chain
it does so for the last run of the chain file CHAIN, which has not ended: the whole book takes the
place of the cut one, and the chain gets the line that the run has ended.

status  0  the whole book stands in OUT                      sealed N, on standard output
        1  the policy is refused                             policy: NAME
        2  an earlier book is no book, or not sound          after PATH: ..
        2  a finished line is not in its form                book: line N
        2  no sound book begins with its entries             unsound at entry N, there too
        2  CHAIN is no chain, or a run of it does not stand  chain: ..
        3  a server writes the book or an earlier one        book in use: PATH
        3  a file could not be read, or is too long          read fault
        3  OUT is there already, or could not be written     write fault
        3  a server or another seal is at CHAIN              in use: CHAIN
        4  memory was refused                                out of memory
        5  the words are bad                                 bad arguments
";

const CHECK: &str = "\
usage: consortium check POLICY [SCRIPT] [--book BOOK [--after BOOK]..]

Tells what POLICY means, a line for each fact, and what in it is hardly meant, behind `warning: `.
Where the policy is refused it tells the line in place of that. Of SCRIPT it tells each line that is
no call, and of BOOK, which is checked as by an audit, where it is at fault. With --after, any
number of times, the oldest first, the book is one that goes on after earlier ones.

status  0  all of it reads, and the book is sound
        1  the policy is refused                             policy: NAME
        2  a line of the script is no call                   script: line N: NAME
        2  an earlier book is no book, or not sound          after PATH: ..
        2  the book is unsound                               PATH:LINE: .., on standard output
        2  the file is no book                               book: line N, book: cut
        3  a server writes the book or an earlier one        book in use: PATH
        3  a file could not be read, or is too long          cannot read PATH: ..
        3  a line could not be written                       write fault
        4  memory was refused                                out of memory
        5  the words are bad                                 bad arguments
";

const REPORT: &str = "\
usage: consortium report POLICY BOOK [--after BOOK].. [--html FILE]
       consortium report --chain CHAIN [--html FILE]

Tells who came to hold what by BOOK, by which entry and how, what became of each instance, and for
each post that was barred and each instance that was denied the reason. With --html it then writes
the same with a picture, as a page by itself, to FILE; an older FILE is replaced. With --after, any
number of times, the oldest first, the book is one that goes on after earlier ones. With --chain it
is the book of the last run of the chain file CHAIN, under the policy of that run, after the runs
before it; all runs have ended, and are read again as by an audit.

status  0  the book is sound, and the report was written, and the page if it was asked for
        1  the policy is refused                             policy: NAME
        2  an earlier book is no book, or not sound          after PATH: ..
        2  the book is unsound                               unsound at entry N, on standard output
        2  the file is no book                               book: line N, book: cut
        2  CHAIN is no chain, or a run of it does not stand  chain: ..
        2  a run is under way, or there is none              chain: ..
        3  CHAIN could not be read, or is too long           read fault
        3  a book or FILE is in use                          book in use: PATH
        3  FILE is of the chain                              book exists: FILE
        3  a file could not be read, or is too long          cannot read PATH: ..
        3  the report or the page could not be written       write fault
        4  memory was refused                                out of memory
        5  the words are bad                                 bad arguments
";

const USAGE: &str = "\
usage: consortium usage [COMMAND]

Tells how the program is used, or one of its commands, on standard output.

status  0  the text was written
        3  it could not be written                           write fault
        4  memory was refused                                out of memory
        5  the words are bad, or there is no such command    bad arguments
";

const TELL_VERSION: &str = "\
usage: consortium version

Tells the version of the program on standard output: the date of its newest changes.

status  0  the line was written
        3  it could not be written                           write fault
        4  memory was refused                                out of memory
        5  the words are bad                                 bad arguments
";

// The usage of the command of this name.
fn command_usage(name: &str) -> Option<&'static str>
    ensures { option_map (λ t. t.now) result ≡ command_usage name.now }
{
    match name {
        "replay" => Some(REPLAY),
        "run" => Some(RUN),
        "audit" => Some(AUDIT),
        "serve" => Some(SERVE),
        "seal" => Some(SEAL),
        "check" => Some(CHECK),
        "report" => Some(REPORT),
        "usage" => Some(USAGE),
        "version" => Some(TELL_VERSION),
        _ => None,
    }
}

/// How the program is used, or the command of this name, with each status and its line; `None`
/// exactly where there is no such command. No line has more than 100 bytes.
pub fn usage_text(command: Option<&str>) -> Option<&'static str>
    ensures { option_map (λ t. t.now) result ≡ usage_of (option_map (λ c. c.now) command.entry) }
{
    match command {
        Some(name) => command_usage(name),
        None => Some(PROGRAM),
    }
}

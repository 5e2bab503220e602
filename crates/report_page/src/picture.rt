//! The picture: when datasets came in, and when denials kept them out.
ghost use Rattle.std.specs.Prelude.{◌≡◌, ℕ, ◌<◌, ◌+◌, ◌^◌, ◌++◌, List, length, slice_get};
ghost use Rattle.std.specs.Prelude.{Some, OnOk};
ghost use Rattle.std.specs.List.{flat_map};
ghost use Rattle.wall_labels.specs.Limits.{process_limit};
ghost use Rattle.report_text.specs.Words.{numbered};
ghost use Rattle.report_page.specs.Picture.{name_line, names_text, frame_text, track_line};
ghost use Rattle.report_page.specs.Picture.{tracks_text, kept_line, kept_text, came_line};
ghost use Rattle.report_page.specs.Picture.{came_text, key_text, path_front, picture_text};

use crate::escape::put_escaped;
use book_report::{Denial, Report, Row};
use coll_text::{put, put_behind, put_decimal};
use std::alloc::AllocError;
use wall_labels::ProcessId;
use wall_policy::Policy;

// The name at the track of this process.
fn put_name(text: &mut Vec<u8>, policy: &Policy, process: u32) -> Result<(), AllocError>
    requires named { process < length policy.now.process_names }
    requires few { process < process_limit }
    ensures { OnOk result ((name : List ℕ) → slice_get policy.now.process_names process ≡ Some name
        → text.new.items ≡ text.old.items ++ name_line process name) }
{
    let name = policy.process_name(ProcessId::new(process).unwrap());
    put_escaped(text, name.as_bytes())?;
    put(text, "<br>")
}

fn put_each_name(text: &mut Vec<u8>, policy: &Policy) -> Result<(), AllocError>
    ensures { OnOk result (text.new.items
        ≡ text.old.items ++ numbered name_line 0 policy.now.process_names) }
{
    for process in 0..policy.processes() {
        put_name(text, policy, process)?;
    }
    Ok(())
}

fn put_names(text: &mut Vec<u8>, policy: &Policy) -> Result<(), AllocError>
    ensures { OnOk result
        (text.new.items ≡ text.old.items ++ names_text policy.now.process_names) }
{
    put(text, "<div class=names>")?;
    put_each_name(text, policy)?;
    put(text, "</div>\n")
}

fn put_frame(text: &mut Vec<u8>, width: u64, processes: u64) -> Result<(), AllocError>
    ensures { OnOk result (text.new.items ≡ text.old.items ++ frame_text width processes) }
{
    put(
        text,
        "<svg role=img aria-label=\"A track for each process, entries from left to right. ",
    )?;
    put(
        text,
        "The tables tell in words what it shows.\" preserveAspectRatio=none viewBox=\"0 0 ",
    )?;
    put_decimal(text, width)?;
    put(text, " ")?;
    put_decimal(text, processes)?;
    put(text, "\" height=")?;
    put_decimal(text, processes)?;
    put(text, "em>\n")
}

// The front of a path of this colour.
fn put_path_front(text: &mut Vec<u8>, colour: &str) -> Result<(), AllocError>
    ensures { OnOk result (text.new.items ≡ text.old.items ++ path_front colour.now) }
{
    put(text, "<path stroke=")?;
    put(text, colour)?;
    put(text, " d=\"")
}

fn put_track(text: &mut Vec<u8>, width: u64, process: u32) -> Result<(), AllocError>
    ensures { OnOk result ((name : List ℕ) →
        text.new.items ≡ text.old.items ++ track_line width process name) }
{
    put(text, "M0 ")?;
    put_decimal(text, u64::from(process))?;
    put(text, ".5h")?;
    put_decimal(text, width)
}

fn put_each_track(text: &mut Vec<u8>, policy: &Policy, width: u64) -> Result<(), AllocError>
    ensures { OnOk result (text.new.items
        ≡ text.old.items ++ numbered (track_line width) 0 policy.now.process_names) }
{
    for process in 0..policy.processes() {
        put_track(text, width, process)?;
    }
    Ok(())
}

fn put_tracks(text: &mut Vec<u8>, policy: &Policy, width: u64) -> Result<(), AllocError>
    ensures { OnOk result
        (text.new.items ≡ text.old.items ++ tracks_text width policy.now.process_names) }
{
    put_path_front(text, "#bbb stroke-width=1")?;
    put_each_track(text, policy, width)?;
    put(text, "\"/>\n")
}

// Where a denial kept something out.
fn put_kept_line(text: &mut Vec<u8>, denial: &Denial) -> Result<(), AllocError>
    ensures { OnOk result (text.new.items ≡ text.old.items ++ kept_line denial.now) }
{
    put_behind(text, b'M', denial.entry)?;
    put_behind(text, b' ', u64::from(denial.process.number()))?;
    put(text, ".1v.8")
}

fn put_kept_lines(text: &mut Vec<u8>, denials: &[Denial]) -> Result<(), AllocError>
    ensures { OnOk result (text.new.items ≡ text.old.items ++ flat_map kept_line denials.now) }
{
    for denial in denials {
        put_kept_line(text, denial)?;
    }
    Ok(())
}

fn put_kept(text: &mut Vec<u8>, denials: &[Denial]) -> Result<(), AllocError>
    ensures { OnOk result (text.new.items ≡ text.old.items ++ kept_text denials.now) }
{
    put_path_front(text, "#c00")?;
    put_kept_lines(text, denials)?;
    put(text, "\"/>\n")
}

// Where a dataset came in.
fn put_came_line(text: &mut Vec<u8>, row: &Row) -> Result<(), AllocError>
    ensures { OnOk result (text.new.items ≡ text.old.items ++ came_line row.now) }
{
    put_behind(text, b'M', row.entry)?;
    put_behind(text, b' ', u64::from(row.process.number()))?;
    put(text, ".25v.5")
}

fn put_came_lines(text: &mut Vec<u8>, rows: &[Row]) -> Result<(), AllocError>
    ensures { OnOk result (text.new.items ≡ text.old.items ++ flat_map came_line rows.now) }
{
    for row in rows {
        put_came_line(text, row)?;
    }
    Ok(())
}

fn put_came(text: &mut Vec<u8>, rows: &[Row]) -> Result<(), AllocError>
    ensures { OnOk result (text.new.items ≡ text.old.items ++ came_text rows.now) }
{
    put_path_front(text, "#036")?;
    put_came_lines(text, rows)?;
    put(text, "\"/>\n")
}

fn put_key(text: &mut Vec<u8>, entries: u64) -> Result<(), AllocError>
    ensures { OnOk result (text.new.items ≡ text.old.items ++ key_text entries) }
{
    put(
        text,
        "</svg>\n<div class=ends><span>entry 0</span><span>entry ",
    )?;
    put_decimal(text, entries)?;
    put(text, "</span></div>\n</div>\n<figcaption>")?;
    put(
        text,
        "<b class=came>Blue</b>: by this entry a dataset came in.\n",
    )?;
    put(
        text,
        "<b class=kept>Red</b>, and longer: this entry tells a denial, which names this process.",
    )?;
    put(text, "</figcaption>\n</figure>\n")
}

/// The picture of what was found of a book with so many entries: of the rows and denials.
pub(crate) fn put_picture(
    text: &mut Vec<u8>,
    policy: &Policy,
    entries: u64,
    found: &Report,
) -> Result<(), AllocError>
    requires { entries < 2 ^ 62 }
    ensures { OnOk result (text.new.items ≡ text.old.items
        ++ picture_text policy.now entries found.now.rows.items found.now.denials.items) }
{
    put(
        text,
        "<h2>When datasets came in, and when denials kept them out</h2>\n",
    )?;
    put(text, "<figure>\n<div class=map>\n")?;
    put_names(text, policy)?;
    put_frame(text, entries + 1, u64::from(policy.processes()))?;
    put_tracks(text, policy, entries + 1)?;
    put_kept(text, &found.denials)?;
    put_came(text, &found.rows)?;
    put_key(text, entries)
}

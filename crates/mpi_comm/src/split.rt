//! The groups of a split.
ghost use Rattle.std.specs.Prelude.{ℤ, ◌≡◌, ◌+◌, ◌<◌, ℕ, List, length, map};
ghost use Rattle.std.specs.Prelude.{false, IfOk};
ghost use Rattle.std.specs.List.{list_any, filter_map};
ghost use Rattle.std.specs.Ordering.{int_cmp, is_lt};
ghost use Rattle.std.specs.List.Sorted.{IsSorted, IsSortedBy, IsStable, IsStableBy};
ghost use Rattle.mpi_comm.specs.Sorting.{sorted_by};
ghost use Rattle.mpi_comm.specs.Splits.{asks_for, asked, goes_before, has_bad_colour, colours_of};
ghost use Rattle.mpi_comm.specs.Splits.{ranks_for, split_groups};
ghost use Rattle.mpi_comm.specs.Asks.{is_last};

use super::table::included;
use super::values::Ask;
use mpi_group::Group;
use std::alloc::{AllocError, Global};
use wall_labels::NoMemory;

/// Whether a colour is negative.
pub(crate) fn has_bad_colour(asks: &[Ask]) -> bool
    ensures { result ≡ has_bad_colour asks.now }
{
    asks.iter()
        .any(|ask| ask.colour.map_or(false, |colour| colour < 0))
}

/// How many colours are asked for. It takes no memory, so it goes over the asks once for each of
/// them.
pub(crate) fn number_of_colours(asks: &[Ask]) -> usize
    ensures { result ≡ length (colours_of asks.now) }
{
    let mut number = 0;
    let mut rest = asks;
    while let Some((ask, others)) = rest.split_first() {
        if is_last_of_its_colour(ask, others) {
            number += 1;
        }
        rest = others;
    }
    number
}

// Whether the member asks for a colour for which none of the others does.
fn is_last_of_its_colour(ask: &Ask, others: &[Ask]) -> bool
    ensures { result ≡ is_last ask.now others.now }
{
    match ask.colour {
        Some(colour) => !is_asked_for(colour, others),
        None => false,
    }
}

fn is_asked_for(colour: i32, asks: &[Ask]) -> bool
    ensures { result ≡ list_any (asks_for colour) asks.now }
{
    asks.iter().any(|ask| asks_for(colour, ask))
}

fn asks_for(colour: i32, ask: &Ask) -> bool
    ensures { result ≡ asks_for colour ask.now }
{
    match ask.colour {
        Some(own) => own == colour,
        None => false,
    }
}

/// The groups of a split, by their colours.
pub(crate) fn split_groups(
    alloc: Global,
    group: &Group,
    asks: &[Ask],
) -> Result<Vec<Group>, NoMemory>
    requires { length asks.now ≡ length group.now }
    ensures { IfOk result (λ made. made.items ≡ split_groups asks.now group.now) }
{
    let colours = colours_of(alloc, asks)?;
    let mut made = Vec::with_capacity(alloc, colours.len())?;
    for colour in colours.as_slice() {
        let ranks = ranks_for(alloc, *colour, asks, group.size())?;
        made.push(included(alloc, group, ranks.as_slice())?)?;
    }
    Ok(made)
}

// The colours asked for, each once, in ascending order.
fn colours_of(alloc: Global, asks: &[Ask]) -> Result<Vec<i32>, AllocError>
    ensures { IfOk result (λ colours. colours.items ≡ colours_of asks.now) }
{
    let mut colours = stated(alloc, asks)?;
    colours.sort()?;
    colours.dedup();
    Ok(colours)
}

// The colours as they are stated.
fn stated(alloc: Global, asks: &[Ask]) -> Result<Vec<i32>, AllocError>
    ensures { IfOk result (λ colours. colours.items ≡ filter_map (λ ask. ask.colour) asks.now) }
{
    asks.iter().filter_map(|ask| ask.colour).collect(alloc)
}

// The old ranks of those who ask for the colour, in their new order.
fn ranks_for(alloc: Global, colour: i32, asks: &[Ask], size: u32) -> Result<Vec<u32>, AllocError>
    requires { length asks.now ≡ size }
    ensures { IfOk result (λ ranks. ranks.items ≡ ranks_for colour asks.now) }
{
    let mut places = places_for(alloc, colour, asks, size)?;
    places.sort()?;
    ranks_of(alloc, places.as_slice())
}

// The keys and ranks of those who ask for the colour.
fn places_for(
    alloc: Global,
    colour: i32,
    asks: &[Ask],
    size: u32,
) -> Result<Vec<(i32, u32)>, AllocError>
    requires { length asks.now ≡ size }
    ensures { IfOk result (λ places. places.items ≡ asked colour asks.now) }
{
    let mut places = Vec::new(alloc);
    for rank in 0..size {
        let ask = &asks[rank as usize];
        if asks_for(colour, ask) {
            places.push(place_of(ask, rank))?;
        }
    }
    Ok(places)
}

fn place_of(ask: &Ask, rank: u32) -> (i32, u32)
    ensures { result ≡ (ask.now.key, rank) }
{
    (ask.key, rank)
}

fn ranks_of(alloc: Global, places: &[(i32, u32)]) -> Result<Vec<u32>, AllocError>
    ensures { IfOk result (λ ranks. ranks.items ≡ map (λ place. place.1) places.now) }
{
    places.iter().map(|place| place.1).collect(alloc)
}

/// The order of a split's places is a stable sort's: ascending by key and then by old rank, those
/// that tie as they stood. So are its colours', each then once.
pub fn splits_are_in_order()
    ensures places { (places : List (ℤ × ℕ)) →
        IsSortedBy goes_before (sorted_by goes_before places) }
    ensures places_kept { (places : List (ℤ × ℕ)) →
        IsStableBy goes_before places (sorted_by goes_before places) }
    ensures colours { (colours : List ℤ) →
        IsSorted int_cmp (sorted_by (λ c d. is_lt (int_cmp c d)) colours) }
    ensures colours_kept { (colours : List ℤ) →
        IsStable int_cmp colours (sorted_by (λ c d. is_lt (int_cmp c d)) colours) }
{}

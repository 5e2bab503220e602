//! The tests of what policies mean, where policies, scripts and books are at fault and what books
//! tell, through the public calls of `policy_meaning`, `meaning_text`, `policy_places`,
//! `script_places`, `check_text`, `book_places`, `book_report`, `report_text` and `report_page`.
//!
//! They stand in a crate of their own, since a check of a crate's tests proves the crate once more.
#![tactic(auto)]

#[cfg(test)]
mod book_lines;
#[cfg(test)]
mod fault_lines;
#[cfg(test)]
mod meanings;
#[cfg(test)]
mod pages;
#[cfg(test)]
mod places;
#[cfg(test)]
mod policy_lines;
#[cfg(test)]
mod reports;
#[cfg(test)]
mod stored;
#[cfg(test)]
mod tables;
#[cfg(test)]
mod walls;

//! Small collectives in groups of 4 to 64 of 64 processes, all at home in one dataset: everything
//! is granted.

use crate::desk::{Case, Desk};
use crate::groups::{nested_groups, small_collectives};
use crate::policy::{Homes, Wall};
use std::alloc::{AllocError, Global};
use trial_kit::Random;

/// A case of about so many bytes.
pub fn small(alloc: Global, random: Random, size: usize) -> Result<Case, AllocError> {
    let wall = Wall {
        processes: 64,
        classes: 8,
        homes: Homes::Together,
        least: 3,
    };
    let mut desk = Desk::new(alloc, wall, random, size)?;
    let groups = nested_groups(alloc, &mut desk)?;
    small_collectives(&mut desk, &groups, size)?;
    desk.finish(alloc)
}

//! Small collectives for ranks in threads: 64 processes at home in one dataset, each of which posts
//! and takes at once. So its replies are the same in whatever order the threads come: everything is
//! granted, and all communicators are made by the world, one call after the other.

use crate::desk::{Case, Desk};
use crate::groups::{nested_groups, small_collectives};
use crate::policy::{Homes, Wall};
use std::alloc::{AllocError, Global};
use trial_kit::Random;

/// A case of about so many bytes.
pub fn threads(alloc: Global, random: Random, size: usize) -> Result<Case, AllocError> {
    let wall = Wall {
        processes: 64,
        classes: 2,
        homes: Homes::Together,
        least: 2,
    };
    let mut desk = Desk::new(alloc, wall, random, size)?;
    let groups = nested_groups(alloc, &mut desk)?;
    small_collectives(&mut desk, &groups, size)?;
    desk.finish(alloc)
}

//! Ids: numbers below the limits of a policy, kept by their types. (The limits are an own rule.)
ghost use Rattle.std.specs.Prelude.{◌≡◌, ◌<◌, ◌↔◌, IsSome, IfSome};
ghost use Rattle.wall_labels.specs.Limits.{process_limit, dataset_limit, class_limit};

use std::marker::Model;

/// The most processes that a policy may have.
pub const PROCESS_LIMIT: u32 = 256;
/// The most datasets that a policy may have.
pub const DATASET_LIMIT: u32 = 1024;
/// The most classes that a policy may have.
pub const CLASS_LIMIT: u32 = 1024;

/// A process of the policy, by its place in the file.
#[derive(Clone, Copy, Debug, PartialEq, Eq, PartialOrd, Ord)]
pub struct ProcessId {
    process: u32,
}

impl Model for ProcessId {
    ghost use Rattle.std.specs.Prelude.{ℕ, ◌<◌};
    ghost use Rattle.wall_labels.specs.Limits.{process_limit};

    ghost Value = { ℕ };

    ghost view = { λ id. id.process };

    ghost invariant = { λ id. id.process < process_limit };

    ghost inverse = { λ n. record { process = n } };
}

impl ProcessId {
    /// The id of that number, where it is below the limit.
    pub fn new(number: u32) -> Option<ProcessId>
        ensures valid { IsSome result ↔ (number < process_limit) }
        ensures value { IfSome result (λ id. id ≡ number) }
    {
        if number < PROCESS_LIMIT {
            Some(ProcessId { process: number })
        } else {
            None
        }
    }

    /// The number, from 0 in the order of the policy file.
    pub fn number(self) -> u32
        ensures value { result ≡ self }
        ensures below { result < process_limit }
    {
        self.process
    }
}

/// A dataset of the policy, by its place in the file.
#[derive(Clone, Copy, Debug, PartialEq, Eq, PartialOrd, Ord)]
pub struct DatasetId {
    dataset: u32,
}

impl Model for DatasetId {
    ghost use Rattle.std.specs.Prelude.{ℕ, ◌<◌};
    ghost use Rattle.wall_labels.specs.Limits.{dataset_limit};

    ghost Value = { ℕ };

    ghost view = { λ id. id.dataset };

    ghost invariant = { λ id. id.dataset < dataset_limit };

    ghost inverse = { λ n. record { dataset = n } };
}

impl DatasetId {
    /// The id of that number, where it is below the limit.
    pub fn new(number: u32) -> Option<DatasetId>
        ensures valid { IsSome result ↔ (number < dataset_limit) }
        ensures value { IfSome result (λ id. id ≡ number) }
    {
        if number < DATASET_LIMIT {
            Some(DatasetId { dataset: number })
        } else {
            None
        }
    }

    /// The number, from 0 in the order of the policy file.
    pub fn number(self) -> u32
        ensures value { result ≡ self }
        ensures below { result < dataset_limit }
    {
        self.dataset
    }
}

/// A class of the policy, by its place in the file.
#[derive(Clone, Copy, Debug, PartialEq, Eq, PartialOrd, Ord)]
pub struct ClassId {
    class: u32,
}

impl Model for ClassId {
    ghost use Rattle.std.specs.Prelude.{ℕ, ◌<◌};
    ghost use Rattle.wall_labels.specs.Limits.{class_limit};

    ghost Value = { ℕ };

    ghost view = { λ id. id.class };

    ghost invariant = { λ id. id.class < class_limit };

    ghost inverse = { λ n. record { class = n } };
}

impl ClassId {
    /// The id of that number, where it is below the limit.
    pub fn new(number: u32) -> Option<ClassId>
        ensures valid { IsSome result ↔ (number < class_limit) }
        ensures value { IfSome result (λ id. id ≡ number) }
    {
        if number < CLASS_LIMIT {
            Some(ClassId { class: number })
        } else {
            None
        }
    }

    /// The number, from 0 in the order of the policy file.
    pub fn number(self) -> u32
        ensures value { result ≡ self }
        ensures below { result < class_limit }
    {
        self.class
    }
}

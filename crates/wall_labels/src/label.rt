//! Labels: what a poster says of the elements that it gives.
ghost use Rattle.std.specs.Prelude.{◌≡◌, ◌↔◌, IsTrue, Some};

use super::ids::DatasetId;

/// What a poster says of the elements that it gives.
#[derive(Clone, Copy, Debug, PartialEq, Eq)]
pub enum Label {
    /// Sanitised information, which is of no dataset.
    Public,
    /// Information of this dataset.
    Of(DatasetId),
}

impl Label {
    ghost use Rattle.wall_labels.specs.Labels.{dataset_of};

    /// The dataset that the label names; none for `Public`.
    pub fn dataset(self) -> Option<DatasetId>
        ensures { result ≡ dataset_of self }
    {
        match self {
            Label::Public => None,
            Label::Of(dataset) => Some(dataset),
        }
    }

    /// Whether the label names this dataset.
    pub fn names(&self, dataset: DatasetId) -> bool
        ensures { IsTrue result ↔ (dataset_of self.now ≡ Some dataset) }
    {
        match self {
            Label::Public => false,
            Label::Of(own) => *own == dataset,
        }
    }
}

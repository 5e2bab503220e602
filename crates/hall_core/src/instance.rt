//! Instances that were filled, each plain or shared.
ghost use Rattle.std.specs.Prelude.{◌≡◌, IfOk, IfSome};
ghost use Rattle.std.specs.Arc.{arc_value};

use coll_values::Full;
use mpi_elems::Buffer;
use std::alloc::Global;
use std::marker::Model;
use std::sync::Arc;
use wall_labels::NoMemory;

/// How an instance is kept.
#[derive(Drop)]
pub enum Form {
    /// The hall alone has it.
    Plain(Full<Buffer>),
    /// It never changes again, and claims have it too.
    Shared(Arc<Full<Buffer>>),
}

/// An instance that was filled. Contracts see the instance, in either form.
pub struct Instance {
    form: Form,
}

// By hand: a derived one is proved anew in each crate that drops one.
impl Drop for Instance {
    fn drop(self) {
        let Instance { form } = self;
        drop(form);
    }
}

impl Model for Instance {
    ghost use Rattle.mpi_elems.specs.Contents.{Contents};
    ghost use Rattle.coll_values.specs.declared.full.Full.{Full};
    ghost use Rattle.hall_core.specs.Sharing.{full_in};

    ghost Value = { Full Contents };

    ghost view = { λ i. full_in i.form };
}

impl Instance {
    /// A plain one.
    pub fn new(full: Full<Buffer>) -> Instance
        ensures { result ≡ full }
    {
        Instance {
            form: Form::Plain(full),
        }
    }

    /// The instance itself, in either form.
    pub fn full(&self) -> &Full<Buffer>
        ensures { result.now ≡ self.now }
    {
        match &self.form {
            Form::Plain(full) => full,
            Form::Shared(shared) => shared,
        }
    }

    /// A share of it, if it is shared already.
    pub fn share(&self) -> Option<Result<Arc<Full<Buffer>>, NoMemory>>
        ensures { IfSome result (λ share. IfOk share (λ shared. arc_value shared ≡ self.now)) }
    {
        match &self.form {
            Form::Plain(_) => None,
            Form::Shared(shared) => Some(shared_again(shared)),
        }
    }

    /// The shared form of it, and a share; the plain one again where memory runs out.
    pub fn shared(self, alloc: Global) -> (Instance, Result<Arc<Full<Buffer>>, NoMemory>)
        ensures same { result.0 ≡ self }
        ensures share { IfOk result.1 (λ shared. arc_value shared ≡ self) }
    {
        let Instance { form } = self;
        match form {
            Form::Shared(shared) => {
                let share = shared_again(&shared);
                let form = Form::Shared(shared);
                (Instance { form }, share)
            }
            Form::Plain(full) => match Arc::new(alloc, full) {
                Ok(shared) => {
                    let share = shared_again(&shared);
                    let form = Form::Shared(shared);
                    (Instance { form }, share)
                }
                Err(refused) => {
                    let (refused, full) = NoMemory::with_value(refused);
                    let form = Form::Plain(full);
                    (Instance { form }, Err(refused))
                }
            },
        }
    }
}

// One share more.
fn shared_again(shared: &Arc<Full<Buffer>>) -> Result<Arc<Full<Buffer>>, NoMemory>
    ensures { IfOk result (λ again. arc_value again ≡ arc_value shared.now) }
{
    match Arc::try_clone(shared) {
        Ok(again) => Ok(again),
        Err(refused) => Err(NoMemory::from(refused)),
    }
}

//! Requests.
ghost use Rattle.std.specs.Prelude.{◌≡◌, ◌<◌, ◌∷◌, ◌++◌, ◌^◌, [], length, slice_set};
ghost use Rattle.std.specs.Prelude.{IfOk, IfNone, OnOk, OnErr, IsSome, IsFalse, Some, None};
ghost use Rattle.std.specs.Prelude.{if◌then◌else◌};
ghost use Rattle.run_model.specs.declared.refusal.Refusal.TheVariants.{TooManyRequests};
ghost use Rattle.run_model.specs.Replies.{is_limit_reached as limit_test};
ghost use Rattle.hall_core.specs.Asking.{opened, open_number, requests_of, room_of, with_request};
ghost use Rattle.hall_core.specs.Asking.{with_closed};

use crate::window::{Forgettable, Window};
use run_model::Refusal;
use std::alloc::{AllocError, Global};
use std::marker::Model;

/// The instance that a request is for: the communicator, and its number there.
#[derive(Clone, Copy)]
pub struct Request {
    pub comm: u32,
    pub k: u64,
}

/// The requests of one process in order, and room for more. One that was taken is forgotten but for
/// its number.
#[derive(Drop)]
pub struct Requests {
    window: Window<Option<Request>>,
    waiting: usize,
}

impl Forgettable for Option<Request> {
    ghost use Rattle.std.specs.Prelude.{None, is_some, refl};
    ghost use Rattle.hall_core.specs.Asking.{none_is_left};

    ghost nothing = { None };

    ghost is_left = { is_some };

    ghost none = { refl };

    ghost only = { none_is_left };

    fn nothing() -> Option<Request> {
        None
    }

    fn is_some_left(&self) -> bool {
        self.is_some()
    }
}

impl Model for Requests {
    ghost use Rattle.std.specs.Prelude.{◌≡◌};
    ghost use Rattle.std.specs.Prelude.{is_some};
    ghost use Rattle.hall_core.specs.Asking.{Asked, open_number};
    ghost use Rattle.hall_core.specs.Windows.{HoldsHalf};

    ghost Value = { Asked };

    ghost view = { λ r. record { list = r.window.list; room = r.window.room } };

    ghost invariant = { λ r. record {
      waiting : r.waiting ≡ open_number r.window.list;
      half : HoldsHalf is_some r.window;
    } };
}

impl Requests {
    pub fn new(alloc: Global) -> Requests
        ensures { result.list ≡ [] }
    {
        Requests {
            window: Window::new(alloc),
            waiting: 0,
        }
    }

    /// How many were given.
    pub fn given(&self) -> usize
        ensures { result ≡ length self.now.list }
    {
        self.window.len()
    }

    /// How many are not taken.
    pub fn waiting(&self) -> usize
        ensures { result ≡ open_number self.now.list }
    {
        self.waiting
    }

    /// The request of that number, if it was given and is not taken.
    pub fn opened(&self, number: usize) -> Option<Request>
        ensures { result ≡ opened self.now.list number }
    {
        match self.window.get(number) {
            Some(place) => *place,
            None => None,
        }
    }

    /// Makes room for one more. Out of memory only where there was none.
    pub fn reserve(&mut self) -> Result<(), AllocError>
        ensures list { self.new.list ≡ self.old.list }
        ensures room { OnOk result (0 < self.new.room) }
        ensures memory { OnErr result (self.old.room ≡ 0) }
    {
        self.window.reserve()
    }

    /// Gives one more.
    pub fn push(&mut self, request: Request)
        requires room { 0 < self.old.room }
        requires few { length self.old.list < 2 ^ 62 }
        ensures { self.new.list ≡ self.old.list ++ Some request ∷ [] }
    {
        self.window.push(Some(request));
        self.waiting += 1;
    }

    /// An open request is taken, and forgotten but for its number. Takes no memory.
    pub fn take(&mut self, number: usize)
        requires { IsSome (opened self.old.list number) }
        ensures { self.new.list ≡ slice_set self.old.list number None }
    {
        let Some(place) = self.window.get_mut(number) else {
            unreachable!()
        };
        *place = None;
        self.waiting -= 1;
        self.window.forget();
    }
}

/// The most requests that a process may have not taken. (Own rule.)
const MOST_WAITING: usize = 256;
/// The most requests that a process is ever given. (Own rule.)
const MOST_REQUESTS: usize = 1 << 62;

/// No request for each of so many processes.
pub fn no_requests(alloc: Global, number: u32) -> Result<Vec<Requests>, AllocError>
    ensures none { IfOk result (λ v. requests_of v.items ≡ (λ p. [])) }
    ensures number { IfOk result (λ v. length v.items ≡ number) }
{
    let mut requests = Vec::with_capacity(alloc, number as usize)?;
    for _ in 0..number {
        requests.push(Requests::new(alloc))?;
    }
    Ok(requests)
}

/// How many requests the process was given.
pub fn given_to(requests: &[Requests], process: u32) -> usize
    requires { process < length requests.now }
    ensures { result ≡ length (requests_of requests.now process) }
{
    requests[process as usize].given()
}

// Whether the process may not have one more request.
fn is_limit_reached(requests: &[Requests], process: u32) -> bool
    requires { process < length requests.now }
    ensures test { result ≡ limit_test (open_number (requests_of requests.now process))
        (length (requests_of requests.now process)) }
    ensures few { IsFalse result → length (requests_of requests.now process) < 2 ^ 62 }
{
    let asked = &requests[process as usize];
    MOST_WAITING <= asked.waiting() || MOST_REQUESTS <= asked.given()
}

/// The refusal of a process that may not have one more request.
pub fn refusal(requests: &[Requests], process: u32) -> Option<Refusal>
    requires { process < length requests.now }
    ensures test { result ≡ (if limit_test (open_number (requests_of requests.now process))
        (length (requests_of requests.now process)) then Some TooManyRequests else None) }
    ensures few { IfNone result (length (requests_of requests.now process) < 2 ^ 62) }
{
    if is_limit_reached(requests, process) {
        Some(Refusal::TooManyRequests)
    } else {
        None
    }
}

/// The request of that number, if the process was given it and has not taken it.
pub fn opened_by(requests: &[Requests], process: u32, number: usize) -> Option<Request>
    ensures request { result ≡ opened (requests_of requests.now process) number }
    ensures process { IsSome result → process < length requests.now }
{
    match requests.get(process as usize) {
        Some(asked) => asked.opened(number),
        None => None,
    }
}

/// Makes room for one request more. Out of memory only where there was none.
pub fn reserve(requests: &mut Vec<Requests>, process: u32) -> Result<(), AllocError>
    requires { process < length requests.old.items }
    ensures requests { requests_of requests.new.items ≡ requests_of requests.old.items }
    ensures number { length requests.new.items ≡ length requests.old.items }
    ensures room { OnOk result (0 < room_of requests.new.items process) }
    ensures memory { OnErr result (room_of requests.old.items process ≡ 0) }
{
    let asked = &mut requests[process as usize];
    asked.reserve()
}

/// Gives the process its next request, for which there is room.
pub fn push(requests: &mut Vec<Requests>, process: u32, request: Request)
    requires process { process < length requests.old.items }
    requires room { 0 < room_of requests.old.items process }
    requires few { length (requests_of requests.old.items process) < 2 ^ 62 }
    ensures requests { requests_of requests.new.items
        ≡ with_request (requests_of requests.old.items) process request }
    ensures number { length requests.new.items ≡ length requests.old.items }
{
    let asked = &mut requests[process as usize];
    asked.push(request);
}

/// An open request is taken. Takes no memory.
pub fn take(requests: &mut Vec<Requests>, process: u32, number: usize)
    requires process { process < length requests.old.items }
    requires open { IsSome (opened (requests_of requests.old.items process) number) }
    ensures requests { requests_of requests.new.items
        ≡ with_closed (requests_of requests.old.items) process number }
    ensures number { length requests.new.items ≡ length requests.old.items }
{
    let asked = &mut requests[process as usize];
    asked.take(number);
}

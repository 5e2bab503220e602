//! Halls as machines behind a door.
ghost use Rattle.hall_turn.specs.Machines.{Stands};
ghost use Rattle.live_book.specs.Books.{StandsBehind, covered};
ghost use Rattle.live_book.specs.Machines.{has_no_book};

use crate::begun::Begun;
use crate::booked::BookedHall;
use crate::bookless::BooklessHall;
use crate::receipt::BookReceipt;
use crate::sink::BookSink;
use hall_core::{Call, Claim};
use hall_turn::{Applied, Machine, Receipt, Receipts};

impl<B: BookSink, K: Begun> Machine for BookedHall<B, K> {
    ghost stands = { StandsBehind K.begun };

    ghost booked = { covered };

    fn apply(&mut self, call: Call) -> Applied {
        BookedHall::apply(self, call)
    }

    fn claim(&mut self, process: u32, request: u64) -> Claim {
        BookedHall::claim(self, process, request)
    }

    fn is_booked(&self) -> bool {
        BookedHall::is_booked(self)
    }
}

impl<B: BookSink, K: Begun> Receipts<Option<BookReceipt<B::Receipt>>> for BookedHall<B, K> {
    fn receipt(&self) -> Option<Option<BookReceipt<B::Receipt>>> {
        match BookedHall::receipt(self) {
            Some(receipt) => Some(Some(receipt)),
            None => None,
        }
    }
}

/// It has nothing to write, and so is always booked.
impl Machine for BooklessHall {
    ghost stands = { Stands };

    ghost booked = { has_no_book };

    fn apply(&mut self, call: Call) -> Applied {
        BooklessHall::apply(self, call)
    }

    fn claim(&mut self, process: u32, request: u64) -> Claim {
        BooklessHall::claim(self, process, request)
    }

    fn is_booked(&self) -> bool {
        true
    }
}

/// There is no book of which it could give a receipt.
impl<T: Receipt> Receipts<Option<T>> for BooklessHall {
    fn receipt(&self) -> Option<Option<T>> {
        Some(None)
    }
}

//! The calls on a desk and on its seats.

ghost use Rattle.std.specs.Prelude.{◌≡◌};
ghost use Rattle.std.specs.declared.option.Option.TheVariants.{None};
ghost use Rattle.ds_c.specs.Calls.{Closes};
ghost use Rattle.ds_c.specs.Desks.{CallsAtSeat, ClosesDesk, FetchesAtSeat, OpenedDesk, OpensDesk, OpensSeat, SeatsIn, TakesAtSeat};

use crate::desk_handle::DeskHandle;
use crate::seat_handle::SeatHandle;
use crate::words::{BAD_SUB, DONE, IS_BUSY, IS_CLOSED, IS_OPEN, NO_ROOM, NO_SEAT, WORN};
use c_desk::{Asked, Board, SeatFault};
use c_values::{Answer, Given, Request, refusal_number};
use ds_machine::Refusal;
use std::alloc::Global;

/// Opens a store at a desk of 1 to 64 seats, in a closed handle. Returns 0, the number of the refusal, or that the handle is open.
#[unsafe(no_mangle)]
pub extern "C" fn ds_desk_open(
    alloc: Global,
    handle: &mut DeskHandle,
    incarnation: u64,
    first: u64,
    ring: u32,
    seats: u32,
) -> u32
    ensures { OpensDesk incarnation first ring seats handle.old.value result handle.new.value }
{
    match handle.take(alloc) {
        None => desk_in(alloc, handle, incarnation, first, ring, seats),
        Some(board) => {
            handle.put(alloc, board);
            IS_OPEN
        }
    }
}

fn desk_in(
    alloc: Global,
    handle: &mut DeskHandle,
    incarnation: u64,
    first: u64,
    ring: u32,
    seats: u32,
) -> u32
    requires { handle.old.value ≡ None }
    ensures { OpenedDesk incarnation first ring seats result handle.new.value }
{
    match Board::open(alloc, incarnation, first, ring, seats) {
        Ok(board) => match Box::new(alloc, board) {
            Ok(board) => {
                handle.put(alloc, board);
                DONE
            }
            Err(_) => refusal_number(Refusal::NoRoom),
        },
        Err(cause) => refusal_number(cause),
    }
}

/// Opens a seat of the desk, in a closed handle. Returns 0, that no seat is left, that memory ran out, that the desk's handle is closed, or
/// that the seat's is open.
#[unsafe(no_mangle)]
pub extern "C" fn ds_seat_open(alloc: Global, desk: &mut DeskHandle, handle: &mut SeatHandle) -> u32
    ensures { OpensSeat desk.old.value handle.old.value result desk.new.value handle.new.value }
{
    match handle.take(alloc) {
        Some(seat) => {
            handle.put(alloc, seat);
            IS_OPEN
        }
        None => match desk.take(alloc) {
            None => IS_CLOSED,
            Some(mut board) => {
                let word = seat_in(alloc, &mut board, handle);
                desk.put(alloc, board);
                word
            }
        },
    }
}

fn seat_in(alloc: Global, board: &mut Board, handle: &mut SeatHandle) -> u32
    requires { handle.old.value ≡ None }
    ensures { SeatsIn board.old result board.new handle.new.value }
{
    match board.seat(alloc) {
        Ok(seat) => {
            handle.put(alloc, seat);
            DONE
        }
        Err(SeatFault::Spent) => NO_SEAT,
        Err(SeatFault::NoRoom) => NO_ROOM,
    }
}

/// Carries out a request, whose text is in `texts`, if the turn is free, and writes the answer and the place of the call in the history.
/// Returns 0, that another seat has the turn, or that no place is left. The text of the answer is kept for `ds_seat_items`.
#[unsafe(no_mangle)]
pub extern "C" fn ds_seat_call(
    alloc: Global,
    handle: &mut SeatHandle,
    request: &Request,
    texts: &[u8],
    answer: &mut Answer,
    place: &mut u64,
) -> u32
    ensures { CallsAtSeat handle.old.value request.now texts.now answer.old place.old result answer.new place.new handle.new.value }
{
    match handle.take(alloc) {
        None => IS_CLOSED,
        Some(mut seat) => {
            let asked = seat.call(alloc, request, texts, answer, place);
            handle.put(alloc, seat);
            match asked {
                Asked::Done => DONE,
                Asked::Busy => IS_BUSY,
                Asked::Worn => WORN,
            }
        }
    }
}

/// Copies the text of the seat's last answer to `room`, from the piece at index `first` on: as many whole pieces as fit.
#[unsafe(no_mangle)]
pub extern "C" fn ds_seat_items(
    alloc: Global,
    handle: &mut SeatHandle,
    first: usize,
    room: &mut [u8],
    given: &mut Given,
) -> u32
    ensures text { FetchesAtSeat handle.old.value first room.old given.old result room.new given.new }
    ensures handle { handle.new.value ≡ handle.old.value }
{
    match handle.take(alloc) {
        None => IS_CLOSED,
        Some(seat) => {
            *given = seat.give(alloc, first, room);
            handle.put(alloc, seat);
            DONE
        }
    }
}

/// Takes every pending notice of a server: bit k of `bits` is its subscription k. Each is owed by a call whose place is below `floor`.
#[unsafe(no_mangle)]
pub extern "C" fn ds_seat_take(
    alloc: Global,
    handle: &mut SeatHandle,
    server: u32,
    bits: &mut u8,
    floor: &mut u64,
) -> u32
    ensures { TakesAtSeat handle.old.value server bits.old floor.old result bits.new floor.new handle.new.value }
{
    match handle.take(alloc) {
        None => IS_CLOSED,
        Some(mut seat) => {
            let word = match seat.take(server) {
                Some(taken) => {
                    *bits = taken.bits;
                    *floor = taken.floor;
                    DONE
                }
                None => BAD_SUB,
            };
            handle.put(alloc, seat);
            word
        }
    }
}

/// Closes a seat. Its pass isn't given back to the desk.
#[unsafe(no_mangle)]
pub extern "C" fn ds_seat_close(alloc: Global, handle: &mut SeatHandle) -> u32
    ensures { Closes handle.old.value result handle.new.value }
{
    match handle.take(alloc) {
        None => IS_CLOSED,
        Some(seat) => {
            drop(seat);
            DONE
        }
    }
}

/// Closes a desk, and frees its memory. While a seat is open, it returns that the desk is busy, and the handle is unchanged.
#[unsafe(no_mangle)]
pub extern "C" fn ds_desk_close(alloc: Global, handle: &mut DeskHandle) -> u32
    ensures { ClosesDesk handle.old.value result handle.new.value }
{
    match handle.take(alloc) {
        None => IS_CLOSED,
        Some(board) => {
            if board.is_shared() {
                handle.put(alloc, board);
                IS_BUSY
            } else {
                drop(board);
                DONE
            }
        }
    }
}

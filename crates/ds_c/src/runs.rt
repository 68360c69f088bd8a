//! The call that carries out requests in order.

ghost use Rattle.ds_c.specs.Calls.{RunsInTurn};

use crate::handle::Handle;
use crate::words::{DONE, IS_CLOSED};
use c_values::{Answer, Request};
use std::alloc::Global;

/// Carries out requests in order, each as `ds_call` does, and writes how many to `done`. Ends after the first answer that has a text,
/// which `ds_items` copies then, after the last request, or when `answers` is full.
#[unsafe(no_mangle)]
pub extern "C" fn ds_run(
    alloc: Global,
    handle: &mut Handle,
    requests: &[Request],
    texts: &[u8],
    answers: &mut [Answer],
    done: &mut usize,
) -> u32
    ensures { RunsInTurn handle.old.value requests.now texts.now answers.old done.old result answers.new done.new handle.new.value }
{
    match handle.take(alloc) {
        None => IS_CLOSED,
        Some(mut session) => {
            *done = session.rs.run(alloc, requests, texts, answers);
            handle.put(alloc, session);
            DONE
        }
    }
}

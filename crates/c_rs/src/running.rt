//! Requests in order.

ghost use Rattle.c_rs.specs.Running.{CallsAreNodeTurns, CallsAreTurns, RunsCalls};

use crate::session::RsSession;
use c_values::{Answer, Request};
use std::alloc::Global;

impl RsSession {
    /// Carries out requests in order, each as `call` does, and writes their answers. Ends after the first answer that has a text, so
    /// that this can be fetched, after the last request, or when `answers` is full. Returns how many were carried out.
    pub fn run(
        &mut self,
        alloc: Global,
        requests: &[Request],
        texts: &[u8],
        answers: &mut [Answer],
    ) -> usize
        ensures { RunsCalls self.old requests.now texts.now answers.old result answers.new self.new }
    {
        let count = if requests.len() < answers.len() {
            requests.len()
        } else {
            answers.len()
        };
        for index in 0..count {
            let mut answer = Answer::no_request();
            self.call(alloc, &requests[index], texts, &mut answer);
            answers[index] = answer;
            if answer.pieces > 0 {
                return index + 1;
            }
        }
        count
    }
}

/// A law: requests in order are turns of the store, one for each that is a command and isn't refused because it has RS's name.
/// They are turns of RS and its store as well, so `pairs_take_turns` of `rs_store` holds of calls from C.
pub fn calls_are_turns()
    ensures store { CallsAreTurns }
    ensures node { CallsAreNodeTurns }
{}
